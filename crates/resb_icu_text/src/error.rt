//! Why a text of ICU's form is refused: the place, and what was expected there.
//! What may be expected is listed in `resb_icu_grammar`.
ghost use Rattle.std.specs.Prelude.{◌≡◌, Some};
ghost use Rattle.resb_icu_text.specs.Refusal.{message_of, want_of_memory, limit_message_of};

use resb_icu_grammar::IcuExpected;
use resb_tree::NoMemory;
use std::alloc::{AllocError, AllocFailed};
use std::error::Error;
use std::fmt;

/// Why a text is refused.
///
/// It prints as `Parse error while reading ICU text:`, a line feed and `at byte N: expected ITEM`.
#[derive(Clone, Copy, Debug, PartialEq, Eq)]
pub struct IcuTextError {
    position: usize,
    expected: IcuExpected,
}

impl IcuTextError {
    /// A refusal at this place of the text, in bytes.
    pub(crate) fn new(position: usize, expected: IcuExpected) -> IcuTextError
        ensures { result ≡ record { position = position; expected = expected } }
    {
        IcuTextError { position, expected }
    }

    /// Memory was wanted, for which no place of the text is to blame.
    pub(crate) fn out_of_memory() -> IcuTextError
        ensures { result ≡ want_of_memory }
    {
        IcuTextError::new(0, IcuExpected::Memory)
    }

    /// The byte of the text at which the reading could not go on, or 0 for want of memory.
    pub fn position(&self) -> usize
        ensures { result ≡ self.now.position }
    {
        self.position
    }

    /// What was expected there.
    pub fn expected(&self) -> IcuExpected
        ensures { result ≡ self.now.expected }
    {
        self.expected
    }
}

impl fmt::Display for IcuTextError {
    ghost output = { λ e. Some (message_of e) };

    fn fmt<W: fmt::Write>(&self, f: &mut fmt::Formatter<W>) -> fmt::Result {
        let position = self.position;
        let expected = self.expected;
        write!(
            f,
            "Parse error while reading ICU text:\nat byte {position}: expected {expected}"
        )
    }
}

impl Error for IcuTextError {}

/// Why a text is refused that is read within a limit of bytes.
///
/// It prints as the text's own refusal, or as `text larger than the limit`.
#[derive(Clone, Copy, Debug, PartialEq, Eq)]
pub enum IcuLimitError {
    /// What the text is refused for without a limit.
    Text(IcuTextError),
    /// The reading makes more bytes than the limit.
    Larger,
}

impl fmt::Display for IcuLimitError {
    ghost output = { λ e. Some (limit_message_of e) };

    fn fmt<W: fmt::Write>(&self, f: &mut fmt::Formatter<W>) -> fmt::Result {
        match self {
            IcuLimitError::Text(error) => write!(f, "{error}"),
            IcuLimitError::Larger => write!(f, "text larger than the limit"),
        }
    }
}

impl Error for IcuLimitError {}

impl From<NoMemory> for IcuTextError {
    ghost from_gives = { λ _ e. e ≡ want_of_memory };

    fn from(_: NoMemory) -> IcuTextError {
        IcuTextError::out_of_memory()
    }
}

impl From<AllocError> for IcuTextError {
    ghost from_gives = { λ _ e. e ≡ want_of_memory };

    fn from(_: AllocError) -> IcuTextError {
        IcuTextError::out_of_memory()
    }
}

impl<T: Drop> From<AllocFailed<T>> for IcuTextError {
    ghost from_gives = { λ _ e. e ≡ want_of_memory };

    fn from(_: AllocFailed<T>) -> IcuTextError {
        IcuTextError::out_of_memory()
    }
}
