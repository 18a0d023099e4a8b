//! Why a text has no file.
//! When each reason is given is said by the contract of `Compile::text`.
ghost use Rattle.std.specs.Prelude.{◌≡◌, ◌↔◌, IsTrue, Some};
ghost use Rattle.resb_compile.specs.Errors.{message_of, position_of, IsMemory};

use resb_grammar::Expected;
use resb_icu_grammar::IcuExpected;
use resb_icu_text::IcuTextError;
use resb_text::TextParserError;
use resb_write::BinarySerializerError;
use std::error::Error;
use std::fmt;

/// Why a text has no file. It prints as the error inside, or as `text larger than the limit`.
#[derive(Debug, Drop)]
pub enum CompileError {
    /// The text of the plain form is no bundle, or memory was wanted while it was read.
    Reading(TextParserError),
    /// The text of ICU's own form is no bundle, or memory was wanted while it was read.
    ReadingIcu(IcuTextError),
    /// The tree has no file, or memory was wanted while it was filtered or written.
    Writing(BinarySerializerError),
    /// Reading the text makes more bytes than this limit.
    Larger(u64),
}

impl CompileError {
    /// The byte of the text at which it can't be read on, or 0 where reading it wanted memory; none
    /// of a tree that has no file, and of a text that is larger than the limit.
    pub fn position(&self) -> Option<usize>
        ensures { result ≡ position_of self.now }
    {
        match self {
            CompileError::Reading(e) => Some(e.position()),
            CompileError::ReadingIcu(e) => Some(e.position()),
            CompileError::Writing(_) | CompileError::Larger(_) => None,
        }
    }

    /// Whether memory was wanted.
    pub fn is_out_of_memory(&self) -> bool
        ensures { IsTrue result ↔ IsMemory self.now }
    {
        match self {
            CompileError::Reading(e) => matches!(e.expected(), Expected::Memory),
            CompileError::ReadingIcu(e) => matches!(e.expected(), IcuExpected::Memory),
            CompileError::Writing(e) => e.is_out_of_memory(),
            CompileError::Larger(_) => false,
        }
    }
}

impl fmt::Display for CompileError {
    ghost output = { λ e. Some (message_of e) };

    fn fmt<W: fmt::Write>(&self, f: &mut fmt::Formatter<W>) -> fmt::Result {
        match self {
            CompileError::Reading(e) => write!(f, "{e}"),
            CompileError::ReadingIcu(e) => write!(f, "{e}"),
            CompileError::Writing(e) => write!(f, "{e}"),
            CompileError::Larger(_) => write!(f, "text larger than the limit"),
        }
    }
}

impl Error for CompileError {}

impl From<TextParserError> for CompileError {
    ghost use Rattle.std.specs.Prelude.{◌≡◌};
    ghost use Rattle.resb_compile.specs.declared.error.CompileError.TheVariants.{Reading};

    ghost from_gives = { λ e made. made ≡ Reading e };

    fn from(e: TextParserError) -> CompileError {
        CompileError::Reading(e)
    }
}

impl From<IcuTextError> for CompileError {
    ghost use Rattle.std.specs.Prelude.{◌≡◌};
    ghost use Rattle.resb_compile.specs.declared.error.CompileError.TheVariants.{ReadingIcu};

    ghost from_gives = { λ e made. made ≡ ReadingIcu e };

    fn from(e: IcuTextError) -> CompileError {
        CompileError::ReadingIcu(e)
    }
}

impl From<BinarySerializerError> for CompileError {
    ghost use Rattle.std.specs.Prelude.{◌≡◌};
    ghost use Rattle.resb_compile.specs.declared.error.CompileError.TheVariants.{Writing};

    ghost from_gives = { λ e made. made ≡ Writing e };

    fn from(e: BinarySerializerError) -> CompileError {
        CompileError::Writing(e)
    }
}
