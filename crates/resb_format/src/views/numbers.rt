//! A view of bytes as signed 32-bit numbers.
//! What the numbers stand for is the caller's business.
ghost use Rattle.std.specs.Prelude.{◌≡◌, ◌%◌, length};

use crate::bytes::word_at;

/// Signed 32-bit numbers.
#[derive(Clone, Copy)]
pub struct I32View<'de> {
    bytes: &'de [u8],
    ghost whole: { length bytes.now % 4 ≡ 0 },
}

impl<'de> I32View<'de> {
    ghost use Rattle.std.specs.Prelude.{◌≡◌, ◌*◌, ◌<◌, ◌%◌, ◌==◌, length, slice_index};
    ghost use Rattle.std.specs.Int.{cast_signed, w32};
    ghost use Rattle.resb_format.specs.Views.{number_bytes, number_words};

    /// The view of these bytes.
    pub(crate) fn over(bytes: &'de [u8]) -> I32View<'de>
        requires { length bytes.now % 4 ≡ 0 }
        ensures { number_bytes result ≡ bytes.entry.now }
    {
        I32View { bytes }
    }

    /// How many numbers there are.
    #[tactic(auto, using(crate::proofs::Spelled::words_length))]
    pub fn len(&self) -> usize
        ensures { result ≡ length (number_words self.now) }
    {
        self.bytes.len() / 4
    }

    /// Whether there is no number.
    #[tactic(auto, using(crate::proofs::Spelled::words_length))]
    pub fn is_empty(&self) -> bool
        ensures { result ≡ (length (number_words self.now) == 0) }
    {
        self.bytes.is_empty()
    }

    /// The bytes, four for each number.
    #[tactic(auto, using(crate::proofs::Spelled::words_length))]
    pub fn as_bytes(&self) -> &'de [u8]
        ensures bytes { result.now ≡ number_bytes self.now }
        ensures four_each { length result.now ≡ 4 * length (number_words self.now) }
    {
        self.bytes
    }

    /// The number at this place: the word's bits as a signed number.
    #[tactic(auto, using(crate::proofs::Spelled::words_length))]
    pub fn item(&self, number: usize) -> i32
        requires { number < length (number_words self.now) }
        ensures { result ≡ cast_signed w32 (slice_index (number_words self.now) number) }
    {
        word_at(self.bytes, number).cast_signed()
    }
}
