//! A view of bytes as 32-bit words.
//! Words as signed numbers and as pairs have views of their own.
ghost use Rattle.std.specs.Prelude.{◌≡◌, ◌%◌, length};

use crate::bytes::word_at;

/// 32-bit words.
#[derive(Clone, Copy)]
pub struct WordView<'de> {
    bytes: &'de [u8],
    ghost whole: { length bytes.now % 4 ≡ 0 },
}

impl<'de> WordView<'de> {
    ghost use Rattle.std.specs.Prelude.{◌≡◌, ◌*◌, ◌<◌, ◌%◌, ◌==◌, length, slice_index};
    ghost use Rattle.resb_format.specs.Views.{word_bytes, view_words};

    /// The view of these bytes.
    pub(crate) fn over(bytes: &'de [u8]) -> WordView<'de>
        requires { length bytes.now % 4 ≡ 0 }
        ensures { word_bytes result ≡ bytes.entry.now }
    {
        WordView { bytes }
    }

    /// How many words there are.
    #[tactic(auto, using(crate::proofs::Spelled::words_length))]
    pub fn len(&self) -> usize
        ensures { result ≡ length (view_words self.now) }
    {
        self.bytes.len() / 4
    }

    /// Whether there is no word.
    #[tactic(auto, using(crate::proofs::Spelled::words_length))]
    pub fn is_empty(&self) -> bool
        ensures { result ≡ (length (view_words self.now) == 0) }
    {
        self.bytes.is_empty()
    }

    /// The bytes, four for each word.
    #[tactic(auto, using(crate::proofs::Spelled::words_length))]
    pub fn as_bytes(&self) -> &'de [u8]
        ensures bytes { result.now ≡ word_bytes self.now }
        ensures four_each { length result.now ≡ 4 * length (view_words self.now) }
    {
        self.bytes
    }

    /// The word with this number.
    #[tactic(auto, using(crate::proofs::Spelled::words_length))]
    pub fn item(&self, number: usize) -> u32
        requires { number < length (view_words self.now) }
        ensures { result ≡ slice_index (view_words self.now) number }
    {
        word_at(self.bytes, number)
    }
}
