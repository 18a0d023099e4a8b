//! A view of bytes as pairs of signed numbers.
//! What the pairs stand for is the caller's business.
ghost use Rattle.std.specs.Prelude.{◌≡◌, ◌%◌, length};

use crate::bytes::word_at;

/// Two signed numbers. Equality, order and hash are theirs, the first number first.
#[derive(Clone, Copy, Debug, PartialEq, Eq, PartialOrd, Ord, Hash)]
pub struct I32Pair(pub i32, pub i32);

/// Pairs of signed 32-bit numbers.
#[derive(Clone, Copy)]
pub struct PairView<'de> {
    bytes: &'de [u8],
    ghost whole: { length bytes.now % 8 ≡ 0 },
}

impl<'de> PairView<'de> {
    ghost use Rattle.std.specs.Prelude.{◌≡◌, ◌+◌, ◌*◌, ◌/◌, ◌<◌, ◌%◌, ◌==◌, length, slice_index};
    ghost use Rattle.std.specs.Int.{cast_signed, w32};
    ghost use Rattle.resb_format.specs.Views.{pair_bytes, pair_words};

    /// The view of these bytes.
    pub(crate) fn over(bytes: &'de [u8]) -> PairView<'de>
        requires { length bytes.now % 8 ≡ 0 }
        ensures { pair_bytes result ≡ bytes.entry.now }
    {
        PairView { bytes }
    }

    /// How many pairs there are.
    #[tactic(auto, using(crate::proofs::Spelled::words_length))]
    pub fn len(&self) -> usize
        ensures { result ≡ length (pair_words self.now) / 2 }
    {
        self.bytes.len() / 8
    }

    /// Whether there is no pair.
    #[tactic(auto, using(crate::proofs::Spelled::words_length))]
    pub fn is_empty(&self) -> bool
        ensures { result ≡ (length (pair_words self.now) == 0) }
    {
        self.bytes.is_empty()
    }

    /// The bytes, eight for each pair.
    #[tactic(auto, using(crate::proofs::Spelled::words_length))]
    pub fn as_bytes(&self) -> &'de [u8]
        ensures bytes { result.now ≡ pair_bytes self.now }
        ensures four_each { length result.now ≡ 4 * length (pair_words self.now) }
        ensures even { length (pair_words self.now) % 2 ≡ 0 }
    {
        self.bytes
    }

    /// The pair with this number: two words, each as a signed number.
    #[tactic(auto, using(crate::proofs::Spelled::words_length))]
    pub fn item(&self, number: usize) -> I32Pair
        requires { number < length (pair_words self.now) / 2 }
        ensures first { let words = pair_words self.now in
            result.0 ≡ cast_signed w32 (slice_index words (2 * number)) }
        ensures second { let words = pair_words self.now in
            result.1 ≡ cast_signed w32 (slice_index words (2 * number + 1)) }
    {
        let first = word_at(self.bytes, 2 * number);
        let second = word_at(self.bytes, 2 * number + 1);
        I32Pair(first.cast_signed(), second.cast_signed())
    }
}
