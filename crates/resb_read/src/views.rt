//! Views of bytes as numbers, as types that can be read: nothing is copied.
//! The helpers of the Rust crate's names are in `helpers`.
ghost use Rattle.resb_format.specs.Views.{unit_bytes, word_bytes, number_bytes, pair_bytes};
ghost use Rattle.resb_read.specs.Places.{place_of};
ghost use Rattle.resb_read.specs.Reading.{Reads};
ghost use Rattle.resb_read.specs.Leaves.{CountsOf, ReadsView};
ghost use Rattle.resb_read.specs.PlaceRefusals.{view_refusal_from};
ghost use Rattle.resb_read.specs.RefusedReadings.{RefusesAs};
ghost use Rattle.resb_read.specs.TypeLaws.{view_counted, view_one};

use crate::cursor::Cursor;
use crate::deserialize::Deserialize;
use resb_format::{
    BinaryDeserializerError, I32View, PairView, ReadingError, Utf16View, WordView,
    cast_bytes_to_u16_slice, cast_bytes_to_u32_slice, cast_u32_to_i32_pair_slice,
    cast_u32_to_i32_slice,
};
use resb_walk::Walk;
use std::alloc::Global;

impl<'de> Cursor<'de> {
    /// Reads bytes as 16-bit units.
    #[tactic(auto, using(crate::proofs::Viewing::no_items))]
    pub(crate) fn units(self, walk: &mut Walk) -> Result<Utf16View<'de>, BinaryDeserializerError>
        ensures { let p = place_of self.entry in
            Reads (RefusesAs view_refusal_from p) (λ v n. ReadsView 2 p (unit_bytes v) n)
            (CountsOf (ReadsView 2) p) walk.old walk.new result }
    {
        let bytes = self.read_bytes(walk)?;
        let view = cast_bytes_to_u16_slice(bytes)?;
        Ok(view)
    }

    /// Reads bytes as words.
    #[tactic(auto, using(crate::proofs::Viewing::no_items))]
    pub(crate) fn words(self, walk: &mut Walk) -> Result<WordView<'de>, BinaryDeserializerError>
        ensures { let p = place_of self.entry in
            Reads (RefusesAs view_refusal_from p) (λ v n. ReadsView 4 p (word_bytes v) n)
            (CountsOf (ReadsView 4) p) walk.old walk.new result }
    {
        let bytes = self.read_bytes(walk)?;
        let view = cast_bytes_to_u32_slice(bytes)?;
        Ok(view)
    }

    /// Reads bytes as pairs of words.
    #[tactic(auto, using(resb_format::proofs::Spelled::words_length))]
    pub(crate) fn pairs(self, walk: &mut Walk) -> Result<PairView<'de>, BinaryDeserializerError>
        ensures { let p = place_of self.entry in
            Reads (RefusesAs view_refusal_from p) (λ v n. ReadsView 8 p (pair_bytes v) n)
            (CountsOf (ReadsView 8) p) walk.old walk.new result }
    {
        let words = self.words(walk)?;
        let view = cast_u32_to_i32_pair_slice(words)?;
        Ok(view)
    }
}

impl<'de> Deserialize<'de> for Utf16View<'de> {
    ghost reads = { λ p v n. ReadsView 2 p (unit_bytes v) n };

    ghost counts = { CountsOf (ReadsView 2) };

    ghost refuses = { RefusesAs view_refusal_from };

    ghost counted = { λ p v n. view_counted 2 p (unit_bytes v) n };

    ghost one_count = { view_one 2 };

    fn deserialize<'m>(
        _alloc: Global,
        at: Cursor<'de>,
        walk: &mut Walk,
    ) -> Result<Utf16View<'de>, ReadingError<'m>> {
        at.units(walk)
    }
}

impl<'de> Deserialize<'de> for WordView<'de> {
    ghost reads = { λ p v n. ReadsView 4 p (word_bytes v) n };

    ghost counts = { CountsOf (ReadsView 4) };

    ghost refuses = { RefusesAs view_refusal_from };

    ghost counted = { λ p v n. view_counted 4 p (word_bytes v) n };

    ghost one_count = { view_one 4 };

    fn deserialize<'m>(
        _alloc: Global,
        at: Cursor<'de>,
        walk: &mut Walk,
    ) -> Result<WordView<'de>, ReadingError<'m>> {
        at.words(walk)
    }
}

impl<'de> Deserialize<'de> for PairView<'de> {
    ghost reads = { λ p v n. ReadsView 8 p (pair_bytes v) n };

    ghost counts = { CountsOf (ReadsView 8) };

    ghost refuses = { RefusesAs view_refusal_from };

    ghost counted = { λ p v n. view_counted 8 p (pair_bytes v) n };

    ghost one_count = { view_one 8 };

    fn deserialize<'m>(
        _alloc: Global,
        at: Cursor<'de>,
        walk: &mut Walk,
    ) -> Result<PairView<'de>, ReadingError<'m>> {
        at.pairs(walk)
    }
}

impl<'de> Deserialize<'de> for I32View<'de> {
    ghost reads = { λ p v n. ReadsView 4 p (number_bytes v) n };

    ghost counts = { CountsOf (ReadsView 4) };

    ghost refuses = { RefusesAs view_refusal_from };

    ghost counted = { λ p v n. view_counted 4 p (number_bytes v) n };

    ghost one_count = { view_one 4 };

    fn deserialize<'m>(
        _alloc: Global,
        at: Cursor<'de>,
        walk: &mut Walk,
    ) -> Result<I32View<'de>, ReadingError<'m>> {
        let words = at.words(walk)?;
        Ok(cast_u32_to_i32_slice(words))
    }
}
