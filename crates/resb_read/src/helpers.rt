//! Views of bytes at a place, by the names of the Rust crate's helpers.
//! An `Option` here is always `Some`: it has the shape of a field that may be left out.
ghost use Rattle.std.specs.Prelude.{◌≡◌, ◌≤◌, ◌+◌, ℕ, IfOk, IfErr, IsSomeAnd};
ghost use Rattle.resb_format.specs.Views.{unit_bytes, word_bytes, number_bytes, pair_bytes};
ghost use Rattle.resb_read.specs.Places.{place_of};
ghost use Rattle.resb_read.specs.Reading.{Reads, LacksOrMemory};
ghost use Rattle.resb_read.specs.Sequences.{ReadsSeq, CountsSeq};
ghost use Rattle.resb_read.specs.Leaves.{CountsOf, ReadsView};
ghost use Rattle.resb_read.specs.PlaceRefusals.{view_refusal_from};
ghost use Rattle.resb_read.specs.RefusedReadings.{RefusesAs, RefusesSeq};

use crate::cursor::Cursor;
use crate::deserialize::Deserialize;
use resb_format::{
    BinaryDeserializerError, I32View, PairView, Utf16View, WordView, cast_u32_to_i32_slice,
};
use resb_walk::Walk;
use std::alloc::Global;

/// The bytes here as 16-bit units. Refused where their number is odd.
pub fn option_utf_16<'de>(
    at: Cursor<'de>,
    walk: &mut Walk,
) -> Result<Option<Utf16View<'de>>, BinaryDeserializerError>
    ensures { let p = place_of at.entry in
        Reads (RefusesAs view_refusal_from p)
        (λ o n. IsSomeAnd o (λ v. ReadsView 2 p (unit_bytes v) n))
        (CountsOf (ReadsView 2) p) walk.old walk.new result }
{
    Ok(Some(at.units(walk)?))
}

/// The bytes here as words. Refused where their number is no multiple of 4.
pub fn option_u32<'de>(
    at: Cursor<'de>,
    walk: &mut Walk,
) -> Result<Option<WordView<'de>>, BinaryDeserializerError>
    ensures { let p = place_of at.entry in
        Reads (RefusesAs view_refusal_from p)
        (λ o n. IsSomeAnd o (λ v. ReadsView 4 p (word_bytes v) n))
        (CountsOf (ReadsView 4) p) walk.old walk.new result }
{
    Ok(Some(at.words(walk)?))
}

/// The bytes here as signed numbers. Refused where their number is no multiple of 4.
pub fn option_i32<'de>(
    at: Cursor<'de>,
    walk: &mut Walk,
) -> Result<Option<I32View<'de>>, BinaryDeserializerError>
    ensures { let p = place_of at.entry in
        Reads (RefusesAs view_refusal_from p)
        (λ o n. IsSomeAnd o (λ v. ReadsView 4 p (number_bytes v) n))
        (CountsOf (ReadsView 4) p) walk.old walk.new result }
{
    let words = at.words(walk)?;
    Ok(Some(cast_u32_to_i32_slice(words)))
}

/// The bytes here as pairs of signed numbers. Refused where their number is no multiple of 8.
pub fn i32_tuple<'de>(
    at: Cursor<'de>,
    walk: &mut Walk,
) -> Result<PairView<'de>, BinaryDeserializerError>
    ensures { let p = place_of at.entry in
        Reads (RefusesAs view_refusal_from p) (λ v n. ReadsView 8 p (pair_bytes v) n)
        (CountsOf (ReadsView 8) p) walk.old walk.new result }
{
    at.pairs(walk)
}

/// The bytes here as pairs of signed numbers, as `i32_tuple` reads them.
pub fn option_i32_tuple<'de>(
    at: Cursor<'de>,
    walk: &mut Walk,
) -> Result<Option<PairView<'de>>, BinaryDeserializerError>
    ensures { let p = place_of at.entry in
        Reads (RefusesAs view_refusal_from p)
        (λ o n. IsSomeAnd o (λ v. ReadsView 8 p (pair_bytes v) n))
        (CountsOf (ReadsView 8) p) walk.old walk.new result }
{
    Ok(Some(at.pairs(walk)?))
}

/// The members of the sequence here, each as 16-bit units.
pub fn vec_utf_16<'de>(
    alloc: Global,
    at: Cursor<'de>,
    walk: &mut Walk,
) -> Result<Vec<Utf16View<'de>>, BinaryDeserializerError>
    ensures read { IfOk result (λ v. (n : ℕ)
        × ReadsSeq (λ p x n. ReadsView 2 p (unit_bytes x) n) (place_of at.entry) v.items n
        × (walk.new + n ≡ walk.old)) }
    ensures refused { IfErr result (λ e. (walk.new ≤ walk.old)
        × LacksOrMemory (CountsSeq (CountsOf (ReadsView 2)) (place_of at.entry)) walk.old e) }
    ensures says { IfErr result
        (RefusesSeq (CountsOf (ReadsView 2)) (RefusesAs view_refusal_from) (place_of at.entry)
        walk.old walk.new) }
{
    Vec::deserialize(alloc, at, walk)
}
