//! The numbers as types that can be read.
//! How they are read is said in `numbers`.
ghost use Rattle.std.specs.Prelude.{◌-◌, ◌^◌, pos, negsuc};
ghost use Rattle.resb_read.specs.Leaves.{CountsOf, ReadsSigned, ReadsUnsigned, ReadsBool};
ghost use Rattle.resb_read.specs.Leaves.{ReadsBits};
ghost use Rattle.resb_read.specs.PlaceRefusals.{number_refusal_from, bool_refusal_from};
ghost use Rattle.resb_read.specs.PlaceRefusals.{bits_refusal_from};
ghost use Rattle.resb_read.specs.RefusedReadings.{RefusesAs};
ghost use Rattle.resb_read.specs.TypeLaws.{signed_counted, signed_one, unsigned_counted};
ghost use Rattle.resb_read.specs.TypeLaws.{unsigned_one, bool_counted, bool_one, bits_counted};
ghost use Rattle.resb_read.specs.TypeLaws.{bits_one};

use crate::cursor::Cursor;
use crate::deserialize::Deserialize;
use resb_format::{Int28, ReadingError};
use resb_walk::Walk;
use std::alloc::Global;

impl<'de> Deserialize<'de> for i8 {
    ghost reads = { ReadsSigned (negsuc (2 ^ 7 - 1)) (pos (2 ^ 7 - 1)) };

    ghost counts = { CountsOf (ReadsSigned (negsuc (2 ^ 7 - 1)) (pos (2 ^ 7 - 1))) };

    ghost refuses = { RefusesAs number_refusal_from };

    ghost counted = { signed_counted (negsuc (2 ^ 7 - 1)) (pos (2 ^ 7 - 1)) };

    ghost one_count = { signed_one (negsuc (2 ^ 7 - 1)) (pos (2 ^ 7 - 1)) };

    fn deserialize<'m>(
        _alloc: Global,
        at: Cursor<'de>,
        walk: &mut Walk,
    ) -> Result<i8, ReadingError<'m>> {
        at.read_i8(walk)
    }
}

impl<'de> Deserialize<'de> for i16 {
    ghost reads = { ReadsSigned (negsuc (2 ^ 15 - 1)) (pos (2 ^ 15 - 1)) };

    ghost counts = { CountsOf (ReadsSigned (negsuc (2 ^ 15 - 1)) (pos (2 ^ 15 - 1))) };

    ghost refuses = { RefusesAs number_refusal_from };

    ghost counted = { signed_counted (negsuc (2 ^ 15 - 1)) (pos (2 ^ 15 - 1)) };

    ghost one_count = { signed_one (negsuc (2 ^ 15 - 1)) (pos (2 ^ 15 - 1)) };

    fn deserialize<'m>(
        _alloc: Global,
        at: Cursor<'de>,
        walk: &mut Walk,
    ) -> Result<i16, ReadingError<'m>> {
        at.read_i16(walk)
    }
}

impl<'de> Deserialize<'de> for i32 {
    ghost reads = { ReadsSigned (negsuc (2 ^ 31 - 1)) (pos (2 ^ 31 - 1)) };

    ghost counts = { CountsOf (ReadsSigned (negsuc (2 ^ 31 - 1)) (pos (2 ^ 31 - 1))) };

    ghost refuses = { RefusesAs number_refusal_from };

    ghost counted = { signed_counted (negsuc (2 ^ 31 - 1)) (pos (2 ^ 31 - 1)) };

    ghost one_count = { signed_one (negsuc (2 ^ 31 - 1)) (pos (2 ^ 31 - 1)) };

    fn deserialize<'m>(
        _alloc: Global,
        at: Cursor<'de>,
        walk: &mut Walk,
    ) -> Result<i32, ReadingError<'m>> {
        at.read_i32(walk)
    }
}

impl<'de> Deserialize<'de> for i64 {
    ghost reads = { ReadsSigned (negsuc (2 ^ 63 - 1)) (pos (2 ^ 63 - 1)) };

    ghost counts = { CountsOf (ReadsSigned (negsuc (2 ^ 63 - 1)) (pos (2 ^ 63 - 1))) };

    ghost refuses = { RefusesAs number_refusal_from };

    ghost counted = { signed_counted (negsuc (2 ^ 63 - 1)) (pos (2 ^ 63 - 1)) };

    ghost one_count = { signed_one (negsuc (2 ^ 63 - 1)) (pos (2 ^ 63 - 1)) };

    fn deserialize<'m>(
        _alloc: Global,
        at: Cursor<'de>,
        walk: &mut Walk,
    ) -> Result<i64, ReadingError<'m>> {
        at.read_i64(walk)
    }
}

impl<'de> Deserialize<'de> for u8 {
    ghost reads = { ReadsUnsigned (2 ^ 8 - 1) };

    ghost counts = { CountsOf (ReadsUnsigned (2 ^ 8 - 1)) };

    ghost refuses = { RefusesAs number_refusal_from };

    ghost counted = { unsigned_counted (2 ^ 8 - 1) };

    ghost one_count = { unsigned_one (2 ^ 8 - 1) };

    fn deserialize<'m>(
        _alloc: Global,
        at: Cursor<'de>,
        walk: &mut Walk,
    ) -> Result<u8, ReadingError<'m>> {
        at.read_u8(walk)
    }
}

impl<'de> Deserialize<'de> for u16 {
    ghost reads = { ReadsUnsigned (2 ^ 16 - 1) };

    ghost counts = { CountsOf (ReadsUnsigned (2 ^ 16 - 1)) };

    ghost refuses = { RefusesAs number_refusal_from };

    ghost counted = { unsigned_counted (2 ^ 16 - 1) };

    ghost one_count = { unsigned_one (2 ^ 16 - 1) };

    fn deserialize<'m>(
        _alloc: Global,
        at: Cursor<'de>,
        walk: &mut Walk,
    ) -> Result<u16, ReadingError<'m>> {
        at.read_u16(walk)
    }
}

impl<'de> Deserialize<'de> for u32 {
    ghost reads = { ReadsUnsigned (2 ^ 32 - 1) };

    ghost counts = { CountsOf (ReadsUnsigned (2 ^ 32 - 1)) };

    ghost refuses = { RefusesAs number_refusal_from };

    ghost counted = { unsigned_counted (2 ^ 32 - 1) };

    ghost one_count = { unsigned_one (2 ^ 32 - 1) };

    fn deserialize<'m>(
        _alloc: Global,
        at: Cursor<'de>,
        walk: &mut Walk,
    ) -> Result<u32, ReadingError<'m>> {
        at.read_u32(walk)
    }
}

impl<'de> Deserialize<'de> for u64 {
    ghost reads = { ReadsUnsigned (2 ^ 64 - 1) };

    ghost counts = { CountsOf (ReadsUnsigned (2 ^ 64 - 1)) };

    ghost refuses = { RefusesAs number_refusal_from };

    ghost counted = { unsigned_counted (2 ^ 64 - 1) };

    ghost one_count = { unsigned_one (2 ^ 64 - 1) };

    fn deserialize<'m>(
        _alloc: Global,
        at: Cursor<'de>,
        walk: &mut Walk,
    ) -> Result<u64, ReadingError<'m>> {
        at.read_u64(walk)
    }
}

impl<'de> Deserialize<'de> for bool {
    ghost reads = { ReadsBool };

    ghost counts = { CountsOf ReadsBool };

    ghost refuses = { RefusesAs bool_refusal_from };

    ghost counted = { bool_counted };

    ghost one_count = { bool_one };

    fn deserialize<'m>(
        _alloc: Global,
        at: Cursor<'de>,
        walk: &mut Walk,
    ) -> Result<bool, ReadingError<'m>> {
        at.read_bool(walk)
    }
}

impl<'de> Deserialize<'de> for Int28 {
    ghost reads = { ReadsBits };

    ghost counts = { CountsOf ReadsBits };

    ghost refuses = { RefusesAs bits_refusal_from };

    ghost counted = { bits_counted };

    ghost one_count = { bits_one };

    fn deserialize<'m>(
        _alloc: Global,
        at: Cursor<'de>,
        walk: &mut Walk,
    ) -> Result<Int28, ReadingError<'m>> {
        at.read_bits(walk)
    }
}
