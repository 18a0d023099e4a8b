//! Numbers, at an Int's descriptor and at a vector's word.
//! Numbers as views of a whole vector are in `helpers`.
ghost use Rattle.std.specs.Prelude.{◌≡◌, ◌-◌, ◌^◌, ℕ, ℤ, pos, negsuc, Some};
ghost use Rattle.resb_read.specs.Places.{place_of};
ghost use Rattle.resb_read.specs.Reading.{Reads};
ghost use Rattle.resb_read.specs.PlaceRefusals.{number_refusal_from, bool_refusal_from};
ghost use Rattle.resb_read.specs.PlaceRefusals.{bits_refusal_from};
ghost use Rattle.resb_read.specs.RefusedReadings.{RefusesAs};
ghost use Rattle.resb_read.specs.Leaves.{signed_at, unsigned_at, CountsOf, ReadsSigned};
ghost use Rattle.resb_read.specs.Leaves.{ReadsUnsigned, ReadsBool, ReadsBits};

use crate::cursor::{Cursor, Spot};
use crate::faults::{out_of_range, refused_here, value_of};
use resb_format::{BinaryDeserializerError, Int28, ResourceReprType};
use resb_walk::Walk;

/// What is said of another type than an Int.
const NO_INTEGER: &str = "expected integer resource";

impl<'de> Cursor<'de> {
    /// The number here, as a signed one.
    fn signed(self, walk: &mut Walk) -> Result<i32, BinaryDeserializerError>
        ensures { let there = signed_at self.entry.at in
            Reads (RefusesAs number_refusal_from (place_of self.entry))
            (λ x n. there ≡ Some (x, n)) (λ n. (x : ℤ) × (there ≡ Some (x, n))) walk.old
            walk.new result }
    {
        match self.at {
            Spot::Descriptor(word) => {
                walk.pay()?;
                let value = value_of(self.file, word, ResourceReprType::Int, NO_INTEGER)?;
                Ok(i32::from(Int28::from(value)))
            }
            Spot::Word(word) => Ok(word.cast_signed()),
            Spot::Unit(_) | Spot::Key(_) => Err(refused_here(self, walk)),
        }
    }

    /// The number here, from 0.
    fn unsigned(self, walk: &mut Walk) -> Result<u32, BinaryDeserializerError>
        ensures { let there = unsigned_at self.entry.at in
            Reads (RefusesAs number_refusal_from (place_of self.entry))
            (λ x n. there ≡ Some (x, n)) (λ n. (x : ℕ) × (there ≡ Some (x, n))) walk.old
            walk.new result }
    {
        match self.at {
            Spot::Descriptor(word) => {
                walk.pay()?;
                value_of(self.file, word, ResourceReprType::Int, NO_INTEGER)
            }
            Spot::Word(word) => Ok(word),
            Spot::Unit(_) | Spot::Key(_) => Err(refused_here(self, walk)),
        }
    }

    /// Reads whether an Int is 1; it must be 0 or 1.
    pub fn read_bool(self, walk: &mut Walk) -> Result<bool, BinaryDeserializerError>
        ensures { let p = place_of self.entry in
            Reads (RefusesAs bool_refusal_from p) (ReadsBool p) (CountsOf ReadsBool p) walk.old
            walk.new result }
    {
        let Spot::Descriptor(word) = self.at else {
            return Err(refused_here(self, walk));
        };
        walk.pay()?;
        match value_of(self.file, word, ResourceReprType::Int, NO_INTEGER)? {
            0 => Ok(false),
            1 => Ok(true),
            _ => Err(BinaryDeserializerError::resource_type_mismatch(
                "expected integer resource representable as boolean",
            )),
        }
    }

    /// Reads the 28 bits of an Int.
    pub(crate) fn read_bits(self, walk: &mut Walk) -> Result<Int28, BinaryDeserializerError>
        ensures { let p = place_of self.entry in
            Reads (RefusesAs bits_refusal_from p) (ReadsBits p) (CountsOf ReadsBits p) walk.old
            walk.new result }
    {
        let Spot::Descriptor(word) = self.at else {
            return Err(refused_here(self, walk));
        };
        walk.pay()?;
        let value = value_of(self.file, word, ResourceReprType::Int, NO_INTEGER)?;
        Ok(Int28::from(value))
    }

    /// Reads a number from -2^7 to 2^7 - 1. Refused where it is out of range.
    pub fn read_i8(self, walk: &mut Walk) -> Result<i8, BinaryDeserializerError>
        ensures { let low = negsuc (2 ^ 7 - 1) in let high = pos (2 ^ 7 - 1) in
            let p = place_of self.entry in
            Reads (RefusesAs number_refusal_from p) (ReadsSigned low high p)
            (CountsOf (ReadsSigned low high) p) walk.old walk.new result }
    {
        let value = self.signed(walk)?;
        if value < -0x80 || value > 0x7f {
            return Err(out_of_range());
        }
        Ok(value as i8)
    }

    /// Reads a number from -2^15 to 2^15 - 1. Refused where it is out of range.
    pub fn read_i16(self, walk: &mut Walk) -> Result<i16, BinaryDeserializerError>
        ensures { let low = negsuc (2 ^ 15 - 1) in let high = pos (2 ^ 15 - 1) in
            let p = place_of self.entry in
            Reads (RefusesAs number_refusal_from p) (ReadsSigned low high p)
            (CountsOf (ReadsSigned low high) p) walk.old walk.new result }
    {
        let value = self.signed(walk)?;
        if value < -0x8000 || value > 0x7fff {
            return Err(out_of_range());
        }
        Ok(value as i16)
    }

    /// Reads a number from -2^31 to 2^31 - 1. Refused where it is out of range.
    pub fn read_i32(self, walk: &mut Walk) -> Result<i32, BinaryDeserializerError>
        ensures { let low = negsuc (2 ^ 31 - 1) in let high = pos (2 ^ 31 - 1) in
            let p = place_of self.entry in
            Reads (RefusesAs number_refusal_from p) (ReadsSigned low high p)
            (CountsOf (ReadsSigned low high) p) walk.old walk.new result }
    {
        let value = self.signed(walk)?;
        Ok(value)
    }

    /// Reads a number from -2^63 to 2^63 - 1. Refused where it is out of range.
    pub fn read_i64(self, walk: &mut Walk) -> Result<i64, BinaryDeserializerError>
        ensures { let low = negsuc (2 ^ 63 - 1) in let high = pos (2 ^ 63 - 1) in
            let p = place_of self.entry in
            Reads (RefusesAs number_refusal_from p) (ReadsSigned low high p)
            (CountsOf (ReadsSigned low high) p) walk.old walk.new result }
    {
        let value = self.signed(walk)?;
        Ok(i64::from(value))
    }

    /// Reads a number from 0 to 2^8 - 1. Refused where it is out of range.
    pub fn read_u8(self, walk: &mut Walk) -> Result<u8, BinaryDeserializerError>
        ensures { let high = 2 ^ 8 - 1 in let p = place_of self.entry in
            Reads (RefusesAs number_refusal_from p) (ReadsUnsigned high p)
            (CountsOf (ReadsUnsigned high) p) walk.old walk.new result }
    {
        let value = self.unsigned(walk)?;
        if value > 0xff {
            return Err(out_of_range());
        }
        Ok(value as u8)
    }

    /// Reads a number from 0 to 2^16 - 1. Refused where it is out of range.
    pub fn read_u16(self, walk: &mut Walk) -> Result<u16, BinaryDeserializerError>
        ensures { let high = 2 ^ 16 - 1 in let p = place_of self.entry in
            Reads (RefusesAs number_refusal_from p) (ReadsUnsigned high p)
            (CountsOf (ReadsUnsigned high) p) walk.old walk.new result }
    {
        let value = self.unsigned(walk)?;
        if value > 0xffff {
            return Err(out_of_range());
        }
        Ok(value as u16)
    }

    /// Reads a number from 0 to 2^32 - 1. Refused where it is out of range.
    pub fn read_u32(self, walk: &mut Walk) -> Result<u32, BinaryDeserializerError>
        ensures { let high = 2 ^ 32 - 1 in let p = place_of self.entry in
            Reads (RefusesAs number_refusal_from p) (ReadsUnsigned high p)
            (CountsOf (ReadsUnsigned high) p) walk.old walk.new result }
    {
        let value = self.unsigned(walk)?;
        Ok(value)
    }

    /// Reads a number from 0 to 2^64 - 1. Refused where it is out of range.
    pub fn read_u64(self, walk: &mut Walk) -> Result<u64, BinaryDeserializerError>
        ensures { let high = 2 ^ 64 - 1 in let p = place_of self.entry in
            Reads (RefusesAs number_refusal_from p) (ReadsUnsigned high p)
            (CountsOf (ReadsUnsigned high) p) walk.old walk.new result }
    {
        let value = self.unsigned(walk)?;
        Ok(u64::from(value))
    }
}
