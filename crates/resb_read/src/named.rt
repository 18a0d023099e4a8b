//! Cursors at places that are no descriptor: a string's unit, a vector's word, a key.
//! What they read is said in the modules of the types.
ghost use Rattle.std.specs.Prelude.{◌≡◌, ◌≤◌, ◌⊎◌, ◌+◌, ◌-◌, ◌^◌, ℕ, pos, negsuc, IfOk, IfErr};
ghost use Rattle.std.specs.Prelude.{MatchOption};
ghost use Rattle.std.specs.String.{string_bytes};
ghost use Rattle.resb_read.specs.Places.{place_of};
ghost use Rattle.resb_read.specs.Reading.{Reads, LacksOrMemory};
ghost use Rattle.resb_read.specs.PlaceRefusals.{number_refusal_from, key_refusal_from};
ghost use Rattle.resb_read.specs.PlaceRefusals.{bytes_refusal_from};
ghost use Rattle.resb_read.specs.RefusedReadings.{RefusesText, RefusesAs};
ghost use Rattle.resb_read.specs.Leaves.{CountsOf, ReadsText, ReadsKey, ReadsBytes, ReadsSigned};
ghost use Rattle.resb_read.specs.Leaves.{ReadsUnsigned};
ghost use Rattle.resb_read.specs.Spots.{IsUnitSpot, IsWordSpot, IsKeySpot};
ghost use Rattle.resb_read.specs.Inner.Named as named;

use crate::cursor::{Cursor, Spot};
use resb_format::{BinaryDeserializerError, FileBlocks};
use resb_walk::{Walk, key_at};
use std::alloc::Global;

/// A string of the 16-bit block.
#[derive(Clone, Copy)]
pub struct Resource16BitDeserializer<'de> {
    file: FileBlocks<'de>,
    unit: u16,
}

/// A number of a vector.
#[derive(Clone, Copy)]
pub struct IntVectorDeserializer<'de> {
    file: FileBlocks<'de>,
    word: u32,
}

/// A key.
#[derive(Clone, Copy)]
pub struct KeyDeserializer<'de> {
    file: FileBlocks<'de>,
    position: usize,
}

impl<'de> Cursor<'de> {
    /// The string's deserializer, at a unit of the 16-bit block.
    pub fn as_16_bit(self) -> Option<Resource16BitDeserializer<'de>>
        ensures { MatchOption result (IsUnitSpot self.entry.at → ⊥)
            (λ d. IsUnitSpot self.entry.at × (named.unit_place d ≡ place_of self.entry)) }
    {
        match self.at {
            Spot::Unit(unit) => Some(Resource16BitDeserializer {
                file: self.file,
                unit,
            }),
            Spot::Descriptor(_) | Spot::Word(_) | Spot::Key(_) => None,
        }
    }

    /// The number's deserializer, at a vector's word.
    pub fn as_int_vector(self) -> Option<IntVectorDeserializer<'de>>
        ensures { MatchOption result (IsWordSpot self.entry.at → ⊥)
            (λ d. IsWordSpot self.entry.at × (named.word_place d ≡ place_of self.entry)) }
    {
        match self.at {
            Spot::Word(word) => Some(IntVectorDeserializer {
                file: self.file,
                word,
            }),
            Spot::Descriptor(_) | Spot::Unit(_) | Spot::Key(_) => None,
        }
    }

    /// The key's deserializer, at a key.
    pub fn as_key(self) -> Option<KeyDeserializer<'de>>
        ensures { MatchOption result (IsKeySpot self.entry.at → ⊥)
            (λ d. IsKeySpot self.entry.at × (named.key_place d ≡ place_of self.entry)) }
    {
        match self.at {
            Spot::Key(position) => Some(KeyDeserializer {
                file: self.file,
                position,
            }),
            Spot::Descriptor(_) | Spot::Unit(_) | Spot::Word(_) => None,
        }
    }
}

impl<'de> Resource16BitDeserializer<'de> {
    /// Reads the text of the string.
    pub fn read_string(
        self,
        alloc: Global,
        walk: &mut Walk,
    ) -> Result<String, BinaryDeserializerError>
        ensures read { IfOk result (λ s. (n : ℕ)
            × ReadsText (named.unit_place self.entry) (string_bytes s) n
            × (walk.new + n ≡ walk.old)) }
        ensures refused { IfErr result (λ e. (walk.new ≤ walk.old)
            × LacksOrMemory (CountsOf ReadsText (named.unit_place self.entry)) walk.old e) }
        ensures says { IfErr result
            (RefusesText (named.unit_place self.entry) walk.old walk.new) }
    {
        let at = Cursor {
            file: self.file,
            at: Spot::Unit(self.unit),
        };
        at.read_string(alloc, walk)
    }

    /// Reads the bytes of the string's units, which need be no text.
    pub fn read_bytes(self, walk: &mut Walk) -> Result<&'de [u8], BinaryDeserializerError>
        ensures { let p = named.unit_place self.entry in
            Reads (RefusesAs bytes_refusal_from p) (λ b n. ReadsBytes p b.now n)
            (CountsOf ReadsBytes p)
            walk.old walk.new result }
    {
        let at = Cursor {
            file: self.file,
            at: Spot::Unit(self.unit),
        };
        at.read_bytes(walk)
    }
}

impl<'de> KeyDeserializer<'de> {
    /// Reads the key, which lives as long as the file.
    pub fn read_str(self) -> Result<&'de str, BinaryDeserializerError>
        ensures { let p = named.key_place self.entry in
            Reads (RefusesAs key_refusal_from p) (λ s n. ReadsKey p s.now n)
            (CountsOf ReadsKey p) 0 0 result }
    {
        key_at(self.file, self.position)
    }
}

impl<'de> IntVectorDeserializer<'de> {
    /// The number's place.
    fn at(self) -> Cursor<'de>
        ensures { place_of result ≡ named.word_place self.entry }
    {
        Cursor {
            file: self.file,
            at: Spot::Word(self.word),
        }
    }

    /// Reads the number, as one from -2^7 to 2^7 - 1.
    pub fn read_i8(self) -> Result<i8, BinaryDeserializerError>
        ensures { let low = negsuc (2 ^ 7 - 1) in let high = pos (2 ^ 7 - 1) in
            let p = named.word_place self.entry in
            Reads (RefusesAs number_refusal_from p) (ReadsSigned low high p)
            (CountsOf (ReadsSigned low high) p) 0 0
            result }
    {
        let mut walk = Walk::new(0);
        self.at().read_i8(&mut walk)
    }

    /// Reads the number, as one from -2^15 to 2^15 - 1.
    pub fn read_i16(self) -> Result<i16, BinaryDeserializerError>
        ensures { let low = negsuc (2 ^ 15 - 1) in let high = pos (2 ^ 15 - 1) in
            let p = named.word_place self.entry in
            Reads (RefusesAs number_refusal_from p) (ReadsSigned low high p)
            (CountsOf (ReadsSigned low high) p) 0 0
            result }
    {
        let mut walk = Walk::new(0);
        self.at().read_i16(&mut walk)
    }

    /// Reads the number, as one from -2^31 to 2^31 - 1.
    pub fn read_i32(self) -> Result<i32, BinaryDeserializerError>
        ensures { let low = negsuc (2 ^ 31 - 1) in let high = pos (2 ^ 31 - 1) in
            let p = named.word_place self.entry in
            Reads (RefusesAs number_refusal_from p) (ReadsSigned low high p)
            (CountsOf (ReadsSigned low high) p) 0 0
            result }
    {
        let mut walk = Walk::new(0);
        self.at().read_i32(&mut walk)
    }

    /// Reads the number, as one from -2^63 to 2^63 - 1.
    pub fn read_i64(self) -> Result<i64, BinaryDeserializerError>
        ensures { let low = negsuc (2 ^ 63 - 1) in let high = pos (2 ^ 63 - 1) in
            let p = named.word_place self.entry in
            Reads (RefusesAs number_refusal_from p) (ReadsSigned low high p)
            (CountsOf (ReadsSigned low high) p) 0 0
            result }
    {
        let mut walk = Walk::new(0);
        self.at().read_i64(&mut walk)
    }

    /// Reads the number, as one from 0 to 2^8 - 1.
    pub fn read_u8(self) -> Result<u8, BinaryDeserializerError>
        ensures { let high = 2 ^ 8 - 1 in let p = named.word_place self.entry in
            Reads (RefusesAs number_refusal_from p) (ReadsUnsigned high p)
            (CountsOf (ReadsUnsigned high) p) 0 0 result }
    {
        let mut walk = Walk::new(0);
        self.at().read_u8(&mut walk)
    }

    /// Reads the number, as one from 0 to 2^16 - 1.
    pub fn read_u16(self) -> Result<u16, BinaryDeserializerError>
        ensures { let high = 2 ^ 16 - 1 in let p = named.word_place self.entry in
            Reads (RefusesAs number_refusal_from p) (ReadsUnsigned high p)
            (CountsOf (ReadsUnsigned high) p) 0 0 result }
    {
        let mut walk = Walk::new(0);
        self.at().read_u16(&mut walk)
    }

    /// Reads the number, as one from 0 to 2^32 - 1.
    pub fn read_u32(self) -> Result<u32, BinaryDeserializerError>
        ensures { let high = 2 ^ 32 - 1 in let p = named.word_place self.entry in
            Reads (RefusesAs number_refusal_from p) (ReadsUnsigned high p)
            (CountsOf (ReadsUnsigned high) p) 0 0 result }
    {
        let mut walk = Walk::new(0);
        self.at().read_u32(&mut walk)
    }

    /// Reads the number, as one from 0 to 2^64 - 1.
    pub fn read_u64(self) -> Result<u64, BinaryDeserializerError>
        ensures { let high = 2 ^ 64 - 1 in let p = named.word_place self.entry in
            Reads (RefusesAs number_refusal_from p) (ReadsUnsigned high p)
            (CountsOf (ReadsUnsigned high) p) 0 0 result }
    {
        let mut walk = Walk::new(0);
        self.at().read_u64(&mut walk)
    }
}
