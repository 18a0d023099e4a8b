//! Texts, keys and bytes, at a descriptor, at a string's unit and at a key.
//! Bytes, keys and borrowed texts live as long as the file.
ghost use Rattle.std.specs.Prelude.{◌≡◌, ◌≤◌, ◌<◌, ◌⊎◌, ◌+◌, ◌*◌, ◌^◌, ℕ, Some, None, length};
ghost use Rattle.std.specs.Prelude.{option_map, IfOk, IfErr, MatchResult};
ghost use Rattle.std.specs.String.{string_bytes};
ghost use Rattle.resb_format.specs.Bytes.{units_of};
ghost use Rattle.resb_format.specs.Strings as strings;
ghost use Rattle.resb_format.specs.Error.{end_of_input, invalid};
ghost use Rattle.resb_format.specs.StringMessage.{string_message};
ghost use Rattle.resb_walk.specs.BlockRefusals.{Says};
ghost use Rattle.resb_format.specs.Parts.{parts_in};
ghost use Rattle.resb_read.specs.Places.{place_of};
ghost use Rattle.resb_read.specs.Reading.{Reads, LacksOrMemory};
ghost use Rattle.resb_walk.specs.Inner.Members.{text_of_bytes};
ghost use Rattle.resb_read.specs.PlaceRefusals.{word_text_refusal, word_bytes_refusal};
ghost use Rattle.resb_read.specs.PlaceRefusals.{key_refusal_from, bytes_refusal_from};
ghost use Rattle.resb_read.specs.RefusedReadings.{RefusesText, RefusesAs};
ghost use Rattle.resb_read.specs.Leaves.{described_text as text_there};
ghost use Rattle.resb_read.specs.Leaves.{type_in, value_in, counted_bytes};
ghost use Rattle.resb_format.specs.Bytes.{units_as_bytes};
ghost use Rattle.resb_read.specs.Leaves.{bytes_of_type, CountsOf, ReadsText, ReadsKey, ReadsBytes};
ghost use Rattle.resb_read.specs.TypeLaws.{text_counted, text_one, key_counted, key_one};
ghost use Rattle.resb_read.specs.TypeLaws.{bytes_counted, bytes_one};

use crate::cursor::{Cursor, Spot};
use crate::deserialize::Deserialize;
use crate::faults::{elsewhere, refused_here};
use resb_format::bytes::{some_bytes, some_word};
use resb_format::{
    BinaryDeserializerError, FileBlocks, Key, ReadingError, ResourceReprType, string_at,
};
use resb_walk::faults::past_end;
use resb_walk::places::{index_of, text_place};
use resb_walk::types::readable;
use resb_walk::{Walk, counted_text_at, key_at, text_at, text_of_units};
use std::alloc::Global;

/// Bytes in pairs, which are those that their units are written as.
fn whole_units(bytes: &[u8]) -> &[u8]
    requires { length bytes.now ≡ 2 * length (units_of bytes.now) }
    ensures same { result.now ≡ bytes.now }
    ensures written { units_as_bytes (units_of bytes.now) ≡ bytes.now }
{
    bytes
}

/// The bytes of the units of the string at a unit, which need be no text.
fn units_at(block: &[u8], unit: usize) -> Result<&[u8], BinaryDeserializerError>
    ensures stands { let there = option_map units_as_bytes
        (strings.string_at (units_of block.now) unit) in
        MatchResult result (λ b. there ≡ Some b.now) (λ _. there ≡ None) }
    ensures says { IfErr result (Says (invalid (string_message (units_of block.now) unit))) }
{
    let view = string_at(block, unit)?;
    Ok(whole_units(view.as_bytes()))
}

/// The bytes of items of so many bytes each, behind their count.
fn counted_at(
    file: FileBlocks<'_>,
    each: usize,
    value: usize,
) -> Result<&[u8], BinaryDeserializerError>
    requires small { value < 2 ^ 28 }
    requires few { each ≤ 4 }
    ensures stands { let there = counted_bytes (parts_in file.entry) each value in
        MatchResult result (λ b. there ≡ Some b.now) (λ _. there ≡ None) }
    ensures says { IfErr result (Says end_of_input) }
{
    let count = some_word(file.body, value).ok_or(past_end())?;
    some_bytes(file.body, 4 * value + 4, each * count as usize).ok_or(past_end())
}

/// The bytes of what stands at a descriptor.
fn described(file: FileBlocks<'_>, word: u32) -> Result<&[u8], BinaryDeserializerError>
    ensures stands { let p = parts_in file.entry in
        let there = bytes_of_type p (type_in word) (value_in word) in
        MatchResult result (λ b. there ≡ Some b.now) (λ _. there ≡ None) }
    ensures says { IfErr result (Says (word_bytes_refusal (parts_in file.entry) word)) }
{
    let (kind, value) = readable(file, word)?;
    let value = value as usize;
    match kind {
        ResourceReprType::Binary
        | ResourceReprType::StringV2
        | ResourceReprType::_String
        | ResourceReprType::IntVector
            if value == 0 => { Ok(&[]) }
        ResourceReprType::Binary => counted_at(file, 1, value),
        ResourceReprType::StringV2 => {
            let (block, unit) = text_place(file, value);
            units_at(block, unit)
        }
        ResourceReprType::_String => counted_at(file, 2, value),
        ResourceReprType::IntVector => counted_at(file, 4, value),
        _ => Err(BinaryDeserializerError::resource_type_mismatch("expected binary data resource")),
    }
}

/// The units of the string at a descriptor, which are a text.
#[tactic(auto, unfolding(resb_format::specs::Bytes::units_of))]
fn described_text(file: FileBlocks<'_>, word: u32) -> Result<&[u8], BinaryDeserializerError>
    ensures stands { let there = text_there (parts_in file.entry) word in
        MatchResult result (λ v. there ≡ Some (text_of_bytes v.now)) (λ _. there ≡ None) }
    ensures says { IfErr result (Says (word_text_refusal (parts_in file.entry) word)) }
{
    let (kind, value) = readable(file, word)?;
    let value = value as usize;
    match kind {
        ResourceReprType::StringV2 | ResourceReprType::_String if value == 0 => Ok(&[]),
        ResourceReprType::StringV2 => text_at(file, value),
        ResourceReprType::_String => counted_text_at(file, value),
        _ => Err(BinaryDeserializerError::resource_type_mismatch("expected string resource")),
    }
}

impl<'de> Cursor<'de> {
    /// Reads a text: a string, of the older form too where that is read, or a key.
    pub fn read_string(
        self,
        alloc: Global,
        walk: &mut Walk,
    ) -> Result<String, BinaryDeserializerError>
        ensures read { IfOk result (λ s. (n : ℕ)
            × ReadsText (place_of self.entry) (string_bytes s) n × (walk.new + n ≡ walk.old)) }
        ensures refused { IfErr result (λ e. (walk.new ≤ walk.old)
            × LacksOrMemory (CountsOf ReadsText (place_of self.entry)) walk.old e) }
        ensures says { IfErr result (RefusesText (place_of self.entry) walk.old walk.new) }
    {
        match self.at {
            Spot::Descriptor(word) => {
                walk.pay()?;
                let units = described_text(self.file, word)?;
                Ok(text_of_units(alloc, units)?)
            }
            Spot::Unit(unit) => {
                walk.pay()?;
                let units = text_at(self.file, index_of(self.file, unit))?;
                Ok(text_of_units(alloc, units)?)
            }
            Spot::Key(position) => {
                let key = key_at(self.file, position)?;
                Ok(String::from_str(alloc, key)?)
            }
            Spot::Word(_) => Err(elsewhere()),
        }
    }

    /// Reads a key, which lives as long as the file.
    pub fn read_str(self, walk: &mut Walk) -> Result<&'de str, BinaryDeserializerError>
        ensures { let p = place_of self.entry in
            Reads (RefusesAs key_refusal_from p) (λ s n. ReadsKey p s.now n) (CountsOf ReadsKey p)
            walk.old walk.new result }
    {
        match self.at {
            Spot::Key(position) => key_at(self.file, position),
            Spot::Descriptor(_) | Spot::Unit(_) | Spot::Word(_) => { Err(refused_here(self, walk)) }
        }
    }

    /// Reads bytes, which live as long as the file: those of a Binary, of a vector's words, of a
    /// string's units, which need be no text, or of a key.
    pub fn read_bytes(self, walk: &mut Walk) -> Result<&'de [u8], BinaryDeserializerError>
        ensures { let p = place_of self.entry in
            Reads (RefusesAs bytes_refusal_from p) (λ b n. ReadsBytes p b.now n)
            (CountsOf ReadsBytes p)
            walk.old walk.new result }
    {
        match self.at {
            Spot::Descriptor(word) => {
                walk.pay()?;
                described(self.file, word)
            }
            Spot::Unit(unit) => {
                walk.pay()?;
                let (block, unit) = text_place(self.file, index_of(self.file, unit));
                units_at(block, unit)
            }
            Spot::Key(position) => Ok(key_at(self.file, position)?.as_bytes()),
            Spot::Word(_) => Err(elsewhere()),
        }
    }
}

impl<'de> Deserialize<'de> for String {
    ghost reads = { λ p s n. ReadsText p (string_bytes s) n };

    ghost counts = { CountsOf ReadsText };

    ghost refuses = { RefusesText };

    ghost counted = { λ p s n. text_counted p (string_bytes s) n };

    ghost one_count = { text_one };

    fn deserialize<'m>(
        alloc: Global,
        at: Cursor<'de>,
        walk: &mut Walk,
    ) -> Result<String, ReadingError<'m>> {
        at.read_string(alloc, walk)
    }
}

impl<'de> Deserialize<'de> for &'de str {
    ghost reads = { λ p s n. ReadsKey p s.now n };

    ghost counts = { CountsOf ReadsKey };

    ghost refuses = { RefusesAs key_refusal_from };

    ghost counted = { λ p s n. key_counted p s.now n };

    ghost one_count = { key_one };

    fn deserialize<'m>(
        _alloc: Global,
        at: Cursor<'de>,
        walk: &mut Walk,
    ) -> Result<&'de str, ReadingError<'m>> {
        at.read_str(walk)
    }
}

impl<'de> Deserialize<'de> for Key<'de> {
    ghost reads = { ReadsKey };

    ghost counts = { CountsOf ReadsKey };

    ghost refuses = { RefusesAs key_refusal_from };

    ghost counted = { key_counted };

    ghost one_count = { key_one };

    fn deserialize<'m>(
        _alloc: Global,
        at: Cursor<'de>,
        walk: &mut Walk,
    ) -> Result<Key<'de>, ReadingError<'m>> {
        let text = at.read_str(walk)?;
        Ok(Key::from(text))
    }
}

impl<'de> Deserialize<'de> for &'de [u8] {
    ghost reads = { λ p b n. ReadsBytes p b.now n };

    ghost counts = { CountsOf ReadsBytes };

    ghost refuses = { RefusesAs bytes_refusal_from };

    ghost counted = { λ p b n. bytes_counted p b.now n };

    ghost one_count = { bytes_one };

    fn deserialize<'m>(
        _alloc: Global,
        at: Cursor<'de>,
        walk: &mut Walk,
    ) -> Result<&'de [u8], ReadingError<'m>> {
        at.read_bytes(walk)
    }
}
