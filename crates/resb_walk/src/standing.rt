//! What stands at a word, at a unit of the 16-bit block, and at a key's position.
//! Bytes are looked at in `resb_format::bytes` alone.
ghost use Rattle.std.specs.Prelude.{◌≡◌, ◌≢◌, ◌<◌, ◌^◌, ◌/◌, ◌%◌, Some, None, true};
ghost use Rattle.std.specs.Prelude.{MatchOption, MatchResult, IfErr, IfOk, IfSome, IsTrue, ℕ, List};
ghost use Rattle.std.specs.Prelude.{length};
ghost use Rattle.resb_format.specs.Bytes.{units_of};
ghost use Rattle.resb_format.specs.Strings as strings;
ghost use Rattle.resb_format.specs.Descriptor.{type_number};
ghost use Rattle.resb_format.specs.Content as at;
ghost use Rattle.resb_format.specs.Content.{content_at};
ghost use Rattle.resb_format.specs.Error as reading;
ghost use Rattle.resb_walk.specs.BlockRefusals as refusals;
ghost use Rattle.resb_walk.specs.BlockRefusals.{Says, block_text_refusal, block_key_refusal};
ghost use Rattle.resb_walk.specs.BlockRefusals.{word_refusal, reads_type, counted_refusal};
ghost use Rattle.resb_format.specs.Parts.{parts_in};
ghost use Rattle.resb_format.specs.Lookups.{key_in, text_in};
ghost use Rattle.resb_walk.specs.BlockRefusals.{key_refusal_in, text_refusal_in};
ghost use Rattle.resb_walk.specs.Inner.Members.{content_of, text_of_bytes, member_of};
ghost use Rattle.resb_walk.specs.Inner.Members.{AreUtf16, IsWellSpelled};
ghost use Rattle.resb_walk.specs.Inner.MemberContent.{member_content, content_refusal, IsPartOf};
ghost use Rattle.resb_walk.specs.Refusals.{IsFault};

use crate::faults::{key_not_utf8, key_past_end, key_unterminated, not_utf16, past_end};
use crate::members::{Leaf, Member, Members, Positions, Standing, TableParts};
use crate::places::{index_of, key_place, text_place};
use crate::types::readable;
use crate::units::is_well_formed;
use resb_blocks::{SHORT_TAIL, first_zero};
use resb_format::bytes::{
    byte_at, cut_at, some_bytes, some_unit, some_units, some_word, some_words, unit_at,
};
use resb_format::{BinaryDeserializerError, FileBlocks, MAX_UNMARKED, ResourceReprType, string_at};

/// The units of the string at a unit of the block, where it has no marker and no surrogate, as most
/// have: one look at each unit finds the 0 behind it and that it is a text.
#[inline(always)]
pub(crate) fn plain_text(block: &[u8], unit: usize) -> Option<&[u8]>
    ensures text { let units = units_of block.now in
        IfSome result (λ v. strings.text_at units unit ≡ Some (text_of_bytes v.now)) }
    ensures form { IfSome result (λ v. AreUtf16 v.now) }
{
    if unit > block.len() / 2 {
        return None;
    }
    let (_, from) = cut_at(block, 2 * unit)?;
    let most = (from.len() / 2).min(MAX_UNMARKED + 1);
    'units: for count in 0..most {
        let found = unit_at(from, count);
        if found.wrapping_sub(1) < 0xd7ff {
            continue;
        }
        if found == 0 {
            let units = some_units(from, 0, count)?;
            return Some(units);
        }
        return None;
    }
    None
}

/// Whether such a string stands at a unit of the block.
#[inline(always)]
pub(crate) fn is_plain_text(block: &[u8], unit: usize) -> bool
    ensures { let units = units_of block.now in IsTrue result
        → (text : List ℕ) × (strings.text_at units unit ≡ Some text) }
{
    plain_text(block, unit).is_some()
}

/// The key at a byte of a block of keys, where it is short and ASCII, as most are: one look at each
/// byte finds the 0 behind it and that it is a text.
#[inline(always)]
pub(crate) fn plain_key(keys: &[u8], at: usize) -> Option<&str>
    ensures { IfSome result (λ s. strings.key_at keys.now at ≡ Some s.now) }
{
    let (_, tail) = cut_at(keys, at)?;
    let most = tail.len().min(SHORT_TAIL + 1);
    'bytes: for count in 0..most {
        let found = byte_at(tail, count);
        if found.wrapping_sub(1) < 0x7f {
            continue;
        }
        if found == 0 {
            let (front, _) = cut_at(tail, count)?;
            let key = unsafe { str::from_utf8_unchecked(front) };
            return Some(key);
        }
        return None;
    }
    None
}

/// Whether such a key stands at a byte of a block of keys.
#[inline(always)]
pub(crate) fn is_plain_key(keys: &[u8], at: usize) -> bool
    ensures { let keys = keys.now in IsTrue result
        → (key : List ℕ) × (strings.key_at keys at ≡ Some key) }
{
    plain_key(keys, at).is_some()
}

/// The key at a byte of a block of keys: what stands before the next zero byte.
#[inline(always)]
fn block_key(keys: &[u8], at: usize) -> Result<&str, BinaryDeserializerError>
    ensures stands { MatchResult result (λ s. strings.key_at keys.now at ≡ Some s.now)
        (λ e. (strings.key_at keys.now at ≡ None) × IsFault e) }
    ensures says { IfErr result (Says (block_key_refusal keys.now at)) }
{
    match plain_key(keys, at) {
        Some(key) => Ok(key),
        None => any_key(keys, at),
    }
}

/// Such a key of any kind: first its end is found, and then it is tested.
#[tactic(auto, using(crate::proofs::Keys::at), unfolding(resb_format::specs::Strings::key_at))]
#[inline(never)]
fn any_key(keys: &[u8], at: usize) -> Result<&str, BinaryDeserializerError>
    ensures stands { MatchResult result (λ s. strings.key_at keys.now at ≡ Some s.now)
        (λ e. (strings.key_at keys.now at ≡ None) × IsFault e) }
    ensures says { IfErr result (Says (block_key_refusal keys.now at)) }
{
    let (_, tail) = cut_at(keys, at).ok_or(key_past_end())?;
    let end = first_zero(tail).ok_or(key_unterminated())?;
    let (front, _) = cut_at(tail, end).ok_or(key_unterminated())?;
    str::from_utf8(front).map_err(|_| key_not_utf8())
}

/// The key at an entry's position, the file's own or of the pool.
#[inline(always)]
pub fn key_at(file: FileBlocks<'_>, position: usize) -> Result<&str, BinaryDeserializerError>
    ensures stands { let p = parts_in file.entry in
        MatchResult result (λ s. key_in p position ≡ Some s.now)
        (λ e. (key_in p position ≡ None) × IsFault e) }
    ensures says { IfErr result (Says (key_refusal_in (parts_in file.entry) position)) }
{
    let (keys, at) = key_place(file, position);
    block_key(keys, at)
}

/// The units of the string at a unit of a 16-bit block, two bytes for each, which are a text.
#[inline(always)]
fn block_text(units: &[u8], unit: usize) -> Result<&[u8], BinaryDeserializerError>
    ensures stands { let block = units_of units.now in
        MatchResult result (λ v. strings.text_at block unit ≡ Some (text_of_bytes v.now))
        (λ e. (strings.text_at block unit ≡ None) × IsFault e) }
    ensures form { IfOk result (λ v. AreUtf16 v.now) }
    ensures says { IfErr result (Says (block_text_refusal (units_of units.now) unit)) }
{
    match plain_text(units, unit) {
        Some(bytes) => Ok(bytes),
        None => any_text(units, unit),
    }
}

/// Such a string, with a marker or surrogates too: first it is found, and then tested.
#[tactic(auto, using(crate::proofs::Placed::texts))]
#[inline(never)]
fn any_text(units: &[u8], unit: usize) -> Result<&[u8], BinaryDeserializerError>
    ensures stands { let block = units_of units.now in
        MatchResult result (λ v. strings.text_at block unit ≡ Some (text_of_bytes v.now))
        (λ e. (strings.text_at block unit ≡ None) × IsFault e) }
    ensures form { IfOk result (λ v. AreUtf16 v.now) }
    ensures says { IfErr result (Says (block_text_refusal (units_of units.now) unit)) }
{
    let text = string_at(units, unit)?;
    let bytes = text.as_bytes();
    if !is_well_formed(bytes) {
        return Err(not_utf16());
    }
    Ok(bytes)
}

/// The units of the string with an index, own or the pool's, which are a text.
#[inline(always)]
pub fn text_at(file: FileBlocks<'_>, index: usize) -> Result<&[u8], BinaryDeserializerError>
    ensures stands { let p = parts_in file.entry in
        MatchResult result (λ v. text_in p index ≡ Some (text_of_bytes v.now))
        (λ e. (text_in p index ≡ None) × IsFault e) }
    ensures form { IfOk result (λ v. AreUtf16 v.now) }
    ensures says { IfErr result (Says (text_refusal_in (parts_in file.entry) index)) }
{
    let (units, unit) = text_place(file, index);
    block_text(units, unit)
}

/// The units behind the count at a word of the body, two bytes for each.
pub(crate) fn counted_units(
    file: FileBlocks<'_>,
    word: usize,
) -> Result<&[u8], BinaryDeserializerError>
    requires { word < 2 ^ 28 }
    ensures stands { let found = refusals.counted_units (parts_in file.entry) word in
        MatchResult result (λ v. found ≡ Some (units_of v.now))
        (λ e. (found ≡ None) × IsFault e) }
    ensures place { IfOk result (λ v. IsPartOf file.entry.body.now word v.now) }
    ensures even { IfOk result (λ v. length v.now % 2 ≡ 0) }
    ensures says { IfErr result (Says reading.end_of_input) }
{
    let count = some_word(file.body, word).ok_or(past_end())?;
    let units = some_units(file.body, 2 * word + 2, count as usize).ok_or(past_end())?;
    Ok(units)
}

/// The units behind the count at a word of the body, which are a text.
#[tactic(auto, using(crate::proofs::Placed::paired))]
pub fn counted_text_at(file: FileBlocks<'_>, word: usize) -> Result<&[u8], BinaryDeserializerError>
    requires { word < 2 ^ 28 }
    ensures stands { let found = at.counted_text (parts_in file.entry) word in
        MatchResult result (λ v. found ≡ Some (text_of_bytes v.now))
        (λ e. (found ≡ None) × IsFault e) }
    ensures form { IfOk result (λ v. AreUtf16 v.now) }
    ensures says { IfErr result (Says (counted_refusal (parts_in file.entry) word)) }
{
    let units = counted_units(file, word)?;
    if !is_well_formed(units) {
        return Err(not_utf16());
    }
    Ok(units)
}

/// What stands at a word.
#[inline(always)]
#[tactic(auto, unfolding(resb_format::specs::Content::content_at))]
pub fn standing_at(file: FileBlocks<'_>, word: u32) -> Result<Standing<'_>, BinaryDeserializerError>
    ensures stands { let p = parts_in file.entry in
        MatchResult result (λ s. content_at p word ≡ Some (content_of s))
        (λ e. (content_at p word ≡ None) × IsFault e) }
    ensures form { IfOk result IsWellSpelled }
    ensures says { IfErr result (Says (word_refusal (parts_in file.entry) word)) }
{
    let (kind, value) = readable(file, word)?;
    standing_of(file, word, kind, value)
}

/// What stands at a word with this type and value.
#[inline(always)]
#[tactic(auto, unfolding(resb_format::specs::Content::content_at))]
pub(crate) fn standing_of(
    file: FileBlocks<'_>,
    word: u32,
    kind: ResourceReprType,
    value: u32,
) -> Result<Standing<'_>, BinaryDeserializerError>
    requires read { reads_type (parts_in file) (type_number kind) ≡ true }
    requires type_is { word / 2 ^ 28 ≡ type_number kind }
    requires value_is { word % 2 ^ 28 ≡ value }
    ensures stands { let p = parts_in file.entry in
        MatchResult result (λ s. content_at p word ≡ Some (content_of s))
        (λ e. (content_at p word ≡ None) × IsFault e) }
    ensures form { IfOk result IsWellSpelled }
    ensures says { IfErr result (Says (word_refusal (parts_in file.entry) word)) }
{
    match (kind, value) {
        (ResourceReprType::Int, _) => Ok(Standing::Leaf(Leaf::Integer(word))),
        (kind, 0) => Ok(empty(file, kind)),
        (kind, value) => placed(file, kind, value as usize),
    }
}

/// What stands at a member.
#[inline(always)]
#[tactic(auto, unfolding(crate::specs::Inner::MemberContent::member_content))]
pub fn member_at(
    file: FileBlocks<'_>,
    member: Member,
) -> Result<Standing<'_>, BinaryDeserializerError>
    ensures stands { let p = parts_in file.entry in let m = member_of member in
        MatchResult result (λ s. member_content p m ≡ Some (content_of s))
        (λ e. (member_content p m ≡ None) × IsFault e) }
    ensures says { let p = parts_in file.entry in
        IfErr result (Says (content_refusal p (member_of member))) }
{
    match member {
        Member::Word(word) => standing_at(file, word),
        Member::Unit(unit) => {
            let text = text_at(file, index_of(file, unit))?;
            Ok(Standing::Leaf(Leaf::Text(text)))
        }
    }
}

/// What a type with a value other than 0 leads to.
#[inline(always)]
fn placed(
    file: FileBlocks<'_>,
    kind: ResourceReprType,
    value: usize,
) -> Result<Standing<'_>, BinaryDeserializerError>
    requires read { reads_type (parts_in file) (type_number kind) ≡ true }
    requires no_number { kind ≢ ResourceReprType.Int }
    requires small { value < 2 ^ 28 }
    ensures stands { let found = at.placed (parts_in file.entry) (type_number kind) value in
        MatchResult result (λ s. found ≡ Some (content_of s))
        (λ e. (found ≡ None) × IsFault e) }
    ensures form { IfOk result IsWellSpelled }
    ensures says { IfErr result
        (Says (refusals.value_refusal (parts_in file.entry) (type_number kind) value)) }
{
    let found = match kind {
        ResourceReprType::Binary => binary_at(file, value),
        ResourceReprType::Table => table_at(file, value),
        ResourceReprType::_Table32 => table32_at(file, value),
        ResourceReprType::Table16 => table16_at(file, value),
        ResourceReprType::StringV2 => Some(Standing::Leaf(Leaf::Text(text_at(file, value)?))),
        ResourceReprType::Array => array_at(file, value),
        ResourceReprType::Array16 => array16_at(file, value),
        ResourceReprType::IntVector => int_vector_at(file, value),
        ResourceReprType::_String => {
            Some(Standing::Leaf(Leaf::Text(counted_text_at(file, value)?)))
        }
        ResourceReprType::_Alias => {
            Some(Standing::Leaf(Leaf::Alias(counted_text_at(file, value)?)))
        }
        ResourceReprType::Int => unreachable!(),
    };
    found.ok_or(past_end())
}

/// A count of bytes, and the bytes.
fn binary_at(file: FileBlocks<'_>, value: usize) -> Option<Standing<'_>>
    requires { value < 2 ^ 28 }
    ensures stands { let found = at.binary_at (parts_in file.entry) value in
        MatchOption result (found ≡ None) (λ s. found ≡ Some (content_of s)) }
    ensures form { IfSome result IsWellSpelled }
{
    let count = some_word(file.body, value)?;
    let bytes = some_bytes(file.body, 4 * value + 4, count as usize)?;
    Some(Standing::Leaf(Leaf::Binary(bytes)))
}

/// A count of numbers, and the numbers.
fn int_vector_at(file: FileBlocks<'_>, value: usize) -> Option<Standing<'_>>
    requires { value < 2 ^ 28 }
    ensures stands { let found = at.int_vector_at (parts_in file.entry) value in
        MatchOption result (found ≡ None) (λ s. found ≡ Some (content_of s)) }
    ensures form { IfSome result IsWellSpelled }
{
    let count = some_word(file.body, value)?;
    let numbers = some_words(file.body, value + 1, count as usize)?;
    Some(Standing::Leaf(Leaf::Numbers(numbers)))
}

/// A count of descriptors, and the descriptors.
fn array_at(file: FileBlocks<'_>, value: usize) -> Option<Standing<'_>>
    requires { value < 2 ^ 28 }
    ensures stands { let found = at.array_at (parts_in file.entry) value in
        MatchOption result (found ≡ None) (λ s. found ≡ Some (content_of s)) }
    ensures form { IfSome result IsWellSpelled }
{
    let count = some_word(file.body, value)?;
    let members = some_words(file.body, value + 1, count as usize)?;
    Some(Standing::List(Members::Words(members)))
}

/// A count of offsets, and the offsets.
fn array16_at(file: FileBlocks<'_>, value: usize) -> Option<Standing<'_>>
    requires { value < 2 ^ 28 }
    ensures stands { let found = at.array16_at (parts_in file.entry) value in
        MatchOption result (found ≡ None) (λ s. found ≡ Some (content_of s)) }
    ensures form { IfSome result IsWellSpelled }
{
    let count = some_unit(file.block, value)?;
    let members = some_units(file.block, value + 1, usize::from(count))?;
    Some(Standing::List(Members::Units(members)))
}

/// A 16-bit count of entries, 16-bit key positions, padding up to a word, and descriptors.
fn table_at(file: FileBlocks<'_>, value: usize) -> Option<Standing<'_>>
    requires { value < 2 ^ 28 }
    ensures stands { let found = at.table_at (parts_in file.entry) value in
        MatchOption result (found ≡ None) (λ s. found ≡ Some (content_of s)) }
    ensures form { IfSome result IsWellSpelled }
{
    let count = some_unit(file.body, 2 * value)?;
    let count = usize::from(count);
    let keys = some_units(file.body, 2 * value + 1, count)?;
    let members = some_words(file.body, value + count / 2 + 1, count)?;
    Some(Standing::Table(TableParts {
        keys: Positions::Halves(keys),
        members: Members::Words(members),
    }))
}

/// A count of entries, key positions and offsets, all of 16 bits.
fn table16_at(file: FileBlocks<'_>, value: usize) -> Option<Standing<'_>>
    requires { value < 2 ^ 28 }
    ensures stands { let found = at.table16_at (parts_in file.entry) value in
        MatchOption result (found ≡ None) (λ s. found ≡ Some (content_of s)) }
    ensures form { IfSome result IsWellSpelled }
{
    let count = some_unit(file.block, value)?;
    let count = usize::from(count);
    let keys = some_units(file.block, value + 1, count)?;
    let members = some_units(file.block, value + 1 + count, count)?;
    Some(Standing::Table(TableParts {
        keys: Positions::Halves(keys),
        members: Members::Units(members),
    }))
}

/// A count of entries, key positions and descriptors, all of 32 bits, without padding.
fn table32_at(file: FileBlocks<'_>, value: usize) -> Option<Standing<'_>>
    requires { value < 2 ^ 28 }
    ensures stands { let found = at.table32_at (parts_in file.entry) value in
        MatchOption result (found ≡ None) (λ s. found ≡ Some (content_of s)) }
    ensures form { IfSome result IsWellSpelled }
{
    let count = some_word(file.body, value)?;
    let count = count as usize;
    let keys = some_words(file.body, value + 1, count)?;
    let members = some_words(file.body, value + 1 + count, count)?;
    Some(Standing::Table(TableParts {
        keys: Positions::Wholes(keys),
        members: Members::Words(members),
    }))
}

/// The empty resource of a type.
#[tactic(auto, unfolding(resb_format::specs::Bytes::words_of, resb_format::specs::Bytes::units_of))]
fn empty(file: FileBlocks<'_>, kind: ResourceReprType) -> Standing<'_>
    requires read { reads_type (parts_in file) (type_number kind) ≡ true }
    requires no_number { kind ≢ ResourceReprType.Int }
    ensures stands { at.empty (parts_in file.entry) (type_number kind) ≡ Some (content_of result) }
    ensures form { IsWellSpelled result }
{
    match kind {
        ResourceReprType::Binary => Standing::Leaf(Leaf::Binary(&[])),
        ResourceReprType::Table | ResourceReprType::_Table32 | ResourceReprType::Table16 => {
            Standing::Table(TableParts {
                keys: Positions::Halves(&[]),
                members: Members::Words(&[]),
            })
        }
        ResourceReprType::StringV2 | ResourceReprType::_String => Standing::Leaf(Leaf::Empty),
        ResourceReprType::Array | ResourceReprType::Array16 => Standing::List(Members::Words(&[])),
        ResourceReprType::IntVector => Standing::Leaf(Leaf::Numbers(&[])),
        ResourceReprType::_Alias => Standing::Leaf(Leaf::Alias(&[])),
        ResourceReprType::Int => unreachable!(),
    }
}
