//! Strings in the 16-bit block: where one stands, how many units it has, and what marks this.
//! How strings share records of the block is the business of the writer.
ghost use Rattle.std.specs.Prelude.{◌≡◌, ◌+◌, ◌-◌, ◌/◌, ◌<◌, ◌≤◌, ◌==◌, length, take, drop};
ghost use Rattle.std.specs.Prelude.{slice_index, nat_le, Some, None, MatchResult, codes};
ghost use Rattle.std.specs.List.{position_or_len};
ghost use Rattle.resb_format.specs.Bytes.{units_of, part};
ghost use Rattle.resb_format.specs.Error.{IsEndOfInput, IsInvalid};
ghost use Rattle.resb_format.specs.StringMessage as said;
ghost use Rattle.resb_format.specs.Strings as strings;
ghost use Rattle.resb_format.specs.Units as text_units;
ghost use Rattle.resb_format.specs.Views.{view_units};

use crate::bytes::unit_at;
use crate::error::BinaryDeserializerError;
use crate::views::Utf16View;

/// The most units of a string without a marker.
pub const MAX_UNMARKED: usize = 40;

/// The units of the string that stands at this unit of the 16-bit block.
/// A first unit from 0xdc00 to 0xdfff begins a marker, which says how many units follow it.
/// Without a marker the string goes up to the first 0, and has at most 40 units.
/// (ICU's `uresdata.h`: strings of format version 2.)
///
/// A string that does not lie inside the block is refused as the end of the input,
/// and one that has no marker and no 0 in time as unterminated.
#[tactic(auto, using(crate::proofs::StringsIn::no_string, crate::proofs::StringsIn::end_refused))]
pub fn string_at(block: &[u8], unit: usize) -> Result<Utf16View<'_>, BinaryDeserializerError>
    ensures { let us = units_of block.now in
        MatchResult result (λ v. strings.string_at us unit ≡ Some (view_units v))
        (λ e. (strings.string_at us unit ≡ None) × IsInvalid e (said.string_message us unit)) }
{
    let first = some_unit(block, unit)?;
    match first {
        0xdc00..=0xdfff => marked(block, unit, first),
        _ => unmarked(block, unit),
    }
}

/// Where the units of the string begin whose marker begins with this unit, and how many units it
/// has. Refused, as the end of the input, is a marker that does not lie inside the block.
#[tactic(auto, using(crate::proofs::StringsIn::marker_unit_missing))]
pub fn marked_part(
    block: &[u8],
    unit: usize,
    first: u16,
) -> Result<(usize, usize), BinaryDeserializerError>
    requires inside { unit < length block.now / 2 }
    requires marker { 0xdc00 ≤ first }
    requires low { first ≤ 0xdfff }
    ensures { let us = units_of block.now in
        MatchResult result (λ r. strings.string_from us unit first ≡ part us r.0 r.1)
        (λ e. (strings.string_from us unit first ≡ None) × IsEndOfInput e) }
{
    let first = usize::from(first);
    if first <= 0xdfee {
        return Ok((unit + 1, first - 0xdc00));
    }
    let second = usize::from(some_unit(block, unit + 1)?);
    if first <= 0xdffe {
        return Ok((unit + 2, (first - 0xdfef) * 0x1_0000 + second));
    }
    let third = usize::from(some_unit(block, unit + 2)?);
    Ok((unit + 3, second * 0x1_0000 + third))
}

/// The string after the marker that begins with this unit.
fn marked(block: &[u8], unit: usize, first: u16) -> Result<Utf16View<'_>, BinaryDeserializerError>
    requires inside { unit < length block.now / 2 }
    requires marker { 0xdc00 ≤ first }
    requires low { first ≤ 0xdfff }
    ensures { let us = units_of block.now in
        MatchResult result (λ v. strings.string_from us unit first ≡ Some (view_units v))
        (λ e. (strings.string_from us unit first ≡ None)
        × IsEndOfInput e) }
{
    let (from, count) = marked_part(block, unit, first)?;
    cut(block, from, count)
}

/// The string up to the first 0, which stands among its first 41 units.
#[tactic(auto, using(crate::proofs::StringsIn::ends_at_zero, crate::proofs::StringsIn::lacks_zero))]
fn unmarked(block: &[u8], unit: usize) -> Result<Utf16View<'_>, BinaryDeserializerError>
    requires { unit < length block.now / 2 }
    ensures { let us = take 41 (drop unit (units_of block.now)) in
        MatchResult result (λ v. strings.before_zero us ≡ Some (view_units v))
        (λ e. (strings.before_zero us ≡ None)
        × IsInvalid e (codes "unterminated string with implicit length")) }
{
    let left = block.len() / 2 - unit;
    let window = units_in(block, unit, left.min(MAX_UNMARKED + 1));
    let end = first_zero(window);
    if end == window.len() {
        return Err(BinaryDeserializerError::invalid_data(
            "unterminated string with implicit length",
        ));
    }
    Ok(units_in(window.as_bytes(), 0, end))
}

/// The number of the first unit 0, or of all units.
#[tactic(auto, using(std::proofs::lemmas::List::Sums::position_or_len_is))]
fn first_zero(units: Utf16View<'_>) -> usize
    ensures value { result ≡ position_or_len (λ x. x == 0) (view_units units.entry) }
    ensures small { result ≤ length (view_units units.entry) }
{
    for number in 0..units.len() {
        if units.item(number) == 0 {
            return number;
        }
    }
    units.len()
}

/// The unit with this number, if it lies inside the block.
fn some_unit(block: &[u8], number: usize) -> Result<u16, BinaryDeserializerError>
    ensures { MatchResult result
        (λ x. (number < length block.now / 2) × (x ≡ slice_index (units_of block.now) number))
        (λ e. (length block.now / 2 ≤ number) × IsEndOfInput e) }
{
    if number >= block.len() / 2 {
        return Err(BinaryDeserializerError::end_of_input());
    }
    Ok(unit_at(block, number))
}

/// So many units from this one on, if they lie inside the block.
#[tactic(auto, using(crate::proofs::StringsIn::string_units_cut))]
fn cut(block: &[u8], from: usize, count: usize) -> Result<Utf16View<'_>, BinaryDeserializerError>
    ensures { let cut = part (units_of block.now) from count in
        MatchResult result (λ v. cut ≡ Some (view_units v))
        (λ e. (cut ≡ None) × IsEndOfInput e) }
{
    let units = block.len() / 2;
    if from > units || count > units - from {
        return Err(BinaryDeserializerError::end_of_input());
    }
    Ok(units_in(block, from, count))
}

/// So many units from this one on.
#[tactic(auto, using(crate::proofs::Spelled::units_part))]
fn units_in(block: &[u8], from: usize, count: usize) -> Utf16View<'_>
    requires { from + count ≤ length block.now / 2 }
    ensures { view_units result ≡ take count (drop from (units_of block.now)) }
{
    let (_, rest) = block.split_at(2 * from);
    let (bytes, _) = rest.split_at(2 * count);
    Utf16View::over(bytes)
}

/// The number of 16-bit units of a text in UTF-16: its bytes, where all of them are ASCII.
pub fn utf16_len(text: &str) -> usize
    ensures count { result ≡ length (text_units.units text.now) }
    ensures small { result ≤ length text.now }
{
    if text.is_ascii() {
        return text.len();
    }
    let mut count = 0;
    for c in text.chars() {
        count += c.len_utf16();
    }
    count
}

/// How many units the marker of a string of `n` units takes, where its length alone asks for one.
/// Up to 40 units need none, but a text with U+0000 has a marker at any length.
pub fn marker_units(n: usize) -> usize
    requires { n ≤ 4294967295 }
    ensures { result ≡ text_units.marker_len n }
{
    match n {
        0..=40 => 0,
        41..=0x3ee => 1,
        0x3ef..=0xf_ffff => 2,
        _ => 3,
    }
}

/// Whether a text stands without a marker: it has at most 40 units, and no U+0000.
pub fn is_unmarked(text: &str) -> bool
    ensures { result ≡ text_units.is_unmarked text.now }
{
    has_at_most(text, MAX_UNMARKED) && !text.as_bytes().contains(&0)
}

/// Whether a text has at most so many units, which are no more than its bytes. No more of it is
/// looked at than tells.
fn has_at_most(text: &str, most: usize) -> bool
    ensures { result ≡ nat_le (length (text_units.units text.now)) most }
{
    if text.len() <= most {
        return true;
    }
    let mut left = most;
    for c in text.chars() {
        let taken = c.len_utf16();
        if taken > left {
            return false;
        }
        left -= taken;
    }
    true
}
