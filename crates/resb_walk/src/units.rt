//! UTF-16 among bytes, two for each unit: whether each surrogate has its partner, and the text.
//! Where a string's units stand is found in `standing`.
ghost use Rattle.std.specs.Prelude.{◌≡◌, ◌∷◌, ◌++◌, ◌<◌, ◌≤◌, ◌*◌, ◌/◌, [], true, not, length};
ghost use Rattle.std.specs.Prelude.{MatchOption, IfOk, IfSome, OnErr, ◌+◌, take, ℕ, List};
ghost use Rattle.std.specs.Char.{encode_utf8};
ghost use Rattle.std.specs.Char.Utf16.{is_high_surrogate, is_low_surrogate, has_unpaired_surrogate};
ghost use Rattle.std.specs.Char.Utf16.{utf16_lossy_chars, surrogate_pair_char};
ghost use Rattle.std.specs.Char.Utf16.{lone_unit_char};
ghost use Rattle.std.specs.Option.{unwrap_or};
ghost use Rattle.std.specs.String.{string_bytes};
ghost use Rattle.resb_format.specs.Bytes.{units_of};
ghost use Rattle.resb_walk.specs.Inner.Members.{text_of_bytes};
ghost use Rattle.resb_walk.specs.Fronts.{PutsFront};

use resb_blocks::{is_high, is_low};
use resb_format::MAX_UNMARKED;
use resb_format::bytes::{first_four_units, first_unit, unit_at};
use resb_tree::NoMemory;
use std::alloc::Global;

/// The most ASCII units that are put behind a text at once.
const RUN: usize = 64;

/// Room for the bytes of a short string: three for each unit.
const ROOM: usize = 3 * MAX_UNMARKED;

/// The bytes behind the first four units, if so many stand there and none is a surrogate.
#[tactic(auto, using(crate::proofs::Surrogates::four_plain))]
fn behind_plain(bytes: &[u8]) -> Option<&[u8]>
    ensures { IfSome result (λ rest.
        (has_unpaired_surrogate (units_of bytes.now) ≡ has_unpaired_surrogate (units_of rest.now))
        × (length (units_of rest.now) < length (units_of bytes.now))) }
{
    let ([first, second, third, fourth], rest) = first_four_units(bytes)?;
    if first.max(second).max(third.max(fourth)) >= 0xd800 {
        return None;
    }
    Some(rest)
}

/// Whether each surrogate has its partner.
#[tactic(auto, using(crate::proofs::Surrogates::surrogates))]
pub(crate) fn is_well_formed(bytes: &[u8]) -> bool
    ensures { result ≡ not (has_unpaired_surrogate (units_of bytes.now)) }
{
    let mut rest = bytes;
    'units: while let Some((first, later)) = first_unit(rest) {
        if let Some(behind) = behind_plain(rest) {
            rest = behind;
            continue;
        }
        if is_high(first) {
            let Some((second, after)) = first_unit(later) else {
                return false;
            };
            if !is_low(second) {
                return false;
            }
            rest = after;
        } else {
            if is_low(first) {
                return false;
            }
            rest = later;
        }
    }
    true
}

/// The character of a pair.
fn pair_char(high: u16, low: u16) -> char
    requires high { is_high_surrogate high ≡ true }
    requires low { is_low_surrogate low ≡ true }
    ensures { result ≡ surrogate_pair_char high low }
{
    let code = 0x1_0000 + (u32::from(high) - 0xd800) * 0x400 + (u32::from(low) - 0xdc00);
    char::from_u32(code).unwrap_or(char::REPLACEMENT_CHARACTER)
}

/// The character of a unit that is in no pair; U+FFFD for a surrogate.
fn lone_char(unit: u16) -> char
    ensures { result ≡ unwrap_or (lone_unit_char unit) 0xFFFD }
{
    char::from_u32(u32::from(unit)).unwrap_or(char::REPLACEMENT_CHARACTER)
}

/// The first character, and the bytes behind it: U+FFFD for a surrogate without a partner.
#[tactic(auto, using(crate::proofs::Surrogates::first_chars))]
fn first_char(bytes: &[u8]) -> Option<(char, &[u8])>
    ensures { MatchOption result (units_of bytes.now ≡ [])
        (λ r. (utf16_lossy_chars (units_of bytes.now) ≡ r.0 ∷ utf16_lossy_chars (units_of r.1.now))
        × (length (units_of r.1.now) < length (units_of bytes.now))) }
{
    let (first, later) = first_unit(bytes)?;
    if is_high(first) {
        return match first_unit(later) {
            Some((second, after)) if is_low(second) => Some((pair_char(first, second), after)),
            _ => Some((char::REPLACEMENT_CHARACTER, later)),
        };
    }
    Some((lone_char(first), later))
}

/// Spells a unit as a character of up to three bytes. Gives the place behind them.
#[inline(always)]
fn spell(spelled: &mut [u8], end: usize, unit: u16) -> usize
    requires { end + 3 ≤ length spelled.old }
    ensures text { take result spelled.new ≡ take end spelled.old ++ encode_utf8 unit }
    ensures room { result ≤ end + 3 }
    ensures whole { length spelled.new ≡ length spelled.old }
{
    if unit < 0x80 {
        spelled[end] = unit as u8;
        return end + 1;
    }
    if unit < 0x800 {
        spelled[end] = (0xc0 + unit / 0x40) as u8;
        spelled[end + 1] = (0x80 + unit % 0x40) as u8;
        return end + 2;
    }
    spelled[end] = (0xe0 + unit / 0x1000) as u8;
    spelled[end + 1] = (0x80 + unit / 0x40 % 0x40) as u8;
    spelled[end + 2] = (0x80 + unit % 0x40) as u8;
    end + 3
}

/// The text of a short string's units where all stand below the surrogates, as in most: it is
/// spelled in one place, and then copied as a whole.
#[inline(always)]
fn short_text(alloc: Global, bytes: &[u8]) -> Result<Option<String>, NoMemory>
    ensures { IfOk result (λ found.
        IfSome found (λ s. string_bytes s ≡ text_of_bytes bytes.now)) }
{
    let count = bytes.len() / 2;
    if count > MAX_UNMARKED {
        return Ok(None);
    }
    let mut spelled = [0u8; ROOM];
    let mut end = 0;
    'units: for number in 0..count {
        let unit = unit_at(bytes, number);
        if unit >= 0xd800 {
            return Ok(None);
        }
        end = spell(&mut spelled, end, unit);
    }
    let text = unsafe { str::from_utf8_unchecked(&spelled[..end]) };
    Ok(Some(String::from_str(alloc, text)?))
}

/// How many bytes the text of some units has.
#[tactic(auto, using(crate::proofs::Surrogates::first_chars))]
pub fn text_len(bytes: &[u8]) -> usize
    ensures { result ≡ length (text_of_bytes bytes.now) }
{
    let mut len = 0;
    let mut rest = bytes;
    'chars: while let Some((first, later)) = first_char(rest) {
        len += first.len_utf8();
        rest = later;
    }
    len
}

/// Room for the text of some units, as far as the first of them tells: scripts seldom mix.
fn room_for(bytes: &[u8]) -> usize
    ensures { result ≤ 3 * (length bytes.now / 2) }
{
    let units = bytes.len() / 2;
    match first_unit(bytes) {
        Some((first, _)) if first >= 0x800 => units.saturating_mul(3),
        Some((first, _)) if first >= 0x80 => units.saturating_mul(2),
        _ => units,
    }
}

/// The text of some units. U+FFFD stands for a surrogate without a partner.
pub fn text_of_units(alloc: Global, bytes: &[u8]) -> Result<String, NoMemory>
    ensures { IfOk result (λ s. string_bytes s ≡ text_of_bytes bytes.now) }
{
    if let Some(text) = short_text(alloc, bytes)? {
        return Ok(text);
    }
    let mut text = String::with_capacity(alloc, room_for(bytes))?;
    push_text_of_units(&mut text, bytes)?;
    Ok(text)
}

/// Puts the ASCII units at the front behind a text, as far as a run goes. Gives the bytes behind
/// them.
fn push_ascii<'b>(text: &mut String, bytes: &'b [u8]) -> Result<&'b [u8], NoMemory>
    ensures all { IfOk result (λ rest. PutsFront (string_bytes text.old) (string_bytes text.new)
        (text_of_bytes bytes.now) (text_of_bytes rest.now)
        × (length (units_of rest.now) ≤ length (units_of bytes.now))) }
    ensures stays { OnErr result (string_bytes text.new ≡ string_bytes text.old) }
{
    let mut run = [0u8; RUN];
    let most = (bytes.len() / 2).min(RUN);
    let mut count = 0;
    'units: while count < most {
        let unit = unit_at(bytes, count);
        if unit >= 0x80 {
            break;
        }
        run[count] = unit as u8;
        count += 1;
    }
    let Ok(front) = str::from_utf8(&run[..count]) else {
        unreachable!()
    };
    text.push_str(front)?;
    let (_, rest) = bytes.split_at(2 * count);
    Ok(rest)
}

/// Puts the text of some units behind what stands. U+FFFD stands for a surrogate without a partner.
/// Where memory is missing, a front of that text stands there.
#[tactic(auto, using(crate::proofs::Surrogates::no_units_no_chars))]
pub fn push_text_of_units(text: &mut String, bytes: &[u8]) -> Result<(), NoMemory>
    ensures all { IfOk result (λ _. string_bytes text.new
        ≡ string_bytes text.old ++ text_of_bytes bytes.now) }
    ensures front { OnErr result ((rest : List ℕ)
        × PutsFront (string_bytes text.old) (string_bytes text.new)
        (text_of_bytes bytes.now) rest) }
{
    let mut rest = bytes;
    'chars: while let Some((first, later)) = first_char(rest) {
        text.push(first)?;
        rest = if first.is_ascii() {
            push_ascii(text, later)?
        } else {
            later
        };
    }
    Ok(())
}
