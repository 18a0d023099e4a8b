//! Hex digits: whether a string says pairs of them, before anything is put together.
//! What such pairs stand for is decoded in `leaf`; strings are found in `strings`.
ghost use Rattle.std.specs.Prelude.{◌≡◌, ◌≢◌, ℕ, ◌+◌, ◌*◌, ◌<◌, ◌≤◌, List, length, false};
ghost use Rattle.std.specs.Prelude.{slice_index, IfSome, IfNone, MatchOption};
ghost use Rattle.resb_grammar.specs.Ascii as ascii;
ghost use Rattle.resb_grammar.specs.Group as group;
ghost use Rattle.resb_icu_grammar.specs.Pieces.{QuotedBytes, Joined};
ghost use Rattle.resb_icu_text.specs.Inner.Digits.{are_digits, DigitAt, SaysPairs, SaysNone};
ghost use Rattle.resb_icu_text.specs.Inner.Found.{IsFound, is_of_parts};
ghost use Rattle.resb_icu_text.specs.declared.strings.Stands.TheVariants as the;

use crate::blanks::{byte, skip};
use crate::escapes::escape;
use crate::rows::row_pairs;
use crate::strings::{Found, Stands};
use crate::turns::IcuTurns;

/// Whether this is the number of a hex digit: `0` to `9`, `A` to `F`, `a` to `f`.
fn is_hex(number: u32) -> bool
    ensures { result ≡ group.is_hex number }
{
    match number {
        48..=57 | 65..=70 | 97..=102 => true,
        _ => false,
    }
}

/// Whether each byte is a hex digit.
pub(crate) fn are_hex(bytes: &[u8]) -> bool
    ensures { result ≡ are_digits bytes.now }
{
    for b in bytes {
        if !is_hex(*b as u32) {
            return false;
        }
    }
    true
}

/// The place behind the hex digit that stands here inside a quoted piece, as it is or as an escape,
/// if one does.
fn digit_end(text: &str, at: usize) -> Option<usize>
    requires within { at < length text.now }
    requires no_quote { slice_index text.now at ≢ ascii.quote }
    ensures after { IfSome result (λ to. at < to) }
    ensures digit { IfSome result (λ to. (last : ℕ) (bytes : List ℕ)
        → QuotedBytes text.now at last bytes → DigitAt text.now last bytes to) }
    ensures none { IfNone result ((last : ℕ) (bytes : List ℕ)
        → QuotedBytes text.now at last bytes → are_digits bytes ≡ false) }
{
    let b = byte(text, at);
    if b != b'\\' {
        return if is_hex(b as u32) { Some(at + 1) } else { None };
    }
    let (to, character) = escape(text, at + 1)?;
    match character {
        Some(c) => { if is_hex(c as u32) { Some(to) } else { None } }
        None => {
            if is_hex(byte(text, at + 1) as u32) {
                Some(to)
            } else {
                None
            }
        }
    }
}

/// Whether the quoted pieces between these places say hex digits alone.
fn say_digits(text: &str, from: usize, end: usize) -> bool
    requires joined { (said : List ℕ) × Joined text.now from end said }
    requires within { end ≤ length text.now }
    ensures { (said : List ℕ) → Joined text.now from end said → result ≡ are_digits said }
{
    let mut passed = IcuTurns::new();
    let mut at = from + 1;
    'digits: loop {
        if byte(text, at) != b'"' {
            match digit_end(text, at) {
                Some(to) => at = to,
                None => return false,
            }
        } else if at + 1 == end {
            return true;
        } else {
            at = skip(text, at + 1, &mut passed) + 1;
        }
    }
}

/// Whether a string says hex digits alone, where it was found at a place of a text, if it isn't
/// unquoted ones in a row.
fn says_digits(found: Found<'_>, text: &str, from: usize) -> bool
    requires found { IsFound text.now from found }
    requires other { (n : ℕ) → found.stands ≡ the.InRow n → ⊥ }
    requires alone { is_of_parts found.stands ≡ false }
    ensures { (is : IsFound text.now from found.entry) → result ≡ are_digits is.said }
{
    match found.stands {
        Stands::Whole(slice) => are_hex(slice.as_bytes()),
        Stands::InPieces(_) => say_digits(text, from, found.end),
        Stands::InRow(_) | Stands::InParts(_) => unreachable!(),
    }
}

/// How many bytes a string says as pairs of hex digits, if it says such, where it was found at a
/// place of a text: unquoted strings in a row each whole pairs, and several parts none. Nothing is
/// put together. Counts two turns for each byte of the text there: a digit is looked at here, and
/// decoded later.
pub(crate) fn hex_length(
    found: Found<'_>,
    text: &str,
    from: usize,
    turns: &mut IcuTurns,
) -> Option<usize>
    requires found { IsFound text.now from found }
    ensures pairs { MatchOption result (SaysNone text.now from found.entry)
        (SaysPairs text.now from found.entry) }
    ensures cost { turns.new.count + 2 * from ≤ turns.old.count + 2 * found.entry.end }
{
    turns.add(found.end - from);
    turns.add(found.end - from);
    if let Stands::InRow(_) = found.stands {
        return row_pairs(text, from, found.end);
    }
    if found.is_of_parts() {
        return None;
    }
    if !says_digits(found, text, from) {
        return None;
    }
    let length = found.length();
    if length % 2 == 0 {
        Some(length / 2)
    } else {
        None
    }
}
