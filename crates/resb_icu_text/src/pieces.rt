//! Quoted pieces: where one ends or has a fault, and what it says.
//! Strings of several pieces, and words, are in `strings`.
ghost use Rattle.std.specs.Prelude.{◌≡◌, ℕ, ◌+◌, ◌-◌, ◌<◌, ◌≤◌, ◌++◌, true, false, List};
ghost use Rattle.std.specs.Prelude.{length, slice_index, IfSome, IfNone};
ghost use Rattle.std.specs.Prelude.{OnOk, MatchResult};
ghost use Rattle.std.specs.String.{string_bytes};
ghost use Rattle.resb_grammar.specs.Ascii as ascii;
ghost use Rattle.resb_icu_grammar.specs.Faults.{PieceFault};
ghost use Rattle.resb_icu_grammar.specs.Pieces.{QuotedBytes};
ghost use Rattle.resb_icu_text.specs.Inner.Escaped.{bytes_of};
ghost use Rattle.resb_icu_text.specs.Inner.Stops.{FirstStop, HasNoStop, IsPiece};

use crate::blanks::byte;
use crate::error::IcuTextError;
use crate::escapes::{escape, escape_there};
use crate::turns::IcuTurns;
use memchr::memchr2;
use resb_grammar::bytes_before;
use resb_icu_grammar::IcuExpected;
use std::alloc::AllocError;

/// The first place from here on where a quote or a backslash stands, which mostly is near.
#[inline(always)]
fn first_stop(text: &str, from: usize) -> Option<usize>
    requires within { from ≤ length text.now }
    ensures found { IfSome result (FirstStop text.now from) }
    ensures none { IfNone result (HasNoStop text.now from (length text.now)) }
{
    let bytes = text.as_bytes();
    if bytes.len() - from >= 16 {
        let quote = bytes_before(bytes, from, b'"');
        let slash = bytes_before(bytes, from, b'\\');
        if quote < slash {
            return Some(from + quote);
        }
        if slash < 16 {
            return Some(from + slash);
        }
    }
    far_stop(text, from)
}

/// The next stop, where none need be near.
#[inline(never)]
fn far_stop(text: &str, from: usize) -> Option<usize>
    requires within { from ≤ length text.now }
    ensures found { IfSome result (FirstStop text.now from) }
    ensures none { IfNone result (HasNoStop text.now from (length text.now)) }
{
    match memchr2(b'"', b'\\', &text.as_bytes()[from..]) {
        Some(n) => Some(from + n),
        None => None,
    }
}

/// Where a piece ends: the place of its closing quote, whether no escape stands in it, and how many
/// bytes it says.
#[derive(Clone, Copy)]
pub(crate) struct Piece {
    pub(crate) last: usize,
    pub(crate) is_plain: bool,
    pub(crate) length: usize,
}

/// Where the piece ends whose first quote stands right before this place; or its fault. Counts a
/// turn for each byte up to the closing quote, and one for that.
#[inline(always)]
pub(crate) fn piece_end(
    text: &str,
    from: usize,
    turns: &mut IcuTurns,
) -> Result<Piece, IcuTextError>
    requires within { (0 < from) × (from ≤ length text.now) }
    ensures reads { MatchResult result (IsPiece text.now from)
        (λ e. PieceFault text.now (from - 1) from e.position e.expected) }
    ensures cost { MatchResult result
        (λ p. turns.new.count + from ≤ turns.old.count + p.last + 1)
        (λ e. turns.new.count + from ≤ turns.old.count + length text.now) }
{
    let mut at = from;
    let mut is_plain = true;
    let mut length = 0;
    'piece: loop {
        let Some(stop) = first_stop(text, at) else {
            turns.add(text.len() - at);
            return Err(IcuTextError::new(from - 1, IcuExpected::ClosingQuote));
        };
        length += stop - at;
        if byte(text, stop) == b'"' {
            turns.add(stop - at + 1);
            return Ok(Piece {
                last: stop,
                is_plain,
                length,
            });
        }
        let Some((to, c)) = escape(text, stop + 1) else {
            turns.add(text.len() - at);
            return Err(IcuTextError::new(stop, escape_there(text, stop + 1)));
        };
        turns.add(to - at);
        length += escaped_length(c);
        at = to;
        is_plain = false;
    }
}

/// How many bytes an escape stands for: those of the character, or the one that stands for itself.
fn escaped_length(c: Option<char>) -> usize
    ensures { (b : ℕ) → result ≡ length (bytes_of b c) }
{
    match c {
        Some(c) => c.len_utf8(),
        None => 1,
    }
}

/// Adds what a piece says, given the place behind its first quote and that of its closing one.
/// Counts a turn for each byte between the two.
pub(crate) fn push_piece(
    value: &mut String,
    text: &str,
    from: usize,
    last: usize,
    turns: &mut IcuTurns,
) -> Result<(), AllocError>
    requires inside { (bytes : List ℕ) × QuotedBytes text.now from last bytes }
    requires opens { (0 < from) × (slice_index text.now (from - 1) ≡ ascii.quote) }
    requires within { (from ≤ last) × (last < length text.now) }
    ensures value { OnOk result ((bytes : List ℕ) → QuotedBytes text.now from last bytes
        → string_bytes value.new ≡ string_bytes value.old ++ bytes) }
    ensures cost { turns.new.count + from ≤ turns.old.count + last }
{
    turns.add(last - from);
    let mut start = from;
    let mut at = from;
    'piece: while at < last {
        if byte(text, at) == b'\\' {
            value.push_str(&text[start..at])?;
            match escape(text, at + 1) {
                Some((to, Some(c))) => {
                    value.push(c)?;
                    start = to;
                    at = to;
                }
                Some((to, None)) => {
                    start = at + 1;
                    at = to;
                }
                None => unreachable!(),
            }
        } else {
            at += 1;
        }
    }
    value.push_str(&text[start..last])
}
