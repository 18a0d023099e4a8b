//! Strings of several parts: whether another one follows, the whole of them, and what they say.
//! One part, which is unquoted strings or quoted pieces in a row, is found in `strings`.
ghost use Rattle.std.specs.Prelude.{◌≡◌, ◌+◌, ◌*◌, ◌<◌, ◌≤◌, ◌++◌, ℕ, true, List, length, OnOk};
ghost use Rattle.std.specs.Prelude.{IfOk, MatchResult};
ghost use Rattle.std.specs.String.{string_bytes};
ghost use Rattle.resb_icu_grammar.specs.Faults.{StringFault};
ghost use Rattle.resb_icu_grammar.specs.Words as spec;
ghost use Rattle.resb_icu_grammar.specs.Words.{Text};
ghost use Rattle.resb_icu_text.specs.Inner.Found.{IsPart, IsFound, OfParts};
ghost use Rattle.resb_icu_text.specs.Inner.Parts as parts;
ghost use Rattle.resb_icu_text.specs.Inner.Parts.{Single, gap};
ghost use Rattle.resb_icu_text.specs.Inner.Reach.{reach};

use crate::blanks::{byte, skip};
use crate::error::IcuTextError;
use crate::pieces::{piece_end, push_piece};
use crate::strings::{Found, Stands, part_or};
use crate::turns::IcuTurns;
use crate::unquoted::{begins_unquoted, unquoted};
use resb_icu_grammar::IcuExpected;
use resb_tree::NoMemory;
use std::alloc::AllocError;

/// Whether a part of the other kind follows this one, which was found at a place of a text.
#[inline(always)]
pub(crate) fn another_follows(text: &str, from: usize, part: &Found<'_>) -> bool
    requires part { IsPart text.now from part.now }
    ensures { (is : IsPart text.now from part.now)
        → result ≡ spec.another_follows text.now from is.said part.now.next }
{
    if byte(text, from) == b'"' {
        part.length() != 0 && begins_unquoted(text, part.next)
    } else {
        byte(text, part.next) == b'"'
    }
}

/// The string whose first part was found at a place of a text, and whose second one follows; or the
/// fault of a later one.
#[inline(never)]
pub(crate) fn with_more<'a>(
    text: &'a str,
    from: usize,
    first: Found<'a>,
    turns: &mut IcuTurns,
) -> Result<Found<'a>, IcuTextError>
    requires part { IsPart text.now from first }
    requires follows { (is : IsPart text.now from first)
        → spec.another_follows text.now from is.said first.next ≡ true }
    ensures reads { MatchResult result (IsFound text.now from)
        (λ e. StringFault text.now from e.position e.expected) }
    ensures long { IfOk result (λ f. from + 3 ≤ f.end) }
    ensures cost { MatchResult result
        (λ f. turns.new.count + 3 * reach text.now first.entry.next
        ≤ turns.old.count + 3 * reach text.now f.next)
        (λ e. turns.new.count + 8 * reach text.now first.entry.next
        ≤ turns.old.count + 8 * length text.now + 2) }
{
    let mut length = first.length() + 1;
    let mut at = first.next;
    'parts: loop {
        let part = part_or(text, at, IcuExpected::String, turns)?;
        length += part.length();
        if another_follows(text, at, &part) {
            length += 1;
            at = part.next;
        } else {
            let Found { end, next, .. } = part;
            let stands = Stands::InParts(length);
            return Ok(Found { end, next, stands });
        }
    }
}

/// Adds what the one piece or unquoted string says that stands there, and gives the place behind
/// it. Counts two turns for each byte.
fn put_single(
    value: &mut String,
    text: &str,
    at: usize,
    turns: &mut IcuTurns,
) -> Result<usize, NoMemory>
    requires stands { (to : ℕ) × (s : List ℕ) × Single text.now at to s }
    ensures value { IfOk result (λ to. (s : List ℕ) × Single text.now at to s
        × (string_bytes value.new ≡ string_bytes value.old ++ s)) }
    ensures cost { (to : ℕ) (s : List ℕ) → Single text.now at to s
        → turns.new.count + 2 * at + 1 ≤ turns.old.count + 2 * to }
{
    if byte(text, at) == b'"' {
        let Ok(piece) = piece_end(text, at + 1, turns) else {
            unreachable!()
        };
        push_piece(value, text, at + 1, piece.last, turns)?;
        return Ok(piece.last + 1);
    }
    let Some((to, string)) = unquoted(text, at) else {
        unreachable!()
    };
    turns.add(to - at);
    value.push_str(string)?;
    Ok(to)
}

/// Whether quoted pieces begin at these two places.
fn are_pieces(text: &str, at: usize, next: usize) -> bool
    ensures { result ≡ parts.are_pieces text.now at next }
{
    byte(text, at) == b'"' && byte(text, next) == b'"'
}

/// Adds the blank that stands between the single ones which begin at these places, if one does.
fn put_gap(value: &mut String, text: &str, at: usize, next: usize) -> Result<(), AllocError>
    ensures { OnOk result
        (string_bytes value.new ≡ string_bytes value.old ++ gap text.now at next) }
{
    if are_pieces(text, at, next) {
        return Ok(());
    }
    value.push(' ')
}

/// Adds what the parts between these places say. Counts two turns for each byte.
pub(crate) fn put_parts(
    value: &mut String,
    text: &str,
    from: usize,
    end: usize,
    turns: &mut IcuTurns,
) -> Result<(), NoMemory>
    requires parts { (said : List ℕ) × OfParts text.now from end said }
    requires within { end ≤ length text.now }
    ensures value { OnOk result ((said : List ℕ) → Text text.now from end said
        → string_bytes value.new ≡ string_bytes value.old ++ said) }
    ensures cost { turns.new.count + 2 * from ≤ turns.old.count + 2 * end }
{
    let mut at = from;
    'parts: loop {
        let to = put_single(value, text, at, turns)?;
        if to == end {
            return Ok(());
        }
        let next = skip(text, to, turns);
        put_gap(value, text, at, next)?;
        at = next;
    }
}
