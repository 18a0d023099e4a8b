//! Strings, and the parts of one: unquoted ones in a row, or all quoted pieces in a row.
//! What stands in a piece is said in `pieces`; strings of several parts are in `parts`.
ghost use Rattle.std.specs.Prelude.{◌≡◌, ◌+◌, ◌-◌, ◌*◌, ◌<◌, ◌≤◌, ◌++◌, ℕ, true, false, List};
ghost use Rattle.std.specs.Prelude.{length, slice_index, IfSome, IfNone, IfOk, OnOk};
ghost use Rattle.std.specs.Prelude.{MatchOption, MatchResult};
ghost use Rattle.std.specs.Cow.{cow_str_bytes};
ghost use Rattle.std.specs.String.{string_bytes};
ghost use Rattle.resb_grammar.specs.Ascii as ascii;
ghost use Rattle.resb_icu_text.specs.Inner.Reach.{reach};
ghost use Rattle.resb_icu_grammar.specs.Faults.{PiecesFault};
ghost use Rattle.resb_icu_grammar.specs.Limit.{joining_bytes, is_joined};
ghost use Rattle.resb_icu_grammar.specs.Pieces.{Joined};
ghost use Rattle.resb_icu_grammar.specs.Stuck.{NoStringAt};
ghost use Rattle.resb_icu_grammar.specs.Words.{Text};
ghost use Rattle.resb_tree.specs.Borrowing.{is_slice};
ghost use Rattle.resb_tree.specs.Weights.{text_byte_weight};
ghost use Rattle.resb_icu_text.specs.Lexemes.{IsLexeme};
ghost use Rattle.resb_icu_text.specs.Inner.Ahead.{StringFails, PartFails, NoneBegins};
ghost use Rattle.resb_icu_text.specs.Inner.Found.{IsPart, IsFound, Shows, length_of};
ghost use Rattle.resb_icu_text.specs.Inner.Found.{IsSaid, fits_key, is_whole, is_of_parts};
ghost use Rattle.resb_icu_text.specs.Inner.Found.{turns_to_make};

use crate::blanks::{byte, skip};
use crate::error::IcuTextError;
use crate::parts::{another_follows, put_parts, with_more};
use crate::pieces::{piece_end, push_piece};
use crate::quota::{REQUEST, text_bytes};
use crate::rows::{put_row, row_goes_on};
use crate::turns::IcuTurns;
use crate::unquoted::unquoted;
use resb_icu_grammar::{IcuExpected, are_key_bytes};
use resb_tree::NoMemory;
use std::alloc::Global;
use std::borrow::CowStr;

/// What a string says.
#[derive(Drop)]
pub enum Said<'a> {
    /// It stands in the text as it is.
    Slice(&'a str),
    /// It was put together of pieces and escapes.
    Built(String),
}

/// A string, and the places behind it.
#[derive(Drop)]
pub struct Lexeme<'a> {
    /// The place behind it, in bytes from the text's start.
    pub end: usize,
    /// The place behind the blanks that follow it.
    pub next: usize,
    /// What it says.
    pub said: Said<'a>,
}

/// What stands in a text as a string.
#[derive(Clone, Copy)]
pub(crate) enum Stands<'a> {
    /// A slice of the text.
    Whole(&'a str),
    /// Pieces and escapes that say so many bytes, which have to be put together.
    InPieces(usize),
    /// Unquoted strings in a row, which have to be put together too.
    InRow(usize),
    /// Parts of both kinds, which have to be put together too.
    InParts(usize),
}

/// A string that was found in a text, of which nothing is made yet, and the places behind it.
#[derive(Clone, Copy)]
pub(crate) struct Found<'a> {
    pub(crate) end: usize,
    pub(crate) next: usize,
    pub(crate) stands: Stands<'a>,
}

impl<'a> Found<'a> {
    /// How many bytes it says.
    pub(crate) fn length(&self) -> usize
        ensures { result ≡ length_of self.now.stands }
    {
        match &self.stands {
            Stands::Whole(slice) => slice.len(),
            Stands::InPieces(length) | Stands::InRow(length) | Stands::InParts(length) => *length,
        }
    }

    /// Whether it has several parts.
    pub(crate) fn is_of_parts(&self) -> bool
        ensures { result ≡ is_of_parts self.now.stands }
    {
        matches!(self.stands, Stands::InParts(_))
    }

    /// Whether it has to be put together, where it was found at a place of a text: a quoted one
    /// that takes more of the text than what it says and two quotes, unquoted ones in a row, and
    /// parts of both kinds.
    fn is_put_together(&self, text: &str, from: usize) -> bool
        requires found { IsFound text.now from self.now }
        ensures { (is : IsFound text.now from self.now)
            → result ≡ is_joined is.string }
    {
        if self.is_of_parts() {
            return true;
        }
        if byte(text, from) == b'"' {
            return self.end - from - self.length() > 2;
        }
        match self.stands {
            Stands::InRow(_) => true,
            Stands::InPieces(_) => true,
            Stands::InParts(_) => true,
            Stands::Whole(_) => false,
        }
    }

    /// What its bytes make, where it was found at a place of a text: 3 for each; 32 more, and 1 for
    /// each, where it has to be put together.
    pub(crate) fn bytes_made(&self, text: &str, from: usize) -> u128
        requires found { IsFound text.now from self.now }
        ensures made { (s : List ℕ) → (t : Text text.now from self.now.end s)
            → result ≡ text_byte_weight * length s + joining_bytes t }
        ensures most { result ≤ 4 * length_of self.now.stands + 32 }
    {
        let bytes = text_bytes(self.length());
        if self.is_put_together(text, from) {
            bytes + REQUEST + self.length() as u128
        } else {
            bytes
        }
    }

    /// What it says as a slice of the text, if it may be a key. Counts a turn for each byte.
    pub(crate) fn key(&self, turns: &mut IcuTurns) -> Option<&'a str>
        ensures key { MatchOption result (fits_key self.now.stands ≡ false)
            (λ k. (fits_key self.now.stands ≡ true)
            × ((text said : List ℕ) (from : ℕ) → Shows text from self.now.end said self.now.stands
            → k.now ≡ said)) }
        ensures cost { turns.new.count ≤ turns.old.count + length_of self.now.stands }
    {
        match &self.stands {
            Stands::Whole(slice) => {
                turns.add(slice.len());
                if are_key_bytes(slice.as_bytes()) {
                    Some(*slice)
                } else {
                    None
                }
            }
            Stands::InPieces(_) | Stands::InRow(_) | Stands::InParts(_) => None,
        }
    }

    /// What it says, where it was found at a place of a text. Counts two turns for each byte of
    /// pieces or strings that have to be put together, and takes memory for just what they say.
    #[inline(always)]
    fn said(
        self,
        alloc: Global,
        text: &'a str,
        from: usize,
        turns: &mut IcuTurns,
    ) -> Result<Said<'a>, NoMemory>
        requires found { IsFound text.now from self }
        ensures says { IfOk result (IsSaid text.now from self.entry) }
        ensures cost { let bytes = self.entry.end - from in turns.new.count
            ≤ turns.old.count + turns_to_make bytes self.entry.stands }
    {
        match self.stands {
            Stands::Whole(slice) => Ok(Said::Slice(slice)),
            Stands::InPieces(length) => {
                let mut value = String::with_capacity(alloc, length)?;
                put_together(&mut value, text, from, self.end, turns)?;
                Ok(Said::Built(value))
            }
            Stands::InRow(length) => {
                let mut value = String::with_capacity(alloc, length)?;
                put_row(&mut value, text, from, self.end, turns)?;
                Ok(Said::Built(value))
            }
            Stands::InParts(length) => {
                let mut value = String::with_capacity(alloc, length)?;
                put_parts(&mut value, text, from, self.end, turns)?;
                Ok(Said::Built(value))
            }
        }
    }

    /// The text that it says, where it was found at a place of a text. Counts as many turns.
    #[inline(always)]
    pub(crate) fn text(
        self,
        alloc: Global,
        text: &'a str,
        from: usize,
        turns: &mut IcuTurns,
    ) -> Result<CowStr<'a>, NoMemory>
        requires found { IsFound text.now from self }
        ensures says { IfOk result (λ t. (is_slice t ≡ is_whole self.entry.stands)
            × ((is : IsFound text.now from self.entry) → cow_str_bytes t ≡ is.said)) }
        ensures cost { let bytes = self.entry.end - from in turns.new.count
            ≤ turns.old.count + turns_to_make bytes self.entry.stands }
    {
        match self.said(alloc, text, from, turns)? {
            Said::Slice(slice) => Ok(CowStr::Borrowed(slice)),
            Said::Built(built) => Ok(CowStr::Owned(built)),
        }
    }
}

/// Adds what the quoted pieces say that stand between these places. Counts two turns for each byte.
#[tactic(auto, using(crate::proofs::ReachLemmas::reached))]
fn put_together(
    value: &mut String,
    text: &str,
    from: usize,
    end: usize,
    turns: &mut IcuTurns,
) -> Result<(), NoMemory>
    requires joined { (said : List ℕ) × Joined text.now from end said }
    requires within { end ≤ length text.now }
    ensures value { OnOk result ((said : List ℕ) → Joined text.now from end said
        → string_bytes value.new ≡ string_bytes value.old ++ said) }
    ensures cost { turns.new.count + 2 * from ≤ turns.old.count + 2 * end }
{
    let mut at = from;
    'pieces: loop {
        let Ok(piece) = piece_end(text, at + 1, turns) else {
            unreachable!()
        };
        push_piece(value, text, at + 1, piece.last, turns)?;
        if piece.last + 1 == end {
            return Ok(());
        }
        at = skip(text, piece.last + 1, turns);
    }
}

/// The string that begins at a place of a text: unquoted ones in a row, and all quoted pieces that
/// stand in a row with nothing but blanks between them, in turn. `None` where none does; refused is
/// want of memory alone. One unquoted string and one piece without escapes are slices of the text;
/// others are built.
pub fn string<'a>(
    alloc: Global,
    text: &'a str,
    from: usize,
    turns: &mut IcuTurns,
) -> Result<Option<Lexeme<'a>>, NoMemory>
    requires within { from ≤ length text.now }
    ensures found { IfOk result (λ o. IfSome o (IsLexeme text.now from)) }
    ensures none { IfOk result (λ o. IfNone o (NoStringAt text.now from)) }
    ensures cost { IfOk result (λ o. IfSome o (λ l. turns.new.count + 6 * reach text.now from + 3
        ≤ turns.old.count + 6 * reach text.now l.next)) }
    ensures most { turns.new.count + 8 * reach text.now from
        ≤ turns.old.count + 8 * length text.now + 2 }
{
    match found_or(text, from, IcuExpected::String, turns) {
        Ok(found) => {
            let said = found.said(alloc, text, from, turns)?;
            Ok(Some(Lexeme {
                end: found.end,
                next: found.next,
                said,
            }))
        }
        Err(_) => Ok(None),
    }
}

/// The string that begins here, of which nothing is made; or, where none does, what is told in its
/// place: the fault of a string in quotes, or else that this was expected. The turns that it takes
/// to make it are left over.
#[tactic(auto, using(crate::proofs::ReachLemmas::reached))]
#[inline(always)]
pub(crate) fn found_or<'a>(
    text: &'a str,
    from: usize,
    expected: IcuExpected,
    turns: &mut IcuTurns,
) -> Result<Found<'a>, IcuTextError>
    requires within { from ≤ length text.now }
    ensures reads { MatchResult result (IsFound text.now from)
        (StringFails text.now from expected) }
    ensures cost { MatchResult result
        (λ f. let bytes = f.end - from in
        turns.new.count + 6 * reach text.now from + 3 + turns_to_make bytes f.stands
        ≤ turns.old.count + 6 * reach text.now f.next)
        (λ e. turns.new.count + 8 * reach text.now from
        ≤ turns.old.count + 8 * length text.now + 2) }
{
    let first = part_or(text, from, expected, turns)?;
    if another_follows(text, from, &first) {
        return with_more(text, from, first, turns);
    }
    Ok(first)
}

/// The part of a string that begins here, or what is told in its place.
#[tactic(auto, using(crate::proofs::ReachLemmas::reached))]
#[inline(always)]
pub(crate) fn part_or<'a>(
    text: &'a str,
    from: usize,
    expected: IcuExpected,
    turns: &mut IcuTurns,
) -> Result<Found<'a>, IcuTextError>
    requires within { from ≤ length text.now }
    ensures reads { MatchResult result (IsPart text.now from) (PartFails text.now from expected) }
    ensures cost { MatchResult result
        (λ f. let bytes = f.end - from in
        turns.new.count + 6 * reach text.now from + 3 + turns_to_make bytes f.stands
        ≤ turns.old.count + 6 * reach text.now f.next)
        (λ e. turns.new.count + 8 * reach text.now from
        ≤ turns.old.count + 8 * length text.now + 2) }
    ensures cheap { IfOk result
        (λ f. turns.new.count + 3 * from ≤ turns.old.count + 3 * reach text.now f.next) }
{
    if byte(text, from) == b'"' {
        return quoted(text, from, turns);
    }
    match row(text, from, turns) {
        Some(found) => Ok(found),
        None => Err(IcuTextError::new(from, expected)),
    }
}

/// The unquoted strings in a row that begin here, if one does.
#[tactic(auto, using(crate::proofs::ReachLemmas::reached))]
fn row<'a>(text: &'a str, from: usize, turns: &mut IcuTurns) -> Option<Found<'a>>
    requires within { from ≤ length text.now }
    ensures reads { MatchOption result (NoneBegins text.now from) (IsPart text.now from) }
    ensures cost { MatchOption result (turns.new.count ≤ turns.old.count + 1)
        (λ f. let bytes = f.end - from in
        turns.new.count + 6 * reach text.now from + 3 + turns_to_make bytes f.stands
        ≤ turns.old.count + 6 * reach text.now f.next) }
    ensures cheap { IfSome result
        (λ f. turns.new.count + 3 * from ≤ turns.old.count + 3 * reach text.now f.next) }
{
    turns.add(1);
    let mut at = from;
    let mut length = 0;
    'row: loop {
        let Some((end, string)) = unquoted(text, at) else {
            return None;
        };
        turns.add(end - at);
        let next = skip(text, end, turns);
        length += string.len();
        if row_goes_on(text, end, next) {
            length += 1;
            at = next;
        } else if at == from {
            let stands = Stands::Whole(string);
            return Some(Found { end, next, stands });
        } else {
            let stands = Stands::InRow(length);
            return Some(Found { end, next, stands });
        }
    }
}

/// The quoted pieces that begin here, or the fault of one.
#[tactic(auto, using(crate::proofs::ReachLemmas::reached))]
#[inline(always)]
fn quoted<'a>(text: &'a str, from: usize, turns: &mut IcuTurns) -> Result<Found<'a>, IcuTextError>
    requires within { from < length text.now }
    requires opens { slice_index text.now from ≡ ascii.quote }
    ensures reads { MatchResult result (IsPart text.now from)
        (λ e. PiecesFault text.now from e.position e.expected) }
    ensures cost { MatchResult result
        (λ f. let bytes = f.end - from in
        turns.new.count + 6 * reach text.now from + 3 + turns_to_make bytes f.stands
        ≤ turns.old.count + 6 * reach text.now f.next)
        (λ e. turns.new.count + 8 * reach text.now from
        ≤ turns.old.count + 8 * length text.now + 2) }
    ensures cheap { IfOk result
        (λ f. turns.new.count + 3 * from ≤ turns.old.count + 3 * reach text.now f.next) }
{
    let mut at = from;
    let mut length = 0;
    'pieces: loop {
        let piece = piece_end(text, at + 1, turns)?;
        let end = piece.last + 1;
        let next = skip(text, end, turns);
        length += piece.length;
        if byte(text, next) == b'"' {
            at = next;
        } else if at == from && piece.is_plain {
            let stands = Stands::Whole(&text[from + 1..piece.last]);
            return Ok(Found { end, next, stands });
        } else {
            let stands = Stands::InPieces(length);
            return Ok(Found { end, next, stands });
        }
    }
}
