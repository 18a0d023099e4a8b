//! The pieces of a text: strings, types, braces and commas. Strings and types are found here, from
//! place to place; braces and commas are seen in `warning`.
//! Where a string or a comment ends is found in `runs`; what the pieces say of groups is in
//! `groups`.
ghost use Rattle.std.specs.Prelude.{◌≡◌, ◌==◌, ◌+◌, ◌<◌, length, slice_index, true, false};
ghost use Rattle.std.specs.Prelude.{None};
ghost use Rattle.resb_grammar.specs.Ascii as ascii;
ghost use Rattle.resb_grammar.specs.ByteRuns as bytes;
ghost use Rattle.resb_diagnostics.specs.Pieces.{is_behind_colon};
ghost use Rattle.resb_diagnostics.specs.Braces as braces;
ghost use Rattle.resb_diagnostics.specs.Inner.Tokens.{IsBetween, IsToken, IsQuiet, IsFirst};
ghost use Rattle.resb_diagnostics.specs.Inner.Tokens.{IsFound};
ghost use Rattle.resb_diagnostics.specs.Inner.Tokens.{one_byte_piece};

use crate::runs::{comment_end, first_byte, string_stop, word_end};
use resb_grammar::is_word;

/// A string of a text.
#[derive(Clone, Copy)]
pub(crate) struct StringAt<'a> {
    /// Its bytes, without quotes.
    pub content: &'a [u8],
    /// Where it begins, with its quote, in bytes from the text's start.
    pub place: usize,
}

/// A piece of a text.
#[derive(Clone, Copy)]
pub(crate) enum Piece<'a> {
    /// A string, be it a key or not, or a number.
    String(StringAt<'a>),
    /// The name of a type, or the root's `nofallback`.
    Type(&'a [u8]),
    /// A `{`.
    Open,
    /// A `}`, and where it stands.
    Close(usize),
    /// A `,`, and where it stands.
    Comma(usize),
}

/// What stands at a place between pieces.
#[derive(Clone, Copy)]
pub(crate) struct Token<'a> {
    /// The piece that ends there, if one does.
    pub piece: Option<Piece<'a>>,
    /// The first backslash, if it is a string in quotes that has one.
    pub backslash: Option<usize>,
    /// Behind it.
    pub end: usize,
}

/// What stands at a place where neither a blank does nor a byte that is a piece.
pub(crate) fn token_at(text: &[u8], at: usize) -> Token<'_>
    requires fits { at < length text.now }
    requires between { IsBetween text.now at }
    requires no_piece { one_byte_piece at (slice_index text.now at) ≡ None }
    ensures { IsToken text.now at result }
{
    let byte = text[at];
    if byte == b'"' {
        return quoted(text, at);
    }
    if is_word(byte) {
        return word(text, at);
    }
    Token {
        piece: None,
        backslash: None,
        end: behind_other(text, at, byte),
    }
}

/// The end of a comment, or of a byte that is nothing by itself.
fn behind_other(text: &[u8], at: usize, byte: u8) -> usize
    requires fits { at < length text.now }
    requires between { IsBetween text.now at }
    requires byte { byte ≡ slice_index text.now at }
    requires not_word { bytes.is_word byte ≡ false }
    requires not_quote { (byte == ascii.quote) ≡ false }
    requires no_piece { one_byte_piece at byte ≡ None }
    ensures { IsQuiet text.now at result }
{
    if byte == b'/' {
        comment_end(text, at)
    } else {
        at + 1
    }
}

/// The string in quotes that begins at a place, or what is left of the text, if it doesn't end.
fn quoted(text: &[u8], at: usize) -> Token<'_>
    requires fits { at < length text.now }
    requires between { IsBetween text.now at }
    requires quote { slice_index text.now at ≡ ascii.quote }
    ensures { IsToken text.now at result }
{
    let Some(stop) = string_stop(text, at + 1) else {
        return open_string(text, None);
    };
    if text[stop] == b'"' {
        return closed_string(text, at, stop, None);
    }
    let Some(end) = first_byte(text, b'"', stop, text.len()) else {
        return open_string(text, Some(stop));
    };
    closed_string(text, at, end, Some(stop))
}

/// What is left of a text, behind a quote that nothing closes.
fn open_string<'a>(text: &[u8], backslash: Option<usize>) -> Token<'a>
    ensures piece { result.piece ≡ None }
    ensures backslash { result.backslash ≡ backslash }
    ensures end { result.end ≡ length text.now }
{
    Token {
        piece: None,
        backslash,
        end: text.len(),
    }
}

/// The string between the quotes at two places.
fn closed_string(text: &[u8], at: usize, end: usize, backslash: Option<usize>) -> Token<'_>
    requires between { IsBetween text.now at }
    requires quote { slice_index text.now at ≡ ascii.quote }
    requires closes { IsFirst ascii.quote text.now (at + 1) (length text.now) end }
    requires found { IsFound braces.backslash text.now (at + 1) end backslash }
    ensures { IsToken text.now at result }
{
    let string = StringAt {
        content: &text[at + 1..end],
        place: at,
    };
    Token {
        piece: Some(Piece::String(string)),
        backslash,
        end: end + 1,
    }
}

/// The word that begins at a place.
fn word(text: &[u8], at: usize) -> Token<'_>
    requires fits { at < length text.now }
    requires between { IsBetween text.now at }
    requires word { bytes.is_word (slice_index text.now at) ≡ true }
    ensures { IsToken text.now at result }
{
    let end = word_end(text, at);
    let content = &text[at..end];
    let piece = if is_behind(text, at) {
        Piece::Type(content)
    } else {
        Piece::String(StringAt { content, place: at })
    };
    Token {
        piece: Some(piece),
        backslash: None,
        end,
    }
}

/// Whether a `:` or a `(` stands right before a place.
fn is_behind(text: &[u8], place: usize) -> bool
    requires { place < length text.now }
    ensures { result ≡ is_behind_colon text.now place }
{
    0 < place && (text[place - 1] == b':' || text[place - 1] == b'(')
}
