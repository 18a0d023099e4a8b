//! Where a word, a string in quotes or a comment of a text of ICU's form ends, and whether a line
//! ended or a `:` stood on the way.
//! Blanks are passed in `resb_grammar`; what stands at a place is found in `icu_steps`.
ghost use Rattle.std.specs.Prelude.{◌≡◌, ◌+◌, ◌<◌, ◌≤◌, ◌||◌, ◌==◌, length, slice_index, true};
ghost use Rattle.std.specs.Prelude.{false};
ghost use Rattle.resb_grammar.specs.Ascii as ascii;
ghost use Rattle.resb_grammar.specs.ByteRuns as bytes;
ghost use Rattle.resb_icu_grammar.specs.Bytes as words;
ghost use Rattle.resb_icu_grammar.specs.Unquoted as unquoted;
ghost use Rattle.resb_diagnostics.specs.IcuWarnings as spec;
ghost use Rattle.resb_diagnostics.specs.IcuWarnings.{line_ended};
ghost use Rattle.resb_diagnostics.specs.Inner.IcuTokens.{IsIcuBetween, IsIcuQuiet, IsSilent};
ghost use Rattle.resb_diagnostics.specs.Inner.IcuTokens.{IsInQuotes, IsQuotedRest, IsIcuLineRest};
ghost use Rattle.resb_diagnostics.specs.Inner.IcuTokens.{IsWordRest, IsBefore};

use crate::runs::{block_end, string_stop};

/// What stands before a place.
#[derive(Clone, Copy)]
pub(crate) struct Before {
    /// Whether a line ended there, behind the last byte of a word or in quotes.
    pub has_ended: bool,
    /// Whether a `:` stands there, behind the last byte of a word or in quotes.
    pub has_colon: bool,
}

/// Whether this byte ends a line: LF or CR.
#[inline(always)]
fn is_line_end(byte: u8) -> bool
    ensures { result ≡ bytes.is_line_end byte }
{
    byte == b'\n' || byte == b'\r'
}

/// Whether a byte may stand in an unquoted string.
#[inline(always)]
pub(crate) fn is_unquoted(byte: u8) -> bool
    ensures { result ≡ words.is_unquoted byte }
{
    match byte {
        0 | b'\t' | b'\n' | b'\r' | b' ' | b'"' | b',' | b':' | b'\\' | b'{' | b'}' => false,
        _ => true,
    }
}

/// Whether a comment begins at a place, or seems to.
#[inline(always)]
pub(crate) fn begins_comment(text: &[u8], at: usize) -> bool
    requires { at < length text.now }
    ensures { result ≡ unquoted.begins_comment text.now at }
{
    text[at] == b'/' && at + 1 < text.len() && (text[at + 1] == b'/' || text[at + 1] == b'*')
}

/// Whether a word goes on with the byte at a place.
#[inline(always)]
pub(crate) fn word_goes_on(text: &[u8], at: usize) -> bool
    requires { at < length text.now }
    ensures { result ≡ spec.word_goes_on text.now at }
{
    is_unquoted(text[at]) && !begins_comment(text, at)
}

/// Where a word ends that goes on from a place.
#[inline(always)]
pub(crate) fn icu_word_end(text: &[u8], from: usize) -> usize
    requires { from ≤ length text.now }
    ensures { IsWordRest text.now from result }
{
    let end = text.len();
    for at in from..end {
        if !word_goes_on(text, at) {
            return at;
        }
    }
    end
}

/// Behind the quote that closes a string, or the text's end if none does. A backslash hides the
/// byte behind it.
#[inline(always)]
pub(crate) fn quotes_end(text: &[u8], from: usize) -> usize
    requires fits { from ≤ length text.now }
    requires quoted { IsInQuotes text.now from }
    ensures { IsQuotedRest text.now from result }
{
    let mut at = from;
    'stops: loop {
        let Some(stop) = string_stop(text, at) else {
            return text.len();
        };
        if text[stop] == b'"' {
            return stop + 1;
        }
        if stop + 1 == text.len() {
            return text.len();
        }
        at = stop + 2;
    }
}

/// Behind the first line feed or carriage return, or the text's end if there is none.
fn icu_line_end(text: &[u8], from: usize) -> usize
    requires { from ≤ length text.now }
    ensures { IsIcuLineRest text.now from result }
{
    let end = text.len();
    for at in from..end {
        if is_line_end(text[at]) {
            return at + 1;
        }
    }
    end
}

/// Behind the comment that begins at a place. The byte right behind a `/*` doesn't end what it
/// begins.
pub(crate) fn icu_comment_end(text: &[u8], at: usize) -> usize
    requires fits { at + 1 < length text.now }
    requires between { IsIcuBetween text.now at }
    requires begins { unquoted.begins_comment text.now at ≡ true }
    ensures { IsIcuQuiet text.now at result }
{
    if text[at + 1] == b'/' {
        return icu_line_end(text, at + 2);
    }
    if at + 2 == text.len() {
        return at + 2;
    }
    block_end(text, at + 3)
}

/// Whether a line ended before a place, behind the last byte of a word or in quotes. No such byte
/// stands from another place on, before which a line ended or not.
#[inline(always)]
fn ended_behind(text: &[u8], from: usize, to: usize, has_ended: bool) -> bool
    requires order { from ≤ to }
    requires fits { to ≤ length text.now }
    requires silence { IsSilent text.now from to }
    requires ended { has_ended ≡ line_ended text.now from }
    ensures { result ≡ line_ended text.now to }
{
    if has_ended {
        return true;
    }
    for at in from..to {
        if is_line_end(text[at]) {
            return true;
        }
    }
    false
}

/// What stands before a place behind another one, of which this is said. Between them is no byte of
/// a word or in quotes, and no `:`.
#[inline(always)]
pub(crate) fn passed(text: &[u8], from: usize, to: usize, before: Before) -> Before
    requires order { from ≤ to }
    requires fits { to ≤ length text.now }
    requires silence { IsSilent text.now from to }
    requires before { IsBefore text.now from before }
    ensures { IsBefore text.now to result }
{
    Before {
        has_ended: ended_behind(text, from, to, before.has_ended),
        has_colon: before.has_colon,
    }
}

/// What stands before the place behind a byte that is none of a word, and ends no line.
#[inline(always)]
pub(crate) fn passed_byte(byte: u8, before: Before) -> Before
    ensures ended { result.has_ended ≡ before.has_ended }
    ensures colon { result.has_colon ≡ (byte == ascii.colon || before.has_colon) }
{
    Before {
        has_ended: before.has_ended,
        has_colon: byte == b':' || before.has_colon,
    }
}

impl Before {
    /// Behind a word or what stands in quotes, or at the start of a text.
    #[inline(always)]
    pub(crate) fn nothing() -> Before
        ensures { (result.has_ended ≡ false) × (result.has_colon ≡ false) }
    {
        Before {
            has_ended: false,
            has_colon: false,
        }
    }
}
