//! Where a byte stands first, where a string in quotes may end, and where a word or a comment does.
//! Blanks are passed in `resb_grammar`; what stands behind them is found in `warning` and
//! `text_pieces`.
ghost use Rattle.std.specs.Prelude.{◌≡◌, ◌+◌, ◌<◌, ◌≤◌, length, slice_index};
ghost use Rattle.resb_grammar.specs.Ascii as ascii;
ghost use Rattle.resb_grammar.specs.ByteRuns as spec;
ghost use Rattle.resb_grammar.specs.ByteRuns.{Run};
ghost use Rattle.resb_diagnostics.specs.Inner.Tokens.{NoByte, IsFound, IsStop, IsBetween, IsQuiet};
ghost use Rattle.resb_diagnostics.specs.Inner.Tokens.{IsLineRest, IsBlockRest};

use memchr::memchr;
use resb_grammar::is_word;

/// Where this byte stands first, from one place on and before another.
pub(crate) fn first_byte(text: &[u8], byte: u8, from: usize, to: usize) -> Option<usize>
    requires { (from ≤ to) × (to ≤ length text.now) }
    ensures { IsFound byte text.now from to result }
{
    match memchr(byte, &text[from..to]) {
        Some(n) => Some(from + n),
        None => None,
    }
}

/// How many of the sixteen bytes from here on stand before the first that is this one.
#[inline(always)]
fn bytes_before(text: &[u8], from: usize, byte: u8) -> usize
    requires { from + 16 ≤ length text.now }
    ensures few { result ≤ 16 }
    ensures before { NoByte byte text.now from (from + result) }
    ensures stands { result < 16 → slice_index text.now (from + result) ≡ byte }
{
    resb_grammar::bytes_before(text, from, byte)
}

/// The first such byte, which is thought to be near: sixteen bytes are looked at at once.
pub(crate) fn near_byte(text: &[u8], byte: u8, from: usize, to: usize) -> Option<usize>
    requires { (from ≤ to) × (to ≤ length text.now) }
    ensures { IsFound byte text.now from to result }
{
    let mut at = from;
    'sixteens: while to - at >= 16 {
        let near = bytes_before(text, at, byte);
        if near < 16 {
            return Some(at + near);
        }
        at += 16;
    }
    first_byte(text, byte, at, to)
}

/// Where a quote or a backslash stands first, from a place on. Sixteen bytes are looked at at once,
/// since most strings are short.
pub(crate) fn string_stop(text: &[u8], from: usize) -> Option<usize>
    requires { from ≤ length text.now }
    ensures { IsStop text.now from result }
{
    let mut at = from;
    'sixteens: while text.len() - at >= 16 {
        let quote = bytes_before(text, at, b'"');
        let slash = bytes_before(text, at, b'\\');
        let near = quote.min(slash);
        if near < 16 {
            return Some(at + near);
        }
        at += 16;
    }
    last_stop(text, at)
}

/// The first `"` or backslash from a place on, looked for byte by byte near the text's end.
fn last_stop(text: &[u8], from: usize) -> Option<usize>
    requires { from ≤ length text.now }
    ensures { IsStop text.now from result }
{
    for at in from..text.len() {
        if text[at] == b'"' || text[at] == b'\\' {
            return Some(at);
        }
    }
    None
}

/// Where the run of word characters ends.
pub(crate) fn word_end(text: &[u8], from: usize) -> usize
    requires { from ≤ length text.now }
    ensures { Run spec.is_word text.now from result }
{
    let end = text.len();
    for at in from..end {
        if !is_word(text[at]) {
            return at;
        }
    }
    end
}

/// Behind the first line feed, or the text's end if there is none.
fn line_end(text: &[u8], from: usize) -> usize
    requires { from ≤ length text.now }
    ensures { IsLineRest text.now from result }
{
    match first_byte(text, b'\n', from, text.len()) {
        Some(end) => end + 1,
        None => text.len(),
    }
}

/// Behind the first `*/`, or the text's end if there is none.
pub(crate) fn block_end(text: &[u8], from: usize) -> usize
    requires { from ≤ length text.now }
    ensures { IsBlockRest text.now from result }
{
    let mut at = from;
    'stars: loop {
        let Some(star) = first_byte(text, b'*', at, text.len()) else {
            return text.len();
        };
        if star + 1 == text.len() {
            return star + 1;
        }
        if text[star + 1] == b'/' {
            return star + 2;
        }
        at = star + 1;
    }
}

/// Behind the comment that begins with the slash at a place, or behind the slash if none does.
pub(crate) fn comment_end(text: &[u8], at: usize) -> usize
    requires fits { at < length text.now }
    requires between { IsBetween text.now at }
    requires slash { slice_index text.now at ≡ ascii.slash }
    ensures { IsQuiet text.now at result }
{
    if at + 1 == text.len() {
        return at + 1;
    }
    match text[at + 1] {
        b'/' => line_end(text, at + 2),
        b'*' => block_end(text, at + 2),
        _ => at + 1,
    }
}
