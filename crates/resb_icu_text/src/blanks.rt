//! What stands between the tokens: white characters and comments.
//! Places count bytes of the text from its start.
ghost use Rattle.std.specs.Prelude.{◌≡◌, ℕ, ◌+◌, ◌*◌, ◌^◌, ◌<◌, ◌≤◌, length};
ghost use Rattle.std.specs.Prelude.{slice_index};
ghost use Rattle.std.specs.Prelude.{IfSome, IfNone};
ghost use Rattle.resb_grammar.specs.Ascii as ascii;
ghost use Rattle.resb_grammar.specs.ByteRuns as spec;
ghost use Rattle.resb_grammar.specs.ByteRuns.{Each};
ghost use Rattle.resb_grammar.specs.Lexical.{FirstCloser};
ghost use Rattle.resb_icu_grammar.specs.Blanks.{are_there, LineRest, Comment, Skip};
ghost use Rattle.resb_icu_grammar.specs.Unquoted as unquoted;
ghost use Rattle.resb_icu_text.specs.Inner.Reach.{reach};

use crate::turns::IcuTurns;
use resb_grammar::blanks_end;

/// The byte there, or 0 past the end.
pub(crate) fn byte(text: &str, at: usize) -> u8
    ensures byte { result ≡ slice_index text.now at }
    ensures inside { 0 < result → at < length text.now }
    ensures fits { length text.now < 2 ^ 64 }
{
    if at < text.len() {
        text.as_bytes()[at]
    } else {
        0
    }
}

/// Whether a comment begins there, or seems to.
#[inline(always)]
pub(crate) fn begins_comment(text: &str, at: usize) -> bool
    ensures { result ≡ unquoted.begins_comment text.now at }
{
    byte(text, at) == b'/' && (byte(text, at + 1) == b'/' || byte(text, at + 1) == b'*')
}

/// Whether the character U+2029 stands there.
fn is_paragraph_end(text: &str, at: usize) -> bool
    requires { at < length text.now }
    ensures { result ≡ are_there 0xe2 0x80 0xa9 text.now at }
{
    byte(text, at) == 0xe2 && byte(text, at + 1) == 0x80 && byte(text, at + 2) == 0xa9
}

/// Where the line of a comment ends, if no U+2029 stands in it.
fn line_end(text: &str, from: usize) -> Option<usize>
    requires within { from ≤ length text.now }
    ensures found { IfSome result (LineRest text.now from) }
    ensures none { IfNone result ((to : ℕ) → LineRest text.now from to → ⊥) }
{
    let end = text.len();
    for at in from..end {
        let b = byte(text, at);
        if b == b'\n' || b == b'\r' {
            return Some(at);
        }
        if is_paragraph_end(text, at) {
            return None;
        }
    }
    Some(end)
}

/// Where the first `*/` stands.
fn first_closer(text: &str, from: usize) -> Option<usize>
    requires within { from ≤ length text.now }
    ensures found { IfSome result (FirstCloser text.now from) }
    ensures inside { IfSome result (λ at. at + 2 ≤ length text.now) }
    ensures none { IfNone result ((at : ℕ) → FirstCloser text.now from at → ⊥) }
{
    let end = text.len();
    for at in from..end {
        if byte(text, at) == b'*' && byte(text, at + 1) == b'/' {
            return Some(at);
        }
    }
    None
}

/// Where the comment that begins here ends.
fn comment_end(text: &str, from: usize) -> Option<usize>
    requires slash { slice_index text.now from ≡ ascii.slash }
    ensures found { IfSome result (Comment text.now from) }
    ensures none { IfNone result ((to : ℕ) → Comment text.now from to → ⊥) }
    ensures within { IfSome result (λ to. (from < to) × (to ≤ length text.now)) }
{
    match byte(text, from + 1) {
        b'/' => line_end(text, from + 2),
        b'*' => block_end(text, from + 2),
        _ => None,
    }
}

/// Where a comment ends that begins with `/*`, given the place behind that. At least one character
/// stands before its `*/`.
fn block_end(text: &str, from: usize) -> Option<usize>
    requires within { from ≤ length text.now }
    ensures found { IfSome result (λ to. (at : ℕ) × FirstCloser text.now (from + 1) at
        × (to ≡ at + 2)) }
    ensures none { IfNone result ((at : ℕ) → FirstCloser text.now (from + 1) at → ⊥) }
    ensures within { IfSome result (λ to. (from < to) × (to ≤ length text.now)) }
{
    if from == text.len() {
        return None;
    }
    match first_closer(text, from + 1) {
        Some(at) => Some(at + 2),
        None => None,
    }
}

/// Behind the space that stands there, if one does.
#[inline(always)]
fn behind_space(text: &str, from: usize) -> usize
    requires within { from ≤ length text.now }
    ensures order { from ≤ result }
    ensures fits { result ≤ length text.now }
    ensures each { Each spec.is_white text.now from result }
{
    if byte(text, from) == b' ' {
        from + 1
    } else {
        from
    }
}

/// Where the white characters and comments end that begin at a place of a text: mostly there, or
/// behind one space. Counts a turn for each byte up to there, one for each round of its loop, which
/// passes white characters and a comment, and one for each byte of the text behind a comment that
/// has no end.
#[inline(always)]
pub fn skip(text: &str, from: usize, turns: &mut IcuTurns) -> usize
    requires within { from ≤ length text.now }
    ensures skip { Skip text.now from result }
    ensures order { from ≤ result }
    ensures fits { result ≤ length text.now }
    ensures cost { turns.new.count + 2 * from ≤ turns.old.count + 2 * reach text.now result + 1 }
{
    let at = behind_space(text, from);
    let b = byte(text, at);
    if b > b' ' && b != b'/' {
        turns.add(at - from + 1);
        return at;
    }
    skip_all(text, from, turns)
}

/// Where blanks end, if more than one space or a comment is thought to stand.
#[inline(never)]
fn skip_all(text: &str, from: usize, turns: &mut IcuTurns) -> usize
    requires within { from ≤ length text.now }
    ensures skip { Skip text.now from result }
    ensures order { from ≤ result }
    ensures fits { result ≤ length text.now }
    ensures cost { turns.new.count + 2 * from ≤ turns.old.count + 2 * reach text.now result + 1 }
{
    let mut at = from;
    'skip: loop {
        let white = blanks_end(text.as_bytes(), at);
        turns.add(white - at + 1);
        at = white;
        if !begins_comment(text, at) {
            return at;
        }
        match comment_end(text, at) {
            Some(to) => {
                turns.add(to - at);
                at = to;
            }
            None => {
                turns.add(text.len() - at);
                return at;
            }
        }
    }
}
