//! The line round a place, cut where it is long, with a mark under the place.
//! Which line and column that is stands in `location`.
ghost use Rattle.std.specs.Prelude.{◌≡◌, ◌+◌, ◌-◌, ◌≤◌, ◌++◌, ◌↔◌, Bool, true, false, length, min};
ghost use Rattle.std.specs.Prelude.{replicate, OnOk, IfOk, IsTrue, IsUtf8, string_bytes};
ghost use Rattle.resb_diagnostics.specs.Excerpt as excerpt;
ghost use Rattle.resb_diagnostics.specs.Excerpt.{StartsExcerpt, EndsExcerpt, CutsExcerpt, PointsAt};

use crate::location::begins_character;
use std::alloc::{AllocError, Global};

/// The most bytes that are shown on one side of the place.
const REACH: usize = 60;

/// Whether a line begins at a place.
fn begins_line(text: &[u8], at: usize) -> bool
    requires { at ≤ length text.now }
    ensures { result ≡ excerpt.begins_line text.now at }
{
    at == 0 || text[at - 1] == b'\n'
}

/// The first byte that is shown.
fn excerpt_start(text: &[u8], place: usize) -> usize
    requires { place ≤ length text.now }
    ensures { StartsExcerpt text.now place result }
{
    let mut from = place;
    'back: while !begins_line(text, from) {
        if place - from == REACH {
            return character_start(text, from);
        }
        from -= 1;
    }
    from
}

/// The first byte from a place on that begins a character, at most three bytes on.
fn character_start(text: &[u8], from: usize) -> usize
    requires { from + 3 ≤ length text.now }
    ensures { CutsExcerpt text.now from result }
{
    let last = from + 3;
    for at in from..last {
        if begins_character(text[at]) {
            return at;
        }
    }
    last
}

/// The place behind the last byte that is shown.
fn excerpt_end(text: &[u8], place: usize) -> usize
    requires { place ≤ length text.now }
    ensures { EndsExcerpt text.now place result }
{
    let mut to = place;
    'on: while to < text.len() && text[to] != b'\n' {
        if to - place >= REACH && (begins_character(text[to]) || to - place == REACH + 3) {
            return to;
        }
        to += 1;
    }
    to
}

/// Whether a character is one of control, or a mark that sets the direction of the text behind it:
/// a terminal doesn't show it, and may do something else.
pub fn is_hidden(c: char) -> bool
    ensures { result ≡ excerpt.is_hidden c }
{
    let code = u32::from(c);
    code < 32
        || (126 < code && code < 160)
        || code == 0x61c
        || code == 0x200e
        || code == 0x200f
        || (0x2029 < code && code < 0x202f)
        || (0x2065 < code && code < 0x206a)
}

/// What is shown of a character: a blank for one of control below U+0080, and `?` for all others
/// that are hidden.
fn shown_character(c: char) -> char
    ensures { result ≡ excerpt.shown_character c }
{
    if c < ' ' || c == '\u{7f}' {
        ' '
    } else if is_hidden(c) {
        '?'
    } else {
        c
    }
}

/// Appends what is shown of a text.
fn push_text(out: &mut String, text: &str) -> Result<(), AllocError>
    ensures { OnOk result (string_bytes out.new ≡ string_bytes out.old
        ++ excerpt.shown_line true text.now) }
{
    for c in text.chars() {
        out.push(shown_character(c))?;
    }
    Ok(())
}

/// Appends what is shown of a byte of a line that is no UTF-8: a blank for a character of control,
/// `?` for one that is no ASCII, and nothing for a byte that goes on with a character.
fn push_byte(out: &mut String, byte: u8) -> Result<(), AllocError>
    ensures { OnOk result (string_bytes out.new ≡ string_bytes out.old ++ excerpt.shown_byte byte) }
{
    if byte < 32 || byte == 127 {
        out.push(' ')
    } else if byte < 128 {
        out.push(char::from(byte))
    } else if begins_character(byte) {
        out.push('?')
    } else {
        Ok(())
    }
}

/// Appends what is shown of a line that is no UTF-8.
fn push_bytes(out: &mut String, line: &[u8]) -> Result<(), AllocError>
    ensures { OnOk result (string_bytes out.new ≡ string_bytes out.old
        ++ excerpt.shown_line false line.now) }
{
    for byte in line {
        push_byte(out, *byte)?;
    }
    Ok(())
}

/// Appends blanks.
fn push_blanks(out: &mut String, count: usize) -> Result<(), AllocError>
    ensures { OnOk result (string_bytes out.new ≡ string_bytes out.old ++ replicate count 32) }
{
    for blank in 0..count {
        out.push(' ')?;
    }
    Ok(())
}

/// How many characters begin from a place up to another.
fn characters(text: &[u8], from: usize, to: usize) -> usize
    requires order { from ≤ to }
    requires fits { to ≤ length text.now }
    ensures { result ≡ excerpt.characters text.now from (to - from) }
{
    let mut count = 0;
    'bytes: for passed in 0..to - from {
        if begins_character(text[from + passed]) {
            count += 1;
        }
    }
    count
}

/// Appends what is shown of a line.
fn push_line(out: &mut String, line: &[u8]) -> Result<(), AllocError>
    ensures { OnOk result ((is_utf8 : Bool) × (IsTrue is_utf8 ↔ IsUtf8 line.now)
        × (string_bytes out.new ≡ string_bytes out.old ++ excerpt.shown_line is_utf8 line.now)) }
{
    match str::from_utf8(line) {
        Ok(text) => push_text(out, text),
        Err(_) => push_bytes(out, line),
    }
}

/// The line round a place as it is shown, a line feed, and a `^` under the place: at most 60 bytes
/// before the place, and 63 behind it. A place behind the text's end counts as the end.
pub fn pointed_line(alloc: Global, text: &[u8], place: usize) -> Result<String, AllocError>
    ensures { IfOk result (λ s. PointsAt text.now (min place (length text.now)) (string_bytes s)) }
{
    let place = place.min(text.len());
    let from = excerpt_start(text, place);
    let to = excerpt_end(text, place);
    let mut line = String::new(alloc);
    push_line(&mut line, &text[from..to])?;
    line.push('\n')?;
    push_blanks(&mut line, characters(text, from, place))?;
    line.push('^')?;
    Ok(line)
}
