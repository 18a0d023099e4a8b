//! Warnings of a text of ICU's form that a byte tells by what it stands in: of escapes that stand
//! for their character alone, of text behind the root, and of an unquoted string right behind a
//! quoted piece.
//! What is told of tokens is in `icu_warning`.
ghost use Rattle.std.specs.Prelude.{◌≡◌, ◌+◌, ◌<◌, ◌≤◌, ◌++◌, ◌&&◌, ◌||◌, ◌==◌, not, length};
ghost use Rattle.std.specs.Prelude.{slice_index, IfOk, OnOk};
ghost use Rattle.resb_icu_grammar.specs.Blanks.{are_there};
ghost use Rattle.resb_diagnostics.specs.Braces.{icu_form};
ghost use Rattle.resb_diagnostics.specs.IcuMarks as spec;
ghost use Rattle.resb_diagnostics.specs.IcuMarks.{icu_marked, behind_at};
ghost use Rattle.resb_diagnostics.specs.IcuWarnings.{and_one};
ghost use Rattle.resb_diagnostics.specs.Inner.Marks.{IsMarkedTo};

use crate::braces::{IcuMode, Mode, Modes, depth_behind};
use crate::icu_runs::{begins_comment, is_unquoted};
use crate::warning::{Reason, Warning};
use std::alloc::AllocError;

/// Whether a byte is a letter or a digit that stands for itself behind a backslash.
fn is_dropped(byte: u8) -> bool
    ensures { result ≡ spec.is_dropped byte }
{
    match byte {
        b'a' | b'b' | b'e' | b'f' | b'n' | b'r' | b't' | b'v' | b'u' | b'U' | b'x' | b'c' => false,
        b'0'..=b'7' => false,
        _ => byte.is_ascii_alphanumeric(),
    }
}

/// The warning of an escape whose byte behind the backslash stands at a place.
fn escape_mark(mode: IcuMode, at: usize, byte: u8) -> Option<Warning>
    ensures { result ≡ spec.escape_mark mode at byte }
{
    match mode {
        IcuMode::Escape if is_dropped(byte) => Some(Warning {
            place: at.saturating_sub(1),
            reason: Reason::UnknownEscape,
        }),
        _ => None,
    }
}

/// The byte there, or 0 past the end.
fn byte(text: &[u8], at: usize) -> u8
    ensures { result ≡ slice_index text.now at }
{
    if at < text.len() { text[at] } else { 0 }
}

/// Whether the character U+2029 stands at a place.
fn is_paragraph_end(text: &[u8], at: usize) -> bool
    requires { at < length text.now }
    ensures { result ≡ are_there 0xe2 0x80 0xa9 text.now at }
{
    byte(text, at) == 0xe2 && (byte(text, at + 1) == 0x80 && byte(text, at + 2) == 0xa9)
}

/// Whether what is no blank stands at a place: among tokens, or in a comment that is none.
fn is_no_blank(mode: IcuMode, text: &[u8], at: usize) -> bool
    requires { at < length text.now }
    ensures { result ≡ spec.is_no_blank mode text.now at }
{
    match mode {
        IcuMode::As(Mode::Tokens) => {
            !matches!(text[at], b' ' | b'\t' | b'\r' | b'\n') && !begins_comment(text, at)
        }
        IcuMode::As(Mode::LineComment) => is_paragraph_end(text, at),
        _ => false,
    }
}

/// Whether a byte among tokens is neither white nor one with which a comment begins.
fn is_token_byte(mode: IcuMode, byte: u8) -> bool
    ensures { result ≡ spec.is_token_byte mode byte }
{
    match mode {
        IcuMode::As(Mode::Tokens) => !matches!(byte, b' ' | b'\t' | b'\r' | b'\n' | b'/'),
        IcuMode::As(Mode::Slash) => !matches!(byte, b' ' | b'\t' | b'\r' | b'\n' | b'/' | b'*'),
        _ => false,
    }
}

/// Whether a byte is of a token: one among tokens that is neither white nor a slash, or one behind a
/// slash that begins no comment with it.
fn is_of_token(mode: IcuMode, byte: u8) -> bool
    ensures { result ≡ spec.is_of_token mode byte }
{
    match mode {
        IcuMode::As(Mode::Slash) => !matches!(byte, b'/' | b'*'),
        _ => is_token_byte(mode, byte),
    }
}

/// The warning of an unquoted string behind a piece that the byte at a place tells: it begins there,
/// or with a slash before.
fn mixed_at(mode: IcuMode, at: usize, byte: u8) -> Option<Warning>
    ensures { result ≡ spec.mixed_at mode at byte }
{
    match mode {
        IcuMode::As(Mode::Tokens) if is_of_token(mode, byte) && is_unquoted(byte) => Some(
            Warning {
                place: at,
                reason: Reason::MixedQuotes,
            },
        ),
        IcuMode::As(Mode::Slash) if is_of_token(mode, byte) => Some(Warning {
            place: at.saturating_sub(1),
            reason: Reason::MixedQuotes,
        }),
        _ => None,
    }
}

/// Whether a byte in quotes closes a piece.
fn closes_piece(mode: IcuMode, byte: u8) -> bool
    ensures { result ≡ spec.closes_piece mode byte }
{
    match mode {
        IcuMode::As(Mode::Quotes) => byte == b'"',
        _ => false,
    }
}

/// How far a text was looked at: what the next byte stands in, how many braces are open before it,
/// whether the root has ended, and whether a quoted piece stands right before the byte.
#[derive(Clone, Copy)]
struct Marks {
    mode: IcuMode,
    depth: usize,
    has_ended: bool,
    has_piece: bool,
}

impl Marks {
    /// Whether what is no blank stands at a place behind the root.
    fn is_behind_root(self, text: &[u8], at: usize) -> bool
        requires within { at < length text.now }
        requires marks { IsMarkedTo text.now at self }
        ensures { result ≡ spec.is_behind_root text.now at }
    {
        self.has_ended && is_no_blank(self.mode, text, at)
    }

    /// Whether the root has ended behind a byte.
    fn ends(self, byte: u8) -> bool
        ensures { result ≡ (self.has_ended || ((icu_form.has_tokens self.mode && byte == 125)
            && self.depth == 1)) }
    {
        self.has_ended || (self.mode.has_tokens() && byte == b'}' && self.depth == 1)
    }

    /// Whether a quoted piece stands right before what is behind a byte.
    fn leaves_piece(self, byte: u8) -> bool
        ensures { result ≡ (spec.closes_piece self.mode byte
            || (self.has_piece && not (spec.is_of_token self.mode byte))) }
    {
        closes_piece(self.mode, byte) || (self.has_piece && !is_of_token(self.mode, byte))
    }

    /// Behind the byte at a place.
    fn behind(self, text: &[u8], at: usize) -> Marks
        requires within { at < length text.now }
        requires marks { IsMarkedTo text.now at self }
        ensures { IsMarkedTo text.now (at + 1) result }
    {
        let byte = text[at];
        let mode = self.mode.behind(byte);
        let depth = depth_behind(self.mode.has_tokens(), byte, self.depth);
        let has_ended = self.ends(byte);
        let has_piece = self.leaves_piece(byte);
        Marks {
            mode,
            depth,
            has_ended,
            has_piece,
        }
    }

    /// The warning of an unquoted string right behind a quoted piece that the byte at a place tells.
    fn mixed_mark(self, text: &[u8], at: usize) -> Option<Warning>
        requires within { at < length text.now }
        requires marks { IsMarkedTo text.now at self }
        ensures { result ≡ spec.mixed_mark text.now at }
    {
        if self.has_piece {
            mixed_at(self.mode, at, text[at])
        } else {
            None
        }
    }
}

/// Adds a warning, if there is one.
fn push_some(warning: Option<Warning>, found: &mut Vec<Warning>) -> Result<(), AllocError>
    ensures { OnOk result (found.new.items ≡ and_one found.old.items warning) }
{
    if let Some(warning) = warning {
        found.push(warning)?;
    }
    Ok(())
}

/// Adds these warnings of a text, and answers where text begins behind its root, or where the text
/// ends.
pub(crate) fn mark(text: &[u8], found: &mut Vec<Warning>) -> Result<usize, AllocError>
    ensures marked { OnOk result
        (found.new.items ≡ found.old.items ++ icu_marked text.now (length text.now)) }
    ensures end { IfOk result (λ end. end ≡ behind_at text.now (length text.now)) }
    ensures within { IfOk result (λ end. end ≤ length text.now) }
{
    let mut marks = Marks {
        mode: IcuMode::start(),
        depth: 0,
        has_ended: false,
        has_piece: false,
    };
    'bytes: for at in 0..text.len() {
        if marks.is_behind_root(text, at) {
            let reason = Reason::TextBehind;
            found.push(Warning { place: at, reason })?;
            return Ok(at);
        }
        let escape = escape_mark(marks.mode, at, text[at]);
        push_some(escape, found)?;
        let mixed = marks.mixed_mark(text, at);
        push_some(mixed, found)?;
        marks = marks.behind(text, at);
    }
    Ok(text.len())
}
