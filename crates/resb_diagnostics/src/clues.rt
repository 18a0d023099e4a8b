//! Where a person may look for the cause of a refusal that shows far behind it: a string whose end
//! is missing, and a line that a missing `}` left in a group.
//! Which brace is open at a text's end is in `braces`; where a text is refused isn't found here.
ghost use Rattle.std.specs.Prelude.{◌≡◌, ◌<◌, ◌≤◌, ◌+◌, ◌-◌, ◌^◌, ◌&&◌, Some, None};
ghost use Rattle.std.specs.Prelude.{if◌then◌else◌, length, min, IfOk, OnOk, slice_get};
ghost use Rattle.resb_diagnostics.specs.Braces.{plain_form, icu_form};
ghost use Rattle.resb_diagnostics.specs.Clues as clues;

use crate::braces::{IcuMode, Mode, Modes};
use std::alloc::{AllocError, Global};

/// The quote of the last string that has a line feed before a place.
fn long_string<M: Modes>(text: &[u8], place: usize) -> Option<usize>
    ensures { result ≡ clues.long_string_in M.form text.now (min place (length text.now)) }
{
    let mut mode = M::start();
    let mut quote = None;
    let mut found = None;
    'bytes: for at in 0..place.min(text.len()) {
        let byte = text[at];
        if byte == b'\n' {
            found = quote.or(found);
        }
        let next = mode.behind(byte);
        if next.has_tokens() {
            quote = None;
        } else if mode.has_tokens() && byte == b'"' {
            quote = Some(at);
        }
        mode = next;
    }
    found
}

/// The place of the `"` of the last string in quotes that has a line feed before a place, in bytes:
/// where a text is refused behind it, its end may be missing.
pub fn long_string_before(text: &[u8], place: usize) -> Option<usize>
    ensures { result ≡ clues.long_string_in plain_form text.now (min place (length text.now)) }
{
    long_string::<Mode>(text, place)
}

/// The last string over lines before a place of a text of ICU's form.
pub fn long_icu_string_before(text: &[u8], place: usize) -> Option<usize>
    ensures { result ≡ clues.long_string_in icu_form text.now (min place (length text.now)) }
{
    long_string::<IcuMode>(text, place)
}

/// How a line begins, up to a place in it.
#[derive(Clone, Copy)]
struct Line {
    /// How many blanks it begins with.
    indent: usize,
    /// Whether nothing else stands there.
    is_first: bool,
}

impl Line {
    /// The line behind one more byte.
    fn behind(self, byte: u8) -> Line
        requires { self.indent < 2 ^ 63 }
        ensures indent { result.indent ≡ clues.indent_behind byte self.is_first self.indent }
        ensures is_first { result.is_first ≡ clues.first_behind byte self.is_first }
        ensures grows { result.indent ≤ self.indent + 1 }
    {
        let is_blank = byte == b' ' || byte == b'\t';
        let indent = if byte == b'\n' {
            0
        } else if is_blank && self.is_first {
            self.indent + 1
        } else {
            self.indent
        };
        Line {
            indent,
            is_first: byte == b'\n' || (is_blank && self.is_first),
        }
    }
}

/// Whether what begins with a byte is indented too little for the innermost of open groups.
fn stands_out(byte: u8, indent: usize, indents: &[usize]) -> bool
    ensures { result
        ≡ clues.stands_out byte indent (slice_get indents.now (length indents.now - 1)) }
{
    match indents.last() {
        None => false,
        Some(outer) if byte == b'}' => indent < *outer,
        Some(outer) => { !matches!(byte, b' ' | b'\t' | b'\r' | b'\n' | b'/') && indent <= *outer }
    }
}

/// Whether a line begins with a byte, and is indented too little for the innermost of open groups.
fn is_outdent(has_tokens: bool, line: Line, byte: u8, indents: &[usize]) -> bool
    ensures { result ≡ ((has_tokens && line.is_first)
        && clues.stands_out byte line.indent (slice_get indents.now (length indents.now - 1))) }
{
    has_tokens && line.is_first && stands_out(byte, line.indent, indents)
}

/// The indents of the lines of open groups, behind a byte.
fn open_behind(
    has_tokens: bool,
    byte: u8,
    indent: usize,
    indents: &mut Vec<usize>,
) -> Result<(), AllocError>
    ensures { OnOk result (indents.new.items ≡ (if has_tokens
        then clues.open_behind byte indent indents.old.items else indents.old.items)) }
{
    if has_tokens && byte == b'{' {
        indents.push(indent)?;
    } else if has_tokens && byte == b'}' {
        indents.pop();
    }
    Ok(())
}

/// The first place, or this one, if there was none and this is one.
fn first_of(found: Option<usize>, at: usize, is_one: bool) -> Option<usize>
    ensures { result ≡ clues.or_else found (if is_one then Some at else None) }
{
    if found.is_none() && is_one {
        Some(at)
    } else {
        found
    }
}

/// The first line that is indented too little for the group it stands in.
fn outdent<M: Modes>(alloc: Global, text: &[u8]) -> Result<Option<usize>, AllocError>
    ensures { IfOk result (λ found. found ≡ clues.outdent_in M.form text.now (length text.now)) }
{
    let mut mode = M::start();
    let mut line = Line {
        indent: 0,
        is_first: true,
    };
    let mut indents = Vec::new(alloc);
    let mut found = None;
    'bytes: for at in 0..text.len() {
        let byte = text[at];
        let has_tokens = mode.has_tokens();
        let is_one = is_outdent(has_tokens, line, byte, indents.as_slice());
        found = first_of(found, at, is_one);
        open_behind(has_tokens, byte, line.indent, &mut indents)?;
        line = line.behind(byte);
        mode = mode.behind(byte);
    }
    Ok(found)
}

/// The place in bytes at which the first line begins, behind its blanks, that is indented too
/// little for the group it stands in: no more than the line on which that opens, or less than it
/// where the line begins with a `}`; lines that begin with a comment don't count. Where a `}` is
/// missing in a text, it may be missing before it.
pub fn first_outdent(alloc: Global, text: &[u8]) -> Result<Option<usize>, AllocError>
    ensures { IfOk result (λ found. found
        ≡ clues.outdent_in plain_form text.now (length text.now)) }
{
    outdent::<Mode>(alloc, text)
}

/// The first line of a text of ICU's form that is indented too little for its group.
pub fn first_icu_outdent(alloc: Global, text: &[u8]) -> Result<Option<usize>, AllocError>
    ensures { IfOk result (λ found. found ≡ clues.outdent_in icu_form text.now (length text.now)) }
{
    outdent::<IcuMode>(alloc, text)
}
