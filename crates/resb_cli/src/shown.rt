//! Names, keys and paths as messages show them: nothing of them moves the mark of a terminal or
//! turns its text, and none fills the screen; and the same of JSON that says something of files.
//! Lines of texts are shown by `resb_diagnostics`.
use crate::words::MARK;
use resb_diagnostics::is_hidden;
use std::alloc::{AllocError, Global};
use std::fmt;

/// The most characters that are shown at each end of a text that is cut.
const END: usize = 500;

/// A text in a message: what is hidden stands as `\u{1b}`, and a long text is cut in its middle.
#[derive(Clone, Copy)]
pub(crate) struct Shown<'a>(pub(crate) &'a str);

impl fmt::Display for Shown<'_> {
    fn fmt<W: fmt::Write>(&self, f: &mut fmt::Formatter<W>) -> fmt::Result {
        let text = self.0;
        let count = text.chars().count();
        let behind = count.saturating_sub(END);
        for (number, c) in text.chars().enumerate() {
            if number < END || number >= behind {
                write_character(f, c)?;
            } else if number == END {
                f.write_str("..")?;
            }
        }
        Ok(())
    }
}

/// A character that a message names, shown as in a text, but for one that isn't seen.
#[derive(Clone, Copy)]
pub(crate) struct ShownCharacter(pub(crate) char);

impl fmt::Display for ShownCharacter {
    fn fmt<W: fmt::Write>(&self, f: &mut fmt::Formatter<W>) -> fmt::Result {
        if is_unseen(self.0) {
            write_code(f, self.0)
        } else {
            write_character(f, self.0)
        }
    }
}

/// Whether a character beyond ASCII looks like a blank, or like nothing.
fn is_unseen(c: char) -> bool {
    matches!(
        c,
        '\u{a0}' | '\u{ad}' | '\u{1680}' | '\u{2000}'..='\u{200d}'
            | '\u{202f}'
            | '\u{205f}'
            | '\u{2060}'
            | '\u{3000}'
            | '\u{feff}'
    )
}

/// Writes a character, or what stands for one that is hidden.
fn write_character<W: fmt::Write>(f: &mut fmt::Formatter<W>, c: char) -> fmt::Result {
    if c == MARK {
        Ok(())
    } else if is_hidden(c) {
        write_code(f, c)
    } else {
        f.write_char(c)
    }
}

/// Writes what stands for a character: `\u{1b}`.
fn write_code<W: fmt::Write>(f: &mut fmt::Formatter<W>, c: char) -> fmt::Result {
    let code = u32::from(c);
    write!(f, "\\u{{{code:x}}}")
}

/// How many bytes JSON has where nothing is hidden in it: six for each hidden character.
pub(crate) fn shown_bytes(json: &str) -> u64 {
    let mut bytes = 0u64;
    for c in json.chars() {
        let own = if is_hidden(c) { 6 } else { c.len_utf8() as u64 };
        bytes = bytes.saturating_add(own);
    }
    bytes
}

/// JSON without a line feed, in which what is hidden stands as `\u009b`: that is the same JSON.
pub(crate) fn shown_json(alloc: Global, json: String) -> Result<String, AllocError> {
    if shown_bytes(json.as_str()) == json.len() as u64 {
        return Ok(json);
    }
    spelled_json(alloc, json.as_str())
}

/// A piece of such JSON, anew. No hidden character needs more than four digits.
pub(crate) fn spelled_json(alloc: Global, json: &str) -> Result<String, AllocError> {
    let mut shown = String::new(alloc);
    for c in json.chars() {
        if is_hidden(c) {
            let code = u32::from(c);
            write!(shown, "\\u{code:04x}")?;
        } else {
            shown.push(c)?;
        }
    }
    Ok(shown)
}
