//! Keys and strings of a text printed in ICU's form.
//! In which order they make a text is said in `resb_lines`. Numbers are those of `resb_print`.
ghost use Rattle.std.specs.Prelude.{◌≡◌, ◌++◌, ◌∷◌, [], OnOk, codes, encode_utf8};
ghost use Rattle.hex.specs.Hex.{encode_lower};
ghost use Rattle.resb_print.specs.Inner.Appends.{Appends};
ghost use Rattle.resb_icu_print.specs.Printed.{inside_on, piece_on, key_on};
ghost use Rattle.resb_icu_print.specs.Inner.Escapes as escapes;

use crate::keys::is_bare;
use resb_print::push_quoted;
use std::alloc::{AllocError, Global};

/// Writes a byte by its number.
fn push_number(alloc: Global, out: &mut String, byte: u8) -> Result<(), AllocError>
    ensures { OnOk result (Appends out.old out.new
        (λ rest. codes "\\u00" ++ (encode_lower (byte ∷ []) ++ rest))) }
{
    let digits = hex::encode(alloc, &[byte])?;
    out.push_str("\\u00")?;
    out.push_str(digits.as_str())?;
    Ok(())
}

/// Writes a character of a string.
fn push_character(alloc: Global, out: &mut String, c: char) -> Result<(), AllocError>
    ensures { OnOk result (Appends out.old out.new (inside_on (encode_utf8 c))) }
{
    if c == '"' || c == '\\' {
        out.push_str("\\")?;
        out.push(c)?;
        return Ok(());
    }
    let code = c as u32;
    if code < 32 || code == 127 {
        push_number(alloc, out, code as u8)?;
        return Ok(());
    }
    out.push(c)?;
    Ok(())
}

/// Whether a byte is escaped in a string.
fn is_escaped(byte: u8) -> bool
    ensures { result ≡ escapes.is_escaped byte }
{
    byte == b'"' || byte == b'\\' || byte < 32 || byte == 127
}

/// Whether a byte of a string is escaped.
fn has_escape(text: &str) -> bool
    ensures { result ≡ escapes.has_escape text.now }
{
    let mut is_found = false;
    for byte in text.as_bytes() {
        is_found = is_escaped(*byte) || is_found;
    }
    is_found
}

/// Writes the characters of a string one by one, with what is escaped among them.
fn push_escaped(alloc: Global, out: &mut String, text: &str) -> Result<(), AllocError>
    ensures { OnOk result (Appends out.old out.new (inside_on text.now)) }
{
    for c in text.chars() {
        push_character(alloc, out, c)?;
    }
    Ok(())
}

/// Writes what stands between the quotes of a string: at once, where nothing is escaped in it.
fn push_inside(alloc: Global, out: &mut String, text: &str) -> Result<(), AllocError>
    ensures { OnOk result (Appends out.old out.new (inside_on text.now)) }
{
    if has_escape(text) {
        return push_escaped(alloc, out, text);
    }
    out.push_str(text)?;
    Ok(())
}

/// Writes a string in quotes.
pub fn push_piece(alloc: Global, out: &mut String, text: &str) -> Result<(), AllocError>
    ensures { OnOk result (Appends out.old out.new (piece_on text.now)) }
{
    out.push_str("\"")?;
    push_inside(alloc, out, text)?;
    out.push_str("\"")
}

/// Writes a key.
pub fn push_key(out: &mut String, text: &str) -> Result<(), AllocError>
    ensures { OnOk result (Appends out.old out.new (key_on text.now)) }
{
    if is_bare(text) {
        out.push_str(text)
    } else {
        push_quoted(out, text)
    }
}
