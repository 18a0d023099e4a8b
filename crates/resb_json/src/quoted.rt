//! Strings, numbers and hex digits of JSON.
//! Which of them are written is said in `text`.
ghost use Rattle.std.specs.Prelude.{◌≡◌, ◌++◌, ◌<◌, ◌≤◌, OnOk, IfOk, length, true, MatchOption};
ghost use Rattle.std.specs.Char.{digit_char};
ghost use Rattle.hex.specs.Hex.{encode_lower};
ghost use Rattle.json.specs.Print as printed;
ghost use Rattle.json.specs.Print.{quoted, escape, escape_byte};
ghost use Rattle.serde_json.specs.Find.{of_integer};
ghost use Rattle.serde_json.specs.Written.{number_text, comma_if};
ghost use Rattle.resb_json.specs.Inner.Escapes as escapes;

use itoa::Buffer;
use std::alloc::AllocError;

/// How many bytes of a binary are written at once.
const DIGITS_AT_ONCE: usize = 1024;

/// Whether a byte is escaped in a string of JSON.
fn is_escaped(byte: u8) -> bool
    ensures { result ≡ escapes.is_escaped byte }
{
    byte < 32 || byte == b'"' || byte == b'\\'
}

/// The letter that stands for a byte behind a backslash, if one does.
fn escape_letter(byte: u8) -> Option<u8>
    ensures { MatchOption result (printed.escape_letter byte ≡ 0)
        (λ letter. (printed.escape_letter byte ≡ letter) × (0 < letter)) }
{
    match byte {
        b'"' | b'\\' => Some(byte),
        8 => Some(b'b'),
        9 => Some(b't'),
        10 => Some(b'n'),
        12 => Some(b'f'),
        13 => Some(b'r'),
        _ => None,
    }
}

/// The hex digit of a number.
fn hex_digit(number: u8) -> u8
    requires { number < 16 }
    ensures { result ≡ digit_char number }
{
    if number < 10 {
        b'0' + number
    } else {
        b'a' - 10 + number
    }
}

/// Writes a byte that is escaped.
fn push_escape(out: &mut Vec<u8>, byte: u8) -> Result<(), AllocError>
    requires { escapes.is_escaped byte ≡ true }
    ensures { OnOk result (out.new.items ≡ out.old.items ++ escape_byte byte) }
{
    out.extend_from_slice(b"\\")?;
    match escape_letter(byte) {
        Some(letter) => out.extend_from_slice(&[letter]),
        None => {
            out.extend_from_slice(b"u00")?;
            out.extend_from_slice(&[hex_digit(byte / 16), hex_digit(byte % 16)])
        }
    }
}

/// Writes a string in quotes, with what is escaped in it.
pub(crate) fn push_quoted(out: &mut Vec<u8>, text: &str) -> Result<(), AllocError>
    ensures { OnOk result (out.new.items ≡ out.old.items ++ quoted text.now) }
{
    out.extend_from_slice(b"\"")?;
    push_escaped(out, text.as_bytes())?;
    out.extend_from_slice(b"\"")
}

/// Writes bytes, with what is escaped among them.
fn push_escaped(out: &mut Vec<u8>, bytes: &[u8]) -> Result<(), AllocError>
    ensures { OnOk result (out.new.items ≡ out.old.items ++ escape bytes.now) }
{
    let mut start = 0;
    for (at, byte) in bytes.iter().enumerate() {
        if is_escaped(*byte) {
            out.extend_from_slice(&bytes[start..at])?;
            push_escape(out, *byte)?;
            start = at + 1;
        }
    }
    out.extend_from_slice(&bytes[start..])
}

/// Writes a comma, if something stands before it.
pub(crate) fn push_comma(out: &mut Vec<u8>, is_behind: bool) -> Result<(), AllocError>
    ensures { OnOk result (out.new.items ≡ out.old.items ++ comma_if is_behind) }
{
    if is_behind {
        out.extend_from_slice(b",")
    } else {
        Ok(())
    }
}

/// Writes a number.
pub(crate) fn push_number(out: &mut Vec<u8>, number: i32) -> Result<(), AllocError>
    ensures { OnOk result (out.new.items ≡ out.old.items ++ number_text (of_integer number)) }
{
    out.extend_from_slice(Buffer::new().format(number).as_bytes())
}

/// Writes the first bytes as hex digits, and answers the others: none is written where there are
/// none.
pub(crate) fn push_digits<'s>(out: &mut Vec<u8>, bytes: &'s [u8]) -> Result<&'s [u8], AllocError>
    ensures digits { IfOk result (λ rest. out.new.items ++ escape (encode_lower rest.now)
        ≡ out.old.items ++ escape (encode_lower bytes.now)) }
    ensures fewer { IfOk result
        (λ rest. 0 < length bytes.now → length rest.now < length bytes.now) }
{
    let (now, rest) = bytes.split_at(bytes.len().min(DIGITS_AT_ONCE));
    let mut room = [0u8; 2 * DIGITS_AT_ONCE];
    let digits = &mut room[..2 * now.len()];
    if hex::encode_to_slice(now, digits).is_err() {
        return Err(AllocError);
    }
    out.extend_from_slice(digits)?;
    Ok(rest)
}
