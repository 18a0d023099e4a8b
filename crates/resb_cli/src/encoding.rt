//! Texts in other encodings than UTF-8 as UTF-8: the mark that a text begins with tells which, or
//! else the caller's words.
//! Whether other bytes are UTF-8 is asked where they are read as a text.
use crate::streams::made;
use resb_words::Encoding;
use std::alloc::{AllocError, Global};

/// What is said of a text that isn't in its encoding.
const NO_UTF16: &str = "this is no UTF-16";

const NO_UTF32: &str = "this is no UTF-32";

/// The characters of the bytes from 80 to 9F in code page 1252. (ICU's `ibm-5348`: bytes without a
/// character of their own are control characters.)
const HIGH: [char; 32] = [
    '\u{20AC}', '\u{81}', '\u{201A}', '\u{192}', '\u{201E}', '\u{2026}', '\u{2020}', '\u{2021}',
    '\u{2C6}', '\u{2030}', '\u{160}', '\u{2039}', '\u{152}', '\u{8D}', '\u{17D}', '\u{8F}',
    '\u{90}', '\u{2018}', '\u{2019}', '\u{201C}', '\u{201D}', '\u{2022}', '\u{2013}', '\u{2014}',
    '\u{2DC}', '\u{2122}', '\u{161}', '\u{203A}', '\u{153}', '\u{9D}', '\u{17E}', '\u{178}',
];

/// Which byte of a unit or a word comes first.
#[derive(Clone, Copy)]
enum Order {
    Little,
    Big,
}

/// The bytes of a text in UTF-8. A text without a mark is in the encoding that is said.
pub(crate) fn utf8_of(
    alloc: Global,
    bytes: Vec<u8>,
    said: Encoding,
) -> Result<Vec<u8>, &'static str> {
    let (encoding, mark) = encoding_of(bytes.as_slice(), said);
    let text = match encoding {
        Encoding::Utf8 => return Ok(bytes),
        Encoding::Utf16Little | Encoding::Utf16Big => {
            let units = made(units_of(alloc, behind(&bytes, mark), order_of(encoding)))?;
            let units = units.ok_or(NO_UTF16)?;
            // bytes, units and text never stand in memory side by side
            drop(bytes);
            made(text_of_units(alloc, units.as_slice()))?.ok_or(NO_UTF16)?
        }
        Encoding::Utf32Little | Encoding::Utf32Big => {
            let text = text_of_words(alloc, behind(&bytes, mark), order_of(encoding));
            made(text)?.ok_or(NO_UTF32)?
        }
        Encoding::Latin1 => made(text_of_bytes(alloc, behind(&bytes, mark), false))?,
        Encoding::Windows1252 => made(text_of_bytes(alloc, behind(&bytes, mark), true))?,
    };
    Ok(text.into_bytes())
}

/// The encoding that a text's mark tells, or else this one, and how many bytes the mark has. That
/// of UTF-8 stays with the text.
fn encoding_of(bytes: &[u8], said: Encoding) -> (Encoding, usize) {
    match bytes {
        [0xEF, 0xBB, 0xBF, ..] => (Encoding::Utf8, 0),
        [0xFF, 0xFE, 0, 0, ..] => (Encoding::Utf32Little, 4),
        [0, 0, 0xFE, 0xFF, ..] => (Encoding::Utf32Big, 4),
        [0xFF, 0xFE, ..] => (Encoding::Utf16Little, 2),
        [0xFE, 0xFF, ..] => (Encoding::Utf16Big, 2),
        _ => (said, 0),
    }
}

/// The bytes behind a mark of so many.
fn behind(bytes: &[u8], mark: usize) -> &[u8] {
    bytes.get(mark..).unwrap_or(&[])
}

/// The order of the bytes in UTF-16 and UTF-32.
fn order_of(encoding: Encoding) -> Order {
    match encoding {
        Encoding::Utf16Little | Encoding::Utf32Little => Order::Little,
        _ => Order::Big,
    }
}

/// The 16-bit units that bytes are, if their number is even.
fn units_of(alloc: Global, bytes: &[u8], order: Order) -> Result<Option<Vec<u16>>, AllocError> {
    if bytes.len() % 2 == 1 {
        return Ok(None);
    }
    let mut units = Vec::with_capacity(alloc, bytes.len() / 2)?;
    for pair in bytes.chunks_exact(2) {
        let pair = [pair[0], pair[1]];
        units.push(match order {
            Order::Little => u16::from_le_bytes(pair),
            Order::Big => u16::from_be_bytes(pair),
        })?;
    }
    Ok(Some(units))
}

/// The text that is given in units, if it is one.
fn text_of_units(alloc: Global, units: &[u16]) -> Result<Option<String>, AllocError> {
    match String::from_utf16(alloc, units)? {
        Ok(text) => Ok(Some(text)),
        Err(_) => Ok(None),
    }
}

/// The text that is given in words of a character each, if it is one.
fn text_of_words(alloc: Global, bytes: &[u8], order: Order) -> Result<Option<String>, AllocError> {
    let mut text = String::new(alloc);
    if bytes.len() % 4 != 0 {
        return Ok(None);
    }
    for word in bytes.chunks_exact(4) {
        let word = [word[0], word[1], word[2], word[3]];
        let number = match order {
            Order::Little => u32::from_le_bytes(word),
            Order::Big => u32::from_be_bytes(word),
        };
        match char::from_u32(number) {
            Some(char) => text.push(char)?,
            None => return Ok(None),
        }
    }
    Ok(Some(text))
}

/// The text of which each byte is a character of ISO 8859-1 or, where that is asked, of code page
/// 1252.
fn text_of_bytes(alloc: Global, bytes: &[u8], is_windows: bool) -> Result<String, AllocError> {
    let mut text = String::new(alloc);
    for byte in bytes.iter().copied() {
        text.push(match byte {
            0x80..=0x9F if is_windows => HIGH[usize::from(byte - 0x80)],
            _ => char::from(byte),
        })?;
    }
    Ok(text)
}
