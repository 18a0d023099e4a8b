//! The process's words, as text.
//! What they ask for is in `resb_words`.
use std::alloc::{AllocError, Global};
use std::env::{Env, FillError};

/// What stands before the bytes of a word that is no UTF-8. The system's words can't have it.
pub(crate) const MARK: char = '\0';

/// What is said of a name that is no UTF-8.
pub(crate) const NO_UTF8: &str = "this name is no UTF-8";

/// The process's words, its own name first. One that is no UTF-8 becomes a mark and its bytes, of
/// which those that are no ASCII are spelled as `\xff`.
pub(crate) fn words_of<R: Env + AllocGlobal>(rt: &R) -> Result<Vec<String>, AllocError> {
    let mut words = Vec::new(rt.alloc());
    for number in 0..usize::MAX {
        match bytes_of(rt, number)? {
            Some(bytes) => words.push(text_of(rt.alloc(), bytes.as_slice())?)?,
            None => break,
        }
    }
    Ok(words)
}

/// The bytes of the word of this number, if there is one.
fn bytes_of<R: Env + AllocGlobal>(rt: &R, number: usize) -> Result<Option<Vec<u8>>, AllocError> {
    let mut bytes = Vec::new(rt.alloc());
    let mut room = 256usize;
    for _ in 0..usize::BITS {
        bytes.resize(room, 0u8)?;
        match rt.arg(number, bytes.as_mut_slice()) {
            Ok(len) => {
                bytes.truncate(len);
                return Ok(Some(bytes));
            }
            Err(FillError::NotPresent) => return Ok(None),
            Err(FillError::TooLong) => room = room.saturating_mul(2),
        }
    }
    Err(AllocError)
}

/// A word's text, or that of a name.
pub(crate) fn text_of(alloc: Global, bytes: &[u8]) -> Result<String, AllocError> {
    match str::from_utf8(bytes) {
        Ok(text) => String::from_str(alloc, text),
        Err(_) => marked(alloc, bytes),
    }
}

/// The text of a word that is no UTF-8.
fn marked(alloc: Global, bytes: &[u8]) -> Result<String, AllocError> {
    let mut text = String::new(alloc);
    text.push(MARK)?;
    for byte in bytes.iter().copied() {
        if byte.is_ascii() {
            text.push(char::from(byte))?;
        } else {
            write!(text, "\\x{byte:x}")?;
        }
    }
    Ok(text)
}

/// Whether a name was a word that is no UTF-8.
pub(crate) fn is_marked(name: &str) -> bool {
    name.starts_with(MARK)
}
