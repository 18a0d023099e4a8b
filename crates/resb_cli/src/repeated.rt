//! The key of a text that stands in its table before, and how a key is spelled.
//! Which keys those are is told by `resb_diagnostics`, and what is said of them by `mistakes`.
use crate::mistakes::{Mistake, Repeated, Spot, What};
use resb_diagnostics::{Reason, first_icu_word, location_of, repeated_icu_keys};
use resb_grammar::is_word;
use std::alloc::{AllocError, Global};

/// The first key that stands in its table before, where a text of ICU's form is refused for that at
/// the table's end.
pub(crate) fn repeated_key<'s>(
    alloc: Global,
    spot: &Spot<'s>,
) -> Result<Option<Mistake<'s>>, AllocError> {
    let found = repeated_icu_keys(alloc, spot.before)?;
    let Some(warning) = found.first() else {
        return Ok(None);
    };
    Ok(match warning.reason {
        Reason::RepeatedKey(first) => Some(Mistake {
            place: warning.place,
            what: What::Repeated(Repeated {
                key: key_at(spot.source, warning.place, true),
                first: location_of(spot.source, first),
                line: location_of(spot.source, warning.place).line,
            }),
        }),
        _ => None,
    })
}

/// The key that begins at a place of a text, as it is spelled there: what its quotes have inside,
/// or a word.
pub(crate) fn key_at(text: &[u8], place: usize, is_icu: bool) -> &str {
    let Some((_, bytes)) = text.split_at_checked(place) else {
        return "";
    };
    let key = match bytes.strip_prefix(b"\"") {
        Some(inside) => up_to_quote(inside, is_icu),
        None if is_icu => first_icu_word(bytes),
        None => word_in(bytes),
    };
    str::from_utf8(key).unwrap_or("")
}

/// The bytes up to the first quote. In ICU's form a backslash may hide one.
fn up_to_quote(bytes: &[u8], is_icu: bool) -> &[u8] {
    let mut is_hidden = false;
    for at in 0..bytes.len() {
        if bytes[at] == b'"' && !is_hidden {
            return &bytes[..at];
        }
        is_hidden = is_icu && bytes[at] == b'\\' && !is_hidden;
    }
    bytes
}

/// The word with which bytes begin that aren't of ICU's form.
fn word_in(bytes: &[u8]) -> &[u8] {
    for at in 0..bytes.len() {
        if !is_word(bytes[at]) {
            return &bytes[..at];
        }
    }
    bytes
}
