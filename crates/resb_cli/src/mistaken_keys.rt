//! What is wrong where a key, a bundle's name or a type may stand.
//! Mistakes in values and at the ends of groups are found in `mistaken_values`.
use crate::hints::{is_type, nearest, word_of_type};
use crate::mistakes::{Mistake, Spot, What};
use crate::repeated::key_at;
use resb_diagnostics::first_icu_word;
use resb_grammar::is_word;
use resb_icu_grammar::are_key_bytes;
use std::alloc::{AllocError, Global};

/// What a string of ICU's form is to be.
#[derive(Clone, Copy, PartialEq, Eq)]
pub(crate) enum Role {
    Key,
    Name,
}

impl Role {
    /// Whether a character of such a string may be this one.
    fn allows(self, c: char) -> bool {
        match u8::try_from(u32::from(c)) {
            Ok(byte) if self == Role::Key => are_key_bytes(&[byte]),
            Ok(byte) => resb_icu_grammar::is_word(byte),
            Err(_) => false,
        }
    }

    /// That such a string can't have this character.
    fn character<'s>(self, c: char) -> What<'s> {
        match self {
            Role::Key => What::KeyCharacter(c),
            Role::Name => What::NameCharacter(c),
        }
    }

    /// That such a string isn't of several words.
    fn words<'s>(self) -> What<'s> {
        match self {
            Role::Key => What::KeyOfWords,
            Role::Name => What::NameOfWords,
        }
    }
}

/// What is wrong where a key or a name of ICU's form is to stand.
pub(crate) fn icu_key_mistake<'s>(spot: &Spot<'s>, role: Role) -> Option<Mistake<'s>> {
    match spot.behind {
        [b',', ..] if role == Role::Key => spot.here(What::Comma),
        [b';', b' ' | b'\t' | b'\r' | b'\n', ..] if role == Role::Key => {
            spot.here(What::Semicolon)
        }
        [b'#', b' ', ..] => spot.here(What::NoComment),
        [b'{', ..] if role == Role::Key => spot.here(What::NoKey),
        [b'{', ..] => spot.here(What::NoName),
        [b'"', ..] => quoted_mistake(spot, role),
        _ => unquoted_mistake(spot, role),
    }
}

/// What is wrong with a key or a name in quotes.
fn quoted_mistake<'s>(spot: &Spot<'s>, role: Role) -> Option<Mistake<'s>> {
    let key = key_at(spot.source, spot.before.len(), true);
    if let Some((at, c)) = first_other(key, role) {
        return spot.on(at.saturating_add(1), role.character(c));
    }
    match spot.behind.split_at_checked(key.len().saturating_add(2)) {
        Some((_, rest)) if rest.trim_ascii_start().starts_with(b"\"") => {
            let second = spot
                .behind
                .len()
                .saturating_sub(rest.trim_ascii_start().len());
            spot.on(second, What::KeyOfPieces)
        }
        _ => None,
    }
}

/// What is wrong with a key or a name that isn't in quotes.
fn unquoted_mistake<'s>(spot: &Spot<'s>, role: Role) -> Option<Mistake<'s>> {
    let word = key_at(spot.source, spot.before.len(), true);
    if let Some((at, c)) = first_other(word, role) {
        return spot.on(at, role.character(c));
    }
    let (_, rest) = spot.behind.split_at_checked(word.len())?;
    let next = rest.trim_ascii_start();
    let second = spot.behind.len().saturating_sub(next.len());
    match next {
        [b'=' | b'[' | b'(', ..] => return spot.on(second, What::NoBrace(word)),
        [b'"', ..] if role == Role::Key => return spot.on(second, What::NoBraceOpen),
        [b'\\', ..] => return spot.on(second, role.character('\\')),
        _ => {}
    }
    if first_icu_word(next).is_empty() {
        return None;
    }
    if has_line_end(words_in(rest)) {
        return spot.here(What::NoBrace(word));
    }
    if role == Role::Key && is_type(word) {
        return spot.here(What::TypeFirst);
    }
    spot.on(second, role.words())
}

/// The first character that such a string can't have, and where it stands in the string.
fn first_other(text: &str, role: Role) -> Option<(usize, char)> {
    for (at, c) in text.char_indices() {
        if !role.allows(c) {
            return Some((at, c));
        }
    }
    None
}

/// What stands before the first of a text's bytes that are in no word of ICU's form, without the
/// blanks at its end.
fn words_in(bytes: &[u8]) -> &[u8] {
    for at in 0..bytes.len() {
        if matches!(bytes[at], b'{' | b'}' | b':' | b',' | b'"' | b'\\' | b'/') {
            return bytes[..at].trim_ascii_end();
        }
    }
    bytes.trim_ascii_end()
}

/// Whether a line ends in a text.
pub(crate) fn has_line_end(bytes: &[u8]) -> bool {
    bytes.contains(&b'\n')
}

/// What is wrong where the `{` of an entry or of the bundle is to stand, in the plain form.
pub(crate) fn plain_brace_mistake<'s>(spot: &Spot<'s>) -> Option<Mistake<'s>> {
    let first = *spot.behind.first()?;
    if first == b'"' {
        return spot.here(What::NoBraceOpen);
    }
    if is_word(first) {
        return plain_words(spot);
    }
    match spot.before.last() {
        Some(last) if is_word(*last) => quoted_character(spot),
        _ => None,
    }
}

/// What is wrong where a second word stands behind a key or a name of the plain form. In the same
/// line it is the key's, if a group follows it; in a new line the first word has no group.
fn plain_words<'s>(spot: &Spot<'s>) -> Option<Mistake<'s>> {
    let key = spot.before.trim_ascii_end();
    let (_, blanks) = spot.before.split_at_checked(key.len())?;
    if blanks.is_empty() {
        return None;
    }
    if has_line_end(blanks) {
        return key_without_group(key);
    }
    let word = key_at(spot.source, spot.before.len(), false);
    let (_, rest) = spot.behind.split_at_checked(word.len())?;
    match rest.trim_ascii_start() {
        [b'{' | b':', ..] => spot.here(What::KeyOfWords),
        _ => None,
    }
}

/// That no `{` stands behind the word of the plain form with which a text's first bytes end, if
/// they end with one.
fn key_without_group<'s>(before: &'s [u8]) -> Option<Mistake<'s>> {
    let word = word_at_end(before);
    match str::from_utf8(word) {
        Ok(key) if !key.is_empty() => Some(Mistake {
            place: before.len().saturating_sub(word.len()),
            what: What::NoBrace(key),
        }),
        _ => None,
    }
}

/// The word of the plain form with which bytes end.
pub(crate) fn word_at_end(bytes: &[u8]) -> &[u8] {
    for number in 0..bytes.len() {
        let at = bytes.len() - 1 - number;
        if !is_word(bytes[at]) {
            return &bytes[at + 1..];
        }
    }
    bytes
}

/// The character at the place, if quotes are needed round it in the plain form.
pub(crate) fn quoted_character<'s>(spot: &Spot<'s>) -> Option<Mistake<'s>> {
    let c = str::from_utf8(spot.behind).ok()?.chars().next()?;
    match c {
        '{' | '}' | ',' | ':' | '"' | '/' | '=' | '[' | '(' => None,
        '\u{feff}' => None,
        _ if c <= ' ' => None,
        _ => spot.here(What::QuotedCharacter(c)),
    }
}

/// What is wrong where a type is to stand, of which these are all. Blanks may stand before it, or
/// not.
pub(crate) fn type_mistake<'s>(
    alloc: Global,
    spot: &Spot<'s>,
    names: &'static [&'static str],
    takes_blanks: bool,
) -> Result<Option<Mistake<'s>>, AllocError> {
    let Some(rest) = spot.behind.strip_prefix(b":") else {
        return Ok(None);
    };
    let value = rest.trim_ascii_start();
    let has_blank = value.len() < rest.len();
    let place = spot.behind.len().saturating_sub(value.len());
    let word = word_of_type(value);
    let found = nearest(alloc, names, word)?;
    Ok(match value {
        [b'{' | b'}' | b',' | b':' | b'/', ..] | [] => None,
        _ if has_blank && found.is_none() => spot.here(What::ValueBehindColon),
        _ if has_blank && !takes_blanks => spot.on(1, What::BlankBehindColon),
        [b'"' | b'[' | b'\'' | b'-' | b'0'..=b'9', ..] => spot.here(What::ValueBehindColon),
        _ => spot.on(place, What::UnknownType(word, found)),
    })
}
