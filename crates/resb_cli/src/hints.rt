//! What is said in a line more of a text that is refused, and which type a word is near to.
//! Which mistake is at a place is told by `mistaken`; what is expected there is said in `say`.
use crate::mistakes::{Mistake, What};
use resb_compile::CompileError;
use resb_grammar::Expected;
use resb_icu_grammar::IcuExpected;
use resb_program::SourceError;
use std::alloc::{AllocError, Global};
use std::fmt;
use strsim::osa_distance;

/// The types of groups in the plain form, by their names.
pub(crate) const TYPES: [&str; 8] = [
    "array",
    "bin",
    "binary",
    "int",
    "integer",
    "intvector",
    "string",
    "table",
];

/// Those in ICU's form.
pub(crate) const ICU_TYPES: [&str; 9] = [
    "alias",
    "array",
    "bin",
    "binary",
    "int",
    "integer",
    "intvector",
    "string",
    "table",
];

/// The most edits by which a word is taken for a name.
const MOST_EDITS: usize = 2;

/// The most bytes of a word that is compared with names.
const LONGEST_WORD: usize = 16;

/// What is said.
#[derive(Clone, Copy)]
pub(crate) enum Hint {
    /// Which types there are.
    Types(&'static [&'static str]),
    IcuForm,
    Backslash,
}

impl fmt::Display for Hint {
    fn fmt<W: fmt::Write>(&self, f: &mut fmt::Formatter<W>) -> fmt::Result {
        match self {
            Hint::Types(names) => {
                f.write_str("the types are")?;
                for (number, name) in names.iter().enumerate() {
                    f.write_str(if number == 0 { " " } else { ", " })?;
                    f.write_str(name)?;
                }
                Ok(())
            }
            Hint::IcuForm => f.write_str("texts of ICU's own form are read with --icu"),
            Hint::Backslash => f.write_str("a backslash itself is written as \\\\"),
        }
    }
}

/// What is said beside a refusal at a place, if there is anything, where this mistake was found.
pub(crate) fn hint_at(
    source: &[u8],
    place: usize,
    error: &SourceError,
    mistake: Option<Mistake<'_>>,
) -> Option<Hint> {
    let (before, behind) = source.split_at_checked(place)?;
    match error {
        SourceError::Refused(CompileError::Reading(e)) => {
            if !is_fraction(mistake) && may_be_icu(source, before, behind) {
                Some(Hint::IcuForm)
            } else if e.expected() == Expected::TypeName && asks_for_types(mistake) {
                Some(Hint::Types(&TYPES))
            } else {
                None
            }
        }
        SourceError::Refused(CompileError::ReadingIcu(e)) => match e.expected() {
            IcuExpected::Escape => Some(Hint::Backslash),
            IcuExpected::GroupType if asks_for_types(mistake) => Some(Hint::Types(&ICU_TYPES)),
            _ => None,
        },
        _ => None,
    }
}

/// Whether a person may look for the types there are, where a type is to stand.
fn asks_for_types(mistake: Option<Mistake<'_>>) -> bool {
    match mistake {
        Some(mistake) => matches!(mistake.what, What::UnknownType(..)),
        None => true,
    }
}

/// Whether the mistake is a number with a point.
fn is_fraction(mistake: Option<Mistake<'_>>) -> bool {
    match mistake {
        Some(mistake) => matches!(mistake.what, What::Fraction),
        None => false,
    }
}

/// Whether a text that is refused looks like one of ICU's own form: it begins with a byte order
/// mark, a character that only ICU's words have or its type `alias` stands where it is refused, or
/// it has a backslash before that.
fn may_be_icu(source: &[u8], before: &[u8], behind: &[u8]) -> bool {
    source.starts_with(b"\xEF\xBB\xBF")
        || matches!(behind.first(), Some(b'_' | b'%' | b'.' | b'+'))
        || behind.starts_with(b":alias")
        || before.contains(&b'\\')
}

/// Whether a word is the name of a type.
pub(crate) fn is_type(word: &str) -> bool {
    ICU_TYPES.contains(&word)
}

/// The word with which bytes begin, or its beginning, if it is longer than any type's name.
pub(crate) fn word_of_type(bytes: &[u8]) -> &str {
    for at in 0..bytes.len() {
        if matches!(
            bytes[at],
            b' ' | b'\t' | b'\r' | b'\n' | b'{' | b'}' | b'"' | b',' | b'(' | b':'
        ) {
            return str::from_utf8(&bytes[..at]).unwrap_or("");
        }
    }
    str::from_utf8(bytes).unwrap_or("")
}

/// The first of the names to which the fewest edits lead from a word, if few do: a letter more,
/// less or another, or two that change places.
pub(crate) fn nearest(
    alloc: Global,
    names: &[&'static str],
    word: &str,
) -> Result<Option<&'static str>, AllocError> {
    if word.len() > LONGEST_WORD {
        return Ok(None);
    }
    let mut found = None;
    let mut least = word.len().min(MOST_EDITS + 1);
    for name in names.iter().copied() {
        if word.eq_ignore_ascii_case(name) {
            return Ok(Some(name));
        }
        let edits = osa_distance(alloc, word, name)?;
        if edits < least {
            least = edits;
            found = Some(name);
        }
    }
    Ok(found)
}
