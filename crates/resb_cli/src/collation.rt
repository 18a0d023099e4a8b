//! Rules of collation in drafts of ICU's texts: which of them need a binary form, without which ICU
//! opens no collator, and what is said where they have none.
//! How they are given one is in `forms`.
use crate::entries::{entries_at, text_at, value_at};
use crate::say::{complain, refuse_memory};
use resb_draft::Draft;
use resb_words::CompileWords;
use std::alloc::{AllocError, Global};
use std::fmt;

/// The key of a root's table in which each type of collation has a table.
pub(crate) const COLLATIONS: &str = "collations";

/// The key of a type's rules.
pub(crate) const RULES: &str = "Sequence";

/// The key of the binary form of a type's rules.
pub(crate) const BINARY: &str = "%%CollationBin";

/// What a type's key begins with whose rules have no binary form: others import them.
const PRIVATE: &str = "private-";

/// What is said of the rules of a type.
#[derive(Clone, Copy)]
pub(crate) enum Said {
    /// They have no binary form, and are refused.
    Refused,
    /// They are compiled without one.
    Unbuilt,
    /// The file that should have one has none.
    Lacking,
    /// It has one of other rules.
    Foreign,
}

/// What is said of the rules of the type of a key.
#[derive(Clone, Copy)]
struct OfType<'k> {
    key: &'k str,
    said: Said,
}

impl fmt::Display for OfType<'_> {
    fn fmt<W: fmt::Write>(&self, f: &mut fmt::Formatter<W>) -> fmt::Result {
        let key = self.key;
        let rest = match self.said {
            Said::Refused => ", which ICU's genrb makes; see --collation",
            Said::Unbuilt => ": ICU opens no collator by them",
            Said::Lacking => " here",
            Said::Foreign => " here: the file's is of other rules",
        };
        write!(
            f,
            "the rules of collation '{key}' have no binary form{rest}"
        )
    }
}

/// Says that the rules of the type of a key are compiled without a binary form, and gives the
/// status of that.
pub(crate) fn say_unbuilt(
    rt: &HostRuntime,
    name: &str,
    key: &str,
    wanted: &CompileWords<'_>,
) -> u8 {
    if !wanted.is_quiet || wanted.is_strict {
        let said = Said::Unbuilt;
        complain(rt, name, OfType { key, said });
    }
    u8::from(wanted.is_strict)
}

/// Says of a file of a name why there is no binary form for the rules of the type of a key, and
/// gives the status of that.
pub(crate) fn refuse_form(rt: &HostRuntime, name: &str, key: &str, said: Said) -> u8 {
    complain(rt, name, OfType { key, said });
    1
}

/// The keys of the types of collation of the text of a name whose rules have no binary form and
/// need one.
pub(crate) fn unbuilt_in<'t>(
    rt: &HostRuntime,
    name: &str,
    draft: &Draft<'t>,
) -> Result<Vec<&'t str>, u8> {
    unbuilt(rt.alloc(), draft).map_err(|_| refuse_memory(rt, name))
}

/// Finds the keys of such types, and says nothing.
fn unbuilt<'a>(alloc: Global, draft: &Draft<'a>) -> Result<Vec<&'a str>, AllocError> {
    let mut unbuilt = Vec::new(alloc);
    let types = value_at(draft, draft.root, COLLATIONS);
    let Some((keys, tables)) = types.and_then(|types| entries_at(draft, types)) else {
        return Ok(unbuilt);
    };
    for (key, table) in keys.iter().copied().zip(tables.iter().copied()) {
        if is_unbuilt(draft, table, key) {
            unbuilt.push(key)?;
        }
    }
    Ok(unbuilt)
}

/// Whether the table of a type has rules without a binary form, and needs one.
fn is_unbuilt(draft: &Draft<'_>, table: u32, key: &str) -> bool {
    let rules = value_at(draft, table, RULES);
    !key.starts_with(PRIVATE)
        && rules.is_some_and(|rules| text_at(draft, rules).is_some())
        && value_at(draft, table, BINARY).is_none()
}

/// The number of the table that a draft has for the type of a key.
fn type_at(draft: &Draft<'_>, key: &str) -> Option<u32> {
    value_at(draft, value_at(draft, draft.root, COLLATIONS)?, key)
}

/// The rules that a draft has for the type of a key.
pub(crate) fn rules_of<'d>(draft: &'d Draft<'_>, key: &str) -> Option<&'d str> {
    text_at(draft, value_at(draft, type_at(draft, key)?, RULES)?)
}

/// Whether a draft has a binary form for the type of a key.
pub(crate) fn has_form(draft: &Draft<'_>, key: &str) -> bool {
    type_at(draft, key).is_some_and(|number| value_at(draft, number, BINARY).is_some())
}

/// The first of some types that a draft has.
pub(crate) fn first_left<'k>(draft: &Draft<'_>, types: &[&'k str]) -> Option<&'k str> {
    types
        .iter()
        .copied()
        .find(|key| type_at(draft, key).is_some())
}
