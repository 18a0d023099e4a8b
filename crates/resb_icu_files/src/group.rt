//! Groups that take a file in, where they stand in a text.
//! What is written for one is said in `making`.
ghost use Rattle.std.specs.Prelude.{◌≡◌, ◌<◌, ◌≤◌, length, slice_index, IfOk, IfSome, IfNone};
ghost use Rattle.resb_icu_text.specs.Lexemes.{bytes_said};
ghost use Rattle.resb_icu_files.specs.Inner.Steps.{IsGroupAt};
ghost use Rattle.resb_icu_files.specs.Ways.{NoFileGroup};

use crate::way::{Way, way_at};
use resb_icu_text::{IcuTurns, Said, skip, string};
use resb_tree::NoMemory;
use std::alloc::Global;

/// A group that takes a file in.
#[derive(Drop)]
pub(crate) struct Group<'a> {
    /// The place of the `:` before its type.
    pub(crate) at: usize,
    /// How it takes the file in.
    pub(crate) kind: Way,
    /// The place of its `{`.
    pub(crate) brace: usize,
    /// The place of its `}`.
    pub(crate) last: usize,
    /// The file's name.
    pub(crate) name: Said<'a>,
}

/// The byte there, or 0 past the end.
pub(crate) fn byte(text: &str, at: usize) -> u8
    ensures byte { result ≡ slice_index text.now at }
    ensures inside { 0 < result → at < length text.now }
{
    if at < text.len() {
        text.as_bytes()[at]
    } else {
        0
    }
}

/// The name that a string says.
pub(crate) fn said<'s>(name: &'s Said<'_>) -> &'s str
    ensures { result.now ≡ bytes_said name.now }
{
    match name {
        Said::Slice(name) => name,
        Said::Built(name) => name.as_str(),
    }
}

/// The group that takes a file in and begins at this place, if one does.
pub(crate) fn group_at<'a>(
    alloc: Global,
    text: &'a str,
    at: usize,
) -> Result<Option<Group<'a>>, NoMemory>
    requires { at ≤ length text.now }
    ensures found { IfOk result (λ g. IfSome g (IsGroupAt text.now at)) }
    ensures none { IfOk result (λ g. IfNone g (NoFileGroup text.now at)) }
{
    let mut turns = IcuTurns::new();
    if byte(text, at) != b':' {
        return Ok(None);
    }
    let place = skip(text, at + 1, &mut turns);
    let Some(kind) = way_at(text.as_bytes(), place) else {
        return Ok(None);
    };
    let brace = skip(text, place + kind.spelling().len(), &mut turns);
    if byte(text, brace) != b'{' {
        return Ok(None);
    }
    let from = skip(text, brace + 1, &mut turns);
    let Some(name) = string(alloc, text, from, &mut turns)? else {
        return Ok(None);
    };
    if byte(text, name.next) != b'}' {
        return Ok(None);
    }
    Ok(Some(Group {
        at,
        kind,
        brace,
        last: name.next,
        name: name.said,
    }))
}
