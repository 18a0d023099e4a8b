//! What stands between groups that take files in: blanks, quoted strings, and other bytes.
//! What such a group is stands in `group`.
ghost use Rattle.std.specs.Prelude.{◌≡◌, ◌+◌, ◌^◌, ◌<◌, ◌≤◌, length, IfOk};
ghost use Rattle.resb_icu_grammar.specs.Blanks.{IsSolid};
ghost use Rattle.resb_icu_grammar.specs.Unquoted as spec;
ghost use Rattle.resb_icu_files.specs.Inner.Steps.{IsStep, IsPassed};
ghost use Rattle.resb_icu_files.specs.Stretches as stretches;

use crate::group::{Group, byte, group_at};
use resb_icu_text::{IcuTurns, skip, string};
use resb_tree::NoMemory;
use std::alloc::Global;

/// What stands at a place of a text.
#[derive(Drop)]
pub(crate) enum Step<'a> {
    /// Something that is passed: the place behind it, and how many groups are open there.
    Past(usize, usize),
    /// A group that takes a file in.
    Group(Group<'a>),
    /// The root's `}`, the end, or what no reader passes.
    End,
}

/// What was passed up to a group or the end.
#[derive(Drop)]
pub(crate) struct Passed<'a> {
    /// The place up to which it goes.
    pub(crate) to: usize,
    /// How many groups are open there.
    pub(crate) depth: usize,
    /// The group that stands there.
    pub(crate) group: Option<Group<'a>>,
}

/// Whether a comment begins there, or seems to.
fn begins_comment(text: &str, at: usize) -> bool
    requires { at < length text.now }
    ensures { result ≡ spec.begins_comment text.now at }
{
    byte(text, at) == b'/' && (byte(text, at + 1) == b'/' || byte(text, at + 1) == b'*')
}

/// The place itself, where a `}` stands there.
pub(crate) fn closer_at(text: &str, at: usize) -> Option<usize>
    ensures { result ≡ stretches.closer_at text.now at }
{
    if byte(text, at) == b'}' {
        Some(at)
    } else {
        None
    }
}

/// Whether the root's `}` stands there: no other group is open.
fn closes_root(text: &str, at: usize, depth: usize) -> bool
    ensures { result ≡ stretches.closes_root text.now at depth }
{
    byte(text, at) == b'}' && depth <= 1
}

/// How many groups are open behind a byte.
fn depth_behind(byte: u8, depth: usize) -> usize
    requires { depth < 2 ^ 63 }
    ensures value { result ≡ stretches.depth_behind byte depth }
    ensures low { result ≤ depth + 1 }
{
    if byte == b'{' {
        depth + 1
    } else if byte == b'}' {
        depth.saturating_sub(1)
    } else {
        depth
    }
}

/// What stands at a place of a text where no blank does, and so many groups are open.
fn token_at<'a>(alloc: Global, text: &'a str, at: usize, depth: usize) -> Result<Step<'a>, NoMemory>
    requires inside { at < length text.now }
    requires low { depth ≤ at }
    requires solid { IsSolid text.now at }
    ensures { IfOk result (IsStep text.now at depth) }
{
    let mut turns = IcuTurns::new();
    let first = byte(text, at);
    if first == b'"' {
        return match string(alloc, text, at, &mut turns)? {
            Some(quoted) => Ok(Step::Past(quoted.end, depth)),
            None => Ok(Step::End),
        };
    }
    if begins_comment(text, at) {
        return Ok(Step::End);
    }
    if closes_root(text, at, depth) {
        return Ok(Step::End);
    }
    match group_at(alloc, text, at)? {
        Some(group) => Ok(Step::Group(group)),
        None => Ok(Step::Past(at + 1, depth_behind(first, depth))),
    }
}

/// What stands at a place of a text where so many groups are open.
fn step_at<'a>(alloc: Global, text: &'a str, at: usize, depth: usize) -> Result<Step<'a>, NoMemory>
    requires within { at ≤ length text.now }
    requires low { depth ≤ at }
    ensures { IfOk result (IsStep text.now at depth) }
{
    let mut turns = IcuTurns::new();
    let next = skip(text, at, &mut turns);
    if at < next {
        return Ok(Step::Past(next, depth));
    }
    if at == text.len() {
        return Ok(Step::End);
    }
    token_at(alloc, text, at, depth)
}

/// What is passed from a place on, where so many groups are open, up to a group or the end.
pub(crate) fn pass<'a>(
    alloc: Global,
    text: &'a str,
    from: usize,
    depth: usize,
) -> Result<Passed<'a>, NoMemory>
    requires within { from ≤ length text.now }
    requires low { depth ≤ from }
    ensures { IfOk result (IsPassed text.now from depth) }
{
    let mut to = from;
    let mut deep = depth;
    'stretch: loop {
        match step_at(alloc, text, to, deep)? {
            Step::Past(next, behind) => {
                to = next;
                deep = behind;
            }
            Step::Group(group) => {
                return Ok(Passed {
                    to,
                    depth: deep,
                    group: Some(group),
                });
            }
            Step::End => {
                return Ok(Passed {
                    to,
                    depth: deep,
                    group: None,
                });
            }
        }
    }
}
