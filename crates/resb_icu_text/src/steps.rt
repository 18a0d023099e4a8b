//! One step of a reading: from where it stands to behind the next member, entry, brace or group.
//! What is open around that place is kept in `open`, and what a step has read is made there. Groups
//! without items are read in `leaf`.
ghost use Rattle.std.specs.Prelude.{◌≡◌, ◌≢◌, ◌+◌, ◌*◌, ◌<◌, ◌≤◌, true, length};
ghost use Rattle.std.specs.Prelude.{slice_index, IfOk, MatchResult, IsTrue, false};
ghost use Rattle.resb_grammar.specs.Ascii as ascii;
ghost use Rattle.resb_icu_text.specs.Inner.Reach.{reach};
ghost use Rattle.resb_icu_grammar.specs.Groups as spec;
ghost use Rattle.resb_icu_grammar.specs.Limit.{next_key_bytes, opening_bytes};
ghost use Rattle.resb_icu_grammar.specs.Machine.{BeginsGroup};
ghost use Rattle.resb_icu_grammar.specs.Stuck.{member_behind};
ghost use Rattle.resb_tree.specs.Tree.{Tree};
ghost use Rattle.resb_icu_text.specs.Inner.Ahead.{KeyFails};
ghost use Rattle.resb_icu_text.specs.Inner.Build.{pairs_by};
ghost use Rattle.resb_icu_text.specs.Inner.Steps.{last_of, members_place, entries_place};
ghost use Rattle.resb_icu_text.specs.Inner.Steps.{group_place, untyped_place, typed_place};
ghost use Rattle.resb_icu_text.specs.Inner.Steps.{StepsTo, StepFails, Proceeds, KeyAhead};
ghost use Rattle.resb_icu_text.specs.Inner.Steps.{Resumes, spent};
ghost use Rattle.resb_icu_text.specs.Inner.Turns.{Halts};

use crate::blanks::{byte, skip};
use crate::error::IcuTextError;
use crate::leaf::leaf;
use crate::quota::{Meter, key_bytes};
use crate::strings::found_or;
use crate::turns::IcuTurns;
use crate::types::group_type;
use resb_grammar::{Weights, push_item};
use resb_icu_grammar::{IcuExpected, IcuKind};
use resb_tree::{NoMemory, Resource};
use std::alloc::Global;

/// What stands last among the members of an array so far.
#[derive(Clone, Copy, Debug, PartialEq, Eq)]
pub(crate) enum Last {
    Nothing,
    String,
    Group,
    Comma,
}

impl Last {
    /// Whether a member stands last, with no comma behind it.
    fn is_member(self) -> bool
        ensures { result ≡ spec.is_member (last_of self) }
    {
        match self {
            Last::String | Last::Group => true,
            Last::Nothing | Last::Comma => false,
        }
    }

    /// What may stand behind it among the members.
    fn member_behind(self) -> IcuExpected
        ensures { result ≡ member_behind (last_of self) }
    {
        if self.is_member() {
            IcuExpected::CommaOrMember
        } else {
            IcuExpected::Member
        }
    }

    /// Whether a string stands last, with no comma behind it.
    fn is_string(self) -> bool
        ensures { result ≡ spec.ends_in_string (last_of self) }
    {
        match self {
            Last::String => true,
            _ => false,
        }
    }
}

/// An entry of a table that is not finished yet: its key, and what was made of its value.
pub(crate) type Entry<'a, X> = (&'a str, X);

/// What is open around a group: an array with the members before it, or a table with the entries
/// before it and its key.
#[derive(Drop)]
pub(crate) enum Waiting<'a, X> {
    Array(Vec<X>),
    Table(Vec<Entry<'a, X>>, &'a str),
}

/// Where a reading stands: among members, among entries, before a group, or behind one.
#[derive(Drop)]
pub(crate) enum Step<'a, X> {
    Members(Vec<X>, Last, usize),
    Entries(Vec<Entry<'a, X>>, usize),
    Group(Waiting<'a, X>, usize),
    Ended(X, usize),
}

/// What a step has read, of which nothing is made yet, and the place behind it.
#[derive(Drop)]
pub(crate) enum Read<'a, X> {
    /// Nothing of which something is to be made.
    Step(Step<'a, X>),
    /// A string behind members.
    Member(Vec<X>, Resource<'a>, usize),
    /// An array of these members.
    Array(Vec<X>, usize),
    /// A table of these entries, and before the place behind it that of its `}`.
    Table(Vec<Entry<'a, X>>, usize, usize),
    /// A group without items.
    Leaf(Resource<'a>, usize),
    /// The root, which was made already.
    Root(X, usize),
}

/// Whether a group begins here: with `{`, or with the `:` before its type.
fn begins_group(text: &str, at: usize) -> bool
    ensures yes { IsTrue result → BeginsGroup text.now at }
    ensures no { result ≡ false → BeginsGroup text.now at → ⊥ }
{
    let b = byte(text, at);
    b == b'{' || b == b':'
}

/// From among members to behind the next one, before the next group, or behind the array.
#[tactic(auto, using(crate::proofs::ReachLemmas::reached))]
pub(crate) fn member<'a, X: Drop>(
    text: &'a str,
    members: Vec<X>,
    last: Last,
    at: usize,
    meter: &mut Meter,
) -> Result<Read<'a, X>, IcuTextError>
    requires within { at ≤ length text.now }
    ensures reads { MatchResult result
        (StepsTo text.now (members_place members.items last at) meter.old.quota meter.new.quota)
        (StepFails text.now (members_place members.items last at) meter.old.quota meter.new.quota) }
    ensures cost { MatchResult result
        (Proceeds text.now 3 at meter.old.turns meter.new.turns)
        (λ e. Halts text.now 4 at meter.old.turns meter.new.turns) }
{
    let b = byte(text, at);
    if b == b'}' {
        return Ok(Read::Array(members, at + 1));
    }
    if b == b',' {
        return comma(text, members, last, at, meter);
    }
    if begins_group(text, at) {
        return Ok(Read::Step(Step::Group(Waiting::Array(members), at)));
    }
    string_member(text, members, last, at, meter)
}

/// From a comma to behind it and the blanks there.
#[tactic(auto, using(crate::proofs::ReachLemmas::reached))]
fn comma<'a, X: Drop>(
    text: &'a str,
    members: Vec<X>,
    last: Last,
    at: usize,
    meter: &mut Meter,
) -> Result<Read<'a, X>, IcuTextError>
    requires within { at < length text.now }
    requires comma { slice_index text.now at ≡ ascii.comma }
    ensures reads { MatchResult result
        (StepsTo text.now (members_place members.items last at) meter.old.quota meter.new.quota)
        (StepFails text.now (members_place members.items last at) meter.old.quota meter.new.quota) }
    ensures cost { MatchResult result
        (Proceeds text.now 3 at meter.old.turns meter.new.turns)
        (λ e. Halts text.now 4 at meter.old.turns meter.new.turns) }
{
    if last.is_member() {
        let next = skip(text, at + 1, &mut meter.turns);
        Ok(Read::Step(Step::Members(members, Last::Comma, next)))
    } else {
        Err(IcuTextError::new(at, IcuExpected::Member))
    }
}

/// From the string that must stand here to behind it and the blanks there.
fn string_member<'a, X: Drop>(
    text: &'a str,
    members: Vec<X>,
    last: Last,
    at: usize,
    meter: &mut Meter,
) -> Result<Read<'a, X>, IcuTextError>
    requires within { at ≤ length text.now }
    requires no_brace { slice_index text.now at ≢ ascii.right_brace }
    requires no_comma { slice_index text.now at ≢ ascii.comma }
    requires no_group { BeginsGroup text.now at → ⊥ }
    ensures reads { MatchResult result
        (StepsTo text.now (members_place members.items last at) meter.old.quota meter.new.quota)
        (StepFails text.now (members_place members.items last at) meter.old.quota meter.new.quota) }
    ensures cost { MatchResult result
        (Proceeds text.now 3 at meter.old.turns meter.new.turns)
        (λ e. Halts text.now 4 at meter.old.turns meter.new.turns) }
{
    let alloc = *members.allocator();
    let found = found_or(text, at, last.member_behind(), &mut meter.turns)?;
    if last.is_string() {
        return Err(IcuTextError::new(at, IcuExpected::Comma));
    }
    let group = meter.quota.weights.group;
    meter
        .quota
        .take(group as u128 + found.bytes_made(text, at))?;
    let said = found.text(alloc, text, at, &mut meter.turns)?;
    Ok(Read::Member(members, Resource::String(said), found.next))
}

/// The key that stands here and the place behind the blanks that follow it; or, where none does,
/// what is told in its place: the fault of a quoted string, or else that this was expected.
#[inline(always)]
pub(crate) fn key_at<'a>(
    text: &'a str,
    at: usize,
    expected: IcuExpected,
    turns: &mut IcuTurns,
) -> Result<(usize, &'a str), IcuTextError>
    requires within { at ≤ length text.now }
    ensures reads { MatchResult result
        (λ r. KeyAhead text.now at r.0 r.1.now) (KeyFails text.now at expected) }
    ensures cost { MatchResult result
        (λ r. turns.new.count + 7 * reach text.now at + 3
        ≤ turns.old.count + 7 * reach text.now r.0)
        (λ e. Halts text.now 4 at turns.old turns.new) }
{
    let found = found_or(text, at, expected, turns)?;
    match found.key(turns) {
        Some(key) => Ok((found.next, key)),
        None => Err(IcuTextError::new(at, expected)),
    }
}

/// What the key of an entry makes behind these entries: where there are none, the table as well.
#[tactic(auto, using(crate::proofs::StepsLemmas::keys_make))]
fn next_key_bytes<'a, X: Drop>(weights: Weights, entries: &[Entry<'a, X>], key: &str) -> u128
    ensures { (tree : X → Tree)
        → result ≡ next_key_bytes weights (pairs_by tree entries.now) key.now }
{
    if entries.is_empty() {
        weights.table as u128 + key_bytes(weights, key)
    } else {
        key_bytes(weights, key)
    }
}

/// From among entries to before the value of the next one, or behind the table.
#[tactic(auto, using(crate::proofs::ReachLemmas::reached))]
pub(crate) fn entry<'a, X: Drop>(
    text: &'a str,
    entries: Vec<Entry<'a, X>>,
    at: usize,
    meter: &mut Meter,
) -> Result<Read<'a, X>, IcuTextError>
    requires within { at ≤ length text.now }
    ensures reads { MatchResult result
        (StepsTo text.now (entries_place entries.entry.items at) meter.old.quota meter.new.quota)
        (StepFails text.now (entries_place entries.entry.items at) meter.old.quota
        meter.new.quota) }
    ensures cost { MatchResult result
        (Proceeds text.now 3 at meter.old.turns meter.new.turns)
        (λ e. Halts text.now 4 at meter.old.turns meter.new.turns) }
{
    if byte(text, at) == b'}' {
        return Ok(Read::Table(entries, at, at + 1));
    }
    let (next, key) = key_at(text, at, IcuExpected::Entry, &mut meter.turns)?;
    let bytes = next_key_bytes(meter.quota.weights, &entries, key);
    meter.quota.take(bytes)?;
    let waiting = Waiting::Table(entries, key);
    Ok(Read::Step(Step::Group(waiting, next)))
}

/// From before a group to among its members or entries, or behind it.
#[tactic(auto, using(crate::proofs::ReachLemmas::reached))]
pub(crate) fn group<'a, X: Drop>(
    alloc: Global,
    text: &'a str,
    at: usize,
    meter: &mut Meter,
) -> Result<Read<'a, X>, IcuTextError>
    requires within { at ≤ length text.now }
    ensures reads { MatchResult result
        (StepsTo text.now (group_place X at) meter.old.quota meter.new.quota)
        (StepFails text.now (group_place X at) meter.old.quota meter.new.quota) }
    ensures cost { MatchResult result
        (Proceeds text.now 5 at meter.old.turns meter.new.turns)
        (λ e. Halts text.now 4 at meter.old.turns meter.new.turns) }
{
    let b = byte(text, at);
    if b == b'{' {
        let next = skip(text, at + 1, &mut meter.turns);
        let group = meter.quota.weights.group;
        meter.quota.take(group as u128)?;
        return untyped(alloc, text, next, meter);
    }
    if b == b':' {
        return typed(alloc, text, at, meter);
    }
    Err(IcuTextError::new(at, IcuExpected::Group))
}

/// From a type to among the members or entries of its group, or behind that.
#[tactic(auto, using(crate::proofs::ReachLemmas::reached))]
fn typed<'a, X: Drop>(
    alloc: Global,
    text: &'a str,
    at: usize,
    meter: &mut Meter,
) -> Result<Read<'a, X>, IcuTextError>
    requires within { at < length text.now }
    requires colon { slice_index text.now at ≡ ascii.colon }
    ensures reads { MatchResult result
        (StepsTo text.now (group_place X at) meter.old.quota meter.new.quota)
        (StepFails text.now (group_place X at) meter.old.quota meter.new.quota) }
    ensures cost { MatchResult result
        (Proceeds text.now 5 at meter.old.turns meter.new.turns)
        (λ e. Halts text.now 4 at meter.old.turns meter.new.turns) }
{
    let (end, kind) = group_type(text, at, &mut meter.turns)?;
    let brace = skip(text, end, &mut meter.turns);
    if byte(text, brace) != b'{' {
        return Err(IcuTextError::new(brace, IcuExpected::LeftBrace));
    }
    let first = skip(text, brace + 1, &mut meter.turns);
    let weights = meter.quota.weights;
    meter.quota.take(opening_bytes(weights, kind))?;
    content(alloc, text, kind, first, meter)
}

/// What the `{` behind a type makes.
fn opening_bytes(weights: Weights, kind: IcuKind) -> u128
    ensures { result ≡ opening_bytes weights kind }
{
    match kind {
        IcuKind::Array | IcuKind::Table => weights.group as u128,
        _ => 0,
    }
}

/// From behind the `{` of a group with a type to among its members or entries, or behind it.
fn content<'a, X: Drop>(
    alloc: Global,
    text: &'a str,
    kind: IcuKind,
    at: usize,
    meter: &mut Meter,
) -> Result<Read<'a, X>, IcuTextError>
    requires within { at ≤ length text.now }
    ensures reads { MatchResult result
        (StepsTo text.now (typed_place X kind at) meter.old.quota meter.new.quota)
        (StepFails text.now (typed_place X kind at) meter.old.quota meter.new.quota) }
    ensures cost { MatchResult result
        (Proceeds text.now 0 at meter.old.turns meter.new.turns)
        (λ e. Halts text.now 4 at meter.old.turns meter.new.turns) }
{
    match kind {
        IcuKind::Array => Ok(Read::Step(Step::Members(Vec::new(alloc), Last::Nothing, at))),
        IcuKind::Table => Ok(Read::Step(Step::Entries(Vec::new(alloc), at))),
        _ => {
            let (to, resource) = leaf(alloc, text, kind, at, meter)?;
            Ok(Read::Leaf(resource, to + 1))
        }
    }
}

/// From behind the `{` of a group without a type to among its members or entries, or behind it.
#[tactic(auto, using(crate::proofs::ReachLemmas::reached))]
fn untyped<'a, X: Drop>(
    alloc: Global,
    text: &'a str,
    at: usize,
    meter: &mut Meter,
) -> Result<Read<'a, X>, IcuTextError>
    requires within { at ≤ length text.now }
    ensures reads { MatchResult result
        (StepsTo text.now (untyped_place X at) meter.old.quota meter.new.quota)
        (StepFails text.now (untyped_place X at) meter.old.quota meter.new.quota) }
    ensures cost { MatchResult result
        (Proceeds text.now 0 at meter.old.turns meter.new.turns)
        (λ e. Halts text.now 4 at meter.old.turns meter.new.turns) }
{
    if byte(text, at) == b'}' {
        return Ok(Read::Array(Vec::new(alloc), at + 1));
    }
    if begins_group(text, at) {
        let members = Vec::new(alloc);
        return Ok(Read::Step(Step::Members(members, Last::Nothing, at)));
    }
    untyped_string(alloc, text, at, meter)
}

/// From the string that must stand first in a group without a type to what the group is by what
/// follows: a string, an array, or a table.
#[tactic(auto, using(crate::proofs::ReachLemmas::reached))]
fn untyped_string<'a, X: Drop>(
    alloc: Global,
    text: &'a str,
    at: usize,
    meter: &mut Meter,
) -> Result<Read<'a, X>, IcuTextError>
    requires within { at ≤ length text.now }
    requires no_brace { slice_index text.now at ≢ ascii.right_brace }
    requires no_group { BeginsGroup text.now at → ⊥ }
    ensures reads { MatchResult result
        (StepsTo text.now (untyped_place X at) meter.old.quota meter.new.quota)
        (StepFails text.now (untyped_place X at) meter.old.quota meter.new.quota) }
    ensures cost { MatchResult result
        (Proceeds text.now 0 at meter.old.turns meter.new.turns)
        (λ e. Halts text.now 4 at meter.old.turns meter.new.turns) }
{
    let found = found_or(text, at, IcuExpected::Member, &mut meter.turns)?;
    let next = found.next;
    let b = byte(text, next);
    if b == b'}' {
        meter.quota.take(found.bytes_made(text, at))?;
        let said = found.text(alloc, text, at, &mut meter.turns)?;
        return Ok(Read::Leaf(Resource::String(said), next + 1));
    }
    if b == b',' {
        let group = meter.quota.weights.group;
        meter
            .quota
            .take(group as u128 + found.bytes_made(text, at))?;
        let said = found.text(alloc, text, at, &mut meter.turns)?;
        return Ok(Read::Member(Vec::new(alloc), Resource::String(said), next));
    }
    if !begins_group(text, next) {
        return Err(IcuTextError::new(next, IcuExpected::AfterString));
    }
    let Some(key) = found.key(&mut meter.turns) else {
        return Err(IcuTextError::new(at, IcuExpected::Key));
    };
    let weights = meter.quota.weights;
    meter
        .quota
        .take(weights.table as u128 + key_bytes(weights, key))?;
    Ok(Read::Step(Step::Group(Waiting::Table(Vec::new(alloc), key), next)))
}

/// From behind a group of which this was made to behind the blanks there, among what it stands in.
#[tactic(auto, using(crate::proofs::ReachLemmas::reached))]
pub(crate) fn resume<'a, X: Drop>(
    text: &'a str,
    waiting: Waiting<'a, X>,
    made: X,
    at: usize,
    turns: &mut IcuTurns,
) -> Result<Step<'a, X>, NoMemory>
    requires within { at ≤ length text.now }
    ensures reads { IfOk result (Resumes text.now waiting.entry made at) }
    ensures cost { MatchResult result
        (λ s. turns.new.count + 8 * at + 1 ≤ turns.old.count + spent text.now s)
        (λ e. turns.new.count ≡ turns.old.count) }
{
    match waiting {
        Waiting::Array(members) => {
            let mut members = members;
            push_item(&mut members, made)?;
            Ok(Step::Members(members, Last::Group, skip(text, at, turns)))
        }
        Waiting::Table(entries, key) => {
            let mut entries = entries;
            push_item(&mut entries, (key, made))?;
            Ok(Step::Entries(entries, skip(text, at, turns)))
        }
    }
}
