//! From a text of ICU's form to a bundle and its keys, in one pass and without recursion.
//! What stands before the first entry of the root and behind the last is read here; what is open in
//! between is kept in `open`.
ghost use Rattle.std.specs.Prelude.{◌≡◌, ◌⊎◌, ◌+◌, ◌*◌, ◌<◌, ◌≤◌, true, false, length, map};
ghost use Rattle.std.specs.Prelude.{IfOk, IfErr, MatchResult};
ghost use Rattle.resb_draft.specs.Drafts.{draft_tree, is_ready};
ghost use Rattle.resb_grammar.specs.BundleText.{first_places};
ghost use Rattle.resb_grammar.specs.Limit.{tree_limit, draft_limit};
ghost use Rattle.resb_icu_text.specs.Inner.Reach.{reach};
ghost use Rattle.resb_tree.specs.Bundle.{name_of, root_of};
ghost use Rattle.resb_icu_grammar.specs.Blanks.{Begins};
ghost use Rattle.resb_icu_grammar.specs.Bundle as bundle;
ghost use Rattle.resb_icu_grammar.specs.Bundle.{IcuText};
ghost use Rattle.resb_icu_grammar.specs.Limit.{IcuMadeWithin};
ghost use Rattle.resb_icu_grammar.specs.Machine.{at_root};
ghost use Rattle.resb_icu_text.specs.Answer.{IcuFails, IsNoIcuText};
ghost use Rattle.resb_icu_text.specs.Answer.{IcuFailsWithin, IsNoIcuTextWithin};
ghost use Rattle.resb_icu_text.specs.Borrowed.{IsBorrowedFrom};
ghost use Rattle.resb_icu_text.specs.Refusal.{want_of_memory};
ghost use Rattle.resb_icu_text.specs.Inner.Reading.{NameAhead, NameFails, TypingThere};
ghost use Rattle.resb_icu_text.specs.Inner.Reading.{Opening, OpeningFails, HeaderFails};
ghost use Rattle.resb_icu_text.specs.Inner.Reading.{RootThere};
ghost use Rattle.resb_icu_text.specs.Inner.Kept.{IsKept};
ghost use Rattle.resb_icu_text.specs.Inner.Quota.{Stops, StopsAt, limit_of};
ghost use Rattle.resb_icu_text.specs.Inner.Turns.{Halts};

use crate::behind::has_barred;
use crate::blanks::{byte, skip};
use crate::build::Build;
use crate::error::{IcuLimitError, IcuTextError};
use crate::open::{Next, OpenGroups};
use crate::quota::Meter;
use crate::steps::{Step, key_at};
use crate::trees::Trees;
use crate::turns::IcuTurns;
use crate::types::root_type;
use crate::words::word_end;
use resb_draft::{Draft, DraftBundle};
use resb_grammar::{KeyList, Limit};
use resb_icu_grammar::IcuExpected;
use resb_tree::{Key, NoMemory, ResourceBundle};
use std::alloc::Global;
use std::borrow::CowStr;

/// Reads texts of bundles in ICU's form. There are no values of this type.
pub enum IcuReader {}

impl IcuReader {
    /// The bundle that the text is, and the keys of its tables in order of place, each once. Text
    /// behind the bundle may stand there if it has neither a backslash nor a `/*`; it isn't read.
    /// The name is a slice of the text, and so is each string and each alias's path of one piece
    /// without escapes; other strings and paths, and the bytes of binaries, are owned.
    pub fn read<'a>(
        alloc: Global,
        input: &'a str,
    ) -> Result<(ResourceBundle<'a>, Vec<Key<'a>>), IcuTextError>
        ensures ok { IfOk result (λ r. IcuText input.now
            (name_of r.0) r.0.is_locale_fallback_enabled (root_of r.0) r.1.items) }
        ensures borrowed { IfOk result (λ r. IsBorrowedFrom input.now r.0) }
        ensures err { IfErr result (IcuFails input.now) }
        ensures no_text { IfErr result (λ e. (e ≡ want_of_memory) ⊎ IsNoIcuText input.now) }
    {
        read_limited(alloc, input, &mut Meter::new(Limit::of_trees(u64::MAX)))
    }

    /// The bundle and the keys as `read` gives them, where reading makes no more bytes than the
    /// limit. Counted are 72 for the `{` of the root, of a group without a type, of an array and of
    /// a table, and for a string among members; 192 for each key, 1024 for the first key of a
    /// table; 3 more for each byte of these keys and strings; 32 and 1 more for each byte of a
    /// string that is put together; for a group of another type 72, and 32 for all but a number; 4
    /// for each byte of its string or path, 3 for each byte of a binary, 8 for each number of a
    /// vector. The reading stops before the first step by which more would be made: the text is
    /// larger than the limit then, whatever follows. So a text is refused for a fault of its own
    /// only where no more is made before that fault.
    pub fn read_within<'a>(
        alloc: Global,
        input: &'a str,
        limit: u64,
    ) -> Result<(ResourceBundle<'a>, Vec<Key<'a>>), IcuLimitError>
        ensures ok { IfOk result (λ r. IcuText input.now
            (name_of r.0) r.0.is_locale_fallback_enabled (root_of r.0) r.1.items) }
        ensures within { IfOk result (λ r. IcuMadeWithin input.now (tree_limit limit)) }
        ensures borrowed { IfOk result (λ r. IsBorrowedFrom input.now r.0) }
        ensures err { IfErr result (IcuFailsWithin input.now (tree_limit limit)) }
        ensures none { IfErr result (IsNoIcuTextWithin input.now (tree_limit limit)) }
    {
        let mut meter = Meter::new(Limit::of_trees(limit));
        match read_limited(alloc, input, &mut meter) {
            Ok(read) => Ok(read),
            Err(_) if meter.quota.is_over => Err(IcuLimitError::Larger),
            Err(error) => Err(IcuLimitError::Text(error)),
        }
    }

    /// Answers as `read` does. The count never falls, and rises by at most `8 n + 24` for a text
    /// of n bytes, whatever the answer: the reading takes linearly many turns.
    pub fn read_counted<'a>(
        alloc: Global,
        input: &'a str,
        turns: &mut IcuTurns,
    ) -> Result<(ResourceBundle<'a>, Vec<Key<'a>>), IcuTextError>
        ensures ok { IfOk result (λ r. IcuText input.now
            (name_of r.0) r.0.is_locale_fallback_enabled (root_of r.0) r.1.items) }
        ensures borrowed { IfOk result (λ r. IsBorrowedFrom input.now r.0) }
        ensures err { IfErr result (IcuFails input.now) }
        ensures no_text { IfErr result (λ e. (e ≡ want_of_memory) ⊎ IsNoIcuText input.now) }
        ensures grows { turns.old.count ≤ turns.new.count }
        ensures cost { turns.new.count ≤ turns.old.count + 8 * length input.now + 24 }
    {
        let mut meter = Meter::new(Limit::of_trees(u64::MAX));
        let read = read_limited(alloc, input, &mut meter);
        turns.add_counted(meter.turns);
        read
    }

    /// The bundle that the text is, with its root as a draft, and the keys as `read` gives them.
    /// No map is made for a table whose keys ascend as they come.
    pub fn read_draft<'a>(
        alloc: Global,
        input: &'a str,
    ) -> Result<(DraftBundle<'a>, Vec<Key<'a>>), IcuTextError>
        ensures ok { IfOk result (λ r. IcuText input.now r.0.name.now
            r.0.is_locale_fallback_enabled (draft_tree r.0.root) r.1.items) }
        ensures ready { IfOk result (λ r. is_ready r.0.root ≡ true) }
        ensures err { IfErr result (IcuFails input.now) }
        ensures no_text { IfErr result (λ e. (e ≡ want_of_memory) ⊎ IsNoIcuText input.now) }
    {
        draft_limited(alloc, input, &mut Meter::new(Limit::of_drafts(u64::MAX)))
    }

    /// The bundle as `read_draft` gives it, where reading makes no more bytes than the limit. They
    /// are counted as in `read_within`, but that 88 are counted where 72 are there, 112 for a key,
    /// and 64 more for the first key of a table.
    pub fn read_draft_within<'a>(
        alloc: Global,
        input: &'a str,
        limit: u64,
    ) -> Result<(DraftBundle<'a>, Vec<Key<'a>>), IcuLimitError>
        ensures ok { IfOk result (λ r. IcuText input.now r.0.name.now
            r.0.is_locale_fallback_enabled (draft_tree r.0.root) r.1.items) }
        ensures within { IfOk result (λ r. IcuMadeWithin input.now (draft_limit limit)) }
        ensures ready { IfOk result (λ r. is_ready r.0.root ≡ true) }
        ensures err { IfErr result (IcuFailsWithin input.now (draft_limit limit)) }
        ensures none { IfErr result (IsNoIcuTextWithin input.now (draft_limit limit)) }
    {
        let mut meter = Meter::new(Limit::of_drafts(limit));
        match draft_limited(alloc, input, &mut meter) {
            Ok(read) => Ok(read),
            Err(_) if meter.quota.is_over => Err(IcuLimitError::Larger),
            Err(error) => Err(IcuLimitError::Text(error)),
        }
    }
}

/// The bundle and its keys, where no more bytes are made than the meter's quota has.
fn read_limited<'a>(
    alloc: Global,
    input: &'a str,
    meter: &mut Meter,
) -> Result<(ResourceBundle<'a>, Vec<Key<'a>>), IcuTextError>
    requires unused { meter.old.quota.is_over ≡ false }
    ensures reads { let limit = limit_of meter.old.quota in MatchResult result
        (λ r. IcuText input.now
        (name_of r.0) r.0.is_locale_fallback_enabled (root_of r.0) r.1.items
        × IsBorrowedFrom input.now r.0 × IcuMadeWithin input.now limit)
        (Stops input.now limit meter.new.quota) }
    ensures cost { meter.new.turns.count ≤ meter.old.turns.count + 8 * length input.now + 24 }
{
    let (header, root, keys) = read_into(alloc, input, meter, Trees {})?;
    Ok((
        ResourceBundle::new(CowStr::Borrowed(header.name), root.made, header.fallback),
        keys,
    ))
}

/// The bundle with its root as a draft, and its keys, where no more bytes are made than the meter's
/// quota has.
fn draft_limited<'a>(
    alloc: Global,
    input: &'a str,
    meter: &mut Meter,
) -> Result<(DraftBundle<'a>, Vec<Key<'a>>), IcuTextError>
    requires unused { meter.old.quota.is_over ≡ false }
    ensures reads { let limit = limit_of meter.old.quota in MatchResult result
        (λ r. IcuText input.now r.0.name.now
        r.0.is_locale_fallback_enabled (draft_tree r.0.root) r.1.items
        × (is_ready r.0.root ≡ true) × IcuMadeWithin input.now limit)
        (Stops input.now limit meter.new.quota) }
{
    let (header, root, keys) = read_into(alloc, input, meter, Draft::new(alloc))?;
    let Root { build, made } = root;
    let mut draft = build;
    draft.root = made;
    let bundle = DraftBundle {
        name: header.name,
        root: draft,
        is_locale_fallback_enabled: header.fallback,
    };
    Ok((bundle, keys))
}

/// What is made of the root, and what has made it.
#[derive(Drop)]
struct Root<B, X> {
    build: B,
    made: X,
}

/// What stands before the root, what is made of that, and the keys, where no more bytes are made
/// than the meter's quota has.
#[tactic(auto, using(crate::proofs::ReachLemmas::reached))]
fn read_into<'a, B: Build<'a>>(
    alloc: Global,
    input: &'a str,
    meter: &mut Meter,
    build: B,
) -> Result<(Header<'a>, Root<B, B::Made>, Vec<Key<'a>>), IcuTextError>
    requires unused { meter.old.quota.is_over ≡ false }
    ensures reads { let limit = limit_of meter.old.quota in MatchResult result
        (λ r. IcuText input.now r.0.name.now r.0.fallback
        (B.tree r.1.build r.1.made) r.2.items
        × IsKept input.now (B.held r.1.build r.1.made) × IcuMadeWithin input.now limit)
        (Stops input.now limit meter.new.quota) }
    ensures cost { meter.new.turns.count ≤ meter.old.turns.count + 8 * length input.now + 24 }
{
    let header = read_header(input, &mut meter.turns)?;
    let group = meter.quota.weights.group;
    meter.quota.take(group as u128)?;
    let (root, keys) = read_root(alloc, input, header.first, meter, build)?;
    let keys = each_once(alloc, &keys, &mut meter.turns)?;
    Ok((header, root, keys))
}

/// What stands before the root's entries: the bundle's name, and whether fallback is on. And the
/// place of the first entry.
#[derive(Drop)]
struct Header<'a> {
    name: &'a str,
    fallback: bool,
    first: usize,
}

/// Where a text begins: behind its byte order mark, or with its first byte where it has none.
fn begin(text: &str) -> usize
    ensures begins { Begins text.now result }
    ensures within { result ≤ length text.now }
{
    if byte(text, 0) == 0xef && byte(text, 1) == 0xbb && byte(text, 2) == 0xbf {
        3
    } else {
        0
    }
}

/// The bundle's name that must begin here, and the place behind the blanks that follow it.
#[tactic(auto, using(crate::proofs::ReadingLemmas::names))]
fn name<'a>(
    text: &'a str,
    at: usize,
    turns: &mut IcuTurns,
) -> Result<(usize, &'a str), IcuTextError>
    requires within { at ≤ length text.now }
    ensures reads { MatchResult result
        (λ r. NameAhead text.now at r.0 r.1.now) (NameFails text.now at) }
    ensures cost { MatchResult result
        (λ r. turns.new.count + 8 * reach text.now at + 2
        ≤ turns.old.count + 8 * reach text.now r.0)
        (λ e. Halts text.now 4 at turns.old turns.new) }
{
    let (next, key) = key_at(text, at, IcuExpected::Name, turns)?;
    if key.is_empty() {
        return Err(IcuTextError::new(at, IcuExpected::Name));
    }
    turns.add(key.len());
    turns.add(1);
    if word_end(key, 0) < key.len() {
        return Err(IcuTextError::new(at, IcuExpected::Name));
    }
    Ok((next, key))
}

/// The place behind the root's type and the blanks there, if it has one, and whether fallback stays
/// on.
#[tactic(auto, using(crate::proofs::ReachLemmas::reached))]
fn typing(text: &str, at: usize, turns: &mut IcuTurns) -> Result<(usize, bool), IcuTextError>
    requires within { at ≤ length text.now }
    ensures reads { MatchResult result
        (λ r. TypingThere text.now at r.0 r.1 × (r.0 ≤ length text.now))
        (OpeningFails text.now at) }
    ensures cost { MatchResult result
        (λ r. turns.new.count + 8 * reach text.now at
        ≤ turns.old.count + 8 * reach text.now r.0 + 12)
        (λ e. Halts text.now 12 at turns.old turns.new) }
{
    if byte(text, at) != b':' {
        return Ok((at, true));
    }
    match root_type(text, at, turns) {
        Some((end, fallback)) => Ok((skip(text, end, turns), fallback)),
        None => Err(IcuTextError::new(at, IcuExpected::RootType)),
    }
}

/// The place of the root's `{` behind its type, if it has one, and whether fallback stays on.
#[tactic(auto, using(crate::proofs::ReachLemmas::reached))]
fn opening(text: &str, at: usize, turns: &mut IcuTurns) -> Result<(usize, bool), IcuTextError>
    requires within { at ≤ length text.now }
    ensures reads { MatchResult result
        (λ r. Opening text.now at r.0 r.1 × (r.0 < length text.now))
        (OpeningFails text.now at) }
    ensures cost { MatchResult result
        (λ r. turns.new.count + 8 * reach text.now at ≤ turns.old.count + 8 * r.0 + 12)
        (λ e. Halts text.now 12 at turns.old turns.new) }
{
    let (brace, fallback) = typing(text, at, turns)?;
    if byte(text, brace) == b'{' {
        Ok((brace, fallback))
    } else {
        Err(IcuTextError::new(brace, IcuExpected::LeftBrace))
    }
}

/// What stands before the root's entries.
#[tactic(auto, using(crate::proofs::ReadingLemmas::headers))]
fn read_header<'a>(text: &'a str, turns: &mut IcuTurns) -> Result<Header<'a>, IcuTextError>
    ensures reads { MatchResult result
        (λ h. bundle.Header text.now h.name.now h.fallback h.first × (h.first ≤ length text.now))
        (HeaderFails text.now) }
    ensures cost { MatchResult result
        (λ h. turns.new.count ≤ turns.old.count + 8 * reach text.now h.first + 12)
        (λ e. turns.new.count ≤ turns.old.count + 8 * length text.now + 20) }
{
    let start = skip(text, begin(text), turns);
    let (next, name) = name(text, start, turns)?;
    let (brace, fallback) = opening(text, next, turns)?;
    let first = skip(text, brace + 1, turns);
    Ok(Header {
        name,
        fallback,
        first,
    })
}

/// What is made of the root whose entries begin here, and the keys of its tables in order of place.
#[tactic(auto, using(crate::proofs::ReachLemmas::reached))]
fn read_root<'a, B: Build<'a>>(
    alloc: Global,
    text: &'a str,
    first: usize,
    meter: &mut Meter,
    build: B,
) -> Result<(Root<B, B::Made>, Vec<&'a str>), IcuTextError>
    requires within { first ≤ length text.now }
    ensures reads { MatchResult result
        (λ r. RootThere text.now first meter.old.quota meter.new.quota
        (B.tree r.0.build r.0.made) (map (λ k. k.now) r.1.items)
        × IsKept text.now (B.held r.0.build r.0.made))
        (StopsAt text.now meter.old.quota meter.new.quota (at_root first)) }
    ensures cost { MatchResult result
        (λ r. meter.new.turns.count + 8 * reach text.now first + length r.1.items
        ≤ meter.old.turns.count + 8 * length text.now + 8)
        (λ e. Halts text.now 8 first meter.old.turns meter.new.turns) }
{
    let mut open = OpenGroups::new(alloc, build);
    let mut step = Step::Entries(Vec::new(alloc), first);
    'steps: loop {
        match open.advance(alloc, text, step, meter)? {
            Next::Step(next) => step = next,
            Next::Root(made, at) => {
                let end = skip(text, at, &mut meter.turns);
                if has_barred(text, end, &mut meter.turns) {
                    return Err(IcuTextError::new(end, IcuExpected::EndOfText));
                }
                let OpenGroups { build, keys, .. } = open;
                return Ok((Root { build, made }, keys));
            }
        }
    }
}

/// The keys, each at its first place alone. Counts a turn for each.
fn each_once<'a>(
    alloc: Global,
    keys: &[&'a str],
    turns: &mut IcuTurns,
) -> Result<Vec<Key<'a>>, NoMemory>
    ensures once { IfOk result
        (λ once. once.items ≡ first_places (map (λ k. k.now) keys.now)) }
    ensures cost { turns.new.count ≤ turns.old.count + length keys.now }
{
    turns.add(keys.len());
    let mut list = KeyList::new(alloc);
    for key in keys {
        list.list(*key)?;
    }
    list.into_keys(alloc)
}
