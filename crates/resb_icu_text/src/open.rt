//! The groups that are open around the place where a reading stands, and the keys before it.
//! What one step reads inside them is said in `steps`, what is made of that in `build`.
ghost use Rattle.std.specs.Prelude.{◌≡◌, ◌⊎◌, ◌&&◌, ◌+◌, ◌*◌, ◌≤◌, Bool, true, [], ◌∷◌};
ghost use Rattle.std.specs.Prelude.{length, map, OnOk, MatchResult};
ghost use Rattle.resb_tree.specs.Tree.{Tree};
ghost use Rattle.resb_icu_text.specs.Refusal.{want_of_memory};
ghost use Rattle.resb_icu_text.specs.Inner.Steps.{shown, with_key, stands_at, progress, spent};
ghost use Rattle.resb_icu_text.specs.Inner.Steps.{spent_reading, has_leaf};
ghost use Rattle.resb_icu_text.specs.Inner.Reading.{groups, keys, stands, spent_before};
ghost use Rattle.resb_icu_text.specs.Inner.Reading.{IsRead, IsAdvanced, IsMade};
ghost use Rattle.resb_icu_text.specs.Inner.Reading.{IsDouble};
ghost use Rattle.resb_icu_text.specs.Inner.Kept.{Test, anything, IsKept, groups_pass, open_passes};
ghost use Rattle.resb_icu_text.specs.Inner.Kept.{step_passes, read_passes};
ghost use Rattle.resb_icu_text.specs.Inner.Quota.{StopsAt};

use crate::build::Build;
use crate::error::IcuTextError;
use crate::quota::Meter;
use crate::steps::{Last, Read, Step, Waiting, entry, group, member, resume};
use resb_grammar::push_item;
use resb_icu_grammar::IcuExpected;
use resb_tree::NoMemory;
use std::alloc::Global;

/// The groups that are open, the innermost last, the keys so far in order of place, and what makes
/// something of groups.
#[derive(Drop)]
pub(crate) struct OpenGroups<'a, B, X> {
    waiting: Vec<Waiting<'a, X>>,
    pub(crate) keys: Vec<&'a str>,
    pub(crate) build: B,
}

/// Where a reading goes on, or what was made of the root, with the place behind it.
#[derive(Drop)]
pub(crate) enum Next<'a, X> {
    Step(Step<'a, X>),
    Root(X, usize),
}

/// Lists the key that a group stands under, if it stands under one.
fn list_key<'a, X: Drop>(keys: &mut Vec<&'a str>, waiting: &Waiting<'a, X>) -> Result<(), NoMemory>
    ensures { OnOk result (map (λ k. k.now) keys.new.items
        ≡ with_key (map (λ k. k.now) keys.old.items) waiting.now) }
{
    if let Waiting::Table(_, key) = waiting {
        keys.push(*key)?;
    }
    Ok(())
}

impl<'a, X: Drop, B: Build<'a, Made = X>> OpenGroups<'a, B, X> {
    /// Nothing is open yet, and there are no keys.
    pub(crate) fn new(alloc: Global, build: B) -> OpenGroups<'a, B, X>
        ensures groups { (tree : X → Tree) → groups tree result ≡ [] }
        ensures keys { keys result ≡ [] }
        ensures slices { (pass : X → Test → Bool) (t : Test) → groups_pass result pass t ≡ true }
    {
        OpenGroups {
            waiting: Vec::new(alloc),
            keys: Vec::new(alloc),
            build,
        }
    }

    /// One group more is open; the key that it stands under is one key more.
    fn open(&mut self, waiting: Waiting<'a, X>) -> Result<(), NoMemory>
        ensures groups { OnOk result ((tree : X → Tree)
            → groups tree self.new ≡ shown tree waiting.entry ∷ groups tree self.old) }
        ensures keys { OnOk result (keys self.new ≡ with_key (keys self.old) waiting.entry) }
        ensures count { OnOk result (length (keys self.new) ≤ length (keys self.old) + 1) }
        ensures build { self.new.build ≡ self.old.build }
        ensures slices { OnOk result ((pass : X → Test → Bool) (t : Test)
            → groups_pass self.old pass t ≡ true → open_passes waiting.entry pass t ≡ true
            → groups_pass self.new pass t ≡ true) }
    {
        list_key(&mut self.keys, &waiting)?;
        self.waiting.push(waiting)?;
        Ok(())
    }

    /// What one step reads.
    #[tactic(auto, using(crate::proofs::ReachLemmas::reached_by_steps))]
    #[inline(always)]
    fn read(
        &mut self,
        alloc: Global,
        text: &'a str,
        step: Step<'a, X>,
        meter: &mut Meter,
    ) -> Result<Read<'a, X>, IcuTextError>
        requires within { stands_at step ≤ length text.now }
        requires kept { IsKept text.now (λ t. groups_pass self.old (B.held self.old.build) t
            && step_passes step (B.held self.old.build) t) }
        ensures reads { let tree = B.tree self.old.build in
            let from = stands tree self.old step.entry in MatchResult result
            (IsRead tree (B.held self.old.build) text.now from (progress step.entry)
            self.new meter.old.quota meter.new.quota)
            (StopsAt text.now meter.old.quota meter.new.quota from) }
        ensures build { self.new.build ≡ self.old.build }
        ensures cost { MatchResult result
            (λ r. (meter.new.turns.count + 1 + spent text.now step.entry + length (keys self.new)
            ≤ meter.old.turns.count + spent_reading text.now r + length (keys self.old))
            × (meter.new.turns.count + 1 + spent text.now step.entry
            ≤ meter.old.turns.count + 8 * length text.now + 8))
            (λ e. meter.new.turns.count + 1 + spent text.now step.entry
            ≤ meter.old.turns.count + 8 * length text.now + 8) }
    {
        match step {
            Step::Members(members, last, at) => member(text, members, last, at, meter),
            Step::Entries(entries, at) => entry(text, entries, at, meter),
            Step::Group(waiting, at) => {
                self.open(waiting)?;
                group(alloc, text, at, meter)
            }
            Step::Ended(made, at) => match self.waiting.pop() {
                Some(waiting) => {
                    let step = resume(text, waiting, made, at, &mut meter.turns)?;
                    Ok(Read::Step(step))
                }
                None => Ok(Read::Root(made, at)),
            },
        }
    }

    /// One step further.
    #[inline(always)]
    pub(crate) fn advance(
        &mut self,
        alloc: Global,
        text: &'a str,
        step: Step<'a, X>,
        meter: &mut Meter,
    ) -> Result<Next<'a, X>, IcuTextError>
        requires within { stands_at step ≤ length text.now }
        requires kept { IsKept text.now (λ t. groups_pass self.old (B.held self.old.build) t
            && step_passes step (B.held self.old.build) t) }
        ensures reads { let from = stands (B.tree self.old.build) self.old step.entry in
            MatchResult result
            (IsAdvanced (B.tree self.new.build) (B.held self.new.build) text.now from step.entry
            self.new meter.old.quota meter.new.quota)
            (StopsAt text.now meter.old.quota meter.new.quota from) }
        ensures cost { MatchResult result
            (λ next. meter.new.turns.count + spent text.now step.entry + length (keys self.new)
            ≤ meter.old.turns.count + spent_before text.now next + length (keys self.old))
            (λ e. meter.new.turns.count + spent text.now step.entry
            ≤ meter.old.turns.count + 8 * length text.now + 8) }
    {
        meter.turns.add(1);
        let read = self.read(alloc, text, step, meter)?;
        make(&mut self.build, alloc, read)
    }
}

/// Makes what was read, or refuses a table in which a key stands twice.
#[inline(always)]
fn make<'a, B: Build<'a>>(
    build: &mut B,
    alloc: Global,
    read: Read<'a, B::Made>,
) -> Result<Next<'a, B::Made>, IcuTextError>
    requires leaf { has_leaf read ≡ true }
    requires held { read_passes read (B.held build.old) anything ≡ true }
    ensures { MatchResult result (IsMade B.tree B.held build.old build.new read.entry)
        (λ e. (e ≡ want_of_memory) ⊎ IsDouble (B.tree build.old) read.entry e) }
{
    match read {
        Read::Step(step) => Ok(Next::Step(step)),
        Read::Member(members, string, at) => {
            let mut members = members;
            let made = build.leaf(string)?;
            push_item(&mut members, made)?;
            Ok(Next::Step(Step::Members(members, Last::String, at)))
        }
        Read::Array(members, at) => {
            let mut members = members;
            let made = build.array(alloc, &mut members)?;
            Ok(Next::Step(Step::Ended(made, at)))
        }
        Read::Table(entries, at, next) => {
            let mut entries = entries;
            match build.table(alloc, &mut entries)? {
                Some(made) => Ok(Next::Step(Step::Ended(made, next))),
                None => Err(IcuTextError::new(at, IcuExpected::KeysOnce)),
            }
        }
        Read::Leaf(resource, at) => {
            let made = build.leaf(resource)?;
            Ok(Next::Step(Step::Ended(made, at)))
        }
        Read::Root(made, at) => Ok(Next::Root(made, at)),
    }
}
