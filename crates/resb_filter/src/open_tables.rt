//! Tables of a draft that are open while rules go through them: what is left of each so far.
//! Which rules decide of an entry is in `remaining`, and how all tables are gone through in
//! `filtering`.
ghost use Rattle.std.specs.Prelude.{◌≡◌, ◌<◌, ◌≤◌, ◌↔◌, true, length, IfOk, OnOk, IsTrue};
ghost use Rattle.std.specs.Prelude.{MatchOption};
ghost use Rattle.resb_tree.specs.Tree.{Tree};
ghost use Rattle.resb_draft.specs.Drafts.{tree_at, is_whole, IsMade};
ghost use Rattle.resb_draft.specs.declared.draft.Draft.{Draft};
ghost use Rattle.resb_filter.specs.View.{rules_left};
ghost use Rattle.resb_filter.specs.Inner.Entries.{IsNoTable};
ghost use Rattle.resb_filter.specs.Inner.Open.{Opens, IsOpen, Waits, StepsTo};
ghost use Rattle.resb_filter.specs.Inner.Open.{weight, weight_behind};

use crate::filtering::entries_of;
use crate::remaining::{Remaining, Verdict, decide, rules_at};
use resb_draft::Draft;
use resb_tree::NoMemory;
use std::alloc::Global;

/// A table of which what rules leave is put together, entry by entry.
#[derive(Drop)]
pub(crate) struct OpenTable<'a, 'p, 'r> {
    /// The rules that are about what stands in it.
    rules: Vec<Remaining<'p, 'r>>,
    /// Its entries: keys, and the numbers of their values.
    entries: Vec<(&'a str, u32)>,
    /// How many of them are done.
    done: usize,
    /// What is left of these.
    pub(crate) left: Vec<(&'a str, u32)>,
}

/// Opens the table that a piece stands for. None for any other piece.
pub(crate) fn open_table<'a, 'p, 'r>(
    alloc: Global,
    draft: &Draft<'a>,
    rules: Vec<Remaining<'p, 'r>>,
    number: u32,
) -> Result<Option<OpenTable<'a, 'p, 'r>>, NoMemory>
    requires { is_whole draft.now number ≡ true }
    ensures { IfOk result (λ o. MatchOption o (IsNoTable draft.now number)
        (Opens draft.now (rules_left rules.entry.items) number)) }
{
    let Some(entries) = entries_of(alloc, draft, number)? else {
        return Ok(None);
    };
    let left = Vec::new(alloc);
    Ok(Some(OpenTable {
        rules,
        entries,
        done: 0,
        left,
    }))
}

impl<'a, 'p, 'r> OpenTable<'a, 'p, 'r> {
    /// Whether all entries are done.
    pub(crate) fn is_done(&self) -> bool
        ensures { IsTrue result ↔ length self.now.entries.items ≤ self.now.done }
    {
        self.done >= self.entries.len()
    }

    /// Does the next entry, or opens the table of its value where rules leave a part of it.
    pub(crate) fn step(
        &mut self,
        alloc: Global,
        draft: &Draft<'a>,
    ) -> Result<Option<OpenTable<'a, 'p, 'r>>, NoMemory>
        requires table { (w : Tree) × IsOpen draft.now w self.old }
        requires more { self.old.done < length self.old.entries.items }
        ensures { IfOk result (StepsTo draft.now self.old self.new) }
    {
        let (key, value) = self.entries[self.done];
        let inside = rules_at(alloc, &self.rules, key)?;
        match decide(&inside) {
            Verdict::Whole => {
                self.put(value)?;
                Ok(None)
            }
            Verdict::Out => {
                self.done += 1;
                Ok(None)
            }
            Verdict::Partly => match open_table(alloc, draft, inside, value)? {
                Some(inner) => Ok(Some(inner)),
                None => {
                    self.put(value)?;
                    Ok(None)
                }
            },
        }
    }

    /// Puts the value that is left of the next entry.
    pub(crate) fn put(&mut self, number: u32) -> Result<(), NoMemory>
        requires { self.old.done < length self.old.entries.items }
        ensures table { OnOk result ((d : Draft) (w u : Tree) → Waits d w u self.old
            → IsMade d number u → IsOpen d w self.new) }
        ensures weight { OnOk result ((d : Draft) → weight d self.new ≡ weight_behind d self.old) }
    {
        let key = self.entries[self.done].0;
        self.left.push((key, number))?;
        self.done += 1;
        Ok(())
    }
}
