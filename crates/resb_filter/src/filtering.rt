//! What rules leave of a draft. What stays whole keeps its piece; a table on the path of a rule is
//! put anew behind the others. Which rules decide of an entry is in `remaining`, and what is left
//! of a table so far in `open_tables`.
ghost use Rattle.std.specs.Prelude.{◌≡◌, ◌+◌, ◌≤◌, true, map, length, slice_range};
ghost use Rattle.std.specs.Prelude.{IfOk, OnOk, MatchOption};
ghost use Rattle.std.specs.List.{zip};
ghost use Rattle.resb_tree.specs.Borrowing.{all_true};
ghost use Rattle.resb_tree.specs.Tree.{table, map_of};
ghost use Rattle.resb_draft.specs.Drafts.{tree_at, is_whole, draft_tree, is_ready};
ghost use Rattle.resb_draft.specs.Drafts.{IsMade, Keeps};
ghost use Rattle.resb_filter.specs.Filtered.{filtered};
ghost use Rattle.resb_filter.specs.View.{rules_of, rules_left};
ghost use Rattle.resb_filter.specs.Inner.Entries.{seen, AreEntries, IsNoTable};

use crate::open_tables::open_table;
use crate::remaining::{Remaining, all_rules};
use crate::rules::Rules;
use resb_draft::{Draft, Piece};
use resb_tree::NoMemory;
use std::alloc::Global;

impl<'r> Rules<'r> {
    /// The draft of what the rules leave of a draft's tree. Want of memory is the only refusal.
    /// At each table on the path of a rule, each entry is compared with each rule that is about
    /// the table.
    pub fn filtered<'a>(&self, alloc: Global, draft: Draft<'a>) -> Result<Draft<'a>, NoMemory>
        requires { is_ready draft ≡ true }
        ensures ready { IfOk result (λ d. is_ready d ≡ true) }
        ensures tree { IfOk result
            (λ d. draft_tree d ≡ filtered (rules_of self.now) (draft_tree draft.entry)) }
    {
        let mut draft = draft;
        let rules = all_rules(alloc, self)?;
        let root = draft.root;
        draft.root = filter_piece(alloc, &mut draft, rules, root)?;
        Ok(draft)
    }
}

/// The number of what rules leave of the tree of a piece. Tables that stand in each other wait in a
/// list, so that the depth of a tree takes no stack.
fn filter_piece<'a>(
    alloc: Global,
    draft: &mut Draft<'a>,
    rules: Vec<Remaining<'_, '_>>,
    number: u32,
) -> Result<u32, NoMemory>
    requires { is_whole draft.old number ≡ true }
    ensures { IfOk result (λ n. IsMade draft.new n
        (filtered (rules_left rules.entry.items) (tree_at draft.old number))) }
{
    let Some(mut table) = open_table(alloc, draft, rules, number)? else {
        return Ok(number);
    };
    let mut around = Vec::new(alloc);
    'tables: loop {
        if table.is_done() {
            let made = push_table(alloc, draft, &table.left)?;
            let Some(outer) = around.pop() else {
                return Ok(made);
            };
            table = outer;
            table.put(made)?;
        } else if let Some(inner) = table.step(alloc, draft)? {
            around.push(table)?;
            table = inner;
        }
    }
}

/// The entries of the table that a piece stands for: keys, and the numbers of their values. None
/// for any other piece.
pub(crate) fn entries_of<'a>(
    alloc: Global,
    draft: &Draft<'a>,
    number: u32,
) -> Result<Option<Vec<(&'a str, u32)>>, NoMemory>
    requires { is_whole draft.now number ≡ true }
    ensures { IfOk result (λ o. MatchOption o (IsNoTable draft.now number)
        (λ v. AreEntries draft.now number v.items)) }
{
    match &draft.pieces[number as usize] {
        Piece::Table(part, first) => {
            let keys = part_of(&draft.keys, *first, part.count);
            let values = part_of(&draft.members, part.from, part.count);
            Ok(Some(pairs_of(alloc, keys, values)?))
        }
        Piece::String(_) => Ok(None),
        Piece::Integer(_) => Ok(None),
        Piece::Leaf(_) => Ok(None),
        Piece::Array(_) => Ok(None),
    }
}

/// The pairs of a key and the number at its place.
fn pairs_of<'a>(
    alloc: Global,
    keys: &[&'a str],
    values: &[u32],
) -> Result<Vec<(&'a str, u32)>, NoMemory>
    ensures { IfOk result (λ v. v.items ≡ zip keys.now values.now) }
{
    let pairs = keys.iter().copied().zip(values.iter().copied());
    Ok(pairs.collect(alloc)?)
}

/// The part of a list that begins at a place and has so many elements.
fn part_of<X>(list: &[X], from: u32, count: u32) -> &[X]
    requires { from + count ≤ length list.now }
    ensures { result.now ≡ slice_range list.now from (from + count) }
{
    let from = from as usize;
    &list[from..from + count as usize]
}

/// Puts a table of these entries into a draft.
pub(crate) fn push_table<'a>(
    alloc: Global,
    draft: &mut Draft<'a>,
    entries: &[(&'a str, u32)],
) -> Result<u32, NoMemory>
    ensures made { all_true (map (λ p. is_whole draft.old p.1) entries.now) ≡ true
        → IfOk result (λ n. IsMade draft.new n
        (table (map_of (seen (tree_at draft.old) entries.now)))) }
    ensures keeps { OnOk result (Keeps draft.old draft.new) }
{
    let first_member = draft.members.len();
    let first_key = draft.keys.len();
    for entry in entries {
        draft.push_entry(entry.0, entry.1)?;
    }
    draft.end_table(alloc, first_member, first_key)
}
