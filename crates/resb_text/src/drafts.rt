//! Closed groups as pieces of a draft, members first.
//! What a draft stands for is said in `resb_draft`, which makes it; trees are made in `trees`.
ghost use Rattle.std.specs.Prelude.{true, ◌≡◌, ◌+◌, ◌≤◌, map, length, IfOk, OnOk, drop};
ghost use Rattle.std.specs.Prelude.{Bool, None};
ghost use Rattle.resb_tree.specs.Borrowing.{all_true};
ghost use Rattle.resb_draft.specs.Drafts.{tree_at, is_whole, Keeps};
ghost use Rattle.resb_text.specs.Inner.Build.{Represents};
ghost use Rattle.resb_text.specs.Inner.Drafts.{piece_term_seen, piece_item_seen};
ghost use Rattle.resb_text.specs.Inner.Drafts.{key_after, entry_of_term, entries_after, PutsBehind};
ghost use Rattle.resb_text.specs.Inner.Shown.{shown_tree, shown_borrowed};

use crate::build::Build;
use crate::items::{Item, Term};
use crate::ticks::Ticks;
use resb_draft::Draft;
use resb_tree::{NoMemory, Resource};
use std::alloc::Global;

impl<'a> Build<'a> for Draft<'a> {
    ghost use Rattle.resb_draft.specs.Drafts.{tree_at, is_whole};

    type Made = u32;

    ghost tree = { tree_at };

    ghost held = { is_whole };

    fn leaf(&mut self, resource: Resource<'a>) -> Result<u32, NoMemory> {
        self.push_leaf(resource)
    }

    fn string(&mut self, text: &'a str) -> Result<u32, NoMemory> {
        self.push_string(text)
    }

    fn array(
        &mut self,
        alloc: Global,
        ticks: &mut Ticks,
        items: &mut Vec<Item<'a, u32>>,
    ) -> Result<u32, NoMemory> {
        let first_member = self.members.len();
        push_members(self, ticks, items)?;
        self.end_array(first_member)
    }

    fn table(
        &mut self,
        alloc: Global,
        ticks: &mut Ticks,
        items: &mut Vec<Item<'a, u32>>,
    ) -> Result<u32, NoMemory> {
        let first_member = self.members.len();
        let first_key = self.keys.len();
        push_entries(self, ticks, items)?;
        self.end_table(alloc, first_member, first_key)
    }
}

/// Room for so many pieces more than an array's members, since those of the groups around it come
/// behind them, and the first one that finds no room doubles the list.
const ROOM_BEHIND: usize = 16;

/// The number of the piece that the term is. A string becomes one here.
fn piece_of<'a>(draft: &mut Draft<'a>, term: &Term<'a, u32>) -> Result<u32, NoMemory>
    ensures made { (f : Bool) → let seen = piece_term_seen draft.old term.now f in
        shown_borrowed seen ≡ true
        → IfOk result (λ n. Represents tree_at is_whole draft.new n (shown_tree seen)) }
    ensures members { OnOk result (draft.new.members ≡ draft.old.members) }
    ensures keeps { OnOk result (Keeps draft.old draft.new) }
{
    match term {
        Term::String(text) => draft.push_string(text),
        Term::Group(number) => Ok(*number),
    }
}

/// Puts the numbers of the pieces that these items are behind the draft's members.
fn push_members<'a>(
    draft: &mut Draft<'a>,
    ticks: &mut Ticks,
    items: &[Item<'a, u32>],
) -> Result<(), NoMemory>
    ensures made { let xs = map (piece_item_seen draft.old) items.now in
        let ns = drop (length draft.old.members.items) draft.new.members.items in
        all_true (map shown_borrowed xs) ≡ true → OnOk result
        ((map (tree_at draft.new) ns ≡ map shown_tree xs)
        × (all_true (map (is_whole draft.new) ns) ≡ true)) }
    ensures longer { OnOk result
        (length draft.old.members.items ≤ length draft.new.members.items) }
    ensures keeps { OnOk result (Keeps draft.old draft.new) }
    ensures cost { ticks.new.count ≤ ticks.old.count + length items.now }
{
    draft.reserve(items.len().saturating_add(ROOM_BEHIND))?;
    for item in items {
        ticks.tick();
        let piece = piece_of(draft, &item.term)?;
        draft.push_member(piece)?;
    }
    Ok(())
}

/// Puts the entry of a group, if a key waits for one, behind the draft's keys and members. Leaves
/// the key that waits from here on.
fn push_term<'a>(
    draft: &mut Draft<'a>,
    waiting: &mut Option<&'a str>,
    term: &Term<'a, u32>,
) -> Result<(), NoMemory>
    ensures next { OnOk result (waiting.new ≡ key_after term.now) }
    ensures entries { OnOk result (PutsBehind draft.old
        (entry_of_term waiting.old term.now) draft.new) }
{
    match term {
        Term::String(text) => {
            *waiting = Some(*text);
            Ok(())
        }
        Term::Group(number) => match waiting.take() {
            Some(key) => draft.push_entry(key, *number),
            None => Ok(()),
        },
    }
}

/// Puts the entries of these items, which are a key, a group and so on, behind the draft's keys
/// and members.
fn push_entries<'a>(
    draft: &mut Draft<'a>,
    ticks: &mut Ticks,
    items: &[Item<'a, u32>],
) -> Result<(), NoMemory>
    ensures entries { OnOk result (PutsBehind draft.old (entries_after None items.now) draft.new) }
    ensures cost { ticks.new.count ≤ ticks.old.count + length items.now }
{
    let mut waiting: Option<&'a str> = None;
    for item in items {
        ticks.tick();
        push_term(draft, &mut waiting, &item.term)?;
    }
    Ok(())
}
