//! Closed groups as trees.
//! What a tree is stands in `resb_tree`; drafts are made in `drafts`.
ghost use Rattle.std.specs.Prelude.{true, ◌≡◌, ◌+◌, ◌≤◌, map, length, IfOk, OnOk};
ghost use Rattle.std.specs.Prelude.{ℕ, Bool, List, [], ◌∷◌, ◌++◌};
ghost use Rattle.resb_tree.specs.Tree.{Tree, Entries, table, map_of};
ghost use Rattle.resb_tree.specs.View.{tree_of};
ghost use Rattle.resb_text.specs.Inner.Shown.{SeenItem, tree_of_term, seen_in_code, code_term_seen};
ghost use Rattle.resb_text.specs.Inner.Shown.{shown_tree};
ghost use Rattle.resb_text.specs.Inner.Shown.{shown_pairs, pairs_after, waiting_key};
ghost use Rattle.resb_text.specs.Inner.Shown.{shown_borrowed, term_borrowed};
ghost use Rattle.resb_tree.specs.Borrowing.{all_true};
ghost use Rattle.resb_text.specs.Borrowed.{borrows_strings};

use crate::build::Build;
use crate::items::{Item, Term};
use crate::ticks::Ticks;
use resb_tree::{FEW_ENTRIES, Key, NoMemory, Resource, Table, table_at_once};
use std::alloc::Global;
use std::borrow::CowStr;
use std::collections::BTreeMap;
use std::mem;

/// Groups become resources, and nothing else is kept.
#[derive(Drop)]
pub(crate) struct Trees {}

impl<'a> Build<'a> for Trees {
    ghost use Rattle.resb_tree.specs.View.{tree_of};
    ghost use Rattle.resb_text.specs.Borrowed.{borrows_strings};

    type Made = Resource<'a>;

    ghost tree = { λ b r. tree_of r };

    ghost held = { λ b r. borrows_strings r };

    fn leaf(&mut self, resource: Resource<'a>) -> Result<Resource<'a>, NoMemory> {
        Ok(resource)
    }

    fn string(&mut self, text: &'a str) -> Result<Resource<'a>, NoMemory> {
        Ok(Resource::String(CowStr::Borrowed(text)))
    }

    fn array(
        &mut self,
        alloc: Global,
        ticks: &mut Ticks,
        items: &mut Vec<Item<'a, Resource<'a>>>,
    ) -> Result<Resource<'a>, NoMemory> {
        let items = mem::replace(items, Vec::new(alloc));
        let mut resources = Vec::with_capacity(alloc, items.len())?;
        add_resources(ticks, items, &mut resources)?;
        Ok(Resource::Array(resources))
    }

    fn table(
        &mut self,
        alloc: Global,
        ticks: &mut Ticks,
        items: &mut Vec<Item<'a, Resource<'a>>>,
    ) -> Result<Resource<'a>, NoMemory> {
        let items = mem::replace(items, Vec::new(alloc));
        if items.len() / 2 > FEW_ENTRIES {
            return table_of_list(alloc, ticks, items);
        }
        let mut table: Table<'a> = BTreeMap::new(alloc);
        put_terms(ticks, items, &mut table)?;
        Ok(Resource::Table(table))
    }
}

/// The resource that the term is.
fn resource_of<'a>(term: Term<'a, Resource<'a>>) -> Resource<'a>
    ensures tree { tree_of result ≡ tree_of_term term.entry }
    ensures borrowed { borrows_strings result ≡ term_borrowed term.entry }
{
    match term {
        Term::String(text) => Resource::String(CowStr::Borrowed(text)),
        Term::Group(resource) => resource,
    }
}

/// The resources of these items more.
fn add_resources<'a>(
    ticks: &mut Ticks,
    items: Vec<Item<'a, Resource<'a>>>,
    resources: &mut Vec<Resource<'a>>,
) -> Result<(), NoMemory>
    ensures trees { OnOk result (map tree_of resources.new.items
        ≡ map tree_of resources.old.items ++ map shown_tree (map seen_in_code items.entry.items)) }
    ensures borrowed { OnOk result (map borrows_strings resources.new.items
        ≡ map borrows_strings resources.old.items
        ++ map shown_borrowed (map seen_in_code items.entry.items)) }
    ensures cost { ticks.new.count ≤ ticks.old.count + length items.entry.items }
{
    for item in items {
        ticks.tick();
        resources.push(resource_of(item.term))?;
    }
    Ok(())
}

/// What takes the entries of a table, one after another.
trait TakesEntries<'a> {
    /// The map that it is for, once these pairs are put behind what it has.
    ghost map_with: { Self → List (List ℕ × Tree) → Entries };

    /// Whether the strings of what it has are slices.
    ghost are_borrowed: { Self → Bool };

    /// Puts one entry more. In the map it replaces an earlier one of an equal key.
    fn put(&mut self, key: &'a str, resource: Resource<'a>) -> Result<(), NoMemory>
        ensures ok { OnOk result ((ps : List (List ℕ × Tree)) → map_with self.new ps
            ≡ map_with self.old ((key.now, tree_of resource.entry) ∷ ps)) }
        ensures borrowed { OnOk result (borrows_strings resource.entry ≡ true
            → are_borrowed self.old ≡ true → are_borrowed self.new ≡ true) };
}

impl<'a> TakesEntries<'a> for Table<'a> {
    ghost use Rattle.resb_tree.specs.Tree.{put_all};
    ghost use Rattle.resb_tree.specs.View.{entries_view};
    ghost use Rattle.resb_text.specs.Inner.Shown.{entries_borrowed};

    ghost map_with = { λ t ps. put_all (entries_view t.entries) ps };

    ghost are_borrowed = { λ t. entries_borrowed t.entries };

    fn put(&mut self, key: &'a str, resource: Resource<'a>) -> Result<(), NoMemory> {
        match self.insert(Key::from(key), resource) {
            Ok(_) => Ok(()),
            Err(_) => Err(NoMemory),
        }
    }
}

impl<'a> TakesEntries<'a> for Vec<(Key<'a>, Resource<'a>)> {
    ghost use Rattle.std.specs.Prelude.{◌++◌};
    ghost use Rattle.resb_tree.specs.Tree.{map_of};
    ghost use Rattle.resb_tree.specs.View.{pairs_view};
    ghost use Rattle.resb_text.specs.Inner.Shown.{entries_borrowed};

    ghost map_with = { λ l ps. map_of (pairs_view l.items ++ ps) };

    ghost are_borrowed = { λ l. entries_borrowed l.items };

    fn put(&mut self, key: &'a str, resource: Resource<'a>) -> Result<(), NoMemory> {
        Ok(self.push((Key::from(key), resource))?)
    }
}

/// Puts the entry of a group, if a key waits for one. Leaves the key that waits from here on.
fn put_term<'a, E: TakesEntries<'a>>(
    entries: &mut E,
    waiting: &mut Option<&'a str>,
    term: Term<'a, Resource<'a>>,
) -> Result<(), NoMemory>
    ensures ok { OnOk result ((f : Bool) (xs : List SeenItem)
        → E.map_with entries.new (pairs_after (waiting_key waiting.new) xs)
        ≡ E.map_with entries.old
        (pairs_after (waiting_key waiting.old) (code_term_seen term.entry f ∷ xs))) }
    ensures borrowed { OnOk result (term_borrowed term.entry ≡ true
        → E.are_borrowed entries.old ≡ true → E.are_borrowed entries.new ≡ true) }
{
    match term {
        Term::String(text) => {
            *waiting = Some(text);
            Ok(())
        }
        Term::Group(resource) => match waiting.take() {
            Some(key) => entries.put(key, resource),
            None => Ok(()),
        },
    }
}

/// Puts the entries of these items, which are a key, a group and so on.
fn put_terms<'a, E: TakesEntries<'a>>(
    ticks: &mut Ticks,
    items: Vec<Item<'a, Resource<'a>>>,
    entries: &mut E,
) -> Result<(), NoMemory>
    ensures ok { OnOk result (E.map_with entries.new []
        ≡ E.map_with entries.old (shown_pairs (map seen_in_code items.entry.items))) }
    ensures borrowed { OnOk result
        (all_true (map shown_borrowed (map seen_in_code items.entry.items)) ≡ true
        → E.are_borrowed entries.old ≡ true → E.are_borrowed entries.new ≡ true) }
    ensures cost { ticks.new.count ≤ ticks.old.count + length items.entry.items }
{
    let mut waiting: Option<&'a str> = None;
    for item in items {
        ticks.tick();
        put_term(entries, &mut waiting, item.term)?;
    }
    Ok(())
}

/// The table of these items, made at once.
fn table_of_list<'a>(
    alloc: Global,
    ticks: &mut Ticks,
    items: Vec<Item<'a, Resource<'a>>>,
) -> Result<Resource<'a>, NoMemory>
    ensures made { let xs = map seen_in_code items.entry.items in
        all_true (map shown_borrowed xs) ≡ true → IfOk result
        (λ r. (tree_of r ≡ table (map_of (shown_pairs xs))) × (borrows_strings r ≡ true)) }
    ensures cost { ticks.new.count ≤ ticks.old.count + length items.entry.items }
{
    let mut pairs = Vec::with_capacity(alloc, items.len() / 2)?;
    put_terms(ticks, items, &mut pairs)?;
    let table = table_at_once(alloc, pairs)?;
    Ok(Resource::Table(table))
}
