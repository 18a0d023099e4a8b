//! A table that is being made: a map, or a list of which the map is made at once.
//! Where the entries come from is the business of `frame`.
ghost use Rattle.std.specs.Prelude.{◌≡◌, ℕ, List, [], ◌∷◌, ◌++◌, true, IfOk, OnOk};
ghost use Rattle.std.specs.BTreeMap.{insert_entry};
ghost use Rattle.std.specs.Cmp.Lexicographic.{slice_cmp};
ghost use Rattle.std.specs.Ordering.{nat_cmp};
ghost use Rattle.resb_tree.specs.Tree.{Tree, map_of};
ghost use Rattle.resb_tree.specs.View.{tree_of, entries_view};
ghost use Rattle.resb_walk.specs.Borrows.{Borrows, entries_borrow};
ghost use Rattle.resb_walk.specs.Inner.Filling.{Gathers};

use resb_tree::{FEW_ENTRIES, Key, NoMemory, Resource, Table, table_at_once};
use std::alloc::Global;
use std::collections::BTreeMap;

/// A table's entries so far.
#[derive(Drop)]
pub enum Filling<'a> {
    /// In a map.
    Map(Table<'a>),
    /// In a list, in their order.
    List(Vec<(Key<'a>, Resource<'a>)>),
}

/// Puts an entry into a map; the last value of a key stands.
fn put_entry<'a>(table: &mut Table<'a>, key: &'a str, item: Resource<'a>) -> Result<(), NoMemory>
    ensures { OnOk result (table.new.entries
        ≡ insert_entry (slice_cmp nat_cmp) table.old.entries key.now item.entry) }
{
    table.insert(Key::from(key), item)?;
    Ok(())
}

/// Adds an entry to a list.
fn push_entry<'a>(
    entries: &mut Vec<(Key<'a>, Resource<'a>)>,
    key: &'a str,
    item: Resource<'a>,
) -> Result<(), NoMemory>
    ensures { OnOk result (entries.new.items ≡ entries.old.items ++ (key.now, item.entry) ∷ []) }
{
    entries.push((Key::from(key), item))?;
    Ok(())
}

impl<'a> Filling<'a> {
    /// No entries yet, with room for so many.
    pub fn new(alloc: Global, room: usize) -> Result<Filling<'a>, NoMemory>
        ensures { IfOk result (λ f. Gathers f []) }
    {
        if room <= FEW_ENTRIES {
            return Ok(Filling::Map(BTreeMap::new(alloc)));
        }
        Ok(Filling::List(Vec::with_capacity(alloc, room)?))
    }

    /// Adds an entry; the last one of a key stays.
    pub fn put(&mut self, key: &'a str, item: Resource<'a>) -> Result<(), NoMemory>
        ensures { OnOk result ((es : List (List ℕ × Tree)) (t : Tree) → Gathers self.old es
            → (tree_of item.entry ≡ t) × Borrows item.entry
            → Gathers self.new (es ++ (key.now, t) ∷ [])) }
    {
        match self {
            Filling::Map(table) => put_entry(table, key, item),
            Filling::List(entries) => push_entry(entries, key, item),
        }
    }

    /// The table, once all its entries are there.
    pub fn end(self, alloc: Global) -> Result<Table<'a>, NoMemory>
        ensures { (es : List (List ℕ × Tree)) → Gathers self.entry es
            → IfOk result (λ m. (entries_view m.entries ≡ map_of es)
            × (entries_borrow m.entries ≡ true)) }
    {
        match self {
            Filling::Map(table) => Ok(table),
            Filling::List(entries) => {
                let table = table_at_once(alloc, entries)?;
                Ok(table)
            }
        }
    }
}
