//! The keys of a tree, as the writer of a file wants them listed.
//! How a text's keys are listed stands in the crates of its readers.
ghost use Rattle.std.specs.Prelude.{◌≡◌, ◌++◌, List, ℕ, IfOk, OnOk};
ghost use Rattle.resb_tree.specs.LayingOrder as laying;
ghost use Rattle.resb_tree.specs.LayingOrder.{own_keys, entry_keys};
ghost use Rattle.resb_tree.specs.View.{tree_of, entries_view};
ghost use Rattle.resb_grammar.specs.BundleText.{first_places};
ghost use Rattle.resb_grammar.specs.KeyLists.{listed_keys};

use resb_grammar::KeyList;
use resb_tree::{Key, NoMemory, Resource, Table, in_laying_order};
use std::alloc::Global;

/// The keys of a tree's tables, each once, in the order in which they first stand in laying order:
/// members before their collection. With them a tree that was read, or that a program made, can be
/// written (`Serializer::to_bytes`).
pub fn keys_of<'t>(alloc: Global, root: &'t Resource<'_>) -> Result<Vec<Key<'t>>, NoMemory>
    ensures { IfOk result
        (λ keys. keys.items ≡ first_places (laying.keys_of (tree_of root.entry.now))) }
{
    let order = in_laying_order(alloc, root)?;
    let mut keys = KeyList::new(alloc);
    for at in 0..order.len() {
        list_own(&mut keys, &*order[at])?;
    }
    keys.into_keys(alloc)
}

/// Lists a resource's own keys, in their order, if it is a table.
fn list_own<'t>(keys: &mut KeyList<'t>, resource: &'t Resource<'_>) -> Result<(), NoMemory>
    ensures { OnOk result ((before : List (List ℕ)) → listed_keys keys.old ≡ first_places before
        → listed_keys keys.new ≡ first_places (before ++ own_keys (tree_of resource.now))) }
{
    match resource {
        Resource::Table(table) => list_table(keys, table),
        Resource::String(_)
        | Resource::Alias(_)
        | Resource::Array(_)
        | Resource::Binary(_)
        | Resource::Integer(_)
        | Resource::IntVector(_) => Ok(()),
    }
}

/// Lists a table's keys.
fn list_table<'t>(keys: &mut KeyList<'t>, table: &'t Table<'_>) -> Result<(), NoMemory>
    ensures { OnOk result ((before : List (List ℕ)) → listed_keys keys.old ≡ first_places before
        → listed_keys keys.new
        ≡ first_places (before ++ entry_keys (entries_view table.now.entries))) }
{
    for key in table.keys() {
        keys.list(key.as_str())?;
    }
    Ok(())
}
