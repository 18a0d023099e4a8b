//! The drop of a resource by a list of what is still to be dropped, so that no depth of a tree ends
//! the process.
//! A resource is dropped by a call of its own only where it has no others inside, where a table
//! of such goes as a whole, or where that list can't grow.
ghost use Rattle.std.specs.Prelude.{◌≡◌, ◌+◌, ◌≤◌, None, [], MatchOption, MatchResult, OnOk};
ghost use Rattle.std.specs.Prelude.{IfErr, IfSome, IsTrue, ◌<◌, max};
ghost use Rattle.resb_tree.specs.Inner.Dropping.{count, counts, table_count, depth, depth_of};
ghost use Rattle.std.specs.BTreeMap.{get, values};
ghost use Rattle.std.specs.Ordering.{nat_cmp};
ghost use Rattle.std.specs.Cmp.Lexicographic.{slice_cmp};

use crate::key::Key;
use crate::resource::{Resource, Table};
use std::alloc::Global;
use std::default::MadeWith;
use std::mem;

/// An empty array on this allocator.
impl<'a> MadeWith<Global> for Resource<'a> {
    ghost use Rattle.std.specs.Prelude.{◌≡◌};
    ghost use Rattle.resb_tree.specs.Tree.{no_trees, array};
    ghost use Rattle.resb_tree.specs.View.{tree_of};

    ghost is_made_with = { λ r. tree_of r ≡ array no_trees };

    fn made_with(alloc: Global) -> Resource<'a> {
        Resource::Array(Vec::new(alloc))
    }
}

/// Drops the resources by the list that they are in. It takes no stack for their depth.
#[tactic(auto, using(crate::proofs::DroppingLemmas::drop_steps))]
#[cycle(dropping)]
pub(crate) fn drop_all(mut pending: Vec<Resource<'_>>) {
    'pending: while let Some(resource) = pending.pop() {
        match resource.into_table_of_leaves() {
            Ok(table) => drop(table),
            Err(mut resource) => {
                'members: while let Some(refused) = resource.move_members(&mut pending) {
                    drop(refused);
                }
                resource.drop_empty();
            }
        }
    }
    pending.destroy_empty();
}

impl<'a> Resource<'a> {
    /// Puts the members that have others inside on the list, and drops those that have none, until
    /// no member is left, or one finds no room on the list: it is handed back.
    #[tactic(auto, using(crate::proofs::DroppingLemmas::drop_steps))]
    fn move_members(&mut self, pending: &mut Vec<Resource<'a>>) -> Option<Resource<'a>>
        ensures all { MatchOption result (count self.new ≡ 1)
            (λ r. count r + count self.new ≤ count self.old) }
        ensures count { MatchOption result
            (counts pending.new.items + count self.new
            ≤ counts pending.old.items + count self.old)
            (λ r. count r + counts pending.new.items + count self.new
            ≤ counts pending.old.items + count self.old) }
        ensures depth { (depth self.new ≤ depth self.old)
            × (depth_of pending.new.items ≤ max (depth_of pending.old.items) (depth self.old)) }
        ensures refused { IfSome result (λ r. depth r < depth self.old) }
    {
        match self {
            Resource::Array(items) => move_items(items, pending),
            Resource::Table(table) => move_values(table, pending),
            Resource::String(_)
            | Resource::Alias(_)
            | Resource::Binary(_)
            | Resource::Integer(_)
            | Resource::IntVector(_) => None,
        }
    }

    /// Whether a resource has no others inside.
    #[tactic(auto, using(crate::proofs::DroppingLemmas::drop_steps))]
    fn has_no_members(&self) -> bool
        ensures { IsTrue result → count self.now ≡ 1 }
    {
        match self {
            Resource::Array(items) => items.is_empty(),
            Resource::Table(table) => table.is_empty(),
            Resource::String(_)
            | Resource::Alias(_)
            | Resource::Binary(_)
            | Resource::Integer(_)
            | Resource::IntVector(_) => true,
        }
    }
}

/// Puts the items that have others inside on the list, and drops those that have none, until no
/// item is left, or one finds no room on the list: it is handed back.
#[tactic(auto, using(crate::proofs::DroppingLemmas::drop_steps))]
fn move_items<'a>(
    items: &mut Vec<Resource<'a>>,
    pending: &mut Vec<Resource<'a>>,
) -> Option<Resource<'a>>
    ensures all { MatchOption result (items.new.items ≡ [])
        (λ r. count r + counts items.new.items ≤ counts items.old.items) }
    ensures count { MatchOption result
        (counts pending.new.items + counts items.new.items
        ≤ counts pending.old.items + counts items.old.items)
        (λ r. count r + counts pending.new.items + counts items.new.items
        ≤ counts pending.old.items + counts items.old.items) }
    ensures depth { (depth_of items.new.items ≤ depth_of items.old.items)
        × (depth_of pending.new.items
        ≤ max (depth_of pending.old.items) (depth_of items.old.items)) }
    ensures refused { IfSome result (λ r. depth r ≤ depth_of items.old.items) }
{
    'items: while let Some(item) = items.pop() {
        if let Some(refused) = set_aside(pending, item) {
            return Some(refused);
        }
    }
    None
}

/// Puts the values that have others inside on the list, and drops those that have none, until no
/// value is left, or one finds no room on the list: it is handed back.
#[tactic(auto, using(crate::proofs::DroppingLemmas::drop_steps))]
pub(crate) fn move_values<'a>(
    table: &mut Table<'a>,
    pending: &mut Vec<Resource<'a>>,
) -> Option<Resource<'a>>
    ensures all { MatchOption result (table.new.entries ≡ [])
        (λ r. count r + table_count table.new ≤ table_count table.old) }
    ensures count { MatchOption result
        (counts pending.new.items + table_count table.new
        ≤ counts pending.old.items + table_count table.old)
        (λ r. count r + counts pending.new.items + table_count table.new
        ≤ counts pending.old.items + table_count table.old) }
    ensures depth { (depth_of (values table.new) ≤ depth_of (values table.old))
        × (depth_of pending.new.items
        ≤ max (depth_of pending.old.items) (depth_of (values table.old))) }
    ensures refused { IfSome result (λ r. depth r ≤ depth_of (values table.old)) }
{
    'entries: while let Some((_, value)) = table.pop_last() {
        if let Some(refused) = set_aside(pending, value) {
            return Some(refused);
        }
    }
    None
}

/// Puts a resource that has others inside on the list, and drops one that has none. Hands back one
/// that the list has no room for.
#[tactic(auto, using(crate::proofs::DroppingLemmas::drop_steps))]
fn set_aside<'a>(pending: &mut Vec<Resource<'a>>, resource: Resource<'a>) -> Option<Resource<'a>>
    ensures count { MatchOption result
        (counts pending.new.items ≤ counts pending.old.items + count resource.entry)
        (λ r. (r ≡ resource.entry) × (pending.new.items ≡ pending.old.items)) }
    ensures depth { depth_of pending.new.items
        ≤ max (depth_of pending.old.items) (depth resource.entry) }
{
    if resource.has_no_members() {
        resource.drop_empty();
        return None;
    }
    if pending.reserve(1).is_err() {
        return Some(resource);
    }
    pending.push_reserved(resource);
    None
}

/// An empty list on the table's allocator, with the child put back at its key. Without memory the
/// child is handed back.
#[tactic(auto, using(crate::proofs::DroppingLemmas::insert_steps))]
pub(crate) fn list_beside<'a>(
    table: &mut Table<'a>,
    key: Key<'a>,
    child: Resource<'a>,
) -> Result<Vec<Resource<'a>>, Resource<'a>>
    requires { get (slice_cmp nat_cmp) table.old key ≡ None }
    ensures list { MatchResult result (λ v. v.items ≡ []) (λ r. r ≡ child.entry) }
    ensures table { OnOk result
        (table_count table.new ≤ table_count table.old + count child.entry) }
    ensures depth { OnOk result
        (depth_of (values table.new) ≤ max (depth_of (values table.old)) (depth child.entry)) }
    ensures same { IfErr result (λ r. table.new.entries ≡ table.old.entries) }
{
    match table.entry(key) {
        Ok(entry) => {
            let made = mem::replace(entry.or_default(), child);
            Ok(made.into_items())
        }
        Err(_) => Err(child),
    }
}
