//! The comparison of two trees by a list of what is still to be compared, so that no depth of a
//! tree ends the process.
//! It calls itself only where that list can't grow.
ghost use Rattle.std.specs.Prelude.{◌≡◌, ◌+◌, ◌≤◌};
ghost use Rattle.resb_tree.specs.Equality.{tree_eq, trees_eq, entries_eq};
ghost use Rattle.resb_tree.specs.View.{tree_of, items_view, entries_view};
ghost use Rattle.resb_tree.specs.Inner.Dropping.{count, counts, table_count};
ghost use Rattle.resb_tree.specs.Inner.Comparing.{items_eq, pairs_eq, items_to_come, pairs_to_come};
ghost use Rattle.resb_tree.specs.Inner.Comparing.{open_eq, to_come, next_and, next_count};
ghost use Rattle.resb_tree.specs.Inner.Comparing.{seen_eq, seen_and, seen_count};

use crate::key::Key;
use crate::resource::{Resource, Table};
use std::alloc::Global;
use std::collections::btree_map;
use std::default::Emptied;
use std::{mem, slice};

/// Two collections of one kind, as the members of each that are still to be compared.
#[derive(Drop)]
enum Open<'s, 't, 'a, 'b> {
    /// Two arrays.
    Arrays(Items<'s, 't, 'a, 'b>),
    /// Two tables.
    Tables(Entries<'s, 't, 'a, 'b>),
}

/// The items of two arrays.
#[derive(Drop)]
struct Items<'s, 't, 'a, 'b> {
    one: slice::Iter<'s, Resource<'a>>,
    other: slice::Iter<'t, Resource<'b>>,
}

/// The entries of two tables.
#[derive(Drop)]
struct Entries<'s, 't, 'a, 'b> {
    one: btree_map::Iter<'s, Key<'a>, Resource<'a>>,
    other: btree_map::Iter<'t, Key<'b>, Resource<'b>>,
}

/// What comes next in two collections.
enum Next<'s, 't, 'a, 'b> {
    /// Two members at one place.
    Both(&'s Resource<'a>, &'t Resource<'b>),
    /// Nothing more, or a difference: whether it is the former.
    Ended(bool),
}

/// What is known of two resources without a look at the members of collections.
#[derive(Drop)]
enum Seen<'s, 't, 'a, 'b> {
    /// They are equal exactly where their members are.
    Collections(Open<'s, 't, 'a, 'b>),
    /// Whether they are equal.
    Decided(bool),
}

/// Whether two resources stand for one tree.
pub(crate) fn same(a: &Resource<'_>, b: &Resource<'_>) -> bool
    ensures { result ≡ tree_eq (tree_of a.now) (tree_of b.now) }
{
    match look(a, b) {
        Seen::Decided(equal) => equal,
        Seen::Collections(pair) => same_members(a, pair),
    }
}

/// Whether all members that are still to be compared are equal. A list is on the allocator of the
/// collection, and there is none where no member is a collection.
fn same_members<'s, 't, 'a, 'b>(collection: &Resource<'_>, mut pair: Open<'s, 't, 'a, 'b>) -> bool
    ensures { result ≡ open_eq pair.entry }
{
    match pair.look_at_next() {
        Seen::Decided(equal) => equal,
        Seen::Collections(inner) => {
            let alloc = allocator_of(collection);
            by_list(alloc, inner) && by_list(alloc, pair)
        }
    }
}

/// Compares what is still to come of two collections by a list of those around them, the outermost
/// first. Without an allocator there is none.
#[tactic(auto, using(crate::proofs::ComparingLemmas::comparing_steps))]
fn by_list<'s, 't, 'a, 'b>(alloc: Option<Global>, mut pair: Open<'s, 't, 'a, 'b>) -> bool
    ensures { result ≡ open_eq pair.entry }
{
    let Some(alloc) = alloc else {
        return by_calls(pair);
    };
    let mut around = Vec::new(alloc);
    'pairs: loop {
        match pair.look_at_next() {
            Seen::Collections(inner) => match around.push(pair) {
                Ok(()) => pair = inner,
                Err(refused) => {
                    if !by_calls(inner) {
                        return false;
                    }
                    pair = refused.value;
                }
            },
            Seen::Decided(false) => return false,
            Seen::Decided(true) => match around.pop() {
                Some(outer) => pair = outer,
                None => return true,
            },
        }
    }
}

/// Whether two trees are equal, where a list can't grow: it calls itself once a level.
fn by_calls<'s, 't, 'a, 'b>(mut pair: Open<'s, 't, 'a, 'b>) -> bool
    ensures { result ≡ open_eq pair.entry }
{
    'members: loop {
        match pair.look_at_next() {
            Seen::Collections(inner) => {
                if !by_calls(inner) {
                    return false;
                }
            }
            Seen::Decided(equal) => return equal,
        }
    }
}

/// The allocator of a collection. None without memory for an entry beside a table.
fn allocator_of(collection: &Resource<'_>) -> Option<Global> {
    match collection {
        Resource::Array(items) => Some(*items.allocator()),
        Resource::Table(table) => table_allocator(table),
        Resource::String(_)
        | Resource::Alias(_)
        | Resource::Binary(_)
        | Resource::Integer(_)
        | Resource::IntVector(_) => None,
    }
}

/// The allocator of a table, which hands it on only to a new entry: one stands for a moment in an
/// empty table beside it. None without memory for that.
fn table_allocator(table: &Table<'_>) -> Option<Global> {
    let Ok(mut beside) = Table::emptied(table) else {
        return None;
    };
    let Ok(entry) = beside.entry(Key::from("")) else {
        return None;
    };
    match entry.or_default() {
        Resource::Array(items) => Some(*items.allocator()),
        _ => None,
    }
}

/// Compares two resources that are no collections, and opens two collections of one size.
fn look<'s, 't, 'a, 'b>(a: &'s Resource<'a>, b: &'t Resource<'b>) -> Seen<'s, 't, 'a, 'b>
    ensures equal { seen_eq result ≡ tree_eq (tree_of a.now) (tree_of b.now) }
    ensures count { seen_count result ≤ count a.now }
{
    match (a, b) {
        (Resource::Array(a), Resource::Array(b)) => open_items(a, b),
        (Resource::Table(a), Resource::Table(b)) => open_entries(a, b),
        (Resource::String(a), Resource::String(b)) => Seen::Decided(a == b),
        (Resource::Alias(a), Resource::Alias(b)) => Seen::Decided(a == b),
        (Resource::Binary(a), Resource::Binary(b)) => Seen::Decided(a == b),
        (Resource::Integer(a), Resource::Integer(b)) => Seen::Decided(a == b),
        (Resource::IntVector(a), Resource::IntVector(b)) => Seen::Decided(a == b),
        _ => Seen::Decided(false),
    }
}

/// Opens two arrays of one length.
#[tactic(auto, using(crate::proofs::ComparingLemmas::comparing_steps))]
fn open_items<'s, 't, 'a, 'b>(
    a: &'s Vec<Resource<'a>>,
    b: &'t Vec<Resource<'b>>,
) -> Seen<'s, 't, 'a, 'b>
    ensures equal { seen_eq result ≡ trees_eq (items_view a.now.items) (items_view b.now.items) }
    ensures count { seen_count result ≤ counts a.now.items + 1 }
{
    if a.len() != b.len() {
        return Seen::Decided(false);
    }
    Seen::Collections(Open::Arrays(Items {
        one: a.iter(),
        other: b.iter(),
    }))
}

/// Opens two tables of one size.
#[tactic(auto, using(crate::proofs::ComparingLemmas::comparing_steps))]
fn open_entries<'s, 't, 'a, 'b>(a: &'s Table<'a>, b: &'t Table<'b>) -> Seen<'s, 't, 'a, 'b>
    ensures equal { seen_eq result
        ≡ entries_eq (entries_view a.now.entries) (entries_view b.now.entries) }
    ensures count { seen_count result ≤ table_count a.now + 1 }
{
    if a.len() != b.len() {
        return Seen::Decided(false);
    }
    Seen::Collections(Open::Tables(Entries {
        one: a.iter(),
        other: b.iter(),
    }))
}

impl<'s, 't, 'a, 'b> Open<'s, 't, 'a, 'b> {
    /// Compares members up to the next two collections.
    fn look_at_next(&mut self) -> Seen<'s, 't, 'a, 'b>
        ensures equal { seen_and result (open_eq self.new) ≡ open_eq self.old }
        ensures count { seen_count result + to_come self.new ≤ to_come self.old }
    {
        'members: loop {
            match self.next() {
                Next::Ended(equal) => return Seen::Decided(equal),
                Next::Both(x, y) => match look(x, y) {
                    Seen::Decided(true) => {}
                    seen => return seen,
                },
            }
        }
    }

    /// The next member of both.
    fn next(&mut self) -> Next<'s, 't, 'a, 'b>
        ensures equal { next_and result (open_eq self.new) ≡ open_eq self.old }
        ensures count { next_count result + to_come self.new ≤ to_come self.old }
    {
        match self {
            Open::Arrays(items) => items.next(),
            Open::Tables(entries) => entries.next(),
        }
    }
}

impl<'s, 't, 'a, 'b> Items<'s, 't, 'a, 'b> {
    /// The next item of both.
    fn next(&mut self) -> Next<'s, 't, 'a, 'b>
        ensures equal { next_and result (items_eq self.new) ≡ items_eq self.old }
        ensures count { next_count result + items_to_come self.new ≤ items_to_come self.old }
    {
        match (self.one.next(), self.other.next()) {
            (Some(x), Some(y)) => Next::Both(x, y),
            (None, None) => Next::Ended(true),
            _ => Next::Ended(false),
        }
    }
}

impl<'s, 't, 'a, 'b> Entries<'s, 't, 'a, 'b> {
    /// The values of the next entry of both, where the keys are equal.
    fn next(&mut self) -> Next<'s, 't, 'a, 'b>
        ensures equal { next_and result (pairs_eq self.new) ≡ pairs_eq self.old }
        ensures count { next_count result + pairs_to_come self.new ≤ pairs_to_come self.old }
    {
        match (self.one.next(), self.other.next()) {
            (Some((j, x)), Some((k, y))) => {
                if j != k {
                    return Next::Ended(false);
                }
                Next::Both(x, y)
            }
            (None, None) => Next::Ended(true),
            _ => Next::Ended(false),
        }
    }
}
