//! The changes among the members of two arrays, or the entries of two tables. Whether two members
//! differ is not looked at here.
ghost use Rattle.std.specs.Prelude.{◌≡◌, ◌+◌, ◌<◌, ◌++◌, [], ◌∷◌, length, OnOk, IfOk};
ghost use Rattle.std.specs.Prelude.{slice_index_or, None, MatchOption};
ghost use Rattle.resb_tree.specs.Tree.{array, table, tree_count};
ghost use Rattle.resb_tree.specs.View.{items_view, entries_view};
ghost use Rattle.resb_diff.specs.Differences.{member_differences, entry_differences};
ghost use Rattle.resb_diff.specs.Paths.{step_of};
ghost use Rattle.resb_diff.specs.Inner.Walking.{AreWithin, PutsOne, ComeTo};
ghost use Rattle.resb_diff.specs.Inner.Walking.{TakesMember, TakesEntry};

use crate::differences::{Change, Found};
use crate::paths::{PathStep, Paths};
use resb_tree::{Key, Resource, Table};
use std::alloc::{AllocError, Global};
use std::cmp::Ordering;

/// Puts a change behind others, at a path that goes on from another.
fn put<'t, 'a, 'b>(
    paths: &mut Paths<'t>,
    found: &mut Vec<Found<'t, 'a, 'b>>,
    from: usize,
    step: PathStep<'t>,
    change: Change<'t, 'a, 'b>,
) -> Result<(), AllocError>
    requires from { from < length paths.old }
    requires within { AreWithin (length paths.old) found.old.items }
    ensures { OnOk result (PutsOne paths.old found.old.items
        (slice_index_or paths.old from [] ++ step_of step.entry ∷ []) change.entry
        paths.new found.new.items) }
{
    let path = paths.go_on(from, step)?;
    found.push(Found { path, change })?;
    Ok(())
}

/// The change of two members at one place. None where neither array has a member there.
fn member_change<'t, 'a, 'b>(
    one: Option<&'t Resource<'a>>,
    other: Option<&'t Resource<'b>>,
) -> Option<Change<'t, 'a, 'b>>
    ensures { MatchOption result ((one.entry ≡ None) × (other.entry ≡ None))
        (λ c. TakesMember one.entry other.entry c) }
{
    match (one, other) {
        (None, None) => None,
        (None, Some(added)) => Some(Change::Added(added)),
        (Some(removed), None) => Some(Change::Removed(removed)),
        (Some(one), Some(other)) => Some(Change::Changed(one, other)),
    }
}

/// The changes among the members of two arrays at a path, by their numbers.
pub(crate) fn members<'t, 'a, 'b>(
    alloc: Global,
    paths: &mut Paths<'t>,
    from: usize,
    old: &'t Vec<Resource<'a>>,
    new: &'t Vec<Resource<'b>>,
) -> Result<Vec<Found<'t, 'a, 'b>>, AllocError>
    requires { from < length paths.old }
    ensures { IfOk result (λ v. ComeTo paths.old
        (member_differences (slice_index_or paths.old from []) 0
        (items_view old.now.items) (items_view new.now.items))
        (tree_count (array (items_view old.now.items))
        + tree_count (array (items_view new.now.items)))
        paths.new v.items) }
{
    let mut found = Vec::new(alloc);
    let (mut olds, mut news) = (old.iter(), new.iter());
    let (mut one, mut other) = (olds.next(), news.next());
    while let Some(change) = member_change(one, other) {
        // each number so far has its change
        let number = found.len();
        put(paths, &mut found, from, PathStep::Number(number), change)?;
        one = olds.next();
        other = news.next();
    }
    Ok(found)
}

/// An entry of a table.
type Entry<'t, 'a> = (&'t Key<'a>, &'t Resource<'a>);

/// The next change of the entries of two tables, from the next entry of each, and its key.
/// None where neither has an entry.
fn entry_change<'t, 'a, 'b>(
    one: Option<Entry<'t, 'a>>,
    other: Option<Entry<'t, 'b>>,
) -> Option<(&'t str, Change<'t, 'a, 'b>)>
    ensures { MatchOption result ((one.entry ≡ None) × (other.entry ≡ None))
        (λ c. TakesEntry one.entry other.entry c.0.now c.1) }
{
    match (one, other) {
        (None, None) => None,
        (None, Some((key, added))) => Some((key.as_str(), Change::Added(added))),
        (Some((key, removed)), None) => Some((key.as_str(), Change::Removed(removed))),
        (Some((key, one)), Some((new_key, other))) => {
            match key.as_str().cmp(new_key.as_str()) {
                Ordering::Less => Some((key.as_str(), Change::Removed(one))),
                Ordering::Equal => Some((key.as_str(), Change::Changed(one, other))),
                Ordering::Greater => Some((new_key.as_str(), Change::Added(other))),
            }
        }
    }
}

/// The changes among the entries of two tables at a path, by their keys in ascending order.
pub(crate) fn entries<'t, 'a, 'b>(
    alloc: Global,
    paths: &mut Paths<'t>,
    from: usize,
    old: &'t Table<'a>,
    new: &'t Table<'b>,
) -> Result<Vec<Found<'t, 'a, 'b>>, AllocError>
    requires { from < length paths.old }
    ensures { IfOk result (λ v. ComeTo paths.old
        (entry_differences (slice_index_or paths.old from [])
        (entries_view old.now.entries) (entries_view new.now.entries))
        (tree_count (table (entries_view old.now.entries))
        + tree_count (table (entries_view new.now.entries)))
        paths.new v.items) }
{
    let mut found = Vec::new(alloc);
    let (mut olds, mut news) = (old.iter(), new.iter());
    let (mut one, mut other) = (olds.next(), news.next());
    while let Some((key, change)) = entry_change(one, other) {
        put(paths, &mut found, from, PathStep::Key(key), change)?;
        match change {
            Change::Added(_) => other = news.next(),
            Change::Removed(_) => one = olds.next(),
            Change::Changed(_, _) => {
                one = olds.next();
                other = news.next();
            }
        }
    }
    Ok(found)
}
