//! What differs between two trees, found by a list of what is still to be looked at, so that no
//! depth of a tree ends the process.
ghost use Rattle.std.specs.Prelude.{◌≡◌, ◌+◌, ◌<◌, [], ◌∷◌, length, reverse, OnOk, IfOk};
ghost use Rattle.std.specs.Prelude.{slice_index_or, MatchOption};
ghost use Rattle.resb_tree.specs.Tree.{tree_count};
ghost use Rattle.resb_tree.specs.View.{tree_of};
ghost use Rattle.resb_diff.specs.Differences.{differences};
ghost use Rattle.resb_diff.specs.View.{differences_in};
ghost use Rattle.resb_diff.specs.Inner.Walking.{AreWithin, ComeTo, LooksAt, DifferAsWhole};

use crate::differences::{Change, Differences, Found};
use crate::members::{entries, members};
use crate::paths::Paths;
use resb_tree::{NoMemory, Resource};
use std::alloc::{AllocError, Global};

/// What differs between two trees, in the order of the paths. It takes no stack for their depth.
pub fn differences_between<'t, 'a, 'b>(
    alloc: Global,
    old: &'t Resource<'a>,
    new: &'t Resource<'b>,
) -> Result<Differences<'t, 'a, 'b>, NoMemory>
    ensures { IfOk result
        (λ d. differences_in d ≡ differences [] (tree_of old.now) (tree_of new.now)) }
{
    let mut paths = Paths::new(alloc);
    let mut found = Vec::new(alloc);
    let mut pending = Vec::new(alloc);
    pending.push(Found {
        path: 0,
        change: Change::Changed(old, new),
    })?;
    while let Some(next) = pending.pop() {
        look_at(alloc, &mut paths, &mut found, &mut pending, next)?;
    }
    Ok(Differences { paths, found })
}

/// Looks at a change. One that is so is put behind those that were found, and what is right inside
/// two collections is still to be looked at.
fn look_at<'t, 'a, 'b>(
    alloc: Global,
    paths: &mut Paths<'t>,
    found: &mut Vec<Found<'t, 'a, 'b>>,
    pending: &mut Vec<Found<'t, 'a, 'b>>,
    next: Found<'t, 'a, 'b>,
) -> Result<(), AllocError>
    requires found { AreWithin (length paths.old) found.old.items }
    requires pending { AreWithin (length paths.old)
        (next ∷ reverse pending.old.items) }
    ensures { OnOk result (LooksAt paths.old found.old.items
        (next.entry ∷ reverse pending.old.items)
        paths.new found.new.items (reverse pending.new.items)) }
{
    let Change::Changed(old, new) = next.change else {
        found.push(next)?;
        return Ok(());
    };
    match open(alloc, paths, next.path, old, new)? {
        Some(mut inside) => {
            inside.reverse();
            pending.append(&mut inside)?;
        }
        None => {
            if !old.equals(new) {
                found.push(next)?;
            }
        }
    }
    Ok(())
}

/// The changes right inside two arrays or two tables at a path. None for other trees.
fn open<'t, 'a, 'b>(
    alloc: Global,
    paths: &mut Paths<'t>,
    from: usize,
    old: &'t Resource<'a>,
    new: &'t Resource<'b>,
) -> Result<Option<Vec<Found<'t, 'a, 'b>>>, AllocError>
    requires { from < length paths.old }
    ensures { IfOk result (λ o. MatchOption o
        ((paths.new ≡ paths.old) × DifferAsWhole (tree_of old.now) (tree_of new.now))
        (λ v. ComeTo paths.old (differences (slice_index_or paths.old from [])
        (tree_of old.now) (tree_of new.now))
        (tree_count (tree_of old.now) + tree_count (tree_of new.now))
        paths.new v.items)) }
{
    match (old, new) {
        (Resource::Array(old), Resource::Array(new)) => {
            let inside = members(alloc, paths, from, old, new)?;
            Ok(Some(inside))
        }
        (Resource::Table(old), Resource::Table(new)) => {
            let inside = entries(alloc, paths, from, old, new)?;
            Ok(Some(inside))
        }
        _ => Ok(None),
    }
}
