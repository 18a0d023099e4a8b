//! Deep trees with their differences. What differs between others is asked of the program, by
//! `tests/rows.py`.
use resb_diff::{Change, Differences, differences_between};
use resb_tree::{Int28, NoMemory, Resource};
use std::alloc::{AllocError, Global};
use std::test::Fail;

/// The array of a tree alone.
fn array_of(alloc: Global, tree: Resource<'static>) -> Result<Resource<'static>, AllocError> {
    let mut items = Vec::new(alloc);
    items.push(tree)?;
    Ok(Resource::Array(items))
}

/// A number in a million arrays.
fn nested_arrays(alloc: Global, number: u32) -> Result<Resource<'static>, AllocError> {
    let mut tree = Resource::Integer(Int28::from(number));
    for _ in 0..1_000_000u32 {
        tree = array_of(alloc, tree)?;
    }
    Ok(tree)
}

/// How many steps the path of the first difference takes, if there is one that is a change.
fn steps_of(
    alloc: Global,
    differences: &Differences<'_, '_, '_>,
) -> Result<Option<usize>, NoMemory> {
    let Some(first) = differences.get(alloc, 0)? else {
        return Ok(None);
    };
    match &first.change {
        Change::Changed(_, _) => Ok(Some(first.path.len())),
        _ => Ok(None),
    }
}

/// How many differences two trees have, and how many steps the path of the first takes.
fn lengths(
    alloc: Global,
    old: &Resource<'_>,
    new: &Resource<'_>,
) -> Result<(usize, Option<usize>), NoMemory> {
    let differences = differences_between(alloc, old, new)?;
    Ok((differences.len(), steps_of(alloc, &differences)?))
}

/// The lengths of the differences between a tree and one with this number.
fn lengths_beside(
    alloc: Global,
    old: &Resource<'_>,
    number: u32,
) -> Result<(usize, Option<usize>), NoMemory> {
    let new = nested_arrays(alloc, number)?;
    lengths(alloc, old, &new)
}

/// The lengths of the differences between trees with these numbers.
fn lengths_of(alloc: Global, old: u32, new: u32) -> Result<(usize, Option<usize>), NoMemory> {
    let old = nested_arrays(alloc, old)?;
    lengths_beside(alloc, &old, new)
}

#[test]
fn a_million_levels(rt: HostRuntime) -> Result<(), Fail> {
    assert!(rt; lengths_of(rt.alloc(), 1, 2)? == (1, Some(1_000_000)));
    assert!(rt; lengths_of(rt.alloc(), 1, 1)? == (0, None));
    Ok(())
}
