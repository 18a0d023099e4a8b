//! What stands in a tree at a path.
//! Which number a name says is in `names`; paths in files are in `file`.
ghost use Rattle.std.specs.Prelude.{◌≡◌, map, option_map};
ghost use Rattle.resb_tree.specs.View.{tree_of, items_view, entries_view};
ghost use Rattle.resb_tree.specs.Maps.{get};
ghost use Rattle.resb_path.specs.Finding.{spot_of, found_at};
ghost use Rattle.resb_path.specs.Finding.{found_inside};
ghost use Rattle.resb_path.specs.Finding.{member_said, element_said, tree_spot};

use crate::names::number_of;
use resb_tree::{Resource, Table};

/// What stands at a path.
#[derive(Clone, Copy)]
pub enum Found<'t, 'a> {
    /// A resource.
    Resource(&'t Resource<'a>),
    /// A number of a vector.
    Number(u32),
}

/// What stands at a path of names and numbers, if anything does. Names with a `/` inside can't be
/// said.
pub fn find<'t, 'a>(root: &'t Resource<'a>, path: &[&str]) -> Option<Found<'t, 'a>>
    ensures { option_map spot_of result
        ≡ found_at (tree_spot (tree_of root.now)) (map (λ name. name.now) path.now) }
{
    let mut found = Found::Resource(root);
    for name in path {
        found = step(found, name)?;
    }
    Some(found)
}

/// What stands inside, under one name.
fn step<'t, 'a>(found: Found<'t, 'a>, name: &str) -> Option<Found<'t, 'a>>
    ensures { option_map spot_of result ≡ found_inside (spot_of found.entry) name.now }
{
    match found {
        Found::Resource(Resource::Table(entries)) => {
            let value = value_of(entries, name)?;
            Some(Found::Resource(value))
        }
        Found::Resource(Resource::Array(members)) => {
            let member = member_of(members.as_slice(), name)?;
            Some(Found::Resource(member))
        }
        Found::Resource(Resource::IntVector(numbers)) => {
            let number = element_of(numbers.as_slice(), name)?;
            Some(Found::Number(number))
        }
        _ => None,
    }
}

/// The value of the entry of this name.
#[tactic(auto, using(crate::proofs::FindingLemmas::found_first))]
fn value_of<'t, 'a>(entries: &'t Table<'a>, name: &str) -> Option<&'t Resource<'a>>
    ensures { option_map (λ r. tree_of r.now) result
        ≡ get name.now (entries_view entries.now.entries) }
{
    for (key, value) in entries.iter() {
        if key.as_str() == name {
            return Some(value);
        }
    }
    None
}

/// The member of an array that has the number that a name says.
fn member_of<'t, 'a>(members: &'t [Resource<'a>], name: &str) -> Option<&'t Resource<'a>>
    ensures { option_map (λ r. tree_of r.now) result
        ≡ member_said (items_view members.now) name.now }
{
    members.get(number_of(name)?)
}

/// The number of a vector that has the number that a name says.
fn element_of(numbers: &[u32], name: &str) -> Option<u32>
    ensures { result ≡ element_said numbers.now name.now }
{
    numbers.get(number_of(name)?).copied()
}
