//! What is inside a resource of an opened file: members by their numbers, entries by their keys,
//! and what a path leads to. What stands at one resource is found in `seen`.
ghost use Rattle.std.specs.Prelude.{◌≡◌, option_map, slice_get, MatchResult, map, true};
ghost use Rattle.resb_path.specs.Finding as finding;
ghost use Rattle.resb_path.specs.Finding.{found_inside, found_at};
ghost use Rattle.resb_read.specs.Places.{place_of};
ghost use Rattle.resb_read.specs.Sequences.{at_entry};
ghost use Rattle.resb_read.specs.Tables.{keys_ascend, last_named, view_entries};
ghost use Rattle.resb_walk.specs.Inner.Members.{content_of, member_of, members_of, keyed_members};
ghost use Rattle.resb_c.specs.Inner.Contents.{IsInside, IsNamed, IsNumbered};
ghost use Rattle.resb_c.specs.Opened.{parts_of, says_ascending, Shows};
ghost use Rattle.resb_c.specs.Shown.{FindsPath, GivesKeyOf, IsFound, LacksKeyOf, MemberOf};
ghost use Rattle.resb_c.specs.Shown.{ValueAtKey, ValueOf};

use crate::fault::Fault;
use crate::files::text_of;
use crate::opened::ResbOpened;
use crate::path::names_of;
use crate::resource::ResbResource;
use crate::seen::standing;
use crate::there::entry_key;
use resb_format::BinaryDeserializerError;
use resb_format::bytes::{some_unit, some_word};
use resb_path::number_of;
use resb_read::{Cursor, TableView};
use resb_walk::{Leaf, Member, Members, Standing, TableParts};
use std::alloc::Global;

/// The member of a number, from 0 on, if there are so many.
#[tactic(auto, using(resb_read::proofs::InsideTrees::mapped_at))]
fn member_at(members: Members<'_>, number: usize) -> Option<Member>
    ensures { option_map member_of result ≡ slice_get (members_of members.entry) number }
{
    match members {
        Members::Words(words) => Some(Member::Word(some_word(words, number)?)),
        Members::Units(units) => Some(Member::Unit(some_unit(units, number)?)),
    }
}

/// The member of the entry of a number, from 0 on, if there are so many.
fn value_at(entries: TableParts<'_>, number: usize) -> Option<Member>
    ensures { option_map member_of result
        ≡ option_map (λ e. e.1) (slice_get (keyed_members entries.entry) number) }
{
    if number >= entries.len() {
        return None;
    }
    match entries.behind(number).split() {
        Some((_, member, _)) => Some(member),
        None => None,
    }
}

/// What has this number inside what stands somewhere, from 0 on.
fn inside(there: Standing<'_>, number: usize) -> Result<ResbResource, Fault>
    ensures { IsInside (content_of there.entry) number result }
{
    let member = match there {
        Standing::List(members) => member_at(members, number),
        Standing::Table(entries) => value_at(entries, number),
        Standing::Leaf(Leaf::Numbers(numbers)) => {
            return match some_word(numbers, number) {
                Some(found) => Ok(ResbResource::of_number(found)),
                None => Err(Fault::NotFound),
            };
        }
        Standing::Leaf(_) => return Err(Fault::OtherKind),
    };
    match member {
        Some(found) => Ok(ResbResource::of_member(found)),
        None => Err(Fault::NotFound),
    }
}

/// What has this number inside a resource, from 0 on: the member of an array, the value of an entry
/// of a table as they stand in the file, or the number of a vector.
pub(crate) fn member_seen(
    opened: &ResbOpened<'_>,
    resource: ResbResource,
    number: usize,
) -> Result<ResbResource, Fault>
    ensures { (s : finding.Spot) → Shows opened.now resource s
        → MemberOf opened.now resource number result s }
{
    let there = standing(opened, resource)?;
    inside(there, number)
}

/// The key of the entry of a number, from 0 on, of the table at a resource.
pub(crate) fn key_seen<'a>(
    opened: &ResbOpened<'a>,
    resource: ResbResource,
    number: usize,
) -> Result<&'a [u8], Fault>
    ensures { (s : finding.Spot) → Shows opened.now resource s → MatchResult result
        (λ key. GivesKeyOf opened.now resource number s key.now)
        (LacksKeyOf opened.now resource number s) }
{
    let there = standing(opened, resource)?;
    let Standing::Table(entries) = there else {
        return Err(Fault::OtherKind);
    };
    match entry_key(opened.parts(), entries, number) {
        Ok(key) => Ok(key.as_bytes()),
        Err(e) => Err(e),
    }
}

/// Where the value of the last entry of a name stands: by halving, where the keys ascend.
fn entry_named<'de>(table: TableView<'de>, ascends: bool, name: &str) -> Option<Cursor<'de>>
    ensures { (ascends ≡ true → keys_ascend (view_entries table.entry) ≡ true)
        → option_map place_of result ≡ last_named name.now (view_entries table.entry) }
{
    if ascends {
        table.find(name)
    } else {
        table.get(name)
    }
}

/// The value of the last of these entries that has a name, where they ascend if the file's tables
/// are said to.
fn named(
    opened: &ResbOpened<'_>,
    entries: TableParts<'_>,
    name: &str,
) -> Result<ResbResource, Fault>
    ensures { (says_ascending opened.now ≡ true
        → keys_ascend (map (at_entry (parts_of opened.now)) (keyed_members entries.entry)) ≡ true)
        → IsNamed (parts_of opened.now) (keyed_members entries.entry) name.now result }
{
    let table = TableView::of(opened.parts(), entries);
    match entry_named(table, opened.ascends(), name) {
        Some(found) => Ok(ResbResource::of_spot(found.spot())),
        None => Err(Fault::NotFound),
    }
}

/// The value that the table at a resource has at a key: that of the last entry of the key.
pub(crate) fn value_seen(
    opened: &ResbOpened<'_>,
    resource: ResbResource,
    name: &str,
) -> Result<ResbResource, Fault>
    ensures { (s : finding.Spot) → Shows opened.now resource s
        → ValueOf opened.now name.now result s }
{
    let there = standing(opened, resource)?;
    let Standing::Table(entries) = there else {
        return Err(Fault::OtherKind);
    };
    named(opened, entries, name)
}

/// The value at a key, which the caller writes.
pub(crate) fn value_at_key(
    opened: &ResbOpened<'_>,
    resource: ResbResource,
    key: &[u8],
) -> Result<ResbResource, Fault>
    ensures { (s : finding.Spot) → Shows opened.now resource s
        → ValueAtKey opened.now key.now s result }
{
    let name = text_of(key)?;
    value_seen(opened, resource, name)
}

/// What has the number that a name says inside a resource that is no table.
fn numbered(there: Standing<'_>, name: &str) -> Result<ResbResource, Fault>
    ensures { IsNumbered (content_of there.entry) name.now result }
{
    let Some(number) = number_of(name) else {
        return Err(Fault::NotFound);
    };
    match inside(there, number) {
        Ok(found) => Ok(found),
        Err(_) => Err(Fault::NotFound),
    }
}

/// What stands inside a resource under one name of a path.
fn step(opened: &ResbOpened<'_>, resource: ResbResource, name: &str) -> Result<ResbResource, Fault>
    ensures { (s : finding.Spot) → Shows opened.now resource s
        → IsFound opened.now (found_inside s name.now) result }
{
    match standing(opened, resource) {
        Ok(Standing::Table(entries)) => named(opened, entries, name),
        Ok(Standing::List(members)) => numbered(Standing::List(members), name),
        Ok(Standing::Leaf(leaf)) => numbered(Standing::Leaf(leaf), name),
        Err(_) => Err(Fault::NotFound),
    }
}

/// What names lead to, one inside the other.
fn find_seen(
    opened: &ResbOpened<'_>,
    from: ResbResource,
    names: &[&str],
) -> Result<ResbResource, Fault>
    ensures { (s : finding.Spot) → Shows opened.now from s
        → IsFound opened.now (found_at s (map (λ name. name.now) names.now)) result }
{
    let mut found = from;
    for name in names {
        match step(opened, found, name) {
            Ok(inside) => found = inside,
            Err(e) => return Err(e),
        }
    }
    Ok(found)
}

/// What a path leads to from a resource on.
pub(crate) fn find_at_path(
    alloc: Global,
    opened: &ResbOpened<'_>,
    from: ResbResource,
    path: &[u8],
) -> Result<ResbResource, Fault>
    ensures { (s : finding.Spot) → Shows opened.now from s
        → FindsPath opened.now path.now s result }
{
    let path = text_of(path)?;
    match names_of(alloc, path) {
        Ok(names) => find_seen(opened, from, names.as_slice()),
        Err(_) => Err(Fault::Reading(BinaryDeserializerError::out_of_memory())),
    }
}
