//! Whether the keys of all tables of a file ascend: found once, when the file is opened.
//! What is looked up by it is said in `inside`.
ghost use Rattle.std.specs.Prelude.{◌≡◌, ◌≤◌, ◌+◌, ◌∷◌, [], map, true, IfOk, IfSome, OnOk};
ghost use Rattle.std.specs.Prelude.{MatchOption};
ghost use Rattle.resb_format.specs.Content.{word};
ghost use Rattle.resb_format.specs.Parts.{Parts, parts_in};
ghost use Rattle.resb_read.specs.Tables.{keys_ascend, price_of, view_entries};
ghost use Rattle.resb_walk.specs.Inner.Members.{member_of};
ghost use Rattle.resb_opened.specs.Inner.Pending as pends;
ghost use Rattle.resb_opened.specs.Inner.Pending.{AreCollections, FitsInside, PendsMore};
ghost use Rattle.resb_opened.specs.Inner.Pending.{rest_members};
ghost use Rattle.resb_opened.specs.Ordered.{Ordered, OrderedEach, collections_in, key_price};

use resb_format::FileBlocks;
use resb_read::TableView;
use resb_tree::NoMemory;
use resb_walk::{Member, Rest, Standing, Walk, standing_at};
use std::alloc::Global;

/// Whether the keys of each table ascend that stands at a word or inside what stands there. At most
/// `most` collections are looked at, and of all keys `room` times 16 bytes: beyond that, `false` is
/// answered, so that it says nothing of them.
pub fn all_ascend(
    alloc: Global,
    file: FileBlocks<'_>,
    root: u32,
    most: usize,
    room: usize,
) -> Result<bool, NoMemory>
    ensures ordered { IfOk result (λ b. b ≡ true → Ordered (parts_in file.entry) (word root)) }
    ensures found { let p = parts_in file.entry in IfOk result (λ b. (o : Ordered p (word root))
        → collections_in p o ≤ most → key_price p o ≤ room → b ≡ true) }
{
    let mut walk = Walk::new(room);
    let mut left = most;
    let mut pending = Vec::new(alloc);
    push_collection(&mut pending, root)?;
    'collections: while let Some(word) = pending.pop() {
        let Some(rest) = left.checked_sub(1) else {
            return Ok(false);
        };
        left = rest;
        let Some(inside) = ordered_inside(file, word, &mut walk) else {
            return Ok(false);
        };
        push_collections(&mut pending, inside)?;
    }
    Ok(true)
}

/// Whether a word's type is one of a table or of an array.
fn is_collection(word: u32) -> bool
    ensures { result ≡ pends.is_collection word }
{
    matches!(word >> 28, 2 | 4 | 5 | 8 | 9)
}

/// Puts a collection's word behind those that are pending; a word of another type is left out.
fn push_collection(pending: &mut Vec<u32>, at: u32) -> Result<(), NoMemory>
    ensures ordered { OnOk result ((p : Parts) → OrderedEach p (map word pending.new.items)
        → OrderedEach p (map word pending.old.items) × Ordered p (word at)) }
    ensures kinds { OnOk result
        (AreCollections pending.old.items → AreCollections pending.new.items) }
    ensures found { OnOk result ((p : Parts)
        → PendsMore p pending.old.items pending.new.items (word at ∷ [])) }
{
    if is_collection(at) {
        pending.push(at)?;
    }
    Ok(())
}

/// The next member or value, if one is still to come, and those after it.
fn next_inside<'a>(rest: Rest<'a>) -> Option<(Member, Rest<'a>)>
    ensures { MatchOption result (rest_members rest.entry ≡ [])
        (λ r. rest_members rest.entry ≡ member_of r.0 ∷ rest_members r.1) }
{
    match rest {
        Rest::List(members) => {
            let (member, later) = members.split()?;
            Some((member, Rest::List(later)))
        }
        Rest::Table(entries) => {
            let (_, member, later) = entries.split()?;
            Some((member, Rest::Table(later)))
        }
    }
}

/// Puts the words of those members and values that are collections behind those that are pending.
fn push_collections(pending: &mut Vec<u32>, inside: Rest<'_>) -> Result<(), NoMemory>
    ensures ordered { OnOk result ((p : Parts) → OrderedEach p (map word pending.new.items)
        → OrderedEach p (map word pending.old.items)
        × OrderedEach p (rest_members inside.entry)) }
    ensures kinds { OnOk result
        (AreCollections pending.old.items → AreCollections pending.new.items) }
    ensures found { OnOk result ((p : Parts)
        → PendsMore p pending.old.items pending.new.items (rest_members inside.entry)) }
{
    let mut rest = inside;
    'members: while let Some((member, later)) = next_inside(rest) {
        match member {
            Member::Word(at) => push_collection(pending, at)?,
            Member::Unit(_) => {}
        }
        rest = later;
    }
    Ok(())
}

/// The members or values of the collection at a word, unless it is a table whose keys don't ascend,
/// or what is left doesn't suffice to look at them.
fn ordered_inside<'a>(file: FileBlocks<'a>, at: u32, walk: &mut Walk) -> Option<Rest<'a>>
    ensures ordered { let p = parts_in file.entry in
        IfSome result (λ rest. OrderedEach p (rest_members rest) → Ordered p (word at)) }
    ensures found { let p = parts_in file.entry in (o : Ordered p (word at))
        → pends.is_collection at ≡ true → key_price p o ≤ walk.old
        → MatchOption result ⊥ (λ rest. FitsInside p o (rest_members rest) walk.old walk.new) }
{
    match standing_at(file, at) {
        Ok(Standing::List(members)) => Some(Rest::List(members)),
        Ok(Standing::Table(entries)) => {
            if ascends(TableView::of(file, entries), walk) {
                Some(Rest::Table(entries))
            } else {
                None
            }
        }
        Ok(Standing::Leaf(_)) | Err(_) => None,
    }
}

/// Whether a table's keys ascend, as far as what is left suffices to look at them.
fn ascends(table: TableView<'_>, walk: &mut Walk) -> bool
    ensures ordered { result ≡ true → keys_ascend (view_entries table.entry) ≡ true }
    ensures found { let price = price_of (view_entries table.entry) in
        keys_ascend (view_entries table.entry) ≡ true → price ≤ walk.old
        → (result ≡ true) × (walk.new + price ≡ walk.old) }
{
    matches!(table.sorted_within(walk), Ok(Some(_)))
}
