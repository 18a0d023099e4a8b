//! The key block of a compact file: a key lies at the end of one of the file's keys, or, over a
//! pool bundle, at the end of one of the pool's.
//! Which of the file's keys end with a key is found in `key_ends` of `resb_layout`, and which of
//! the pool's in `resb_lent`.
ghost use Rattle.std.specs.Prelude.{◌≡◌, ◌⊎◌, ℕ, List, Option, Some, IfOk, IfErr, IfSome};
ghost use Rattle.std.specs.Prelude.{filter, length, map};
ghost use Rattle.resb_pool.specs.Plan.{nows, at_text};
ghost use Rattle.resb_layout.specs.CompactKeys.{container as container_in};
ghost use Rattle.resb_layout.specs.KeyBlock.{used as used_of};
ghost use Rattle.resb_layout.specs.TreeFaults.{key_fault};
ghost use Rattle.resb_layout.specs.WritingFault.{out_of_memory};
ghost use Rattle.resb_layout.specs.KeyEnds.{AreByEnd};
ghost use Rattle.resb_lent.specs.LendingEnds.{LendsEnds, end_place as place_in_pool};
ghost use Rattle.resb_write.specs.FaultOf.{fault_of};
ghost use Rattle.resb_write.specs.Inner.KeyEnds.{near_end_position, told_at_end, place_by, more_by};
ghost use Rattle.resb_write.specs.Inner.KeyEnds.{IsLent, IsKeyEnd, AreKeyEnds, IsEndBlock};
ghost use Rattle.resb_write.specs.Inner.KeyEnds.{lent_position, is_own as is_own_key};
ghost use Rattle.resb_write.specs.Inner.NearPositions.{near_position_in};
ghost use Rattle.resb_write.specs.Inner.Numbered.{AreNumbered, NumbersKeys};

use crate::error::BinarySerializerError;
use crate::key_block::{KeyBlock, UsedKeys, check_used, last_positions, used_keys, values_at};
use crate::numbered_keys::NumberedKeys;
use indexmap::IndexMap;
use resb_layout::key_ends::{container, in_end_order, is_not_behind};
use resb_lent::LentEnds;
use resb_tree::Key;
use std::alloc::{AllocError, Global};

/// By how much a position of a key in the pool is over its place there.
pub(crate) const LENT_KEY: u32 = 0x8000_0000;

/// By how much the file's own keys begin later: the index of a file over a pool has a word more.
pub(crate) const WORD: u32 = 4;

/// Where a key lies.
#[derive(Clone, Copy)]
pub(crate) struct KeyEnd<'k> {
    /// The key of the file at whose end it would lie without a pool.
    pub(crate) container: &'k str,
    /// Its position, if it lies in the pool.
    pub(crate) lent: Option<u32>,
}

/// The block of a compact file, over a pool bundle that lends the ends of these keys or over none:
/// the used keys of the list that lie in themselves, and not in the pool. The keys of the tables
/// are dropped. Refuses the first fault of a key.
pub(crate) fn end_keys<'k>(
    alloc: Global,
    tree_keys: NumberedKeys<'_>,
    list: &'k [Key<'_>],
    lent: Option<&LentEnds<'_>>,
) -> Result<KeyBlock<'k>, BinarySerializerError>
    requires { IfSome lent IsLent }
    ensures ok { IfOk result (λ b. (us : List (List ℕ)) → NumbersKeys tree_keys.entry us
        → IsEndBlock (place_by lent.entry (used_of us list.now)) (more_by lent.entry) us list.now
        (nows b.keys.items) b.positions.items) }
    ensures err { IfErr result (λ e. (us : List (List ℕ)) → NumbersKeys tree_keys.entry us
        → (fault_of e ≡ out_of_memory) ⊎ (key_fault us (used_of us list.now)
        ≡ Some (fault_of e))) }
{
    let (distinct, numbers) = tree_keys.into_parts();
    let used = used_keys(alloc, &distinct, list)?;
    check_used(alloc, distinct.keys().as_slice(), &used.keys)?;
    let sorted = in_end_order(alloc, &used.keys)?;
    let ends = key_ends(alloc, distinct.keys().as_slice(), &sorted, lent)?;
    let keys = own_keys(alloc, &used, &ends)?;
    let places = end_places(
        alloc,
        distinct.keys().as_slice(),
        &ends,
        &keys,
        more_of(lent),
    )?;
    let positions = values_at(&places, numbers);
    Ok(KeyBlock { keys, positions })
}

/// By how much the file's own keys begin later than in a file over no pool.
fn more_of(lent: Option<&LentEnds<'_>>) -> u32
    ensures { result ≡ more_by lent.entry }
{
    match lent {
        Some(_) => WORD,
        None => 0,
    }
}

/// The position of a key that lies in the pool, at the end of one of its keys: it does if it would
/// lie in this one of the file's without the pool.
fn lent_end(key: &str, container: &str, lent: &LentEnds<'_>) -> Option<u32>
    requires { (keys : List ℕ) × LendsEnds lent.now keys }
    ensures { (js : List (List ℕ)) → container.now ≡ container_in js key.now
        → result ≡ lent_position (place_in_pool lent.now js key.now) }
{
    let Some(found) = lent.last(key) else {
        return None;
    };
    if !is_not_behind(found.bytes, container) {
        return None;
    }
    let place = found.at + (found.bytes.len() - key.len()) as u32;
    Some(place + LENT_KEY)
}

/// The position of a key that lies in the pool, if there is one.
fn lent_by(key: &str, container: &str, lent: Option<&LentEnds<'_>>) -> Option<u32>
    requires { IfSome lent IsLent }
    ensures { (js : List (List ℕ)) → container.now ≡ container_in js key.now
        → result ≡ lent_position (place_by lent.entry js key.now) }
{
    match lent {
        Some(ends) => lent_end(key, container, ends),
        None => None,
    }
}

/// Where a key lies.
fn key_end<'k>(key: &'k str, sorted: &[&'k str], lent: Option<&LentEnds<'_>>) -> KeyEnd<'k>
    requires { IfSome lent IsLent }
    ensures { (js : List (List ℕ)) → AreByEnd js sorted.now
        → IsKeyEnd (place_by lent.entry js) js key.now result }
{
    let container = container(sorted, key);
    KeyEnd {
        container,
        lent: lent_by(key, container, lent),
    }
}

/// Where each key lies.
fn key_ends<'k>(
    alloc: Global,
    names: &[&'k str],
    sorted: &[&'k str],
    lent: Option<&LentEnds<'_>>,
) -> Result<Vec<KeyEnd<'k>>, AllocError>
    requires { IfSome lent IsLent }
    ensures len { IfOk result (λ v. length v.items ≡ length names.now) }
    ensures ends { IfOk result (λ v. (js : List (List ℕ)) → AreByEnd js sorted.now
        → AreKeyEnds (place_by lent.entry js) js (nows names.now) v.items) }
{
    let mut ends = Vec::with_capacity(alloc, names.len())?;
    for name in names {
        ends.push(key_end(*name, sorted, lent))?;
    }
    Ok(ends)
}

/// Whether a key stands in the file's own block: it lies in itself, and not in the pool.
fn is_own(key: &str, end: &KeyEnd<'_>) -> bool
    ensures { (js : List (List ℕ)) (place : List ℕ → Option ℕ)
        → IsKeyEnd place js key.now end.now
        → result ≡ is_own_key place js key.now }
{
    match end.lent {
        Some(_) => false,
        None => end.container.len() == key.len(),
    }
}

/// The used keys that stand in the file's own block, in their order.
fn own_keys<'k>(
    alloc: Global,
    used: &UsedKeys<'k>,
    ends: &[KeyEnd<'_>],
) -> Result<Vec<&'k str>, AllocError>
    requires { (T : List (List ℕ)) × (length ends.now ≡ length T)
        × AreNumbered T used.now.numbers.items (nows used.now.keys.items) }
    ensures { IfOk result (λ v. (js T : List (List ℕ)) (place : List ℕ → Option ℕ)
        → AreKeyEnds place js T ends.now
        → AreNumbered T used.now.numbers.items (nows used.now.keys.items) → nows v.items
        ≡ filter (is_own_key place js) (nows used.now.keys.items)) }
{
    let mut own = Vec::new(alloc);
    for (at, key) in used.keys.iter().enumerate() {
        if is_own(*key, &ends[used.numbers[at]]) {
            own.push(*key)?;
        }
    }
    Ok(own)
}

/// The position of each key, of which the ends are given.
fn end_places(
    alloc: Global,
    names: &[&str],
    ends: &[KeyEnd<'_>],
    own: &[&str],
    more: u32,
) -> Result<Vec<u32>, AllocError>
    requires { length ends.now ≡ length names.now }
    ensures { IfOk result (λ v. (js : List (List ℕ)) (place : List ℕ → Option ℕ)
        → AreKeyEnds place js (nows names.now) ends.now
        → v.items ≡ map (told_at_end more place js (nows own.now)) (nows names.now)) }
{
    let last = last_positions(alloc, own)?;
    let mut places = Vec::with_capacity(alloc, names.len())?;
    for (at, name) in names.iter().enumerate() {
        places.push(end_place(*name, &ends[at], &last, more))?;
    }
    Ok(places)
}

/// The position of a key: 2^31 and its place in the pool, or its place at the end of one of the
/// file's own, of which the last places are given, and so many bytes more.
fn end_place(name: &str, end: &KeyEnd<'_>, last: &IndexMap<&str, u32>, more: u32) -> u32
    ensures { (js ks : List (List ℕ)) (place : List ℕ → Option ℕ)
        → IsKeyEnd place js name.now end.now
        → ((q : List ℕ) → at_text last.now q ≡ near_position_in ks q)
        → result ≡ told_at_end more place js ks name.now }
{
    match end.lent {
        Some(position) => position,
        None => place_in(name, end.container, last).saturating_add(more),
    }
}

/// The position of a key at the end of its container, which is given.
fn place_in(name: &str, container: &str, last: &IndexMap<&str, u32>) -> u32
    ensures { (js ks : List (List ℕ)) → container.now ≡ container_in js name.now
        → ((q : List ℕ) → at_text last.now q ≡ near_position_in ks q)
        → result ≡ near_end_position js ks name.now }
{
    let before = container.len().saturating_sub(name.len()).min(0xffff_ffff) as u32;
    last.get(container)
        .copied()
        .unwrap_or(0)
        .saturating_add(before)
}
