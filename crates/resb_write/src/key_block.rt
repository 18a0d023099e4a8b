//! The key block: which listed keys are used, where each stands, and their bytes.
//! The faults of keys are found here, in the order in which they are answered.
ghost use Rattle.std.specs.Prelude.{◌≡◌, ◌++◌, ◌<◌, ◌%◌, ◌^◌, ◌⊎◌, ℕ, List, Some, None};
ghost use Rattle.std.specs.Prelude.{IfOk, IfErr, OnOk, All, length, map, filter, nat_lt, unwrap_or};
ghost use Rattle.std.specs.Prelude.{slice_index};
ghost use Rattle.std.specs.Str.{IsUtf8};
ghost use Rattle.std.specs.List.{list_any};
ghost use Rattle.std.specs.Map.{keys_of};
ghost use Rattle.std.specs.Option.{is_some, is_none};
ghost use Rattle.resb_pool.specs.Plan.{nows, at_text};
ghost use Rattle.resb_layout.specs.WritingFault.{out_of_memory};
ghost use Rattle.resb_write.specs.FaultOf.{fault_of};
ghost use Rattle.resb_layout.specs.KeyBlock.{used as used_of, key_bytes, padded};
ghost use Rattle.resb_layout.specs.TreeFaults.{has_nul, key_fault};
ghost use Rattle.resb_write.specs.Inner.Numbered.{NumbersKeys, AreNumbered};
ghost use Rattle.resb_write.specs.Inner.NearPositions.{near_position_in, IsKeyBlock};

use crate::error::BinarySerializerError;
use crate::numbered_keys::NumberedKeys;
use indexmap::IndexMap;
use resb_tree::Key;
use std::alloc::{AllocError, Global};

/// Where the first key stands, in bytes of the body: behind the root's word and 7 words of the
/// index.
pub(crate) const KEYS_START: usize = 32;

/// The greatest position that a key may have.
const GREATEST_POSITION: u32 = 2_147_483_647;

/// The used keys of a list in its order, and where the keys of a tree's tables stand.
#[derive(Drop)]
pub(crate) struct KeyBlock<'k> {
    pub(crate) keys: Vec<&'k str>,
    /// The position of the last occurrence of each key of the tables, in laying order and in bytes
    /// of the body.
    pub(crate) positions: Vec<u32>,
}

impl<'k> KeyBlock<'k> {
    /// The block of a list of keys for a tree whose tables have these keys, which are dropped then.
    /// Refuses the first fault of a key.
    pub(crate) fn new(
        alloc: Global,
        tree_keys: NumberedKeys<'_>,
        list: &'k [Key<'_>],
    ) -> Result<KeyBlock<'k>, BinarySerializerError>
        ensures ok { IfOk result (λ b. (us : List (List ℕ)) → NumbersKeys tree_keys.entry us
            → IsKeyBlock us list.now (nows b.keys.items) b.positions.items) }
        ensures err { IfErr result (λ e. (us : List (List ℕ)) → NumbersKeys tree_keys.entry us
            → (fault_of e ≡ out_of_memory) ⊎ (key_fault us (used_of us list.now)
            ≡ Some (fault_of e))) }
    {
        let (distinct, numbers) = tree_keys.into_parts();
        let UsedKeys { keys, .. } = used_keys(alloc, &distinct, list)?;
        let places = positions_in(alloc, distinct.keys().as_slice(), &keys)?;
        let positions = values_at(&places, numbers);
        Ok(KeyBlock { keys, positions })
    }
}

/// The length of keys, each with a zero byte.
fn key_length(keys: &[&str]) -> usize
    requires { length (key_bytes (nows keys.now)) < 2 ^ 28 }
    ensures { result ≡ length (key_bytes (nows keys.now)) }
{
    let mut length = 0;
    for key in keys {
        length += key.len() + 1;
    }
    length
}

/// How many bytes the block of these keys takes, a multiple of 4.
pub(crate) fn block_length(keys: &[&str]) -> usize
    requires { length (key_bytes (nows keys.now)) < 2 ^ 28 }
    ensures { result ≡ length (padded (key_bytes (nows keys.now))) }
{
    let length = key_length(keys);
    length + (4 - length % 4) % 4
}

/// Appends keys, each with a zero byte.
fn append_keys(file: &mut Vec<u8>, keys: &[&str]) -> Result<(), AllocError>
    ensures { OnOk result (file.new.items ≡ file.old.items ++ key_bytes (nows keys.now)) }
{
    for key in keys {
        file.extend_from_slice(key.as_bytes())?;
        file.push(0)?;
    }
    Ok(())
}

/// Appends bytes 0xaa up to the next multiple of 4.
fn append_padding(file: &mut Vec<u8>) -> Result<(), AllocError>
    ensures { OnOk result (file.new.items ≡ padded file.old.items) }
{
    match file.len() % 4 {
        1 => file.extend_from_slice(&[0xaa, 0xaa, 0xaa]),
        2 => file.extend_from_slice(&[0xaa, 0xaa]),
        3 => file.extend_from_slice(&[0xaa]),
        _ => Ok(()),
    }
}

/// Appends the block of these keys to a file whose length is a multiple of 4: each with a zero
/// byte, and 0xaa up to the next multiple of 4.
pub(crate) fn append_block(file: &mut Vec<u8>, keys: &[&str]) -> Result<(), AllocError>
    requires { length file.old.items % 4 ≡ 0 }
    ensures { OnOk result (file.new.items
        ≡ file.old.items ++ padded (key_bytes (nows keys.now))) }
{
    append_keys(file, keys)?;
    append_padding(file)
}

/// The keys of a list that are in a set, in the list's order.
#[derive(Drop)]
pub(crate) struct UsedKeys<'k> {
    pub(crate) keys: Vec<&'k str>,
    /// The index of each in the set.
    pub(crate) numbers: Vec<usize>,
}

impl<'k> UsedKeys<'k> {
    ghost use Rattle.std.specs.Prelude.{◌≡◌, ◌++◌, ◌∷◌, [], OnOk};

    /// Adds a key that has this index in the set.
    fn add(&mut self, key: &'k str, number: usize) -> Result<(), AllocError>
        ensures keys { OnOk result (self.new.keys.items ≡ self.old.keys.items ++ key.entry ∷ []) }
        ensures numbers { OnOk result
            (self.new.numbers.items ≡ self.old.numbers.items ++ number ∷ []) }
    {
        self.keys.push(key)?;
        self.numbers.push(number)?;
        Ok(())
    }
}

/// The keys of a list that are in a set, in the list's order.
pub(crate) fn used_keys<'k>(
    alloc: Global,
    set: &IndexMap<&str, ()>,
    list: &'k [Key<'_>],
) -> Result<UsedKeys<'k>, AllocError>
    ensures keys { IfOk result (λ u. nows u.keys.items
        ≡ filter (λ k. is_some (at_text set.now k)) list.now) }
    ensures utf8 { IfOk result (λ u. All IsUtf8 (nows u.keys.items)) }
    ensures numbers { IfOk result (λ u.
        AreNumbered (nows (keys_of set.now.entries)) u.numbers.items (nows u.keys.items)) }
{
    let mut used = UsedKeys {
        keys: Vec::new(alloc),
        numbers: Vec::new(alloc),
    };
    for key in list {
        let text = key.as_str();
        match set.get_index_of(text) {
            Some(number) => used.add(text, number)?,
            None => {}
        }
    }
    Ok(used)
}

/// The position of the last occurrence of each key, or the greatest number of 32 bits.
pub(crate) fn last_positions<'k>(
    alloc: Global,
    keys: &[&'k str],
) -> Result<IndexMap<&'k str, u32>, AllocError>
    ensures { IfOk result (λ m. (q : List ℕ) → at_text m q ≡ near_position_in (nows keys.now) q) }
{
    let mut positions = IndexMap::new(alloc);
    let mut position: usize = KEYS_START;
    for key in keys {
        positions.insert(*key, position.min(0xffff_ffff) as u32)?;
        position = position.saturating_add(key.len() + 1);
    }
    Ok(positions)
}

/// The position of each key, or 0 of one that isn't in the map.
fn positions_of(
    alloc: Global,
    keys: &[&str],
    positions: &IndexMap<&str, u32>,
) -> Result<Vec<u32>, AllocError>
    ensures { IfOk result (λ v. v.items
        ≡ map (λ k. unwrap_or (at_text positions.now k) 0) (nows keys.now)) }
{
    let mut found = Vec::with_capacity(alloc, keys.len())?;
    for key in keys {
        found.push(positions.get(*key).copied().unwrap_or(0))?;
    }
    Ok(found)
}

/// Where keys of tables stand in the block of used keys, each at its last occurrence, up to the
/// greatest number of 32 bits. Refuses the first fault of a key.
fn positions_in(
    alloc: Global,
    names: &[&str],
    keys: &[&str],
) -> Result<Vec<u32>, BinarySerializerError>
    ensures faultless { OnOk result (key_fault (nows names.now) (nows keys.now) ≡ None) }
    ensures positions { IfOk result (λ v. v.items
        ≡ map (λ k. unwrap_or (near_position_in (nows keys.now) k) 0) (nows names.now)) }
    ensures err { IfErr result (λ e. (fault_of e ≡ out_of_memory)
        ⊎ (key_fault (nows names.now) (nows keys.now) ≡ Some (fault_of e))) }
{
    let last = last_positions(alloc, keys)?;
    check_keys(names, &last)?;
    Ok(positions_of(alloc, names, &last)?)
}

/// The value at each of these indexes, put in its place.
pub(crate) fn values_at(values: &[u32], indexes: Vec<u32>) -> Vec<u32>
    ensures { result.items ≡ map (slice_index values.now) indexes.items }
{
    let mut found = indexes;
    for index in found.iter_mut() {
        *index = values.get(*index as usize).copied().unwrap_or(0);
    }
    found
}

/// Whether some key isn't in the map.
fn has_unlisted_key(keys: &[&str], positions: &IndexMap<&str, u32>) -> bool
    ensures { result ≡ list_any (λ k. is_none (at_text positions.now k.now)) keys.now }
{
    keys.iter().any(|key| !positions.contains_key(*key))
}

/// Whether some key holds U+0000.
fn has_nul_key(keys: &[&str]) -> bool
    ensures { result ≡ list_any (λ k. has_nul k.now) keys.now }
{
    keys.iter().any(|key| key.as_bytes().contains(&0))
}

/// Whether the position of some key is over the greatest that it may have.
fn has_far_key(keys: &[&str], positions: &IndexMap<&str, u32>) -> bool
    ensures { result
        ≡ list_any (λ k. nat_lt 2147483647 (unwrap_or (at_text positions.now k.now) 0)) keys.now }
{
    keys.iter().any(|key| positions.get(*key).copied().unwrap_or(0) > GREATEST_POSITION)
}

/// Refuses the first fault of used keys, whose last positions are given: a key that isn't in the
/// list, one with U+0000, one past the greatest position.
fn check_keys(keys: &[&str], positions: &IndexMap<&str, u32>) -> Result<(), BinarySerializerError>
    ensures ok { OnOk result ((js : List (List ℕ))
        → ((q : List ℕ) → at_text positions.now q ≡ near_position_in js q)
        → key_fault (nows keys.now) js ≡ None) }
    ensures err { IfErr result (λ e. (js : List (List ℕ))
        → ((q : List ℕ) → at_text positions.now q ≡ near_position_in js q)
        → key_fault (nows keys.now) js ≡ Some (fault_of e)) }
{
    if has_unlisted_key(keys, positions) {
        return Err(BinarySerializerError::unexpected("key not present in position map"));
    }
    if has_nul_key(keys) {
        return Err(BinarySerializerError::unexpected("key contains U+0000"));
    }
    if has_far_key(keys, positions) {
        return Err(BinarySerializerError::limit("key position over 2147483647"));
    }
    Ok(())
}

/// Refuses the first fault of the tables' keys, of which these are listed.
pub(crate) fn check_used(
    alloc: Global,
    names: &[&str],
    used: &[&str],
) -> Result<(), BinarySerializerError>
    ensures ok { OnOk result (key_fault (nows names.now) (nows used.now) ≡ None) }
    ensures err { IfErr result (λ e. (fault_of e ≡ out_of_memory)
        ⊎ (key_fault (nows names.now) (nows used.now) ≡ Some (fault_of e))) }
{
    let last = last_positions(alloc, used)?;
    check_keys(names, &last)
}
