//! The key block of a file over a pool bundle, by how the file is packed: which used keys the pool
//! lacks, and where each key of the tables stands.
//! That of a compact file is in `end_keys`; the block of a file that uses no pool, and the
//! faults of keys, are in `key_block`.
ghost use Rattle.std.specs.Prelude.{◌≡◌, ◌⊎◌, ℕ, List, Some, None, IfOk, IfErr, OnOk, map, filter};
ghost use Rattle.std.specs.Option.{is_none};
ghost use Rattle.resb_pool.specs.Plan.{nows, at_text};
ghost use Rattle.resb_layout.specs.KeyBlock.{used as used_of};
ghost use Rattle.resb_layout.specs.TreeFaults.{key_fault};
ghost use Rattle.resb_layout.specs.WritingFault.{out_of_memory};
ghost use Rattle.resb_pool.specs.declared.packing.Packing.TheVariants.{Plain};
ghost use Rattle.resb_lent.specs.Lending.{lent_keys, lent_place};
ghost use Rattle.resb_pool_bundle.specs.Pool.{pool_in};
ghost use Rattle.resb_write.specs.FaultOf.{fault_of};
ghost use Rattle.resb_write.specs.Inner.NearPositions.{near_position_in};
ghost use Rattle.resb_write.specs.Inner.Numbered.{NumbersKeys};
ghost use Rattle.resb_write.specs.Inner.Beside.{told_beside, IsKeyBlockBeside};

use crate::end_keys::{LENT_KEY, WORD, end_keys};
use crate::error::BinarySerializerError;
use crate::key_block::{KeyBlock, check_used, last_positions, used_keys, values_at};
use crate::numbered_keys::NumberedKeys;
use crate::wanted::Wanted;
use indexmap::IndexMap;
use resb_layout::Packing;
use resb_lent::{LentKeys, Pool};
use resb_tree::Key;
use std::alloc::{AllocError, Global};

/// The block of the keys that are wanted for a tree whose tables have these keys, which are dropped
/// then, in a file over a pool bundle. Refuses the first fault of a key.
pub(crate) fn key_block_beside<'k>(
    alloc: Global,
    tree_keys: NumberedKeys<'_>,
    wanted: &Wanted<'k, '_>,
    pool: &Pool<'_>,
) -> Result<KeyBlock<'k>, BinarySerializerError>
    ensures ok { IfOk result (λ b. (us : List (List ℕ)) → NumbersKeys tree_keys.entry us
        → IsKeyBlockBeside wanted.now.layout.packing (pool_in pool.now).keys us
        wanted.now.list.now (nows b.keys.items) b.positions.items) }
    ensures err { IfErr result (λ e. (us : List (List ℕ)) → NumbersKeys tree_keys.entry us
        → (fault_of e ≡ out_of_memory) ⊎ (key_fault us (used_of us wanted.now.list.now)
        ≡ Some (fault_of e))) }
{
    match wanted.layout.packing {
        Packing::Plain => whole_keys_beside(alloc, tree_keys, wanted.list, pool.keys()),
        Packing::Compact => end_keys(alloc, tree_keys, wanted.list, Some(pool.ends())),
    }
}

/// The block of a file in which each key stands by itself: the used keys of the list that the pool
/// lacks.
fn whole_keys_beside<'k>(
    alloc: Global,
    tree_keys: NumberedKeys<'_>,
    list: &'k [Key<'_>],
    lent: &LentKeys<'_>,
) -> Result<KeyBlock<'k>, BinarySerializerError>
    ensures ok { IfOk result (λ b. (us : List (List ℕ)) → NumbersKeys tree_keys.entry us
        → IsKeyBlockBeside Plain (lent_keys lent.now) us list.now (nows b.keys.items)
        b.positions.items) }
    ensures err { IfErr result (λ e. (us : List (List ℕ)) → NumbersKeys tree_keys.entry us
        → (fault_of e ≡ out_of_memory) ⊎ (key_fault us (used_of us list.now)
        ≡ Some (fault_of e))) }
{
    let (distinct, numbers) = tree_keys.into_parts();
    let used = used_keys(alloc, &distinct, list)?;
    check_used(alloc, distinct.keys().as_slice(), &used.keys)?;
    let keys = own_keys(alloc, &used.keys, lent)?;
    let places = places_beside(alloc, distinct.keys().as_slice(), &keys, lent)?;
    let positions = values_at(&places, numbers);
    Ok(KeyBlock { keys, positions })
}

/// The keys that the pool lacks, in their order.
fn own_keys<'k>(
    alloc: Global,
    keys: &[&'k str],
    lent: &LentKeys<'_>,
) -> Result<Vec<&'k str>, AllocError>
    ensures { IfOk result (λ v. nows v.items
        ≡ filter (λ k. is_none (lent_place lent.now k)) (nows keys.now)) }
{
    let mut own = Vec::new(alloc);
    for key in keys {
        if lent.place(*key).is_none() {
            own.push(*key)?;
        }
    }
    Ok(own)
}

/// The position of each key: in the pool, or where it stands last among the file's own.
fn places_beside(
    alloc: Global,
    keys: &[&str],
    own: &[&str],
    lent: &LentKeys<'_>,
) -> Result<Vec<u32>, AllocError>
    ensures { IfOk result (λ v. v.items ≡ map (λ k. told_beside (lent_place lent.now k)
        (near_position_in (nows own.now) k)) (nows keys.now)) }
{
    let last = last_positions(alloc, own)?;
    told_places(alloc, keys, &last, lent)
}

/// The position of each key, where the last ones of the file's own are given.
fn told_places(
    alloc: Global,
    keys: &[&str],
    last: &IndexMap<&str, u32>,
    lent: &LentKeys<'_>,
) -> Result<Vec<u32>, AllocError>
    ensures { IfOk result (λ v. v.items ≡ map (λ k. told_beside (lent_place lent.now k)
        (at_text last.now k)) (nows keys.now)) }
{
    let mut places = Vec::with_capacity(alloc, keys.len())?;
    for key in keys {
        places.push(place_beside(*key, last, lent))?;
    }
    Ok(places)
}

/// The position of a key: 2^31 and its place in the pool, or its last one among the file's own.
fn place_beside(key: &str, last: &IndexMap<&str, u32>, lent: &LentKeys<'_>) -> u32
    ensures { result ≡ told_beside (lent_place lent.now key.now) (at_text last.now key.now) }
{
    match lent.place(key) {
        Some(place) => LENT_KEY + place,
        None => last.get(key).copied().unwrap_or(0).saturating_add(WORD),
    }
}
