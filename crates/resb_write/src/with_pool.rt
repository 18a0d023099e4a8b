//! Writes a tree as a file over a pool bundle: what the pool has of its keys and strings stays
//! there, and what it lacks stands in the file.
//! What a pool lends is found out in `resb_lent`; files that use no pool are written in
//! `serializer`.
ghost use Rattle.std.specs.Prelude.{◌≡◌, ◌++◌, ◌+◌, ◌<◌, ◌^◌, ℕ, IfOk, IfErr, OnOk};
ghost use Rattle.std.specs.Prelude.{length, slice_index};
ghost use Rattle.resb_tree.specs.Tree.{Tree};
ghost use Rattle.resb_tree.specs.LayingOrder.{laying_order, keys_of};
ghost use Rattle.resb_format.specs.Bytes.{units_as_bytes};
ghost use Rattle.resb_pool.specs.Plan.{nows};
ghost use Rattle.resb_layout.specs.KeyBlock.{key_bytes};
ghost use Rattle.resb_layout.specs.PlainSize.{list_size, resources_size};
ghost use Rattle.resb_layout.specs.TreeFaults.{RefusesWriting};
ghost use Rattle.resb_pool_bundle.specs.Pool.{pool_in};
ghost use Rattle.resb_lent.specs.PlanWithPool.{IsPlanWithBy};
ghost use Rattle.resb_lent.specs.HeadWithPool.{IsHead, head_bytes};
ghost use Rattle.resb_write.specs.FaultOf.{fault_of};
ghost use Rattle.resb_write.specs.WrittenWith.{WrittenWithBy, RefusesWritingWith, own_end_of};
ghost use Rattle.resb_write.specs.Inner.Beside.{IsKeyBlockBeside, IsUnplanned, FitsLimits};
ghost use Rattle.resb_write.specs.Inner.Beside.{head_with};
ghost use Rattle.resb_write.specs.Inner.Files.{FitsFile, keys_in_file, units_in_file};
ghost use Rattle.resb_write.specs.Inner.Gathered.{Gathered};
ghost use Rattle.resb_write.specs.Inner.Numbered.{NumbersKeys};

use crate::contents::Contents;
use crate::error::BinarySerializerError;
use crate::file::{FileParts, append_units};
use crate::key_block::{KeyBlock, append_block, block_length};
use crate::keys_beside::key_block_beside;
use crate::lends::Lends;
use crate::limits::check_sizes;
use crate::nodes::Nodes;
use crate::numbered_keys::NumberedKeys;
use crate::sites::Sites;
use crate::tree_bodies::lay_bodies;
use crate::wanted::Wanted;
use resb_layout::Packing;
use resb_lent::{HeadWithPool, PlanWithPool, Pool};
use resb_tree::NoMemory;
use std::alloc::Global;

/// Where the file's own keys begin, in bytes of the body: behind the root's word and 8 words of the
/// index.
const OWN_KEYS_START: usize = 36;

/// The refusals in their order, and then the file over a pool bundle of a tree, whose resources are
/// given in laying order, and beside them the keys of its tables.
pub(crate) fn write_beside<N: Nodes + Drop>(
    alloc: Global,
    order: N,
    tree_keys: NumberedKeys<'_>,
    wanted: &Wanted<'_, '_>,
    pool: &Pool<'_>,
) -> Result<Vec<u8>, BinarySerializerError>
    requires { (t : Tree) × N.fit order (laying_order t) × NumbersKeys tree_keys (keys_of t) }
    ensures ok { IfOk result (λ v. (t : Tree) → N.fit order (laying_order t)
        → NumbersKeys tree_keys.entry (keys_of t)
        → WrittenWithBy wanted.now.layout.packing (pool_in pool.now) v.items t
        wanted.now.is_locale_fallback_enabled wanted.now.list.now) }
    ensures err { IfErr result (λ e. (t : Tree) → N.fit order (laying_order t)
        → NumbersKeys tree_keys.entry (keys_of t)
        → RefusesWritingWith (pool_in pool.now) t wanted.now.list.now (fault_of e)) }
{
    let packing = wanted.layout.packing;
    let (contents, block) = checked_beside(alloc, &order, tree_keys, wanted, pool)?;
    let KeyBlock { keys, positions } = block;
    let largest_table = contents.largest_table as u32;
    let PlanWithPool {
        units,
        indexes,
        limit,
        short_limit,
    } = plan_beside(alloc, contents.into_texts(), packing, pool)?;
    let lends = Lends {
        own_end: own_end(&keys),
        limit,
        short_limit,
    };
    let sites = Sites {
        positions: &positions,
        offsets: &indexes,
        lent: Some(lends),
        packing,
    };
    let keys_end = OWN_KEYS_START + block_length(&keys);
    let (bodies, word) = lay_bodies(alloc, &sites, units, keys_end, &order)?;
    drop(order);
    drop(positions);
    drop(indexes);
    let parts = FileParts {
        root: word,
        largest_table,
        is_locale_fallback_enabled: wanted.is_locale_fallback_enabled,
        keys: &keys,
        bodies: &bodies,
    };
    Ok(assemble_beside(alloc, &parts, &lends, pool.checksum())?)
}

/// What a tree holds and the block of the keys that stand in the file, once none of the refusals
/// holds; the first of them that does is answered. The tree's resources are given in laying order,
/// and beside them the keys of its tables.
fn checked_beside<'t, 'k, N: Nodes>(
    alloc: Global,
    order: &'t N,
    tree_keys: NumberedKeys<'_>,
    wanted: &Wanted<'k, '_>,
    pool: &Pool<'_>,
) -> Result<(Contents<'t>, KeyBlock<'k>), BinarySerializerError>
    requires { (t : Tree) × N.fit order.now (laying_order t) × NumbersKeys tree_keys (keys_of t) }
    ensures ok { IfOk result (λ r. (t : Tree) → N.fit order.now (laying_order t)
        → NumbersKeys tree_keys.entry (keys_of t) → Gathered (laying_order t) r.0
        × IsKeyBlockBeside wanted.now.layout.packing (pool_in pool.now).keys (keys_of t)
        wanted.now.list.now (nows r.1.keys.items) r.1.positions.items
        × (list_size wanted.now.list.now + resources_size (laying_order t) < 2 ^ 28)) }
    ensures err { IfErr result (λ e. (t : Tree) → N.fit order.now (laying_order t)
        → NumbersKeys tree_keys.entry (keys_of t)
        → RefusesWriting t wanted.now.list.now (fault_of e)) }
{
    let contents = Contents::gather(alloc, order)?;
    let block = key_block_beside(alloc, tree_keys, wanted, pool)?;
    check_sizes(&contents, wanted.list)?;
    Ok((contents, block))
}

/// How the strings of a tree stand over a pool bundle.
fn plan_beside(
    alloc: Global,
    texts: Vec<&str>,
    packing: Packing,
    pool: &Pool<'_>,
) -> Result<PlanWithPool, BinarySerializerError>
    ensures ok { IfOk result (λ p. IsPlanWithBy packing (pool_in pool.now).block
        (nows texts.entry.items) p.units.items p.indexes.items p.limit p.short_limit) }
    ensures err { IfErr result (λ e. IsUnplanned packing (pool_in pool.now).block
        (nows texts.entry.items) (fault_of e)) }
{
    Ok(PlanWithPool::by(alloc, packing, pool.texts(), &texts)?)
}

/// Where the file's own keys end, in bytes of the body: at 0 where it has none.
fn own_end(keys: &[&str]) -> u32
    requires { length (key_bytes (nows keys.now)) < 2 ^ 28 }
    ensures { result ≡ own_end_of (nows keys.now) }
{
    if keys.is_empty() {
        return 0;
    }
    (OWN_KEYS_START + block_length(keys)) as u32
}

/// The head of a file of these parts, to which so much is lent by a pool bundle of this checksum.
fn head_of(parts: &FileParts<'_>, lends: &Lends, checksum: u32) -> HeadWithPool
    requires fits { FitsFile parts.now }
    requires limits { FitsLimits lends.now }
    ensures is { result ≡ head_with parts.now lends.now checksum }
    ensures fits { IsHead result }
{
    HeadWithPool {
        root: parts.root,
        largest_table: parts.largest_table,
        is_locale_fallback_enabled: parts.is_locale_fallback_enabled,
        limit: lends.limit,
        short_limit: lends.short_limit,
        checksum,
        key_words: (block_length(parts.keys) / 4) as u32,
        block_words: parts.bodies.units.len().div_ceil(2) as u32,
        tail_words: (parts.bodies.tail.len() / 4) as u32,
    }
}

/// The file of these parts, to which so much is lent by a pool bundle of this checksum.
fn assemble_beside(
    alloc: Global,
    parts: &FileParts<'_>,
    lends: &Lends,
    checksum: u32,
) -> Result<Vec<u8>, NoMemory>
    requires fits { FitsFile parts.now }
    requires limits { FitsLimits lends.now }
    ensures file { IfOk result (λ file. file.items
        ≡ head_bytes (head_with parts.now lends.now checksum) ++ (keys_in_file parts.now
        ++ (units_as_bytes (units_in_file parts.now) ++ parts.now.bodies.now.tail.items))) }
    ensures fits { OnOk result ((k : ℕ)
        → slice_index parts.now.bodies.now.units.items k < 2 ^ 16) }
    ensures head { OnOk result (IsHead (head_with parts.now lends.now checksum)) }
{
    let head = head_of(parts, lends, checksum);
    let words = 17 + head.key_words + head.block_words + head.tail_words;
    let mut file = Vec::with_capacity(alloc, 4 * words as usize)?;
    head.append_to(&mut file)?;
    append_block(&mut file, parts.keys)?;
    append_units(&mut file, &parts.bodies.units)?;
    file.extend_from_slice(&parts.bodies.tail)?;
    Ok(file)
}
