//! Writes a bundle, or a draft of one: its faults in their order, and then the parts of the file,
//! one after another.
//! Each part is made in a module or crate of its own; how a file may be laid out is in `layout`.
ghost use Rattle.std.specs.Prelude.{◌≡◌, ◌+◌, ◌<◌, ◌^◌, true, map, IfOk, IfErr};
ghost use Rattle.resb_tree.specs.Borrowing.{all_true};
ghost use Rattle.resb_tree.specs.Tree.{Tree};
ghost use Rattle.resb_tree.specs.Bundle.{root_of};
ghost use Rattle.resb_tree.specs.LayingOrder.{laying_order, keys_of};
ghost use Rattle.resb_draft.specs.Drafts.{draft_tree, is_ready, tree_at, is_whole, texts};
ghost use Rattle.resb_draft.specs.Pieces.{are_pieces};
ghost use Rattle.resb_write.specs.FaultOf.{fault_of};
ghost use Rattle.resb_pool.specs.Plan.{nows};
ghost use Rattle.resb_write.specs.Layouts.{IsFileOver, RefusesOver};
ghost use Rattle.resb_write.specs.Inner.Gathered.{Gathered};
ghost use Rattle.resb_write.specs.Inner.NearPositions.{IsKeyBlockBy};
ghost use Rattle.resb_write.specs.Inner.Numbered.{NumbersKeys};
ghost use Rattle.resb_layout.specs.PlainSize.{list_size, resources_size};
ghost use Rattle.resb_layout.specs.TreeFaults.{RefusesWriting};
ghost use Rattle.resb_layout.specs.Written.{Written, WrittenBy};

use crate::contents::Contents;
use crate::drafts::{NumberedPieces, draft_keys};
use crate::error::BinarySerializerError;
use crate::file::{FileParts, assemble};
use crate::key_block::{KEYS_START, KeyBlock, block_length};
use crate::layout::Layout;
use crate::limits::check_sizes;
use crate::nodes::{Nodes, nodes_of, table_keys};
use crate::numbered_keys::NumberedKeys;
use crate::packed_keys::packed_keys;
use crate::sites::Sites;
use crate::strings::Strings;
use crate::tree_bodies::lay_bodies;
use crate::wanted::Wanted;
use crate::with_pool::write_beside;
use resb_draft::Draft;
use resb_layout::Packing;
use resb_tree::{Key, ResourceBundle, in_laying_order};
use std::alloc::Global;

/// Writes bundles as files. There are no values of this type.
pub enum Serializer {}

impl Serializer {
    /// The `.res` file of a bundle: a header of 32 bytes, the root's word, an index of 7 fields,
    /// the key block, the 16-bit block with the strings and the short arrays and tables, and behind
    /// it all other resources. The keys stand in the order of `keys_in_discovery_order`, those that
    /// no table uses left out. (ICU's `uresdata.h`.)
    ///
    /// Refused is the first of these: a used key that isn't in the list; one that holds U+0000; one
    /// that would stand at a position over 2147483647; a string of more than 4294967295 16-bit
    /// units; an array, binary or vector of more than 4294967295 members, or a path of more units;
    /// and then, as `file too large`, a plain size of 2^28 or more. Want of memory may come before
    /// any of them.
    pub fn to_bytes(
        alloc: Global,
        bundle: &ResourceBundle<'_>,
        keys_in_discovery_order: &[Key<'_>],
    ) -> Result<Vec<u8>, BinarySerializerError>
        ensures ok { IfOk result (λ v. Written v.items (root_of bundle.now)
            bundle.now.is_locale_fallback_enabled keys_in_discovery_order.now) }
        ensures err { IfErr result (λ e. RefusesWriting (root_of bundle.now)
            keys_in_discovery_order.now (fault_of e)) }
    {
        Layout::plain().write(alloc, bundle, keys_in_discovery_order)
    }
}

/// The file of a bundle, laid out like this.
pub(crate) fn write_bundle(
    alloc: Global,
    bundle: &ResourceBundle<'_>,
    list: &[Key<'_>],
    layout: Layout<'_, '_>,
) -> Result<Vec<u8>, BinarySerializerError>
    ensures ok { IfOk result (λ v. IsFileOver layout.entry v.items
        (root_of bundle.now) bundle.now.is_locale_fallback_enabled list.now) }
    ensures err { IfErr result (λ e. RefusesOver layout.entry
        (root_of bundle.now) list.now (fault_of e)) }
{
    let order = in_laying_order(alloc, bundle.root())?;
    let keys = table_keys(alloc, &order)?;
    let nodes = nodes_of(alloc, &order)?;
    drop(order);
    let wanted = Wanted {
        layout,
        is_locale_fallback_enabled: bundle.is_locale_fallback_enabled,
        list,
    };
    write_nodes(alloc, nodes, keys, &wanted)
}

/// The file of a draft.
pub(crate) fn write_draft(
    alloc: Global,
    root: Draft<'_>,
    wanted: &Wanted<'_, '_>,
) -> Result<Vec<u8>, BinarySerializerError>
    requires { is_ready root ≡ true }
    ensures ok { IfOk result (λ v. IsFileOver wanted.now.layout v.items
        (draft_tree root.entry) wanted.now.is_locale_fallback_enabled wanted.now.list.now) }
    ensures err { IfErr result (λ e. RefusesOver wanted.now.layout
        (draft_tree root.entry) wanted.now.list.now (fault_of e)) }
{
    if root.stands_in_order(alloc)? {
        return write_standing(alloc, root, wanted);
    }
    let order = root.in_laying_order(alloc)?;
    write_by_number(alloc, root, order, wanted)
}

/// The file of a draft whose pieces and keys stand in laying order. Its other lists go first.
fn write_standing(
    alloc: Global,
    draft: Draft<'_>,
    wanted: &Wanted<'_, '_>,
) -> Result<Vec<u8>, BinarySerializerError>
    requires pieces { are_pieces draft.pieces.items (laying_order (draft_tree draft)) ≡ true }
    requires keys { texts draft.keys.items ≡ keys_of (draft_tree draft) }
    ensures ok { IfOk result (λ v. IsFileOver wanted.now.layout v.items
        (draft_tree draft.entry) wanted.now.is_locale_fallback_enabled wanted.now.list.now) }
    ensures err { IfErr result (λ e. RefusesOver wanted.now.layout
        (draft_tree draft.entry) wanted.now.list.now (fault_of e)) }
{
    let Draft {
        pieces,
        members,
        keys,
        root: _,
    } = draft;
    drop(members);
    let numbered = NumberedKeys::of_list(alloc, &keys)?;
    drop(keys);
    write_nodes(alloc, pieces, numbered, wanted)
}

/// The file of a draft, whose pieces have these numbers in laying order. Its other lists go first.
fn write_by_number(
    alloc: Global,
    draft: Draft<'_>,
    order: Vec<u32>,
    wanted: &Wanted<'_, '_>,
) -> Result<Vec<u8>, BinarySerializerError>
    requires trees { map (tree_at draft) order.items ≡ laying_order (draft_tree draft) }
    requires whole { all_true (map (is_whole draft) order.items) ≡ true }
    ensures ok { IfOk result (λ v. IsFileOver wanted.now.layout v.items
        (draft_tree draft.entry) wanted.now.is_locale_fallback_enabled wanted.now.list.now) }
    ensures err { IfErr result (λ e. RefusesOver wanted.now.layout
        (draft_tree draft.entry) wanted.now.list.now (fault_of e)) }
{
    let keys = draft_keys(alloc, &draft, &order)?;
    let Draft {
        pieces,
        members,
        keys: unordered,
        root: _,
    } = draft;
    drop(members);
    drop(unordered);
    let numbered = NumberedPieces {
        pieces,
        numbers: order,
    };
    write_nodes(alloc, numbered, keys, wanted)
}

/// The file of a tree. The tree's resources are given in laying order, and
/// beside them the keys of its tables; both go before the file is put together.
fn write_nodes<N: Nodes + Drop>(
    alloc: Global,
    order: N,
    tree_keys: NumberedKeys<'_>,
    wanted: &Wanted<'_, '_>,
) -> Result<Vec<u8>, BinarySerializerError>
    requires { (t : Tree) × N.fit order (laying_order t) × NumbersKeys tree_keys (keys_of t) }
    ensures ok { IfOk result (λ v. (t : Tree) → N.fit order (laying_order t)
        → NumbersKeys tree_keys.entry (keys_of t)
        → IsFileOver wanted.now.layout v.items t wanted.now.is_locale_fallback_enabled
        wanted.now.list.now) }
    ensures err { IfErr result (λ e. (t : Tree) → N.fit order (laying_order t)
        → NumbersKeys tree_keys.entry (keys_of t)
        → RefusesOver wanted.now.layout t wanted.now.list.now (fault_of e)) }
{
    match wanted.layout.pool {
        Some(pool) => write_beside(alloc, order, tree_keys, wanted, pool),
        None => write_alone(alloc, order, tree_keys, wanted),
    }
}

/// What a tree holds and the block of its keys, once none of the refusals holds; the first of them
/// that does is answered. The tree's resources are given in laying order, and beside them the keys
/// of its tables.
fn checked<'t, 'k, N: Nodes>(
    alloc: Global,
    order: &'t N,
    tree_keys: NumberedKeys<'_>,
    list: &'k [Key<'_>],
    packing: Packing,
) -> Result<(Contents<'t>, KeyBlock<'k>), BinarySerializerError>
    requires { (t : Tree) × N.fit order.now (laying_order t) × NumbersKeys tree_keys (keys_of t) }
    ensures ok { IfOk result (λ r. (t : Tree) → N.fit order.now (laying_order t)
        → NumbersKeys tree_keys.entry (keys_of t) → Gathered (laying_order t) r.0
        × IsKeyBlockBy packing (keys_of t) list.now (nows r.1.keys.items) r.1.positions.items
        × (list_size list.now + resources_size (laying_order t) < 2 ^ 28)) }
    ensures err { IfErr result (λ e. (t : Tree) → N.fit order.now (laying_order t)
        → NumbersKeys tree_keys.entry (keys_of t) → RefusesWriting t list.now (fault_of e)) }
{
    let contents = Contents::gather(alloc, order)?;
    let block = packed_keys(alloc, packing, tree_keys, list)?;
    check_sizes(&contents, list)?;
    Ok((contents, block))
}

/// The refusals in their order, and then the file over no pool bundle of a tree, whose resources
/// are given in laying order, and beside them the keys of its tables.
fn write_alone<N: Nodes + Drop>(
    alloc: Global,
    order: N,
    tree_keys: NumberedKeys<'_>,
    wanted: &Wanted<'_, '_>,
) -> Result<Vec<u8>, BinarySerializerError>
    requires { (t : Tree) × N.fit order (laying_order t)
        × NumbersKeys tree_keys (keys_of t) }
    ensures ok { IfOk result (λ v. (t : Tree) → N.fit order (laying_order t)
        → NumbersKeys tree_keys.entry (keys_of t)
        → WrittenBy wanted.now.layout.packing v.items t wanted.now.is_locale_fallback_enabled
        wanted.now.list.now) }
    ensures err { IfErr result (λ e. (t : Tree) → N.fit order (laying_order t)
        → NumbersKeys tree_keys.entry (keys_of t)
        → RefusesWriting t wanted.now.list.now (fault_of e)) }
{
    let packing = wanted.layout.packing;
    let (contents, block) = checked(alloc, &order, tree_keys, wanted.list, packing)?;
    let KeyBlock { keys, positions } = block;
    let largest_table = contents.largest_table as u32;
    let Strings { pool, offsets } = Strings::plan(alloc, packing, contents.into_texts())?;
    let keys_end = KEYS_START + block_length(&keys);
    let sites = Sites {
        positions: &positions,
        offsets: &offsets,
        lent: None,
        packing,
    };
    let (bodies, word) = lay_bodies(alloc, &sites, pool, keys_end, &order)?;
    drop(order);
    drop(positions);
    drop(offsets);
    let parts = FileParts {
        root: word,
        largest_table,
        is_locale_fallback_enabled: wanted.is_locale_fallback_enabled,
        keys: &keys,
        bodies: &bodies,
    };
    Ok(assemble(alloc, &parts)?)
}
