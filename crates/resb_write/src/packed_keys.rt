//! The key block of a file that uses no pool, by how the file is packed.
//! The block in which each key stands by itself, and the faults of keys, are in `key_block`; that
//! of a compact file is in `end_keys`.
ghost use Rattle.std.specs.Prelude.{◌≡◌, ◌⊎◌, ℕ, List, Some, IfOk, IfErr};
ghost use Rattle.resb_pool.specs.Plan.{nows};
ghost use Rattle.resb_layout.specs.KeyBlock.{used as used_of};
ghost use Rattle.resb_layout.specs.TreeFaults.{key_fault};
ghost use Rattle.resb_layout.specs.WritingFault.{out_of_memory};
ghost use Rattle.resb_write.specs.FaultOf.{fault_of};
ghost use Rattle.resb_write.specs.Inner.NearPositions.{IsKeyBlockBy};
ghost use Rattle.resb_write.specs.Inner.Numbered.{NumbersKeys};

use crate::end_keys::end_keys;
use crate::error::BinarySerializerError;
use crate::key_block::KeyBlock;
use crate::numbered_keys::NumberedKeys;
use resb_layout::Packing;
use resb_tree::Key;
use std::alloc::Global;

/// The block of a list of keys for a tree whose tables have these keys, which are dropped then, in
/// a file that is packed like this. Refuses the first fault of a key.
pub(crate) fn packed_keys<'k>(
    alloc: Global,
    packing: Packing,
    tree_keys: NumberedKeys<'_>,
    list: &'k [Key<'_>],
) -> Result<KeyBlock<'k>, BinarySerializerError>
    ensures ok { IfOk result (λ b. (us : List (List ℕ)) → NumbersKeys tree_keys.entry us
        → IsKeyBlockBy packing us list.now (nows b.keys.items) b.positions.items) }
    ensures err { IfErr result (λ e. (us : List (List ℕ)) → NumbersKeys tree_keys.entry us
        → (fault_of e ≡ out_of_memory) ⊎ (key_fault us (used_of us list.now)
        ≡ Some (fault_of e))) }
{
    match packing {
        Packing::Plain => KeyBlock::new(alloc, tree_keys, list),
        Packing::Compact => end_keys(alloc, tree_keys, list, None),
    }
}
