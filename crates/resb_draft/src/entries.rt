//! The entries of a table in the order of their keys.
//! How they become a part of a draft stands in `making`.
ghost use Rattle.std.specs.Prelude.{◌≡◌, true, map, IfOk, IsTrue, ℕ, Bool};
ghost use Rattle.std.specs.BTreeMap.{IsFromIterResult};
ghost use Rattle.resb_tree.specs.Borrowing.{all_true};
ghost use Rattle.resb_tree.specs.Tree.{Tree, entries_of, map_of};
ghost use Rattle.resb_draft.specs.Drafts.{texts, texts_ascend};
ghost use Rattle.resb_draft.specs.Inner.Entries.{keys_ascend, slice_order};

use resb_tree::NoMemory;
use std::alloc::Global;
use std::collections::BTreeMap;

/// Whether the keys ascend strictly.
pub(crate) fn ascend(keys: &[&str]) -> bool
    ensures { IsTrue result → texts_ascend (texts keys.now) ≡ true }
{
    for at in 1..keys.len() {
        if !keys[at - 1].cmp(keys[at]).is_lt() {
            return false;
        }
    }
    true
}

/// The entries in the order of their keys, a later one of an equal key in the place of the earlier.
pub(crate) fn in_key_order<'a>(
    alloc: Global,
    entries: Vec<(&'a str, u32)>,
) -> Result<Vec<(&'a str, u32)>, NoMemory>
    ensures entries { IfOk result (λ v. (tree : ℕ → Tree)
        → entries_of (map (λ p. (p.0.now, tree p.1)) v.items)
        ≡ map_of (map (λ p. (p.0.now, tree p.1)) entries.entry.items)) }
    ensures each { IfOk result (λ v. (test : ℕ → Bool)
        → all_true (map (λ p. test p.1) entries.entry.items) ≡ true
        → all_true (map (λ p. test p.1) v.items) ≡ true) }
    ensures ascend { IfOk result (λ v. keys_ascend v.items ≡ true) }
{
    let map = map_at_once(alloc, entries)?;
    entries_in_order(alloc, map)
}

/// The map of these entries, in which a later one of an equal key replaces the earlier one.
fn map_at_once<'a>(
    alloc: Global,
    entries: Vec<(&'a str, u32)>,
) -> Result<BTreeMap<&'a str, u32>, NoMemory>
    ensures ok { IfOk result (IsFromIterResult slice_order entries.entry.items) }
{
    let map = entries.into_iter().collect(alloc)?;
    Ok(map)
}

/// The entries of a map, in its order.
fn entries_in_order<'a>(
    alloc: Global,
    map: BTreeMap<&'a str, u32>,
) -> Result<Vec<(&'a str, u32)>, NoMemory>
    ensures ok { IfOk result (λ v. v.items ≡ map.entry.entries) }
{
    let entries = map.into_iter().collect(alloc)?;
    Ok(entries)
}
