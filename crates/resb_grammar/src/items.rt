//! The list of what a group of a text holds so far, as both readers keep it.
//! What an item is, each reader says for itself.
ghost use Rattle.std.specs.Prelude.{◌≡◌, ◌+◌, ◌≤◌, [], ◌∷◌, ◌++◌, length, OnOk};

use resb_tree::NoMemory;

/// Puts an item behind those of an open group. The first one takes room for itself alone: a text
/// may open groups inside each other that all have one item before the next.
#[inline(always)]
pub fn push_item<T: Drop>(items: &mut Vec<T>, item: T) -> Result<(), NoMemory>
    ensures items { OnOk result (items.new.items ≡ items.old.items ++ item ∷ []) }
    ensures count { length items.new.items ≤ length items.old.items + 1 }
{
    if items.is_empty() {
        items.reserve_exact(1)?;
    }
    items.push(item)?;
    Ok(())
}
