//! In which keys others lie: a key that is the end of others lies in the greatest of them.
//! Where a key block has its keys is said in `resb_write` and `resb_pool_maker`.
ghost use Rattle.std.specs.Prelude.{◌≡◌, ◌+◌, ◌<◌, ◌≤◌, ℕ, List, IfOk, length, reverse, true};
ghost use Rattle.std.specs.Prelude.{false, slice_index_or};
ghost use Rattle.std.specs.Borrow.{Bor};
ghost use Rattle.resb_tree.specs.Keys.{same_text};
ghost use Rattle.resb_tree.specs.Maps.{text_cmp};
ghost use Rattle.resb_pool.specs.Plan.{nows};
ghost use Rattle.resb_layout.specs.CompactKeys.{container as container_in, kept};
ghost use Rattle.resb_layout.specs.KeyEnds.{AreByEnd, is_up_to as is_up_to_end};

use std::alloc::{AllocError, Global};
use std::cmp::Ordering;

/// How two keys compare, by their bytes from the last to the first.
fn compare_ends(left: &[u8], right: &[u8]) -> Ordering
    ensures { result ≡ text_cmp (reverse left.now) (reverse right.now) }
{
    let shared = left.len().min(right.len());
    for at in 0..shared {
        let mine = left[left.len() - 1 - at];
        let other = right[right.len() - 1 - at];
        if mine != other {
            return mine.cmp(&other);
        }
    }
    left.len().cmp(&right.len())
}

/// Whether bytes end with others, or stand before them in the order from the end: where they differ
/// last, they have the lesser byte.
fn is_up_to(left: &[u8], right: &[u8]) -> bool
    ensures { result ≡ is_up_to_end right.now left.now }
{
    let shared = left.len().min(right.len());
    for at in 0..shared {
        let mine = left[left.len() - 1 - at];
        let other = right[right.len() - 1 - at];
        if mine != other {
            return mine < other;
        }
    }
    true
}

/// Whether a key ends with the bytes of another one, or stands before them in the order from the
/// end.
pub fn is_not_behind(bytes: &[u8], key: &str) -> bool
    ensures { result ≡ is_up_to_end bytes.now key.now }
{
    is_up_to(key.as_bytes(), bytes)
}

/// Keys in the order from the end.
pub fn in_end_order<'k>(alloc: Global, keys: &[&'k str]) -> Result<Vec<&'k str>, AllocError>
    ensures { IfOk result (λ v. AreByEnd (nows keys.now) v.items) }
{
    let mut sorted = Vec::with_capacity(alloc, keys.len())?;
    for key in keys {
        sorted.push(*key)?;
    }
    sorted.sort_unstable_by(|left, right| compare_ends(left.as_bytes(), right.as_bytes()));
    Ok(sorted)
}

/// How many of the keys, which stand in the order from the end, stand before the first that neither
/// ends with a key nor stands before it.
fn count_up_to(sorted: &[&str], key: &str) -> usize
    ensures within { result ≤ length sorted.now }
    ensures before { (k : ℕ) (d : Bor (List ℕ)) → result ≡ k + 1
        → is_up_to_end key.now (slice_index_or sorted.now k d).now ≡ true }
    ensures behind { (d : Bor (List ℕ)) → result < length sorted.now
        → is_up_to_end key.now (slice_index_or sorted.now result d).now ≡ false }
{
    let mut low = 0;
    let mut high = sorted.len();
    'halves: while low < high {
        let middle = low + (high - low) / 2;
        if is_not_behind(key.as_bytes(), sorted[middle]) {
            low = middle + 1;
        } else {
            high = middle;
        }
    }
    low
}

/// In which of the keys, which stand in the order from the end, a key lies: the greatest that ends
/// with it, or itself.
pub fn container<'k>(sorted: &[&'k str], key: &'k str) -> &'k str
    ensures { (js : List (List ℕ)) → AreByEnd js sorted.now
        → result.now ≡ container_in js key.now }
{
    let count = count_up_to(sorted, key);
    if count == 0 {
        return key;
    }
    let last = sorted[count - 1];
    if last.as_bytes().ends_with(key.as_bytes()) {
        last
    } else {
        key
    }
}

/// Whether a key lies in itself.
fn lies_in_itself(sorted: &[&str], key: &str) -> bool
    ensures { (js : List (List ℕ)) → AreByEnd js sorted.now
        → result ≡ same_text key.now (container_in js key.now) }
{
    container(sorted, key).len() == key.len()
}

/// The keys that lie in themselves, in their order. They are given in the order from the end too.
pub fn kept_keys<'k>(
    alloc: Global,
    keys: &[&'k str],
    sorted: &[&'k str],
) -> Result<Vec<&'k str>, AllocError>
    requires { AreByEnd (nows keys.now) sorted.now }
    ensures { IfOk result (λ v. nows v.items ≡ kept (nows keys.now)) }
{
    let mut kept = Vec::new(alloc);
    for key in keys {
        if lies_in_itself(sorted, *key) {
            kept.push(*key)?;
        }
    }
    Ok(kept)
}
