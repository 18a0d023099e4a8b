//! The keys that a pool bundle lends by their ends: which of them end with a key.
//! Where the pool has a whole key is found in `keys`.
ghost use Rattle.std.specs.Prelude.{◌≡◌, ◌+◌, ◌<◌, ◌≤◌, ℕ, IfOk, length, reverse};
ghost use Rattle.std.specs.Prelude.{slice_index_or};
ghost use Rattle.std.specs.declared.cmp.Ordering.TheVariants.{Greater};
ghost use Rattle.resb_pool.specs.Order.{end_last_cmp};
ghost use Rattle.std.specs.Bool.{MatchBool};
ghost use Rattle.std.proofs.Props.{props};
ghost use Rattle.resb_lent.specs.Inner.EndNumbers.{end_number as end_number_of, AreBytes};
ghost use Rattle.resb_lent.specs.Inner.EndNumbers.{AreNumbers};
ghost use Rattle.resb_lent.specs.declared.ends.LentRun.{LentRun as Run};

use crate::lent_runs::{compare_runs, runs_in};
use resb_tree::NoMemory;
use std::alloc::Global;
use std::cmp::Ordering;

/// A key of a pool bundle.
#[derive(Clone, Copy)]
pub struct LentRun<'a> {
    /// Its bytes, without the zero byte behind it.
    pub bytes: &'a [u8],
    /// The byte of the pool's keys at which it stands.
    pub at: u32,
}

/// The keys of a pool bundle, by their bytes from the last to the first. (ICU's `genrb`: key ends
/// over a pool.)
#[derive(Drop)]
pub struct LentEnds<'a> {
    /// A key that ends with another one stands before it, and of two that are the same the later
    /// one behind the other.
    pub(crate) runs: Vec<LentRun<'a>>,
    /// Their last bytes as numbers, by which most keys are told apart.
    numbers: Vec<u64>,
    ghost numbered: { AreNumbers runs.items numbers.items } by { Prim.hlevel props },
}

/// How two keys compare, by their bytes from the last to the first. The end of a key is the
/// greatest.
pub(crate) fn compare_ends(left: &[u8], right: &[u8]) -> Ordering
    ensures { result ≡ end_last_cmp (reverse left.now) (reverse right.now) }
{
    let shared = left.len().min(right.len());
    for at in 0..shared {
        let mine = left[left.len() - 1 - at];
        let other = right[right.len() - 1 - at];
        if mine != other {
            return mine.cmp(&other);
        }
    }
    right.len().cmp(&left.len())
}

/// The byte at a place from a key's end, or 255 before the first.
fn byte_or_255(bytes: &[u8], back: usize) -> u8
    ensures { result ≡ slice_index_or (reverse bytes.now) back 255 }
{
    if back < bytes.len() {
        bytes[bytes.len() - 1 - back]
    } else {
        255
    }
}

/// The last eight bytes of a key as a number, the last one in the highest place. 255 stands for
/// each that isn't there.
fn end_number(bytes: &[u8]) -> u64
    ensures number { result ≡ end_number_of bytes.now }
    ensures bytes { AreBytes bytes.now }
{
    u64::from_be_bytes([
        byte_or_255(bytes, 0),
        byte_or_255(bytes, 1),
        byte_or_255(bytes, 2),
        byte_or_255(bytes, 3),
        byte_or_255(bytes, 4),
        byte_or_255(bytes, 5),
        byte_or_255(bytes, 6),
        byte_or_255(bytes, 7),
    ])
}

/// Whether a key comes behind another one, of both of which the numbers are given.
fn is_behind(left: &[u8], left_number: u64, right: &[u8], right_number: u64) -> bool
    requires left { (left_number ≡ end_number_of left.now) × AreBytes left.now }
    requires right { (right_number ≡ end_number_of right.now) × AreBytes right.now }
    ensures { MatchBool result (end_last_cmp (reverse left.now) (reverse right.now) ≡ Greater)
        (end_last_cmp (reverse left.now) (reverse right.now) ≡ Greater → ⊥) }
{
    if left_number != right_number {
        return left_number > right_number;
    }
    compare_ends(left, right) == Ordering::Greater
}

/// The numbers of keys.
fn numbers_of(alloc: Global, runs: &[LentRun<'_>]) -> Result<Vec<u64>, NoMemory>
    ensures { IfOk result (λ v. AreNumbers runs.now v.items) }
{
    let mut numbers = Vec::with_capacity(alloc, runs.len())?;
    for run in runs {
        numbers.push(end_number(run.bytes))?;
    }
    Ok(numbers)
}

/// How many keys stand before the first that comes behind this one. The keys are sorted.
fn count_up_to(runs: &[LentRun<'_>], numbers: &[u64], key: &[u8]) -> usize
    requires { AreNumbers runs.now numbers.now }
    ensures within { result ≤ length runs.now }
    ensures before { (k : ℕ) (d : Run) → result ≡ k + 1
        → end_last_cmp (reverse (slice_index_or runs.now k d).bytes.now) (reverse key.now)
        ≡ Greater → ⊥ }
    ensures behind { (d : Run) → result < length runs.now
        → end_last_cmp (reverse (slice_index_or runs.now result d).bytes.now) (reverse key.now)
        ≡ Greater }
{
    let number = end_number(key);
    let mut low = 0;
    let mut high = runs.len();
    'halves: while low < high {
        let middle = low + (high - low) / 2;
        if is_behind(runs[middle].bytes, numbers[middle], key, number) {
            high = middle;
        } else {
            low = middle + 1;
        }
    }
    low
}

impl<'a> LentEnds<'a> {
    ghost use Rattle.std.specs.Prelude.{◌≡◌, ℕ, List, IfOk};
    ghost use Rattle.resb_lent.specs.LendingEnds.{LendsEnds, last_ending};

    /// The keys of a pool bundle, given as its bytes from behind its index up to the keys' end.
    /// They are gone through and sorted once.
    pub fn of(alloc: Global, keys: &'a [u8]) -> Result<LentEnds<'a>, NoMemory>
        ensures { IfOk result (λ l. LendsEnds l keys.now) }
    {
        let mut runs = runs_in(alloc, keys)?;
        runs.sort_unstable_by(|left, right| compare_runs(left, right));
        let numbers = numbers_of(alloc, &runs)?;
        Ok(LentEnds { runs, numbers })
    }

    /// The key of the pool that ends with a key, if one does: of these the last one by their bytes
    /// from the last to the first, where the end of a key is the greatest, and the last place of
    /// it.
    pub fn last(&self, key: &str) -> Option<LentRun<'a>>
        ensures { (keys : List ℕ) → LendsEnds self.now keys
            → result ≡ last_ending self.now.runs.items key.now }
    {
        let count = count_up_to(&self.runs, &self.numbers, key.as_bytes());
        if count == 0 {
            return None;
        }
        let run = self.runs[count - 1];
        if run.bytes.ends_with(key.as_bytes()) {
            Some(run)
        } else {
            None
        }
    }
}
