//! The keys of a pool bundle as they stand there, and the order in which they are held.
//! Which of them end with a key is found in `ends`.
ghost use Rattle.std.specs.Prelude.{◌≡◌, IfOk, position, ◌==◌};
ghost use Rattle.resb_lent.specs.LentEnds.{run_cmp};
ghost use Rattle.resb_lent.specs.LendingEnds.{run_of};
ghost use Rattle.resb_lent.specs.Inner.Runs.{ListsAllRuns};

use crate::ends::{LentRun, compare_ends};
use resb_tree::NoMemory;
use std::alloc::Global;
use std::cmp::Ordering;

/// A key of a pool ends below this place, since positions of keys have 31 bits.
const PLACE_LIMIT: usize = 0x8000_0000;

/// The number of the first zero byte.
fn first_zero_byte(bytes: &[u8]) -> Option<usize>
    ensures { result ≡ position (λ b. b == 0) bytes.now }
{
    bytes.iter().position(|b| *b == 0)
}

/// How two keys of a pool compare: by their ends, and of two that are the same by their places.
pub(crate) fn compare_runs(left: &LentRun<'_>, right: &LentRun<'_>) -> Ordering
    ensures { result ≡ run_cmp (run_of left.now) (run_of right.now) }
{
    match compare_ends(left.bytes, right.bytes) {
        Ordering::Equal => left.at.cmp(&right.at),
        other => other,
    }
}

/// The keys of a pool, in the order in which they stand.
pub(crate) fn runs_in<'a>(alloc: Global, keys: &'a [u8]) -> Result<Vec<LentRun<'a>>, NoMemory>
    ensures { IfOk result (λ v. ListsAllRuns keys.now v.items) }
{
    let mut runs = Vec::new(alloc);
    let mut start = 0;
    'keys: while start < keys.len() {
        let (_, rest) = keys.split_at(start);
        let Some(len) = first_zero_byte(rest) else {
            break;
        };
        if start.saturating_add(len) >= PLACE_LIMIT {
            break;
        }
        let (bytes, _) = rest.split_at(len);
        runs.push(LentRun {
            bytes,
            at: start as u32,
        })?;
        start += len + 1;
    }
    runs.shrink_to_fit();
    Ok(runs)
}
