//! The plan of the strings of a file that is packed one way or the other.
//! Its steps are those of `pool`.
ghost use Rattle.std.specs.Prelude.{◌≡◌, ◌<◌, ℕ, List, length, map, Option, Some, IfOk, IfErr};
ghost use Rattle.std.specs.Prelude.{All, Contains, slice_index};
ghost use Rattle.resb_pool.specs.Ended.{AreEnded};
ghost use Rattle.resb_pool.specs.Plan.{nows, IsPlanAmong, IsPlanBy, NotPlanned};

use crate::error::PlanError;
use crate::offsets::in_turn;
use crate::packing::Packing;
use crate::pool::{list_of, place};
use std::alloc::{AllocError, Global};

/// Of each of these strings, the index of its text.
fn indexes_of(alloc: Global, order: &[u32], numbers: &[usize]) -> Result<Vec<u32>, AllocError>
    ensures { IfOk result (λ v. v.items ≡ map (slice_index order.now) numbers.now) }
{
    let mut indexes = Vec::with_capacity(alloc, numbers.len())?;
    for number in numbers {
        indexes.push(order.get(*number).copied().unwrap_or(0))?;
    }
    Ok(indexes)
}

/// The plan of the strings of a file that is packed this way: its units and the offset of each
/// string, in the order in which they were given. For a plain file it is what `pool::plan` makes.
/// In a compact one a shared string lies in the greatest one that ends with it and that no other
/// one ends with, and a record at the end of another string saves nothing. (ICU's `reslist.cpp`:
/// `compactStringsV2`.) Refused is what `pool::plan` refuses.
///
/// The list of strings is handed over. Once the strings are told apart it is dropped, or their
/// texts stand in its room.
pub fn plan_packed<'a>(
    alloc: Global,
    packing: Packing,
    strings: Vec<&'a str>,
) -> Result<(Vec<u16>, Vec<u32>), PlanError>
    ensures ok { IfOk result (λ p. (offset : List ℕ → Option ℕ)
        × IsPlanBy packing (nows strings.entry.items) p.0.items offset
        × (map offset (nows strings.entry.items) ≡ map Some p.1.items)) }
    ensures err { IfErr result (NotPlanned (nows strings.entry.items)) }
{
    plan_beside(alloc, packing, strings, &[])
}

/// The plan of strings beside which other texts stand, as those of a pool bundle. A record at the
/// end of such a text saves nothing in a compact file either: the numbers of these strings are
/// given, and none for a plain file.
pub fn plan_beside<'a>(
    alloc: Global,
    packing: Packing,
    strings: Vec<&'a str>,
    ended: &[usize],
) -> Result<(Vec<u16>, Vec<u32>), PlanError>
    requires { All (λ i. i < length strings.items) ended.now }
    ensures ok { IfOk result (λ p. (A : List (List ℕ))
        → AreEnded packing A (nows strings.entry.items) ended.now → (offset : List ℕ → Option ℕ)
        × IsPlanAmong packing (Contains A) (nows strings.entry.items) p.0.items offset
        × (map offset (nows strings.entry.items) ≡ map Some p.1.items)) }
    ensures err { IfErr result (NotPlanned (nows strings.entry.items)) }
{
    let list = list_of(alloc, strings)?;
    let ended = indexes_of(alloc, &list.order, ended)?;
    let (units, offsets) = place(alloc, packing, &list.texts, &list.measures, &ended)?;
    Ok((units, in_turn(&offsets, list.order)))
}
