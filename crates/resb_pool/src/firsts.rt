//! Strings told apart by sorting their hashes: for each of them, which is its first copy.
//! What is made of the distinct ones is said in `listed_texts`.
ghost use Rattle.std.specs.Prelude.{◌≡◌, ◌<◌, ◌^◌, length, IfOk, IfSome};
ghost use Rattle.std.specs.List.Sorted.{IsSorted};
ghost use Rattle.resb_pool.specs.Plan.{nows};
ghost use Rattle.resb_pool.specs.Inner.Firsts.{text_hash, hash_cmp, AreHashes, AreFirsts};

use crate::measure::SIZE_LIMIT;
use std::alloc::{AllocError, Global};

/// The hash of a string, and the string's number. In the order of these, strings of one hash stand
/// together, in the order of their numbers. Equal strings have one hash.
#[derive(Clone, Copy, PartialEq, Eq, PartialOrd, Ord)]
pub(crate) struct NumberedHash {
    pub(crate) hash: u64,
    pub(crate) number: u32,
}

/// A number that equal texts share. It is made as FNV makes it, but each byte is added to it, where
/// FNV takes the exclusive or of both.
fn hash_of(text: &str) -> u64
    ensures { result ≡ text_hash text.now }
{
    let mut hash: u64 = 0xcbf2_9ce4_8422_2325;
    for byte in text.as_bytes() {
        hash = hash
            .wrapping_add(u64::from(*byte))
            .wrapping_mul(0x100_0000_01b3);
    }
    hash
}

/// The hashes of strings, each with its string's number.
fn find_hashes(alloc: Global, strings: &[&str]) -> Result<Vec<NumberedHash>, AllocError>
    requires few { length strings.now < 2 ^ 28 }
    ensures { IfOk result (λ v. AreHashes (nows strings.now) v.items) }
{
    let mut hashes = Vec::with_capacity(alloc, strings.len())?;
    for (index, text) in strings.iter().enumerate() {
        hashes.push(NumberedHash {
            hash: hash_of(text),
            number: index as u32,
        })?;
    }
    Ok(hashes)
}

/// For each string the number of its first copy, by their hashes in order. None where two different
/// strings have one hash.
fn firsts_by(
    alloc: Global,
    strings: &[&str],
    hashes: &[NumberedHash],
) -> Result<Option<Vec<u32>>, AllocError>
    requires hashes { AreHashes (nows strings.now) hashes.now }
    requires ascend { IsSorted hash_cmp hashes.now }
    ensures { IfOk result (λ r. IfSome r (λ v. AreFirsts (nows strings.now) v.items)) }
{
    let mut firsts = vec![in alloc; 0; strings.len()]?;
    let Some(least) = hashes.first() else {
        return Ok(Some(firsts));
    };
    let mut first = *least;
    for item in hashes {
        if item.hash != first.hash {
            first = *item;
        } else if strings[item.number as usize] != strings[first.number as usize] {
            return Ok(None);
        }
        firsts[item.number as usize] = first.number;
    }
    Ok(Some(firsts))
}

/// For each string the number of its first copy. None where two different strings have one hash,
/// or where there are more of them than a pool can hold.
pub(crate) fn find_firsts(alloc: Global, strings: &[&str]) -> Result<Option<Vec<u32>>, AllocError>
    ensures { IfOk result (λ r. IfSome r (λ v. AreFirsts (nows strings.now) v.items)) }
{
    if strings.len() >= SIZE_LIMIT {
        return Ok(None);
    }
    let mut hashes = find_hashes(alloc, strings)?;
    hashes.sort_unstable();
    firsts_by(alloc, strings, &hashes)
}
