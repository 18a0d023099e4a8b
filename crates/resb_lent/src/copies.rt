//! Which strings of a file are copies of earlier ones: of most copies one is found, by a table that
//! forgets. Strings are told apart in `resb_pool`.
ghost use Rattle.std.specs.Prelude.{◌≡◌, ◌<◌, IfOk, length};
ghost use Rattle.std.specs.Bool.{MatchBool};
ghost use Rattle.resb_pool.specs.Plan.{nows};
ghost use Rattle.resb_lent.specs.Inner.Copies.{IsCopy, AreCopies};

use std::alloc::{AllocError, Global};

/// How many strings the table has.
const SLOTS: usize = 2048;

/// The byte at a place, or 0 behind the last.
fn byte_or_0(bytes: &[u8], place: usize) -> u8 {
    bytes.get(place).copied().unwrap_or(0)
}

/// The place of a string in the table, which its length and four of its bytes tell.
fn slot_of(text: &str) -> usize
    ensures { result < 2048 }
{
    let bytes = text.as_bytes();
    let len = bytes.len();
    let last = usize::from(byte_or_0(bytes, len.saturating_sub(1)));
    let before = usize::from(byte_or_0(bytes, len.saturating_sub(2)));
    let middle = usize::from(byte_or_0(bytes, len / 2));
    let quarter = usize::from(byte_or_0(bytes, len / 4));
    (last * 31 + before * 59 + middle * 197 + quarter * 7 + len % 64 * 13) % SLOTS
}

/// Whether two texts are the same. Their lengths are compared first.
pub(crate) fn are_same(left: &str, right: &str) -> bool
    ensures { MatchBool result (left.now ≡ right.now) (left.now ≡ right.now → ⊥) }
{
    left.len() == right.len() && left == right
}

/// The number of an earlier string, if the string of a number is a copy of it, and else its own.
fn copy_of(strings: &[&str], earlier: usize, number: usize) -> usize
    requires { number < length strings.now }
    ensures { IsCopy (nows strings.now) number result }
{
    if earlier < number && are_same(strings[earlier], strings[number]) {
        earlier
    } else {
        number
    }
}

/// For each string the number of an earlier copy, if one was seen lately, or its own number.
pub(crate) fn find_copies(alloc: Global, strings: &[&str]) -> Result<Vec<usize>, AllocError>
    ensures { IfOk result (λ v. AreCopies (nows strings.now) v.items) }
{
    let mut seen = [0; SLOTS];
    let mut copies = Vec::with_capacity(alloc, strings.len())?;
    for (number, text) in strings.iter().enumerate() {
        let slot = slot_of(text);
        copies.push(copy_of(strings, seen[slot], number))?;
        seen[slot] = number;
    }
    Ok(copies)
}
