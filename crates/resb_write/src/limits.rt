//! The bound on a file's size that is tested before anything is laid out, and the counts that a
//! file can't hold. The faults of keys are found in `key_block`.
ghost use Rattle.std.specs.Prelude.{◌≡◌, ◌+◌, ◌-◌, ◌^◌, ◌<◌, List, min, nat_lt, OnOk, IfErr};
ghost use Rattle.resb_tree.specs.Tree.{Tree};
ghost use Rattle.resb_write.specs.FaultOf.{fault_of};
ghost use Rattle.resb_layout.specs.PlainSize.{list_size, resources_size};
ghost use Rattle.resb_pool.specs.Plan.{nows};
ghost use Rattle.resb_write.specs.Inner.Gathered.{Gathered, units_in};
ghost use Rattle.resb_write.specs.Inner.Sizes.{IsTooMuch};

use crate::contents::Contents;
use crate::error::BinarySerializerError;
use resb_format::utf16_len;
use resb_pool::SIZE_LIMIT;
use resb_tree::Key;

/// The bytes of listed keys and one more for each, or the greatest number, if that is less.
fn listed_size(list: &[Key<'_>]) -> usize
    ensures { result ≡ min (list_size list.now) (2 ^ 64 - 1) }
{
    let mut size: usize = 0;
    for key in list {
        size = size.saturating_add(key.as_bytes().len() + 1);
    }
    size
}

/// The units of texts, or the greatest number, if that is less.
fn unit_total(texts: &[&str]) -> usize
    ensures { result ≡ min (units_in (nows texts.now)) (2 ^ 64 - 1) }
{
    let mut total: usize = 0;
    for text in texts {
        total = total.saturating_add(utf16_len(text));
    }
    total
}

/// Whether the plain size is under the limit. Units are counted only where so many as there are
/// bytes would be too many.
fn is_small(contents: &Contents<'_>, list: &[Key<'_>]) -> bool
    ensures { (ts : List Tree) → Gathered ts contents.now
        → result ≡ nat_lt (list_size list.now + resources_size ts) (2 ^ 28) }
{
    let others = listed_size(list).saturating_add(contents.size);
    if others.saturating_add(contents.text_bytes) < SIZE_LIMIT {
        return true;
    }
    others.saturating_add(unit_total(&contents.texts)) < SIZE_LIMIT
}

/// Refuses a string that is too long, a count over 32 bits, and what is too large to be written.
/// Where the plain size is small, none of them holds.
pub(crate) fn check_sizes(
    contents: &Contents<'_>,
    list: &[Key<'_>],
) -> Result<(), BinarySerializerError>
    ensures ok { OnOk result ((ts : List Tree) → Gathered ts contents.now
        → list_size list.now + resources_size ts < 2 ^ 28) }
    ensures err { IfErr result (λ e. (ts : List Tree) → Gathered ts contents.now
        → IsTooMuch ts list.now (fault_of e)) }
{
    if is_small(contents, list) {
        return Ok(());
    }
    if let Some(count) = contents.too_long {
        return Err(BinarySerializerError::string_too_long(count));
    }
    if contents.has_count_over_32_bits {
        return Err(BinarySerializerError::limit("count over 32 bits"));
    }
    Err(BinarySerializerError::limit("file too large"))
}
