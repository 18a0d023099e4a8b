//! A package in the other order of bytes, with each of its items.
//! Its header and its table are in `table`, and where its parts stand is found in `items`.
ghost use Rattle.std.specs.Prelude.{◌≡◌, ◌+◌, ◌*◌, ◌≤◌, ◌<◌, length, slice_index, slice_range};
ghost use Rattle.std.specs.Prelude.{MatchResult};
ghost use Rattle.resb_swap.specs.Numbers.{word_count};
ghost use Rattle.resb_swap.specs.Packages.{item_count, item_place, item_of, IsSwappedItem};
ghost use Rattle.resb_swap.specs.Packages.{IsSwappedPackage};
ghost use Rattle.resb_swap.specs.PackageFaults.{IsPackageFault, IsItemFault};
ghost use Rattle.resb_swap.specs.Inner.Tables.{AreItemsInPlace};
ghost use Rattle.resb_swap.specs.Inner.Seen.{seen};

use crate::body::Body;
use crate::error::SwapError;
use crate::items::{check_items, check_names, item_place};
use crate::mirror::mirrored_front;
use crate::package_error::PackageSwapError;
use crate::swap::swapped;
use crate::table::{item_count, read_package, table_roles};
use std::alloc::Global;

/// The bytes between two places.
fn part(bytes: &[u8], from: usize, to: usize) -> &[u8]
    requires order { from ≤ to }
    requires inside { to ≤ length bytes.now }
    ensures { result.now ≡ slice_range bytes.now from to }
{
    &bytes[from..to]
}

/// The bytes of an item.
fn item_of(body: Body<'_>, number: usize) -> &[u8]
    requires table { 2 * item_count (seen body) < word_count (seen body) }
    requires items { AreItemsInPlace (seen body) }
    requires inside { number < item_count (seen body) }
    ensures { result.now ≡ item_of (seen body.entry) body.entry.bytes.now number }
{
    let from = body.start + item_place(body, number);
    let to = body.start + item_place(body, number + 1);
    part(body.bytes, from, to)
}

/// An item in the other order of bytes.
fn swapped_item(alloc: Global, body: Body<'_>, number: usize) -> Result<Vec<u8>, PackageSwapError>
    requires headed { 8 < length body.bytes.now }
    requires table { 2 * item_count (seen body) < word_count (seen body) }
    requires items { AreItemsInPlace (seen body) }
    requires inside { number < item_count (seen body) }
    ensures { MatchResult result
        (λ to. IsSwappedItem (slice_index body.entry.bytes.now 8)
        (item_of (seen body.entry) body.entry.bytes.now number) to.items)
        (IsItemFault (seen body.entry)) }
{
    let item = item_of(body, number);
    let other = match swapped(alloc, item) {
        Ok(other) => other,
        Err(SwapError::NoMemory) => return Err(PackageSwapError::NoMemory),
        Err(e) => return Err(PackageSwapError::Item(number, e)),
    };
    if item.len() > 8 && item[8] == body.bytes[8] {
        Ok(other)
    } else {
        Err(PackageSwapError::OtherOrder(number))
    }
}

/// The package in the other order of bytes: its header, its table, and each item as `swapped` has
/// it. Names, places and sizes stay. (ICU's `ucmndata.h`: `UDataOffsetTOC`.)
///
/// Refused where the head is no package's, where an item or a name isn't where it belongs, so that
/// a byte would be a part of two of them, and where an item is of another order, is no bundle, or
/// one that isn't swapped: no package comes out that has items in both orders. The time grows with
/// the bytes.
pub fn swapped_package(alloc: Global, bytes: &[u8]) -> Result<Vec<u8>, PackageSwapError>
    ensures { MatchResult result (λ to. IsSwappedPackage bytes.now to.items)
        (IsPackageFault bytes.now) }
{
    let body = read_package(bytes)?;
    check_items(body)?;
    check_names(body)?;
    let roles = table_roles(alloc, body)?;
    let front = body.start + item_place(body, 0);
    let mut to = mirrored_front(alloc, bytes, body.start, &roles, front)?;
    for number in 0..item_count(body) {
        let other = swapped_item(alloc, body, number)?;
        to.extend_from_slice(&other)?;
    }
    Ok(to)
}
