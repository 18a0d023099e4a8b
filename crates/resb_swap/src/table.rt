//! The header of a package and its table of items, in either order of bytes.
//! Whether items and names are where they belong is found in `items`.
ghost use Rattle.std.specs.Prelude.{◌≡◌, ◌*◌, ◌≤◌, ◌<◌, ◌^◌, length, IfOk, MatchResult};
ghost use Rattle.resb_swap.specs.Numbers.{numbered, word_count};
ghost use Rattle.resb_swap.specs.Packages.{is_package, item_count, IsPackageHead, TableRoles};
ghost use Rattle.resb_swap.specs.Packages.{IsTurned};
ghost use Rattle.resb_swap.specs.Inner.Tables.{role_by_count};
ghost use Rattle.resb_swap.specs.PackageFaults.{IsPackageFault};
ghost use Rattle.resb_swap.specs.Inner.Seen.{seen};

use crate::body::Body;
use crate::head::header_size;
use crate::mirror::mirrored;
use crate::package_error::PackageSwapError;
use crate::role::Role;
use resb_format::bytes::{byte_at, four_at, two_at};
use resb_tree::NoMemory;
use std::alloc::Global;

/// Whether the header is that of a package, in either order of bytes.
#[tactic(auto, unfolding(crate::specs::Packages::is_package))]
fn is_package(bytes: &[u8]) -> bool
    requires { 24 ≤ length bytes.now }
    ensures { result ≡ is_package bytes.now }
{
    let has_magic = byte_at(bytes, 2) == 0xda && byte_at(bytes, 3) == 0x27;
    let is_known = byte_at(bytes, 8) <= 1 && byte_at(bytes, 16) == 1;
    let is_common = byte_at(bytes, 12) == b'C' && byte_at(bytes, 13) == b'm';
    let is_data = byte_at(bytes, 14) == b'n' && byte_at(bytes, 15) == b'D';
    (has_magic && is_known) && (is_common && is_data)
}

/// How many items a package has.
pub(crate) fn item_count(body: Body<'_>) -> usize
    requires { 0 < word_count (seen body) }
    ensures value { result ≡ item_count (seen body.entry) }
    ensures small { result < 2 ^ 32 }
{
    body.word(0) as usize
}

/// The body of a package whose head passes its checks, and whose table lies inside.
pub(crate) fn read_package(bytes: &[u8]) -> Result<Body<'_>, PackageSwapError>
    ensures { MatchResult result
        (λ b. IsPackageHead bytes.now × (seen b ≡ numbered bytes.now))
        (IsPackageFault bytes.now) }
{
    if bytes.len() < 24 || !is_package(bytes) {
        return Err(PackageSwapError::NotPackage);
    }
    if byte_at(bytes, 9) != 0 {
        return Err(PackageSwapError::Ebcdic);
    }
    let start = header_size(bytes);
    if start < 24 {
        return Err(PackageSwapError::NotPackage);
    }
    if start > bytes.len() {
        return Err(PackageSwapError::TableOutside);
    }
    let is_big = byte_at(bytes, 8) == 1;
    let body = Body {
        bytes,
        start,
        is_big,
    };
    if body.len() == 0 || body.len() <= 2 * item_count(body) {
        return Err(PackageSwapError::TableOutside);
    }
    Ok(body)
}

/// The role of a word of a package of so many items.
fn table_role(number: usize, count: usize) -> Role
    requires { count < 2 ^ 32 }
    ensures { result ≡ role_by_count number count }
{
    if number <= 2 * count {
        Role::Words
    } else {
        Role::Free
    }
}

/// The role of each word of a package.
pub(crate) fn table_roles(alloc: Global, body: Body<'_>) -> Result<Vec<Role>, NoMemory>
    requires { 2 * item_count (seen body) < word_count (seen body) }
    ensures { IfOk result (λ rs. TableRoles (seen body.entry) rs.items) }
{
    let count = item_count(body);
    let mut roles = Vec::with_capacity(alloc, body.len())?;
    for number in 0..body.len() {
        roles.push(table_role(number, count))?;
    }
    Ok(roles)
}

/// The package with its header and its table in the other order of bytes, and all else as it is.
/// So the items' names and places are read on a machine of the other kind, but the items are still
/// in their own order: `swapped_package` has them in the other one.
///
/// Refused where the head is no package's, or the table runs past the end. The time grows with the
/// bytes.
pub fn turned_table(alloc: Global, bytes: &[u8]) -> Result<Vec<u8>, PackageSwapError>
    ensures { MatchResult result (λ to. IsTurned bytes.now to.items (length bytes.now))
        (IsPackageFault bytes.now) }
{
    let body = read_package(bytes)?;
    let roles = table_roles(alloc, body)?;
    Ok(mirrored(alloc, bytes, body.start, &roles)?)
}
