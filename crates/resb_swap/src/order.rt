//! The order of bytes that data of ICU's has, and the door to what reads little-endian bytes alone:
//! a big-endian bundle is mirrored there once, and any other file is handed on.
//! How bundles and packages are mirrored is said in `swap` and `table`.
ghost use Rattle.std.specs.Prelude.{◌≡◌, ◌≤◌, length, slice_range, MatchResult};
ghost use Rattle.std.specs.Cow.{cow_slice_items};
ghost use Rattle.std.specs.Str.{bytes_eq};
ghost use Rattle.resb_swap.specs.Orders.{data_of, order_in, has_magic, IsLittleEndian};
ghost use Rattle.resb_swap.specs.Orders.{HasNoLittleEndian, HasLittleTable, HasNoLittleTable};

use crate::error::SwapError;
use crate::package_error::PackageSwapError;
use crate::swap::swapped;
use crate::table::turned_table;
use resb_format::bytes::{byte_at, four_at, two_at};
use resb_head::Endianness;
use std::alloc::Global;
use std::borrow::CowSlice;

/// What data of ICU's begins with, by its header.
#[derive(Clone, Copy, Debug)]
pub enum IcuData {
    /// A bundle written for a machine of the EBCDIC family, in either order.
    Ebcdic,
    /// A bundle in this order.
    Bundle(Endianness),
    /// A package in this order.
    Package(Endianness),
    /// Anything else.
    Other,
}

/// Whether ICU's magic word stands in the header, and an order of bytes that ICU knows.
fn has_magic(bytes: &[u8]) -> bool
    requires { 24 ≤ length bytes.now }
    ensures { result ≡ has_magic bytes.now }
{
    two_at(bytes, 2) == [0xda, 0x27] && byte_at(bytes, 8) <= 1
}

/// Whether the header says this data format.
fn has_format(bytes: &[u8], format: [u8; 4]) -> bool
    requires { 24 ≤ length bytes.now }
    ensures { result ≡ bytes_eq (slice_range bytes.now 12 16) format }
{
    four_at(bytes, 12) == format
}

/// The order of bytes that the header says.
fn order_in(bytes: &[u8]) -> Endianness
    requires { 24 ≤ length bytes.now }
    ensures { result ≡ order_in bytes.now }
{
    if byte_at(bytes, 8) == 1 {
        Endianness::Big
    } else {
        Endianness::Little
    }
}

/// What these bytes begin as: by ICU's magic word, the order of bytes, the data format, and for a
/// bundle the family of its characters. Nothing else of the header is looked at. (ICU's `udata.h`:
/// `UDataInfo`.)
#[tactic(auto, unfolding(crate::specs::Orders::data_of))]
pub fn data_of(bytes: &[u8]) -> IcuData
    ensures { result ≡ data_of bytes.now }
{
    if bytes.len() < 24 || !has_magic(bytes) {
        return IcuData::Other;
    }
    if has_format(bytes, *b"CmnD") {
        return IcuData::Package(order_in(bytes));
    }
    if !has_format(bytes, *b"ResB") {
        return IcuData::Other;
    }
    if byte_at(bytes, 9) == 1 {
        IcuData::Ebcdic
    } else {
        IcuData::Bundle(order_in(bytes))
    }
}

/// The bytes of a file in either order as all other calls take them, in little-endian order. A
/// big-endian bundle or pool bundle is mirrored, as by `swapped`. Anything else is borrowed as it
/// is, and so without a copy; where it is no bundle, the reader's own refusal says why.
///
/// A bundle for an EBCDIC machine is refused first, in either order, then a big-endian one as by
/// `swapped`. Such bytes denote no tree in either order.
pub fn little_endian(alloc: Global, bytes: &[u8]) -> Result<CowSlice<'_, u8>, SwapError>
    ensures { MatchResult result
        (λ to. IsLittleEndian (data_of bytes.now) bytes.now (cow_slice_items to))
        (HasNoLittleEndian (data_of bytes.now) bytes.now) }
{
    match data_of(bytes) {
        IcuData::Ebcdic => Err(SwapError::Ebcdic),
        IcuData::Bundle(Endianness::Big) => Ok(CowSlice::Owned(swapped(alloc, bytes)?)),
        IcuData::Bundle(Endianness::Little) | IcuData::Package(_) | IcuData::Other => {
            Ok(CowSlice::Borrowed(bytes))
        }
    }
}

/// A package in either order with its header and its table in little-endian order, its items as
/// they are: `little_endian` takes each of these. Any other file is as it was.
///
/// A big-endian package is refused as by `turned_table`.
pub fn with_little_table(alloc: Global, bytes: Vec<u8>) -> Result<Vec<u8>, PackageSwapError>
    ensures { MatchResult result
        (λ to. HasLittleTable (data_of bytes.items) bytes.items to.items)
        (HasNoLittleTable (data_of bytes.items) bytes.items) }
{
    match data_of(bytes.as_slice()) {
        IcuData::Package(Endianness::Big) => turned_table(alloc, bytes.as_slice()),
        IcuData::Package(Endianness::Little)
        | IcuData::Ebcdic
        | IcuData::Bundle(_)
        | IcuData::Other => Ok(bytes),
    }
}
