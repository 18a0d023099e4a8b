//! Why a package isn't swapped, and what that prints as.
//! When each of these comes is said in `specs/PackageFaults`.
ghost use Rattle.std.specs.Prelude.{◌≡◌, Some};
ghost use Rattle.resb_swap.specs.Message.{package_printed};

use crate::error::SwapError;
use resb_tree::NoMemory;
use std::alloc::{AllocError, AllocFailed};
use std::error::Error;
use std::fmt;

/// Why a package isn't swapped. A number is that of an item, from 0 up.
#[derive(Clone, Copy, Debug)]
pub enum PackageSwapError {
    /// The file has no header of a package: less than 24 bytes, or not ICU's magic word, the data
    /// format `CmnD` of major version 1, or an order of bytes that ICU knows.
    NotPackage,
    /// The package was written for a machine whose characters are of the EBCDIC family.
    Ebcdic,
    /// The table of items has no count, or runs past the end of the file.
    TableOutside,
    /// The item begins in the table, or behind the one that follows it or the end of the file.
    ItemAstray(usize),
    /// The item's name begins in the table, or no zero byte ends it before the first item.
    NameAstray(usize),
    /// The item is in another order of bytes than the package.
    OtherOrder(usize),
    /// The item is no bundle, or one that isn't swapped.
    Item(usize, SwapError),
    /// A request for memory was refused.
    NoMemory,
}

impl fmt::Display for PackageSwapError {
    ghost output = { λ e. Some (package_printed e) };

    fn fmt<W: fmt::Write>(&self, f: &mut fmt::Formatter<W>) -> fmt::Result {
        match self {
            PackageSwapError::NotPackage => write!(f, "not a package of ICU's data"),
            PackageSwapError::Ebcdic => write!(f, "written for an EBCDIC machine"),
            PackageSwapError::TableOutside => {
                write!(f, "the table of items runs past the end of the file")
            }
            PackageSwapError::ItemAstray(i) => {
                write!(f, "item {i} begins in the table, or behind the next one")
            }
            PackageSwapError::NameAstray(i) => {
                write!(
                    f,
                    "the name of item {i} doesn't stand between the table and the items"
                )
            }
            PackageSwapError::OtherOrder(i) => {
                write!(f, "item {i} has another order of bytes than the package")
            }
            PackageSwapError::Item(i, e) => write!(f, "item {i}: {e}"),
            PackageSwapError::NoMemory => write!(f, "out of memory"),
        }
    }
}

impl Error for PackageSwapError {}

impl From<NoMemory> for PackageSwapError {
    ghost use Rattle.resb_swap.specs.declared.package_error.PackageSwapError.{PackageSwapError};

    ghost from_gives = { λ _ e. e ≡ PackageSwapError.NoMemory };

    fn from(_: NoMemory) -> Self {
        PackageSwapError::NoMemory
    }
}

impl From<AllocError> for PackageSwapError {
    ghost use Rattle.resb_swap.specs.declared.package_error.PackageSwapError.{PackageSwapError};

    ghost from_gives = { λ _ e. e ≡ PackageSwapError.NoMemory };

    fn from(_: AllocError) -> Self {
        PackageSwapError::NoMemory
    }
}

impl<T: Drop> From<AllocFailed<T>> for PackageSwapError {
    ghost use Rattle.resb_swap.specs.declared.package_error.PackageSwapError.{PackageSwapError};

    ghost from_gives = { λ _ e. e ≡ PackageSwapError.NoMemory };

    fn from(_: AllocFailed<T>) -> Self {
        PackageSwapError::NoMemory
    }
}
