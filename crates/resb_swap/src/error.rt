//! Why a file isn't swapped, and what that prints as.
//! When each of these comes is said in `specs/Faults`.
ghost use Rattle.std.specs.Prelude.{◌≡◌, Some};
ghost use Rattle.resb_swap.specs.Message.{printed};

use resb_format::BinaryDeserializerError;
use resb_tree::NoMemory;
use std::alloc::{AllocError, AllocFailed};
use std::error::Error;
use std::fmt;

/// Why a file isn't swapped.
#[derive(Clone, Copy, Debug)]
pub enum SwapError {
    /// The header is that of no bundle: the first of its checks that fails, of which none asks for
    /// an order of bytes.
    Header(BinaryDeserializerError),
    /// The file was written for a machine whose characters are of the EBCDIC family.
    Ebcdic,
    /// The units of the 16-bit block are of another size than 2 bytes.
    OtherCharacters,
    /// The file is of version 1.0, which has no index.
    FirstVersion,
    /// The index is too short, or it, the keys or the 16-bit block lie outside the file.
    NoIndex,
    /// A resource lies outside the file.
    Outside,
    /// Two resources lie in one another, or one lies in the index, the keys or the 16-bit block.
    TwoRoles,
    /// A word names no type of resources.
    UnknownType,
    /// A binary holds the data of a collation that isn't whole: of another order than the file, of
    /// another version than 4 or 5, or with parts that don't stand one behind the other.
    Collation,
    /// A request for memory was refused.
    NoMemory,
}

impl fmt::Display for SwapError {
    ghost output = { λ e. Some (printed e) };

    fn fmt<W: fmt::Write>(&self, f: &mut fmt::Formatter<W>) -> fmt::Result {
        match self {
            SwapError::Header(e) => e.fmt(f),
            SwapError::Ebcdic => write!(f, "written for an EBCDIC machine"),
            SwapError::OtherCharacters => {
                write!(f, "characters of size other than 2 are not supported")
            }
            SwapError::FirstVersion => write!(f, "format version 1.0 is not supported"),
            SwapError::NoIndex => write!(f, "index, keys or 16-bit block lie outside the file"),
            SwapError::Outside => write!(f, "a resource lies outside the file"),
            SwapError::TwoRoles => write!(f, "two resources lie in one another"),
            SwapError::UnknownType => write!(f, "a resource has an unknown type"),
            SwapError::Collation => write!(f, "a collation's data has unknown parts"),
            SwapError::NoMemory => write!(f, "out of memory"),
        }
    }
}

impl Error for SwapError {}

impl From<NoMemory> for SwapError {
    ghost use Rattle.resb_swap.specs.declared.error.SwapError.{SwapError};

    ghost from_gives = { λ _ e. e ≡ SwapError.NoMemory };

    fn from(_: NoMemory) -> Self {
        SwapError::NoMemory
    }
}

impl From<AllocError> for SwapError {
    ghost use Rattle.resb_swap.specs.declared.error.SwapError.{SwapError};

    ghost from_gives = { λ _ e. e ≡ SwapError.NoMemory };

    fn from(_: AllocError) -> Self {
        SwapError::NoMemory
    }
}

impl<T: Drop> From<AllocFailed<T>> for SwapError {
    ghost use Rattle.resb_swap.specs.declared.error.SwapError.{SwapError};

    ghost from_gives = { λ _ e. e ≡ SwapError.NoMemory };

    fn from(_: AllocFailed<T>) -> Self {
        SwapError::NoMemory
    }
}
