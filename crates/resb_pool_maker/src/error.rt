//! Why no pool bundle is made, and what that prints as.
//! When each of these comes is said by the contracts of `PoolMaker`.
ghost use Rattle.std.specs.Prelude.{◌≡◌, Some};
ghost use Rattle.resb_pool_maker.specs.PoolFault.{message_of, plan_fault};
ghost use Rattle.resb_pool_maker.specs.declared.error.PoolMakerError.TheVariants.{OutOfMemory};

use resb_pool::PlanError;
use resb_tree::NoMemory;
use std::alloc::{AllocError, AllocFailed};
use std::error::Error;
use std::fmt;

/// Why no pool bundle is made.
#[derive(Clone, Copy, Debug, PartialEq, Eq)]
pub enum PoolMakerError {
    /// A string of so many 16-bit units, more than 4294967295.
    StringTooLong(usize),
    /// The 16-bit units of strings, and 16 for each string, come to 2^28 or more.
    StringsTooLarge,
    /// A used key holds U+0000.
    KeyWithNul,
    /// The keys, each with a zero byte, come to more than 2^31 bytes.
    KeysTooLarge,
    /// A request for memory was refused.
    OutOfMemory,
}

impl fmt::Display for PoolMakerError {
    ghost output = { λ e. Some (message_of e) };

    fn fmt<W: fmt::Write>(&self, f: &mut fmt::Formatter<W>) -> fmt::Result {
        match self {
            PoolMakerError::StringTooLong(length) => {
                write!(f, "string of {length} units, more than 4294967295")
            }
            PoolMakerError::StringsTooLarge => write!(f, "strings too large"),
            PoolMakerError::KeyWithNul => write!(f, "key contains U+0000"),
            PoolMakerError::KeysTooLarge => write!(f, "keys too large"),
            PoolMakerError::OutOfMemory => write!(f, "out of memory"),
        }
    }
}

impl Error for PoolMakerError {}

impl From<AllocError> for PoolMakerError {
    ghost from_gives = { λ _ e. e ≡ OutOfMemory };

    fn from(_: AllocError) -> PoolMakerError {
        PoolMakerError::OutOfMemory
    }
}

impl From<NoMemory> for PoolMakerError {
    ghost from_gives = { λ _ e. e ≡ OutOfMemory };

    fn from(_: NoMemory) -> PoolMakerError {
        PoolMakerError::OutOfMemory
    }
}

impl<T: Drop> From<AllocFailed<T>> for PoolMakerError {
    ghost from_gives = { λ _ e. e ≡ OutOfMemory };

    fn from(_: AllocFailed<T>) -> PoolMakerError {
        PoolMakerError::OutOfMemory
    }
}

impl From<PlanError> for PoolMakerError {
    ghost from_gives = { λ p e. e ≡ plan_fault p };

    fn from(error: PlanError) -> PoolMakerError {
        match error {
            PlanError::StringTooLong(length) => PoolMakerError::StringTooLong(length),
            PlanError::TooLarge => PoolMakerError::StringsTooLarge,
            PlanError::OutOfMemory => PoolMakerError::OutOfMemory,
        }
    }
}
