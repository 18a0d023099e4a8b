//! Why strings aren't planned, and what that prints as.
//! When each of these comes is said by the contract of `plan`.
ghost use Rattle.std.specs.Prelude.{◌≡◌, Some};
ghost use Rattle.resb_pool.specs.Refusal.{message_of};
ghost use Rattle.resb_pool.specs.declared.error.PlanError.TheVariants.{OutOfMemory};

use std::alloc::AllocError;
use std::error::Error;
use std::fmt;

/// Why strings aren't planned.
#[derive(Clone, Copy, Debug, PartialEq, Eq)]
pub enum PlanError {
    /// A string of so many 16-bit units, more than 4294967295.
    StringTooLong(usize),
    /// The strings' 16-bit units, and 16 for each string, come to 2^28 or more.
    TooLarge,
    /// A request for memory was refused.
    OutOfMemory,
}

impl fmt::Display for PlanError {
    ghost output = { λ e. Some (message_of e) };

    fn fmt<W: fmt::Write>(&self, f: &mut fmt::Formatter<W>) -> fmt::Result {
        match self {
            PlanError::StringTooLong(length) => {
                write!(f, "string of {length} units, more than 4294967295")
            }
            PlanError::TooLarge => write!(f, "strings too large"),
            PlanError::OutOfMemory => write!(f, "out of memory"),
        }
    }
}

impl Error for PlanError {}

impl From<AllocError> for PlanError {
    ghost from_gives = { λ x y. y ≡ OutOfMemory };

    fn from(_: AllocError) -> PlanError {
        PlanError::OutOfMemory
    }
}
