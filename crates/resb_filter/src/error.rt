//! Why a text is no rule file, and what that prints as.
//! When each of these comes is said by the contract of `Rules::read`.
ghost use Rattle.std.specs.Prelude.{◌≡◌, Some};
ghost use Rattle.resb_filter.specs.Messages.{fault_message, message_of};
ghost use Rattle.resb_filter.specs.declared.error.RuleError.TheVariants.{OutOfMemory};

use resb_tree::NoMemory;
use std::alloc::{AllocError, AllocFailed};
use std::error::Error;
use std::fmt;

/// What is wrong with a line.
#[derive(Clone, Copy, Debug, PartialEq, Eq)]
pub enum RuleFault {
    /// It begins with neither `+` nor `-`, isn't empty, and is no comment.
    NoSign,
    /// No `/` stands behind its sign.
    NoSlash,
    /// Nothing stands between two `/` of its path, or behind the last one.
    EmptyPiece,
}

impl fmt::Display for RuleFault {
    ghost output = { λ f. Some (fault_message f) };

    fn fmt<W: fmt::Write>(&self, f: &mut fmt::Formatter<W>) -> fmt::Result {
        match self {
            RuleFault::NoSign => write!(f, "a rule begins with + or -"),
            RuleFault::NoSlash => write!(f, "a rule's path begins with /"),
            RuleFault::EmptyPiece => write!(f, "a piece of a rule's path is empty"),
        }
    }
}

/// Why a text isn't read as rules.
#[derive(Clone, Copy, Debug, PartialEq, Eq)]
pub enum RuleError {
    /// The line of this number, the first of which is 1, is no rule.
    Line(usize, RuleFault),
    /// A request for memory was refused.
    OutOfMemory,
}

impl fmt::Display for RuleError {
    ghost output = { λ e. Some (message_of e) };

    fn fmt<W: fmt::Write>(&self, f: &mut fmt::Formatter<W>) -> fmt::Result {
        match self {
            RuleError::Line(number, fault) => write!(f, "line {number}: {fault}"),
            RuleError::OutOfMemory => write!(f, "out of memory"),
        }
    }
}

impl Error for RuleError {}

impl From<NoMemory> for RuleError {
    ghost from_gives = { λ x y. y ≡ OutOfMemory };

    fn from(_: NoMemory) -> RuleError {
        RuleError::OutOfMemory
    }
}

impl From<AllocError> for RuleError {
    ghost from_gives = { λ x y. y ≡ OutOfMemory };

    fn from(_: AllocError) -> RuleError {
        RuleError::OutOfMemory
    }
}

impl<T: Drop> From<AllocFailed<T>> for RuleError {
    ghost from_gives = { λ x y. y ≡ OutOfMemory };

    fn from(_: AllocFailed<T>) -> RuleError {
        RuleError::OutOfMemory
    }
}
