//! Why a bundle isn't printed, and what that prints as.
//! What keeps it from having a text is its `cause`.
ghost use Rattle.std.specs.Prelude.{◌≡◌, Some};
ghost use Rattle.resb_print.specs.Message.{message_of};
ghost use Rattle.resb_print.specs.declared.error.PrintError.TheVariants.{OutOfMemory};

use crate::cause::Cause;
use std::alloc::{AllocError, AllocFailed};
use std::error::Error;
use std::fmt;

/// Why a bundle isn't printed.
#[derive(Clone, Copy, Debug, PartialEq, Eq)]
pub enum PrintError {
    /// No text of the form has this name and tree.
    NotPrintable(Cause),
    /// What would be printed takes more bytes than this limit.
    Larger(u64),
    /// A request for memory was refused. The bundle may have a text.
    OutOfMemory,
}

impl fmt::Display for PrintError {
    ghost output = { λ e. Some (message_of e) };

    fn fmt<W: fmt::Write>(&self, f: &mut fmt::Formatter<W>) -> fmt::Result {
        let message = match self {
            PrintError::NotPrintable(Cause::RootIsNoTable) => "the root is no table",
            PrintError::NotPrintable(Cause::QuoteInName) => "the name holds a '\"'",
            PrintError::NotPrintable(Cause::QuoteInKey) => "a key holds a '\"'",
            PrintError::NotPrintable(Cause::QuoteInString) => "a string holds a '\"'",
            PrintError::NotPrintable(Cause::Alias) => "the plain form has no aliases",
            PrintError::NotPrintable(Cause::NameIsNoWord) => "the name is no word",
            PrintError::NotPrintable(Cause::KeyHasOtherBytes) => {
                "a key has a character that may not stand in one"
            }
            PrintError::Larger(_) => "text larger than the limit",
            PrintError::OutOfMemory => "out of memory",
        };
        write!(f, "{message}")
    }
}

impl Error for PrintError {}

impl From<AllocError> for PrintError {
    ghost from_gives = { λ x y. y ≡ OutOfMemory };

    fn from(_: AllocError) -> PrintError {
        PrintError::OutOfMemory
    }
}

impl<T: Drop> From<AllocFailed<T>> for PrintError {
    ghost from_gives = { λ x y. y ≡ OutOfMemory };

    fn from(_: AllocFailed<T>) -> PrintError {
        PrintError::OutOfMemory
    }
}
