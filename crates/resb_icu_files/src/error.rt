//! Why a text is not taken in.
//! What the reader refuses in a text that was taken in is said by `resb_icu_text`.
ghost use Rattle.std.specs.Prelude.{◌≡◌, Some};
ghost use Rattle.resb_icu_files.specs.Message.{message_of};
ghost use Rattle.resb_icu_files.specs.declared.error.FilesError.TheVariants as the;

use crate::file::FileNamed;
use resb_tree::NoMemory;
use std::alloc::{AllocError, AllocFailed};
use std::error::Error;
use std::fmt;

/// Why a text is not taken in.
///
/// It prints as `at byte N: no file NAME`, `at byte N: no UTF-8 in file NAME`,
/// `at byte N: no character by \u in file NAME`, `at byte N: no collation rules in file NAME` or
/// `out of memory`.
#[derive(Drop)]
pub enum FilesError {
    /// A group names a file that isn't among those beside the text.
    Missing(FileNamed),
    /// A group includes the text of a file that isn't UTF-8.
    NotUtf8(FileNamed),
    /// A group takes rules of a file in which a `\u` says no character.
    NoRules(FileNamed),
    /// A group takes collation rules of a file in which an escape says no character, or a comment
    /// or a `[` has no end.
    NoCollationRules(FileNamed),
    /// A request for memory was refused.
    OutOfMemory,
}

impl fmt::Display for FilesError {
    ghost output = { λ e. Some (message_of e) };

    fn fmt<W: fmt::Write>(&self, f: &mut fmt::Formatter<W>) -> fmt::Result {
        match self {
            FilesError::Missing(file) => {
                let place = file.place;
                let name = file.name.as_str();
                write!(f, "at byte {place}: no file {name}")
            }
            FilesError::NotUtf8(file) => {
                let place = file.place;
                let name = file.name.as_str();
                write!(f, "at byte {place}: no UTF-8 in file {name}")
            }
            FilesError::NoRules(file) => {
                let place = file.place;
                let name = file.name.as_str();
                write!(f, "at byte {place}: no character by \\u in file {name}")
            }
            FilesError::NoCollationRules(file) => {
                let place = file.place;
                let name = file.name.as_str();
                write!(f, "at byte {place}: no collation rules in file {name}")
            }
            FilesError::OutOfMemory => write!(f, "out of memory"),
        }
    }
}

impl From<NoMemory> for FilesError {
    ghost from_gives = { λ _ e. e ≡ the.OutOfMemory };

    fn from(_: NoMemory) -> FilesError {
        FilesError::OutOfMemory
    }
}

impl From<AllocError> for FilesError {
    ghost from_gives = { λ _ e. e ≡ the.OutOfMemory };

    fn from(_: AllocError) -> FilesError {
        FilesError::OutOfMemory
    }
}

impl<T: Drop> From<AllocFailed<T>> for FilesError {
    ghost from_gives = { λ _ e. e ≡ the.OutOfMemory };

    fn from(_: AllocFailed<T>) -> FilesError {
        FilesError::OutOfMemory
    }
}
