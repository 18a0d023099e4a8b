//! Why reading is refused: a kind and a message, and the text that both print.
//! Which fault gives which refusal is said where it is found.
ghost use Rattle.std.specs.Prelude.{◌≡◌, ◌++◌, ◌↔◌, Some, IsTrue, codes};
ghost use Rattle.resb_format.specs.Error.{IsRefusal, IsEndOfInput, IsWantOfMemory, kind_of};
ghost use Rattle.resb_format.specs.Error.{message_of, description_of};

use resb_tree::NoMemory;
use std::alloc::{AllocError, AllocFailed};
use std::error::Error;
use std::fmt;

/// What is wrong, in general.
#[derive(Clone, Copy, Debug, PartialEq, Eq)]
pub enum ErrorKind {
    /// The bytes break the rules of the format.
    InvalidData,
    /// A resource of another type was asked for.
    ResourceTypeMismatch,
    /// The bytes follow a form of the format that is not read.
    UnsupportedFormat,
    /// The value has no place in what was asked for.
    Unknown,
    /// A request for memory was refused.
    OutOfMemory,
}

/// A refusal of reading. It prints as the description of its kind, `: ` and its message.
/// Its lifetime is that of the message. It stands in the signatures of generic readers, since the
/// checker covers no function whose signature names both a lifetime of a bound and `'static`.
#[derive(Clone, Copy, Debug)]
pub struct ReadingError<'m> {
    kind: ErrorKind,
    message: &'m str,
}

/// A refusal of reading, with a message that lives as long as the program.
pub type BinaryDeserializerError = ReadingError<'static>;

impl BinaryDeserializerError {
    /// The data is invalid.
    pub fn invalid_data(message: &'static str) -> BinaryDeserializerError
        ensures { IsRefusal result ErrorKind.InvalidData message.entry.now }
    {
        BinaryDeserializerError {
            kind: ErrorKind::InvalidData,
            message,
        }
    }

    /// A part of the file lies past its end.
    pub fn end_of_input() -> BinaryDeserializerError
        ensures { IsEndOfInput result }
    {
        BinaryDeserializerError::invalid_data("unexpected end of input")
    }

    /// A resource of another type was asked for.
    pub fn resource_type_mismatch(message: &'static str) -> BinaryDeserializerError
        ensures { IsRefusal result ErrorKind.ResourceTypeMismatch message.entry.now }
    {
        BinaryDeserializerError {
            kind: ErrorKind::ResourceTypeMismatch,
            message,
        }
    }

    /// The form is not read.
    pub fn unsupported_format(message: &'static str) -> BinaryDeserializerError
        ensures { IsRefusal result ErrorKind.UnsupportedFormat message.entry.now }
    {
        BinaryDeserializerError {
            kind: ErrorKind::UnsupportedFormat,
            message,
        }
    }

    /// Any other refusal, as one of a caller's own type.
    pub fn unknown(message: &'static str) -> BinaryDeserializerError
        ensures { IsRefusal result ErrorKind.Unknown message.entry.now }
    {
        BinaryDeserializerError {
            kind: ErrorKind::Unknown,
            message,
        }
    }

    /// A request for memory was refused while reading.
    pub fn out_of_memory() -> BinaryDeserializerError
        ensures { IsWantOfMemory result }
    {
        BinaryDeserializerError {
            kind: ErrorKind::OutOfMemory,
            message: "while reading",
        }
    }
}

impl<'m> ReadingError<'m> {
    /// What is wrong, in general.
    pub fn kind(&self) -> ErrorKind
        ensures { result ≡ kind_of self.now }
    {
        self.kind
    }

    /// What is wrong, in particular.
    pub fn message(&self) -> &'m str
        ensures { result.now ≡ message_of self.now }
    {
        self.message
    }

    /// Whether a request for memory was refused.
    pub fn is_out_of_memory(&self) -> bool
        ensures { IsTrue result ↔ (kind_of self.now ≡ ErrorKind.OutOfMemory) }
    {
        self.kind == ErrorKind::OutOfMemory
    }
}

impl fmt::Display for ReadingError<'_> {
    ghost output = { λ e. Some (description_of (kind_of e) ++ codes ": " ++ message_of e) };

    fn fmt<W: fmt::Write>(&self, f: &mut fmt::Formatter<W>) -> fmt::Result {
        let description = match self.kind {
            ErrorKind::InvalidData => "Invalid resource bundle data",
            ErrorKind::ResourceTypeMismatch => "Resource did not match expected data type",
            ErrorKind::UnsupportedFormat => "Unsupported resource bundle format",
            ErrorKind::Unknown => "Unknown error",
            ErrorKind::OutOfMemory => "Out of memory",
        };
        let message = self.message;
        write!(f, "{description}: {message}")
    }
}

impl Error for ReadingError<'_> {}

impl From<NoMemory> for ReadingError<'_> {
    ghost from_gives = { λ _ e. IsWantOfMemory e };

    fn from(_: NoMemory) -> Self {
        BinaryDeserializerError::out_of_memory()
    }
}

impl From<AllocError> for ReadingError<'_> {
    ghost from_gives = { λ _ e. IsWantOfMemory e };

    fn from(_: AllocError) -> Self {
        BinaryDeserializerError::out_of_memory()
    }
}

impl<T: Drop> From<AllocFailed<T>> for ReadingError<'_> {
    ghost from_gives = { λ _ e. IsWantOfMemory e };

    fn from(_: AllocFailed<T>) -> Self {
        BinaryDeserializerError::out_of_memory()
    }
}
