//! Why a file isn't written.
//! When each fault comes is said by the contract of `Serializer::to_bytes`.
ghost use Rattle.std.specs.Prelude.{◌≡◌, ◌↔◌, IsTrue};
ghost use Rattle.resb_layout.specs.WritingFault as fault;

use resb_pool::PlanError;
use resb_tree::NoMemory;
use std::alloc::{AllocError, AllocFailed};
use std::error::Error;
use std::fmt;

/// A tree that can't be written, or want of memory.
#[derive(Debug, Drop)]
pub struct BinarySerializerError {
    kind: Kind,
}

#[derive(Clone, Copy, Debug)]
enum Kind {
    StringTooLong(usize),
    Unexpected(&'static str),
    Limit(&'static str),
    OutOfMemory,
}

impl BinarySerializerError {
    ghost use Rattle.resb_write.specs.FaultOf.{fault_of};

    /// A string of `length` 16-bit units, more than 4294967295.
    pub fn string_too_long(length: usize) -> BinarySerializerError
        ensures { fault_of result ≡ fault.string_too_long length }
    {
        BinarySerializerError {
            kind: Kind::StringTooLong(length),
        }
    }

    /// A tree and keys that don't belong together.
    pub fn unexpected(message: &'static str) -> BinarySerializerError
        ensures { fault_of result ≡ fault.unexpected message.entry.now }
    {
        BinarySerializerError {
            kind: Kind::Unexpected(message),
        }
    }

    /// A number that is over what the format can hold.
    pub fn limit(message: &'static str) -> BinarySerializerError
        ensures { fault_of result ≡ fault.limit message.entry.now }
    {
        BinarySerializerError {
            kind: Kind::Limit(message),
        }
    }

    /// A request for memory was refused.
    pub fn out_of_memory() -> BinarySerializerError
        ensures { fault_of result ≡ fault.out_of_memory }
    {
        BinarySerializerError {
            kind: Kind::OutOfMemory,
        }
    }

    /// Whether the error is want of memory.
    pub fn is_out_of_memory(&self) -> bool
        ensures { IsTrue result ↔ (fault_of self.now ≡ fault.out_of_memory) }
    {
        matches!(self.kind, Kind::OutOfMemory)
    }
}

impl fmt::Display for BinarySerializerError {
    ghost use Rattle.std.specs.Prelude.{Some};
    ghost use Rattle.resb_layout.specs.WritingFault.{message_of};
    ghost use Rattle.resb_write.specs.FaultOf.{fault_of};

    ghost output = { λ e. Some (message_of (fault_of e)) };

    fn fmt<W: fmt::Write>(&self, f: &mut fmt::Formatter<W>) -> fmt::Result {
        match self.kind {
            Kind::StringTooLong(length) => write!(
                f,
                "Cannot serialize string of length {length}, maximum is 4,294,967,295 characters"
            ),
            Kind::Unexpected(message) => write!(f, "Unexpected error: {message}"),
            Kind::Limit(message) => write!(f, "Limit exceeded: {message}"),
            Kind::OutOfMemory => write!(f, "Out of memory: while writing"),
        }
    }
}

impl Error for BinarySerializerError {}

impl From<AllocError> for BinarySerializerError {
    ghost use Rattle.std.specs.Prelude.{◌≡◌};
    ghost use Rattle.resb_layout.specs.WritingFault.{out_of_memory};
    ghost use Rattle.resb_write.specs.FaultOf.{fault_of};

    ghost from_gives = { λ _ e. fault_of e ≡ out_of_memory };

    fn from(_: AllocError) -> BinarySerializerError {
        BinarySerializerError::out_of_memory()
    }
}

impl From<NoMemory> for BinarySerializerError {
    ghost use Rattle.std.specs.Prelude.{◌≡◌};
    ghost use Rattle.resb_layout.specs.WritingFault.{out_of_memory};
    ghost use Rattle.resb_write.specs.FaultOf.{fault_of};

    ghost from_gives = { λ _ e. fault_of e ≡ out_of_memory };

    fn from(_: NoMemory) -> BinarySerializerError {
        BinarySerializerError::out_of_memory()
    }
}

impl<T: Drop> From<AllocFailed<T>> for BinarySerializerError {
    ghost use Rattle.std.specs.Prelude.{◌≡◌};
    ghost use Rattle.resb_layout.specs.WritingFault.{out_of_memory};
    ghost use Rattle.resb_write.specs.FaultOf.{fault_of};

    ghost from_gives = { λ _ e. fault_of e ≡ out_of_memory };

    fn from(_: AllocFailed<T>) -> BinarySerializerError {
        BinarySerializerError::out_of_memory()
    }
}

impl From<PlanError> for BinarySerializerError {
    ghost use Rattle.std.specs.Prelude.{◌≡◌};
    ghost use Rattle.resb_write.specs.FaultOf.{fault_of, plan_fault};

    ghost from_gives = { λ p e. fault_of e ≡ plan_fault p };

    fn from(e: PlanError) -> BinarySerializerError {
        match e {
            PlanError::StringTooLong(length) => BinarySerializerError::string_too_long(length),
            PlanError::TooLarge => BinarySerializerError::limit("file too large"),
            PlanError::OutOfMemory => BinarySerializerError::out_of_memory(),
        }
    }
}
