//! Why a call for C fails: its number, its place and what it prints.
//! How that reaches the caller is in `report`.
ghost use Rattle.std.specs.Prelude.{◌≡◌, Some};
ghost use Rattle.resb_c.specs.Faults as faults;
ghost use Rattle.resb_c.specs.Faults.{message_of, number_of, place_of};

use crate::{compiling, swapping};
use resb_compile::CompileError;
use resb_format::{BinaryDeserializerError, ErrorKind};
use resb_print::PrintError;
use resb_program::FileError;
use resb_swap::SwapError;
use resb_zoneinfo::ZoneError;
use std::error::Error;
use std::fmt;

/// Why a call fails.
#[derive(Debug, Drop)]
pub enum Fault {
    /// The answer has so many bytes, more than the buffer.
    TooShort(usize),
    /// The bytes that should be a text, or a name, aren't UTF-8 from this place on.
    NotUtf8(usize),
    /// The text has no file, or its reading makes more bytes than the limit.
    Compiling(CompileError),
    /// The bytes are no file of a tree within its budget.
    Reading(BinaryDeserializerError),
    /// The tree takes so many bytes, more than the limit; none where they don't fit in 64 bits.
    Larger { bytes: Option<u64>, limit: u64 },
    /// The keys of the tree's entries have so many bytes, more than the limit; none where they
    /// don't fit in 64 bits.
    LongKeys { bytes: Option<u64>, limit: u64 },
    /// The file uses a pool bundle, and none was given.
    UsesPool,
    /// The bytes that were given as a pool bundle are none.
    Pool(BinaryDeserializerError),
    /// Nothing stands at the path.
    NotFound,
    /// What stands at the path is of another kind.
    OtherKind,
    /// The tree has no text of the form, or its text, or its JSON, has more bytes than the limit.
    Printing(PrintError),
    /// The file has no zone of that name, or the zone has a fault.
    Zone(ZoneError),
    /// The file has no other order of bytes.
    Swapping(SwapError),
    /// The options have another size than the header gives them, or a form that the call hasn't.
    BadOptions,
}

/// The number of a zone's fault: that of nothing where there is no such zone.
fn zone_number(e: ZoneError) -> u32
    ensures { result ≡ faults.zone_number e }
{
    match e {
        ZoneError::NoZone => 12,
        _ => 14,
    }
}

impl Fault {
    /// The number of the fault, as the header gives it.
    pub fn number(&self) -> u32
        ensures { result ≡ number_of self.now }
    {
        match self {
            Fault::TooShort(_) => 1,
            Fault::NotUtf8(_) => 2,
            Fault::Compiling(e) => compiling::number(e),
            Fault::Reading(e) => match e.kind() {
                ErrorKind::OutOfMemory => 8,
                ErrorKind::UnsupportedFormat => 6,
                _ => 5,
            },
            Fault::UsesPool => 9,
            Fault::Larger { .. } | Fault::LongKeys { .. } => 10,
            Fault::Printing(PrintError::NotPrintable(_)) => 7,
            Fault::Printing(PrintError::Larger(_)) => 10,
            Fault::Printing(PrintError::OutOfMemory) => 8,
            Fault::Pool(_) => 11,
            Fault::NotFound => 12,
            Fault::OtherKind => 13,
            Fault::Zone(e) => zone_number(*e),
            Fault::Swapping(e) => swapping::number(e),
            Fault::BadOptions => 15,
        }
    }

    /// The byte of the text at which it can't be read on, else 0.
    pub fn place(&self) -> usize
        ensures { result ≡ place_of self.now }
    {
        match self {
            Fault::NotUtf8(place) => *place,
            Fault::Compiling(e) => compiling::place(e),
            _ => 0,
        }
    }
}

impl fmt::Display for Fault {
    ghost output = { λ e. Some (message_of e) };

    fn fmt<W: fmt::Write>(&self, f: &mut fmt::Formatter<W>) -> fmt::Result {
        match self {
            Fault::TooShort(length) => {
                write!(f, "the buffer is too short, {length} bytes are needed")
            }
            Fault::NotUtf8(place) => write!(f, "not UTF-8 from byte {place} on"),
            Fault::Compiling(CompileError::Larger(_)) => {
                write!(f, "reading the text takes more bytes than the limit")
            }
            Fault::Compiling(e) => write!(f, "{e}"),
            Fault::Reading(e) => write!(f, "{e}"),
            Fault::UsesPool => write!(f, "the file uses a pool bundle, and none was given"),
            Fault::Pool(e) => write!(f, "{e}"),
            Fault::Larger { bytes, limit } => {
                let (bytes, limit) = (*bytes, *limit);
                write!(f, "{}", FileError::Larger { bytes, limit })
            }
            Fault::LongKeys { bytes, limit } => {
                let (bytes, limit) = (*bytes, *limit);
                write!(f, "{}", FileError::LongKeys { bytes, limit })
            }
            Fault::Printing(PrintError::Larger(limit)) => {
                write!(f, "the text takes more than the limit of {limit} bytes")
            }
            Fault::Printing(e) => write!(f, "{e}"),
            Fault::NotFound => write!(f, "nothing stands at the path"),
            Fault::OtherKind => write!(f, "what stands at the path is of another kind"),
            Fault::Zone(e) => write!(f, "{e}"),
            Fault::Swapping(e) => write!(f, "{e}"),
            Fault::BadOptions => write!(f, "the options are of another size or have no such form"),
        }
    }
}

impl Error for Fault {}
