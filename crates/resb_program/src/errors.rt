//! Why a text has no file, why a file isn't read, and why the program `resb_tool` fails.
//! Where a text is to blame, and what a person is told of it, is in `sources`.
ghost use Rattle.std.specs.Prelude.{◌≡◌, Some};
ghost use Rattle.resb_program.specs.Messages.{source_message, file_message};
ghost use Rattle.resb_program.specs.Program.{message_of, status_of};

use resb_compile::CompileError;
use resb_format::BinaryDeserializerError;
use std::error::Error;
use std::fmt;

/// Why the program `resb_tool` fails.
#[derive(Debug, Drop)]
pub enum ToolError {
    /// Standard input can't be read.
    Input,
    /// Standard output can't be written.
    Output,
    /// What was read isn't UTF-8.
    NotUtf8,
    /// What was read has no file.
    Compiling(CompileError),
    /// What was read is no file of a tree within its budget.
    Checking(BinaryDeserializerError),
    /// The program's own request for memory was refused.
    Memory,
}

impl ToolError {
    /// The status that the program ends with: 2 for a fault of a stream, else 1.
    pub fn status(&self) -> u8
        ensures { result ≡ status_of self.now }
    {
        match self {
            ToolError::Input | ToolError::Output => 2,
            ToolError::NotUtf8
            | ToolError::Compiling(_)
            | ToolError::Checking(_)
            | ToolError::Memory => 1,
        }
    }
}

impl fmt::Display for ToolError {
    ghost output = { λ e. Some (message_of e) };

    fn fmt<W: fmt::Write>(&self, f: &mut fmt::Formatter<W>) -> fmt::Result {
        match self {
            ToolError::Input => write!(f, "cannot read standard input"),
            ToolError::Output => write!(f, "cannot write standard output"),
            ToolError::NotUtf8 => write!(f, "input is not UTF-8"),
            ToolError::Compiling(e) => write!(f, "{e}"),
            ToolError::Checking(e) => write!(f, "{e}"),
            ToolError::Memory => write!(f, "out of memory"),
        }
    }
}

impl Error for ToolError {}

/// Why the bytes of a text have no file.
#[derive(Debug, Drop)]
pub enum SourceError {
    /// They are no UTF-8: the first byte that is no part of a character stands there.
    NotUtf8(usize),
    /// The text is refused, or its tree, or it is larger than a limit, or memory was wanted.
    Refused(CompileError),
}

impl fmt::Display for SourceError {
    ghost output = { λ e. Some (source_message e) };

    fn fmt<W: fmt::Write>(&self, f: &mut fmt::Formatter<W>) -> fmt::Result {
        match self {
            SourceError::NotUtf8(_) => write!(f, "this is no UTF-8"),
            SourceError::Refused(CompileError::Reading(e)) => {
                let expected = e.expected();
                write!(f, "expected {expected}")
            }
            SourceError::Refused(CompileError::ReadingIcu(e)) => {
                let expected = e.expected();
                write!(f, "expected {expected}")
            }
            SourceError::Refused(CompileError::Writing(e)) => write!(f, "{e}"),
            SourceError::Refused(CompileError::Larger(limit)) => write!(
                f,
                "reading this text takes more than the limit of {limit} bytes"
            ),
        }
    }
}

impl Error for SourceError {}

/// Why a file isn't read.
#[derive(Debug, Drop)]
pub enum FileError {
    /// It uses a pool bundle, and none is given.
    UsesPool,
    /// Its tree takes so many bytes, more than the limit; none where they don't fit in 64 bits.
    Larger { bytes: Option<u64>, limit: u64 },
    /// The keys of its entries have so many bytes, more than the limit; none where they don't fit
    /// in 64 bits. A key that entries share counts for each of them.
    LongKeys { bytes: Option<u64>, limit: u64 },
    /// The reader refuses it, or memory was wanted.
    Reading(BinaryDeserializerError),
}

impl fmt::Display for FileError {
    ghost output = { λ e. Some (file_message e) };

    fn fmt<W: fmt::Write>(&self, f: &mut fmt::Formatter<W>) -> fmt::Result {
        match self {
            FileError::UsesPool => write!(f, "this file uses a pool bundle, and none is given"),
            FileError::Larger { bytes, limit } => match bytes {
                Some(bytes) => write!(
                    f,
                    "the tree takes {bytes} bytes, more than the limit of {limit}"
                ),
                None => write!(f, "the tree takes more than the limit of {limit} bytes"),
            },
            FileError::LongKeys { bytes, limit } => match bytes {
                Some(bytes) => write!(
                    f,
                    "the keys of its entries take {bytes} bytes, more than the limit of {limit}"
                ),
                None => write!(
                    f,
                    "the keys of its entries take more than the limit of {limit} bytes"
                ),
            },
            FileError::Reading(e) => write!(f, "{e}"),
        }
    }
}

impl Error for FileError {}
