//! Inputs by their names; `-` is standard input.
//! Where the bytes for a name go is in `place`, and how they come there in `save`.
use crate::words::{NO_UTF8, is_marked};
use resb_program::{ToolError, read_within};
use std::alloc::{AllocError, Global};
use std::fmt;
use std::fs::{self, File};
use std::io::{self, ErrorKind, Read};

/// The most bytes that are read of an input: those of the largest file that the format has, of 2^28
/// words.
const MOST_BYTES: u64 = 1 << 30;

/// What is read of an input whatever limit is said, in bytes.
const LEAST_LIMIT: u64 = 1 << 20;

/// What is said where memory is wanted.
pub(crate) const NO_MEMORY: &str = "out of memory";

/// What was made, or what is said where memory for it was wanted.
pub(crate) fn made<T>(made: Result<T, AllocError>) -> Result<T, &'static str> {
    match made {
        Ok(made) => Ok(made),
        Err(_) => Err(NO_MEMORY),
    }
}

/// Why an input isn't had.
#[derive(Clone, Copy)]
pub(crate) enum InputError {
    /// The file or the stream fails, as this says.
    Failed(&'static str),
    /// It has more bytes than this.
    Larger(u64),
}

impl InputError {
    /// The status that this ends with.
    pub(crate) fn status(self) -> u8 {
        match self {
            InputError::Failed(_) => 2,
            InputError::Larger(_) => 1,
        }
    }
}

impl fmt::Display for InputError {
    fn fmt<W: fmt::Write>(&self, f: &mut fmt::Formatter<W>) -> fmt::Result {
        match self {
            InputError::Failed(cause) => write!(f, "{cause}"),
            InputError::Larger(most) => write!(f, "this has more than the limit of {most} bytes"),
        }
    }
}

/// The most bytes that an input may have: what a limit says, but never less than 1 MiB.
pub(crate) fn most_bytes(limit: Option<u64>) -> u64 {
    match limit {
        Some(limit) => limit.max(LEAST_LIMIT),
        None => MOST_BYTES,
    }
}

/// The bytes of a file or of standard input, of which there may be so many.
pub(crate) fn read_input(
    rt: &HostRuntime,
    name: &str,
    limit: Option<u64>,
) -> Result<Vec<u8>, InputError> {
    let most = most_bytes(limit);
    if name == "-" {
        return read_from(rt.alloc(), &mut rt.stdin(), most);
    }
    let (mut file, size) = open(rt, name, most)?;
    match size {
        Some(size) => read_file(rt.alloc(), &mut file, size, most),
        None => read_from(rt.alloc(), &mut file, most),
    }
}

/// What has this name, and its size if it is a file, unless it is known to be larger.
fn open(rt: &HostRuntime, name: &str, most: u64) -> Result<(File, Option<u64>), InputError> {
    if is_marked(name) {
        return Err(InputError::Failed(NO_UTF8));
    }
    let file = fs::open(rt, name).map_err(|e| InputError::Failed(cause_of(&e)))?;
    let size = size_of(&file, most)?;
    Ok((file, size))
}

/// The size of a file. Refuses a folder, and a file that is known to be larger.
fn size_of(file: &File, most: u64) -> Result<Option<u64>, InputError> {
    match file.metadata() {
        Ok(found) if found.is_dir() => Err(InputError::Failed("this is a folder")),
        Ok(found) if found.is_file() && found.len() > most => Err(InputError::Larger(most)),
        Ok(found) if found.is_file() => Ok(Some(found.len())),
        _ => Ok(None),
    }
}

/// All that a file has, which had so many bytes when it was opened: room is made for these, and one
/// more, behind which others may have come since.
fn read_file(alloc: Global, file: &mut File, size: u64, most: u64) -> Result<Vec<u8>, InputError> {
    let room = size.saturating_add(1);
    let mut bytes = made(vec![in alloc; 0u8; room as usize]).map_err(InputError::Failed)?;
    let filled = fill(file, bytes.as_mut_slice())?;
    bytes.truncate(filled);
    if (filled as u64) < room {
        return Ok(bytes);
    }
    let rest = match read_from(alloc, file, most.saturating_sub(room)) {
        Err(InputError::Larger(_)) => return Err(InputError::Larger(most)),
        rest => rest?,
    };
    match bytes.extend_from_slice(rest.as_slice()) {
        Ok(()) if bytes.len() as u64 <= most => Ok(bytes),
        Ok(()) => Err(InputError::Larger(most)),
        Err(_) => Err(InputError::Failed(NO_MEMORY)),
    }
}

/// Reads into bytes until these are full or the file ends, and answers how many were read.
fn fill(file: &mut File, bytes: &mut [u8]) -> Result<usize, InputError> {
    let mut filled = 0usize;
    for _ in 0..u64::MAX {
        let Some((_, rest)) = bytes.split_at_mut_checked(filled) else {
            break;
        };
        match file.read(rest) {
            Ok(0) => break,
            Ok(count) => filled = filled.saturating_add(count),
            Err(e) if e.kind() == ErrorKind::Interrupted => {}
            Err(_) => return Err(InputError::Failed("cannot be read")),
        }
    }
    Ok(filled)
}

/// All that a reader has.
fn read_from<R: Read>(alloc: Global, reader: &mut R, most: u64) -> Result<Vec<u8>, InputError> {
    match read_within(alloc, reader, most) {
        Ok(Some(bytes)) => Ok(bytes),
        Ok(None) => Err(InputError::Larger(most)),
        Err(ToolError::Memory) => Err(InputError::Failed(NO_MEMORY)),
        Err(_) => Err(InputError::Failed("cannot be read")),
    }
}

/// What a failed call on a file is called.
pub(crate) fn cause_of(e: &io::Error) -> &'static str {
    match e.kind() {
        ErrorKind::OutOfMemory => NO_MEMORY,
        ErrorKind::NotFound => "no such file",
        ErrorKind::PermissionDenied => "permission denied",
        ErrorKind::IsADirectory => "this is a folder",
        ErrorKind::NotADirectory => "this leads through a file that is no folder",
        ErrorKind::InvalidFilename => "file name too long",
        _ => "cannot be opened",
    }
}
