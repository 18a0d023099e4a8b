//! Why a file that is had has no tree, as it is said and as JSON names it.
//! What the causes mean is in `resb_program`; why a file isn't had at all is in `unread`.
use crate::packages::is_package;
use crate::say::complain;
use crate::shown::Shown;
use crate::streams::NO_MEMORY;
use resb_format::{BinaryDeserializerError, ErrorKind};
use resb_program::FileError;
use std::fmt;

/// What is said of a file whose pool bundle isn't there.
const NO_POOL: &str =
    "this file uses a pool bundle, and there is no pool.res beside it; name one by --pool";

/// What is said of a package where a file of a bundle is asked for.
const A_PACKAGE: &str = "this is a package of ICU's data: name an item inside it (resb list)";

/// What the reader says of a pool bundle that isn't the file's.
const OTHER_POOL: &str = "pool bundle has another checksum";

/// Why a file has no tree.
#[derive(Clone, Copy)]
pub(crate) struct Refusal<'e> {
    /// What kind of cause it is, as JSON names it.
    pub(crate) kind: &'static str,
    cause: Cause<'e>,
}

/// What is said of a file without a tree.
#[derive(Clone, Copy)]
enum Cause<'e> {
    /// Words of this program.
    Words(&'static str),
    /// What the library says.
    Error(&'e FileError),
    /// What the library says, and the name of the pool bundle.
    OfPool(&'e FileError, &'e str),
}

impl<'e> Refusal<'e> {
    /// Why a file isn't read, beside the pool bundle of this name, if there is one.
    pub(crate) fn of(file: &[u8], e: &'e FileError, pool: Option<&'e str>) -> Refusal<'e> {
        let (kind, cause) = match (e, pool) {
            (FileError::Reading(e), _) if e.is_out_of_memory() => {
                ("out of memory", Cause::Words(NO_MEMORY))
            }
            (FileError::UsesPool, _) => ("pool bundle", Cause::Words(NO_POOL)),
            (FileError::Reading(inner), Some(pool)) if inner.message() == OTHER_POOL => {
                ("pool bundle", Cause::OfPool(e, pool))
            }
            _ if is_package(file) => ("package", Cause::Words(A_PACKAGE)),
            (FileError::Reading(inner), _) => (kind_of(inner), Cause::Error(e)),
            _ => ("limit", Cause::Error(e)),
        };
        Refusal { kind, cause }
    }
}

/// What kind of refusal of the reader's this is.
fn kind_of(e: &BinaryDeserializerError) -> &'static str {
    match e.kind() {
        ErrorKind::InvalidData => "invalid data",
        ErrorKind::UnsupportedFormat => "unsupported format",
        ErrorKind::ResourceTypeMismatch => "mismatched type",
        ErrorKind::OutOfMemory => "out of memory",
        ErrorKind::Unknown => "unknown",
    }
}

impl fmt::Display for Refusal<'_> {
    fn fmt<W: fmt::Write>(&self, f: &mut fmt::Formatter<W>) -> fmt::Result {
        match self.cause {
            Cause::Words(words) => f.write_str(words),
            Cause::Error(e) => write!(f, "{e}"),
            Cause::OfPool(e, pool) => {
                let pool = Shown(pool);
                write!(f, "{e}: {pool}")
            }
        }
    }
}

/// Says why a file isn't read, beside the pool bundle of this name, if there is one, and gives the
/// status of that.
pub(crate) fn refuse(
    rt: &HostRuntime,
    name: &str,
    file: &[u8],
    e: &FileError,
    pool: Option<&str>,
) -> u8 {
    complain(rt, name, Refusal::of(file, e, pool));
    1
}
