//! Why no file of a name is had, be it one of its own or an item of a package.
//! Why a file that is had has no tree is in `refusal`.
use crate::input::split_package;
use crate::say::{complain, fail_input, refuse_memory};
use crate::shown::Shown;
use crate::streams::{InputError, NO_MEMORY};
use resb_package::PackageError;
use resb_swap::{PackageSwapError, SwapError};
use std::fmt;

/// Why no file is had.
#[derive(Clone, Copy)]
pub(crate) enum Unread {
    /// The file, or the package that it stands in, isn't had as a stream of bytes.
    Input(InputError),
    /// What has the front of its name is no package.
    Package(PackageError),
    /// The package is of another order of bytes, and its table isn't mirrored.
    Table(PackageSwapError),
    /// The package has no item of this name.
    NoItem,
    /// The file is of another order of bytes, and isn't mirrored.
    Order(SwapError),
    /// A request for memory was refused.
    Memory,
}

impl Unread {
    /// Says why the file of this name isn't had, and gives the status of that.
    pub(crate) fn say(self, rt: &HostRuntime, name: &str) -> u8 {
        let (front, item) = split_package(rt, name).unwrap_or((name, ""));
        match self {
            Unread::Input(e) => return fail_input(rt, front, e),
            Unread::Package(e) => complain(rt, front, e),
            Unread::Table(e) => complain(rt, front, e),
            Unread::NoItem => {
                let (front, item) = (Shown(front), Shown(item));
                let _ = eprintln!(rt; "{front}: no item is named {item}");
            }
            Unread::Order(e) => complain(rt, name, e),
            Unread::Memory => return refuse_memory(rt, name),
        }
        1
    }

    /// The status that this ends with.
    pub(crate) fn status(self) -> u8 {
        match self {
            Unread::Input(e) => e.status(),
            _ => 1,
        }
    }

    /// What kind of cause this is, as JSON names it.
    pub(crate) fn kind(self) -> &'static str {
        match self {
            Unread::Input(InputError::Failed(NO_MEMORY)) | Unread::Memory => "out of memory",
            Unread::Input(InputError::Failed(_)) => "input",
            Unread::Input(InputError::Larger(_)) => "limit",
            Unread::Package(_) | Unread::Table(_) | Unread::NoItem => "package",
            Unread::Order(SwapError::Ebcdic) => "unsupported format",
            Unread::Order(_) => "invalid data",
        }
    }
}

impl From<SwapError> for Unread {
    fn from(e: SwapError) -> Unread {
        match e {
            SwapError::NoMemory => Unread::Memory,
            e => Unread::Order(e),
        }
    }
}

impl From<PackageSwapError> for Unread {
    fn from(e: PackageSwapError) -> Unread {
        match e {
            PackageSwapError::NoMemory => Unread::Memory,
            e => Unread::Table(e),
        }
    }
}

impl fmt::Display for Unread {
    fn fmt<W: fmt::Write>(&self, f: &mut fmt::Formatter<W>) -> fmt::Result {
        match self {
            Unread::Input(e) => write!(f, "{e}"),
            Unread::Package(e) => write!(f, "{e}"),
            Unread::Table(e) => write!(f, "{e}"),
            Unread::NoItem => write!(f, "the package has no item of this name"),
            Unread::Order(e) => write!(f, "{e}"),
            Unread::Memory => write!(f, "{NO_MEMORY}"),
        }
    }
}
