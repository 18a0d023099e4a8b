//! Where the bytes for a name go: links are followed to what they lead to.
//! How bytes come there is in `save`.
use crate::streams::{NO_MEMORY, cause_of, made};
use crate::words::{NO_UTF8, is_marked};
use std::fs::{self, Metadata};
use std::io::ErrorKind;
use std::path::{Path, PathBuf};

/// The most links that are followed, as many as the system follows.
const MOST_LINKS: u8 = 40;

/// Where bytes go.
#[derive(Drop)]
pub(crate) enum Place {
    /// To standard output.
    Stream,
    /// Into what has this name: a device, a pipe, or what a process has open.
    Inside(PathBuf),
    /// To a file of this name, in place of the one that may be there.
    Beside(PathBuf, Option<Metadata>),
}

/// What has a name.
#[derive(Drop)]
enum Kind {
    /// A link by its text.
    Link,
    /// The system's link to what this process has open as standard output.
    Stream,
    /// A device, a pipe, or what a process has open.
    Open,
    /// A file, or nothing yet.
    File(Option<Metadata>),
}

/// The place of a name, of which `-` is standard output.
pub(crate) fn place_of(rt: &HostRuntime, name: &str) -> Result<Place, &'static str> {
    if name == "-" {
        return Ok(Place::Stream);
    }
    if is_marked(name) {
        return Err(NO_UTF8);
    }
    if name.is_empty() {
        return Err("this is no name of a file");
    }
    followed(rt, made(PathBuf::from_str(rt.alloc(), name))?)
}

/// The place to which a path leads.
fn followed(rt: &HostRuntime, path: PathBuf) -> Result<Place, &'static str> {
    let mut path = path;
    for _ in 0..MOST_LINKS {
        match kind_of(rt, path.as_path())? {
            Kind::Link => path = target_of(rt, path.as_path())?,
            Kind::Stream => return Ok(Place::Stream),
            Kind::Open => return Ok(Place::Inside(path)),
            Kind::File(old) => return Ok(Place::Beside(path, old)),
        }
    }
    Err("too many links")
}

/// What has this path.
fn kind_of(rt: &HostRuntime, path: Path<'_>) -> Result<Kind, &'static str> {
    match fs::symlink_metadata(rt, path) {
        Ok(found) if found.is_symlink() => kind_of_link(rt, path),
        Ok(found) if found.is_dir() => Err("this is a folder"),
        Ok(found) if found.is_file() => Ok(Kind::File(Some(found))),
        Ok(_) => Ok(Kind::Open),
        Err(e) if e.kind() == ErrorKind::NotFound => Ok(Kind::File(None)),
        Err(e) => Err(cause_of(&e)),
    }
}

/// What kind of link has this path, if the system lets this process follow it: in a folder such as
/// `/tmp` it may not follow those of others.
fn kind_of_link(rt: &HostRuntime, path: Path<'_>) -> Result<Kind, &'static str> {
    match fs::metadata(rt, path) {
        Err(e) if e.kind() == ErrorKind::PermissionDenied => Err(cause_of(&e)),
        _ => kind_by_folder(rt, path),
    }
}

/// What kind of link has this path. Those to what is open stand in folders of `/proc`.
fn kind_by_folder(rt: &HostRuntime, path: Path<'_>) -> Result<Kind, &'static str> {
    match fs::canonicalize(rt, folder_of(path)) {
        Ok(folder) if folder.as_path().starts_with("/proc") => {
            Ok(kind_of_open(rt, folder.as_path(), path))
        }
        Err(e) if e.kind() == ErrorKind::OutOfMemory => Err(NO_MEMORY),
        _ => Ok(Kind::Link),
    }
}

/// What kind of link has this path, in a folder of `/proc`.
fn kind_of_open(rt: &HostRuntime, folder: Path<'_>, path: Path<'_>) -> Kind {
    if folder.as_str() == "/proc" {
        return Kind::Link;
    }
    match fs::canonicalize(rt, "/proc/self/fd") {
        Ok(own) if own.as_path() == folder && path.file_name() == Some("1") => Kind::Stream,
        _ => Kind::Open,
    }
}

/// The folder in which a path stands.
pub(crate) fn folder_of(path: Path<'_>) -> Path<'_> {
    match path.parent() {
        Some(folder) if !folder.as_str().is_empty() => folder,
        _ => Path::new("."),
    }
}

/// The path to which a link leads.
fn target_of(rt: &HostRuntime, link: Path<'_>) -> Result<PathBuf, &'static str> {
    match fs::read_link(rt, link) {
        Ok(target) => made(folder_of(link).join(rt.alloc(), target.as_path())),
        Err(e) if e.kind() == ErrorKind::InvalidFilename => {
            Err("this leads to a name that is no UTF-8")
        }
        Err(e) => Err(cause_of(&e)),
    }
}
