//! How a content comes to a place: a file is written beside it and moved over, so that a write that
//! fails leaves the old one; all else is written where it is. Where a name leads is in `place`.
use crate::place::{Place, folder_of};
use crate::streams::{NO_MEMORY, read_input};
use std::alloc::Global;
use std::fs::{self, File, Metadata, OpenOptions, Permissions};
use std::io::{self, ErrorKind, Write};
use std::os::unix::fs::{MetadataExt, OpenOptionsExt, PermissionsExt, fchown};
use std::path::{Path, PathBuf};
use std::process;

/// The most names that are tried for the file that is written beside.
const MOST_NAMES: usize = 100;

/// What is written to a place.
pub(crate) trait Content {
    /// Writes all of it. Where that fails, a part of it may have been written.
    fn write_to<W: Write>(&self, alloc: Global, out: &mut W) -> io::Result<()>;
}

/// Bytes that are there.
#[derive(Clone, Copy)]
pub(crate) struct Bytes<'b>(pub(crate) &'b [u8]);

impl Content for Bytes<'_> {
    fn write_to<W: Write>(&self, _alloc: Global, out: &mut W) -> io::Result<()> {
        out.write_all(self.0)
    }
}

/// When a file that is written counts as written.
#[derive(Clone, Copy, PartialEq, Eq)]
pub(crate) enum Until {
    /// When the system has it. After a loss of power the old file may stand there, or an empty one.
    Given,
    /// When the disk has it, and its name in the folder.
    OnDisk,
}

/// Writes a content to a place. The disk isn't waited for.
pub(crate) fn save<C: Content>(rt: &HostRuntime, place: &Place, content: &C) -> io::Result<()> {
    save_until(rt, place, content, Until::Given)
}

/// Writes a content to a place, and waits for the disk where that is asked for.
pub(crate) fn save_until<C: Content>(
    rt: &HostRuntime,
    place: &Place,
    content: &C,
    until: Until,
) -> io::Result<()> {
    match place {
        Place::Stream => print(rt, content),
        Place::Inside(path) => write_inside(rt, path.as_path(), content),
        Place::Beside(path, old) => {
            let manner = Manner { until, number: 0 };
            Part::write(rt, path.as_path(), old.as_ref(), content, manner)?.settle(rt)
        }
    }
}

/// Whether a file with these bytes stands at a place already.
pub(crate) fn stands_there(rt: &HostRuntime, place: &Place, bytes: &[u8]) -> bool {
    match place {
        Place::Beside(path, Some(old)) if old.len() == bytes.len() as u64 => {
            let there = read_input(rt, path.as_path().as_str(), Some(old.len()));
            there.is_ok_and(|there| there.as_slice() == bytes)
        }
        _ => false,
    }
}

/// What a call of `save` did, by what a failure is called.
pub(crate) fn saved(place: &Place, done: io::Result<()>) -> Result<(), &'static str> {
    match (place, done) {
        (_, Ok(())) => Ok(()),
        (Place::Stream, Err(e)) => Err(cause_of_printing(&e)),
        (_, Err(e)) => Err(cause_of_writing(&e)),
    }
}

/// Writes a content to standard output, and flushes it.
pub(crate) fn print<C: Content>(rt: &HostRuntime, content: &C) -> io::Result<()> {
    let mut out = rt.stdout();
    content.write_to(rt.alloc(), &mut out)?;
    out.flush()
}

/// What a failed call on standard output is called.
pub(crate) fn cause_of_printing(e: &io::Error) -> &'static str {
    match e.kind() {
        ErrorKind::OutOfMemory => NO_MEMORY,
        _ => "standard output cannot be written",
    }
}

/// What a failed call on a file that is written is called.
pub(crate) fn cause_of_writing(e: &io::Error) -> &'static str {
    match e.kind() {
        ErrorKind::OutOfMemory => NO_MEMORY,
        ErrorKind::NotFound => "no such folder",
        ErrorKind::PermissionDenied | ErrorKind::ReadOnlyFilesystem => "permission denied",
        ErrorKind::IsADirectory => "this is a folder",
        ErrorKind::InvalidFilename => "file name too long",
        ErrorKind::StorageFull | ErrorKind::QuotaExceeded => "no room is left for this",
        ErrorKind::AlreadyExists => "cannot be written, since the names beside it are taken",
        _ => "cannot be written",
    }
}

/// Writes a content into what is there. A file that a process has open gets it behind its own.
fn write_inside<C: Content>(rt: &HostRuntime, path: Path<'_>, content: &C) -> io::Result<()> {
    let is_file = path.is_file(rt);
    let mut options = OpenOptions::new();
    options.write(!is_file).append(is_file);
    let mut file = options.open(rt, path)?;
    content.write_to(rt.alloc(), &mut file)
}

/// How a file is written beside its place.
#[derive(Clone, Copy)]
pub(crate) struct Manner {
    pub(crate) until: Until,
    /// The first of the numbers by which its name is free.
    pub(crate) number: usize,
}

/// A file that is written beside its place, and not moved there yet.
#[derive(Drop)]
pub(crate) struct Part {
    beside: PathBuf,
    path: PathBuf,
    until: Until,
}

impl Part {
    /// Writes a content beside a path, at which the old file stands, if there is one.
    pub(crate) fn write<C: Content>(
        rt: &HostRuntime,
        path: Path<'_>,
        old: Option<&Metadata>,
        content: &C,
        manner: Manner,
    ) -> io::Result<Part> {
        let Manner { until, number } = manner;
        let place = PathBuf::from_str(rt.alloc(), path.as_str())?;
        let (mut file, beside) = new_file(rt, path, old.is_some(), number)?;
        let mut filled = fill(rt, &mut file, old, content);
        if until == Until::OnDisk && filled.is_ok() {
            filled = sync(&file);
        }
        let part = Part {
            beside,
            path: place,
            until,
        };
        match filled {
            Ok(()) => Ok(part),
            Err(e) => {
                part.remove(rt);
                Err(e)
            }
        }
    }

    /// The path of its place.
    pub(crate) fn path(&self) -> Path<'_> {
        self.path.as_path()
    }

    /// Moves it to its place, or removes it where that fails.
    pub(crate) fn settle(self, rt: &HostRuntime) -> io::Result<()> {
        let moved = fs::rename(rt, self.beside.as_path(), self.path());
        if moved.is_err() {
            self.remove(rt);
            return moved;
        }
        match self.until {
            Until::Given => Ok(()),
            Until::OnDisk => sync(&fs::open(rt, folder_of(self.path()))?),
        }
    }

    /// Removes it.
    pub(crate) fn remove(&self, rt: &HostRuntime) {
        let _ = fs::remove_file(rt, self.beside.as_path());
    }
}

/// A new file beside this path, and its name. Nobody else may read it, where it is to take the
/// place of one that has a mode.
fn new_file(
    rt: &HostRuntime,
    path: Path<'_>,
    is_private: bool,
    first: usize,
) -> io::Result<(File, PathBuf)> {
    let mut options = OpenOptions::new();
    options
        .write(true)
        .create_new(true)
        .mode(if is_private { 0o600 } else { 0o666 });
    for number in 0..MOST_NAMES {
        let name = name_beside(rt, path, first.saturating_add(number))?;
        match options.open(rt, name.as_path()) {
            Ok(file) => return Ok((file, name)),
            Err(e) if e.kind() == ErrorKind::AlreadyExists => {}
            Err(e) => return Err(e),
        }
    }
    Err(io::Error::from(ErrorKind::AlreadyExists))
}

/// A name in the folder of this path.
fn name_beside(rt: &HostRuntime, path: Path<'_>, number: usize) -> io::Result<PathBuf> {
    let id = process::id(rt.process());
    let name = format!(in rt.alloc(); ".resb-{id}-{number}.part")?;
    Ok(path.with_file_name(rt.alloc(), name.as_str())?)
}

/// Gives a new file the mode of the old one and this content.
fn fill<C: Content>(
    rt: &HostRuntime,
    file: &mut File,
    old: Option<&Metadata>,
    content: &C,
) -> io::Result<()> {
    if let Some(old) = old {
        keep_rights(file, old)?;
    }
    content.write_to(rt.alloc(), file)
}

/// Waits until the disk has a file or a folder.
fn sync(file: &File) -> io::Result<()> {
    match file.sync_all() {
        // some systems of files have no such call
        Err(e) if matches!(e.kind(), ErrorKind::InvalidInput | ErrorKind::Unsupported) => Ok(()),
        synced => synced,
    }
}

/// Gives a new file the rights of the old one to read, write and run it, and its owner and group
/// where the system lets it. What a group may do that isn't kept, no other group may.
fn keep_rights(file: &File, old: &Metadata) -> io::Result<()> {
    let has_group = fchown(file, Some(old.uid()), Some(old.gid())).is_ok()
        || fchown(file, None, Some(old.gid())).is_ok();
    let rights = if has_group { 0o777 } else { 0o707 };
    file.set_permissions(Permissions::from_mode(old.mode() & rights))
}
