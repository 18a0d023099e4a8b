//! Which files a call reads, and which it writes: none that it reads is written over, and none is
//! written twice. A file is known by its device and its number there, so that it is found by any
//! spelling of its name and through any link. Where the bytes for a name go is in `place`.
use crate::input::split_package;
use crate::place::{Place, folder_of, place_of};
use crate::say::complain;
use crate::shown::Shown;
use crate::streams::NO_MEMORY;
use std::alloc::{AllocError, Global};
use std::collections::BTreeMap;
use std::fs::{self, Metadata};
use std::os::unix::fs::MetadataExt;
use std::path::Path;
use std::{fmt, mem};

/// A file or a folder, as the system knows it.
#[derive(Clone, Copy, PartialEq, Eq, PartialOrd, Ord)]
struct FileId {
    device: u64,
    number: u64,
}

impl FileId {
    /// What stands in the place of an identity where nothing has one.
    const NONE: FileId = FileId {
        device: 0,
        number: 0,
    };

    /// Which file these are the data of.
    fn of(found: &Metadata) -> FileId {
        FileId {
            device: found.dev(),
            number: found.ino(),
        }
    }
}

/// Where a file is written: its name in a folder. What is open already has no name there.
#[derive(PartialEq, Eq, PartialOrd, Ord, Drop)]
struct Spot {
    folder: FileId,
    name: String,
}

/// Why a file isn't written.
#[derive(Drop)]
pub(crate) enum Conflict {
    Memory,
    /// It would take the place of one that the call reads under the second name.
    IsRead(String, String),
    /// It has been written already, for what has the second name.
    IsWritten(String, String),
}

impl Conflict {
    /// Whether a place is taken for what is the same file as that of a name.
    fn is_of_text(&self, rt: &HostRuntime, name: &str) -> bool {
        let Conflict::IsWritten(_, other) = self else {
            return false;
        };
        match (fs::metadata(rt, name), fs::metadata(rt, other.as_str())) {
            (Ok(one), Ok(other)) => FileId::of(&one) == FileId::of(&other),
            _ => false,
        }
    }
}

impl From<AllocError> for Conflict {
    fn from(_: AllocError) -> Conflict {
        Conflict::Memory
    }
}

impl fmt::Display for Conflict {
    fn fmt<W: fmt::Write>(&self, f: &mut fmt::Formatter<W>) -> fmt::Result {
        match self {
            Conflict::Memory => f.write_str(NO_MEMORY),
            Conflict::IsRead(file, read) => {
                let (file, read) = (Shown(file.as_str()), Shown(read.as_str()));
                write!(
                    f,
                    "writing {file} would replace {read}, which this call reads"
                )
            }
            Conflict::IsWritten(file, other) => {
                let (file, other) = (Shown(file.as_str()), Shown(other.as_str()));
                write!(f, "its file {file} is that of {other} too")
            }
        }
    }
}

/// What a call reads, and what it has written.
#[derive(Drop)]
pub(crate) struct Taken {
    /// The names of what is read, of which it isn't known yet which files they are.
    named: Vec<String>,
    /// The files that are read, with the names by which they are.
    read: BTreeMap<FileId, String>,
    /// Which folders are known by these names.
    folders: BTreeMap<String, FileId>,
    /// For what a file is written at each place, and whether none stood there before.
    written: BTreeMap<Spot, (String, bool)>,
    /// For what each file is written that was open already.
    open: BTreeMap<FileId, String>,
}

impl Taken {
    /// Nothing is read or written yet.
    pub(crate) fn new(rt: &HostRuntime) -> Taken {
        let alloc = rt.alloc();
        Taken {
            named: Vec::new(alloc),
            read: BTreeMap::new(alloc),
            folders: BTreeMap::new(alloc),
            written: BTreeMap::new(alloc),
            open: BTreeMap::new(alloc),
        }
    }

    /// Notes the name of what is read; `-` is standard input. Which file that is, is asked only
    /// where something is to be written over.
    pub(crate) fn add_read(&mut self, alloc: Global, name: &str) -> Result<(), AllocError> {
        self.named.push(String::from_str(alloc, name)?)?;
        Ok(())
    }

    /// Notes the name of a file that is read, or of an item of a package that is.
    pub(crate) fn add_input(&mut self, rt: &HostRuntime, name: &str) -> Result<(), AllocError> {
        match split_package(rt, name) {
            Some((package, _)) => self.add_read(rt.alloc(), package),
            None => self.add_read(rt.alloc(), name),
        }
    }

    /// Takes the place of the file that is written for what has a name, or says what stands against
    /// it.
    fn take(&mut self, rt: &HostRuntime, name: &str, place: &Place) -> Result<(), Conflict> {
        match place {
            Place::Inside(path) => self.take_open(rt, name, path.as_path()),
            Place::Stream if Path::new("/dev/stdout").is_file(rt) => {
                self.take_open(rt, name, Path::new("/dev/stdout"))
            }
            Place::Stream => {
                let spot = spot_named(rt.alloc(), FileId::NONE, "-")?;
                self.take_spot(rt.alloc(), name, "-", (spot, true))
            }
            Place::Beside(path, old) => {
                let path = path.as_path();
                if let Some(old) = old {
                    self.check(rt, path.as_str(), FileId::of(old))?;
                }
                let spot = self.spot_of(rt, path)?;
                self.take_spot(rt.alloc(), name, path.as_str(), (spot, old.is_none()))
            }
        }
    }

    /// Takes the place of the file that is written for what has a name; or gives the status, once
    /// it is said what stands against it.
    pub(crate) fn take_or_say(
        &mut self,
        rt: &HostRuntime,
        name: &str,
        place: &Place,
    ) -> Result<(), u8> {
        match self.take(rt, name, place) {
            Ok(()) => Ok(()),
            Err(conflict) => {
                complain(rt, name, conflict);
                Err(2)
            }
        }
    }

    /// Takes the place of the file of the text of a name, or gives the status, once it is said what
    /// stands against it. The answer is no where this call has written the file of that very text
    /// before, under this name or another.
    pub(crate) fn take_for_text(
        &mut self,
        rt: &HostRuntime,
        name: &str,
        place: &Place,
    ) -> Result<bool, u8> {
        match self.take(rt, name, place) {
            Ok(()) => Ok(true),
            Err(conflict) => {
                if conflict.is_of_text(rt, name) {
                    return Ok(false);
                }
                complain(rt, name, conflict);
                Err(2)
            }
        }
    }

    /// Refuses again to write over the file that a path has now, which may have been read since its
    /// place was taken.
    pub(crate) fn check_again(&mut self, rt: &HostRuntime, path: Path<'_>) -> Result<(), Conflict> {
        match fs::symlink_metadata(rt, path) {
            Ok(found) => self.check(rt, path.as_str(), FileId::of(&found)),
            Err(_) => Ok(()),
        }
    }

    /// For what the file of a name was written by this call, if it was, where none stood before.
    /// One that stood there stays until all is read.
    pub(crate) fn written_for(
        &mut self,
        rt: &HostRuntime,
        name: &str,
    ) -> Result<Option<&str>, AllocError> {
        if self.written.is_empty() {
            return Ok(None);
        }
        let Ok(Place::Beside(path, _)) = place_of(rt, name) else {
            return Ok(None);
        };
        let spot = self.spot_of(rt, path.as_path())?;
        match self.written.get(&spot) {
            Some((text, true)) => Ok(Some(text.as_str())),
            _ => Ok(None),
        }
    }

    /// Takes what is open already, if it is a file: a device and a pipe may be written by many.
    fn take_open(&mut self, rt: &HostRuntime, name: &str, path: Path<'_>) -> Result<(), Conflict> {
        let id = match fs::metadata(rt, path) {
            Ok(found) if found.is_file() => FileId::of(&found),
            _ => return Ok(()),
        };
        self.check(rt, path.as_str(), id)?;
        let name = String::from_str(rt.alloc(), name)?;
        match self.open.insert(id, name) {
            Ok(_) => Ok(()),
            Err(_) => Err(Conflict::Memory),
        }
    }

    /// Refuses to write over a file that is read, or that was written while it was open.
    fn check(&mut self, rt: &HostRuntime, path: &str, id: FileId) -> Result<(), Conflict> {
        self.look_up(rt)?;
        let alloc = rt.alloc();
        let path = String::from_str(alloc, path)?;
        if let Some(read) = self.read.get(&id) {
            return Err(Conflict::IsRead(path, String::from_str(alloc, read.as_str())?));
        }
        if let Some(other) = self.open.get(&id) {
            return Err(Conflict::IsWritten(path, String::from_str(alloc, other.as_str())?));
        }
        Ok(())
    }

    /// Takes a place, if no file was written there.
    fn take_spot(
        &mut self,
        alloc: Global,
        name: &str,
        path: &str,
        (spot, is_new): (Spot, bool),
    ) -> Result<(), Conflict> {
        if let Some((other, _)) = self.written.get(&spot) {
            let other = String::from_str(alloc, other.as_str())?;
            return Err(Conflict::IsWritten(String::from_str(alloc, path)?, other));
        }
        let name = String::from_str(alloc, name)?;
        match self.written.insert(spot, (name, is_new)) {
            Ok(_) => Ok(()),
            Err(_) => Err(Conflict::Memory),
        }
    }

    /// Asks which files the names are that were noted since this was asked last.
    fn look_up(&mut self, rt: &HostRuntime) -> Result<(), AllocError> {
        let named = mem::replace(&mut self.named, Vec::new(rt.alloc()));
        for name in named {
            let path = if name.as_str() == "-" {
                "/dev/stdin"
            } else {
                name.as_str()
            };
            if let Ok(found) = fs::metadata(rt, path) {
                self.read.insert(FileId::of(&found), name)?;
            }
        }
        Ok(())
    }

    /// The place that a path names.
    fn spot_of(&mut self, rt: &HostRuntime, path: Path<'_>) -> Result<Spot, AllocError> {
        let folder = self.folder_id(rt, folder_of(path).as_str())?;
        match path.file_name() {
            Some(name) if folder != FileId::NONE => spot_named(rt.alloc(), folder, name),
            _ => spot_named(rt.alloc(), FileId::NONE, path.as_str()),
        }
    }

    /// Which folder has a name, asked once.
    fn folder_id(&mut self, rt: &HostRuntime, name: &str) -> Result<FileId, AllocError> {
        if let Some(id) = self.folders.get(name) {
            return Ok(*id);
        }
        let id = match fs::metadata(rt, name) {
            Ok(found) => FileId::of(&found),
            Err(_) => return Ok(FileId::NONE),
        };
        let name = String::from_str(rt.alloc(), name)?;
        self.folders.insert(name, id)?;
        Ok(id)
    }
}

/// The place of a name in a folder.
fn spot_named(alloc: Global, folder: FileId, name: &str) -> Result<Spot, AllocError> {
    let name = String::from_str(alloc, name)?;
    Ok(Spot { folder, name })
}
