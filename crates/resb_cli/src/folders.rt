//! Folders in the place of files: one stands for the files right inside it that have an ending, in
//! the order of their names, as `FOLDER/*.txt` does for a shell.
//! What is done with the files is in the modules of the commands.
use crate::save::cause_of_writing;
use crate::say::fail;
use crate::streams::{NO_MEMORY, cause_of, made};
use crate::words::{NO_UTF8, is_marked, text_of};
use std::alloc::{AllocError, Global};
use std::fs;
use std::io::{self, Read};
use std::path::Path;
use std::rt::Files;

/// How many bytes are read of a folder at a time. A name has at most 255.
const BLOCK: usize = 1 << 15;

/// A file that is asked for, or a folder of which no file is had, with the cause of that.
#[derive(Drop)]
pub(crate) struct Named {
    pub(crate) name: String,
    pub(crate) fault: Option<&'static str>,
}

/// Which files in a folder are meant.
#[derive(Clone, Copy)]
pub(crate) struct Kind {
    ending: &'static str,
    /// What is said of a folder without any.
    none: &'static str,
}

/// The files that are compiled.
pub(crate) const TEXTS: Kind = Kind {
    ending: ".txt",
    none: "this folder has no .txt file",
};

/// The files that are checked.
pub(crate) const BUNDLES: Kind = Kind {
    ending: ".res",
    none: "this folder has no .res file",
};

/// The files of these names, where a folder's stands for the files of this kind in it, if one is
/// given, and else for itself.
pub(crate) fn named_files(
    rt: &HostRuntime,
    names: &[&str],
    kind: Option<Kind>,
) -> Result<Vec<Named>, &'static str> {
    let mut files = Vec::new(rt.alloc());
    for name in names.iter().copied() {
        match kind {
            Some(kind) if name != "-" && Path::new(name).is_dir(rt) => {
                add_folder(rt, &mut files, name, kind)?;
            }
            _ => add(rt.alloc(), &mut files, name, None)?,
        }
    }
    Ok(files)
}

/// Adds a name.
fn add(
    alloc: Global,
    files: &mut Vec<Named>,
    name: &str,
    fault: Option<&'static str>,
) -> Result<(), &'static str> {
    let name = made(String::from_str(alloc, name))?;
    match files.push(Named { name, fault }) {
        Ok(()) => Ok(()),
        Err(_) => Err(NO_MEMORY),
    }
}

/// Adds the files in a folder, or the folder itself where none is had.
fn add_folder(
    rt: &HostRuntime,
    files: &mut Vec<Named>,
    folder: &str,
    kind: Kind,
) -> Result<(), &'static str> {
    let found = match files_in(rt, folder, kind.ending) {
        Ok(found) => found,
        Err(e) => return add(rt.alloc(), files, folder, Some(cause_of(&e))),
    };
    if found.is_empty() {
        return add(rt.alloc(), files, folder, Some(kind.none));
    }
    for name in found.iter() {
        add(
            rt.alloc(),
            files,
            name.as_str(),
            pipe_fault(rt, name.as_str()),
        )?;
    }
    Ok(())
}

/// Why what has a name isn't read, if it is a device or a pipe, which may never end.
pub(crate) fn pipe_fault(rt: &HostRuntime, name: &str) -> Option<&'static str> {
    match fs::metadata(rt, name) {
        Ok(found) if !found.is_file() && !found.is_dir() => Some("this is a device or a pipe"),
        _ => None,
    }
}

/// Says why no file is written into a folder, where that isn't there, and gives the status.
pub(crate) fn check_folder(rt: &HostRuntime, name: &str) -> Result<(), u8> {
    let cause = match fs::metadata(rt, name) {
        _ if is_marked(name) => NO_UTF8,
        Ok(found) if found.is_dir() => return Ok(()),
        Ok(_) => "this is no folder",
        Err(e) => cause_of_writing(&e),
    };
    Err(fail(rt, name, cause))
}

/// The names of the files in a folder that have this ending, sorted. One that is no UTF-8 is
/// marked, so that it can't be opened by its name.
fn files_in(rt: &HostRuntime, folder: &str, ending: &str) -> io::Result<Vec<String>> {
    let mut path = String::from_str(rt.alloc(), folder)?;
    if !folder.ends_with('/') {
        path.push('/')?;
    }
    let names = names_in(rt, path.as_str())?;
    let mut found = Vec::new(rt.alloc());
    for name in names.split(|byte| *byte == 0) {
        if name.ends_with(ending.as_bytes()) && !name.starts_with(b".") {
            let path = path_of(rt.alloc(), path.as_bytes(), name)?;
            if !Path::new(path.as_str()).is_dir(rt) {
                found.push(path)?;
            }
        }
    }
    found.sort_unstable();
    Ok(found)
}

/// The names in the folder of a path, each with a zero byte behind it. The system gives whole
/// entries alone, and none to a read that has no room for the next one.
fn names_in(rt: &HostRuntime, path: &str) -> io::Result<Vec<u8>> {
    let mut folder = rt.open_dir(path)?;
    let mut block = Vec::new(rt.alloc());
    block.resize(BLOCK, 0u8)?;
    let mut names = Vec::new(rt.alloc());
    for _ in 0..u64::MAX {
        let length = folder.read(block.as_mut_slice())?;
        match block.get(..length) {
            Some(read) if !read.is_empty() => names.extend_from_slice(read)?,
            _ => break,
        }
    }
    Ok(names)
}

/// The path of a name in a folder.
fn path_of(alloc: Global, folder: &[u8], name: &[u8]) -> Result<String, AllocError> {
    let mut path = Vec::from_slice(alloc, folder)?;
    path.extend_from_slice(name)?;
    text_of(alloc, path.as_slice())
}
