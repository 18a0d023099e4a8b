//! Texts as they stand in their files, and as they are compiled where they take other files in.
//! What a text is taken in as is said in `resb_icu_files`; how it is compiled is in `compile`.
use crate::folders::pipe_fault;
use crate::say::{complain, refuse_memory, say_at};
use crate::shown::Shown;
use crate::streams::{InputError, most_bytes, read_input};
use resb_diagnostics::location_of;
use resb_icu_files::{
    FileNamed, FilesError, TakenIn, TextFile, files_taken, may_take_files, with_files,
};
use resb_words::FileWords;
use std::alloc::{AllocError, Global};
use std::collections::BTreeMap;
use std::io::ErrorKind;
use std::path::{Path, PathBuf};
use std::{fmt, fs};

/// How many missing files are named that a text depends on; of the others the number is said.
const MOST_MISSING: usize = 20;

/// The most files that a text takes in.
const MOST_FILES: usize = 1000;

/// A text with the files written into it that it takes in, and the paths of these.
#[derive(Drop)]
pub(crate) struct WithFiles {
    taken: TakenIn,
    pub(crate) paths: Vec<String>,
}

/// A text, and what it is taken in as, if it takes other files in.
#[derive(Clone, Copy)]
pub(crate) struct SourceText<'s> {
    read: &'s str,
    taken: Option<&'s TakenIn>,
}

impl<'s> SourceText<'s> {
    /// A text as it was read, and with the files that it takes in.
    pub(crate) fn new(read: &'s str, whole: Option<&'s WithFiles>) -> SourceText<'s> {
        let taken = match whole {
            Some(whole) => Some(&whole.taken),
            None => None,
        };
        SourceText { read, taken }
    }

    /// The text as it stands in its file.
    pub(crate) fn read(&self) -> &'s str {
        self.read
    }

    /// The text that is compiled.
    pub(crate) fn whole(&self) -> &'s str {
        match self.taken {
            Some(taken) => taken.text(),
            None => self.read,
        }
    }

    /// Whether the text depends on files.
    pub(crate) fn has_dependencies(&self) -> bool {
        match self.taken {
            Some(taken) => !taken.dependencies().is_empty(),
            None => false,
        }
    }

    /// Where a place of the text that is compiled stands in the file.
    pub(crate) fn place_in_file(&self, place: usize) -> usize {
        match self.taken {
            Some(taken) => taken.place_before(place),
            None => place,
        }
    }

    /// Says which of the files that the text depends on aren't in a folder, and answers whether
    /// there are such. The first are named; of the others the number is said.
    pub(crate) fn warn_of_missing(&self, rt: &HostRuntime, name: &str, folder: &str) -> bool {
        let Some(taken) = self.taken else {
            return false;
        };
        let mut missing = 0usize;
        for file in taken.dependencies() {
            let Ok(path) = path_in(rt.alloc(), folder, file.name.as_str()) else {
                complain(rt, name, "its dependencies are not known: out of memory");
                return true;
            };
            let path = path.as_str();
            if Path::new(path).exists(rt) {
                continue;
            }
            if missing < MOST_MISSING {
                let at = location_of(self.read.as_bytes(), file.place);
                say_at(rt, name, at, NoDependency(path));
            }
            missing = missing.saturating_add(1);
        }
        if missing > MOST_MISSING {
            complain(rt, name, MoreMissing(missing - MOST_MISSING));
        }
        missing > 0
    }
}

/// What is said of the files that a text depends on, that aren't there, and that aren't named.
#[derive(Clone, Copy)]
struct MoreMissing(usize);

impl fmt::Display for MoreMissing {
    fn fmt<W: fmt::Write>(&self, f: &mut fmt::Formatter<W>) -> fmt::Result {
        match self.0 {
            1 => f.write_str("warning: 1 more file is missing, on which this depends"),
            more => write!(
                f,
                "warning: {more} more files are missing, on which this depends"
            ),
        }
    }
}

/// What is said of a file that a text depends on, and that isn't there.
#[derive(Clone, Copy)]
struct NoDependency<'p>(&'p str);

impl fmt::Display for NoDependency<'_> {
    fn fmt<W: fmt::Write>(&self, f: &mut fmt::Formatter<W>) -> fmt::Result {
        let path = Shown(self.0);
        write!(f, "warning: there is no file {path}, on which this depends")
    }
}

/// Why a file can't be taken in.
#[derive(Clone, Copy)]
enum Cause {
    /// It isn't read.
    Unread(InputError),
    /// With it the text may have more bytes than this, which is the most.
    Larger(u64),
    /// With it the text takes in more files than it may.
    TooMany,
    /// It isn't in the folder whose files the text takes in.
    Outside,
    /// It is no text.
    NotUtf8,
    /// Its rules have an escape that says no character.
    NoRules,
    /// Its rules of collation have such an escape, or end in a comment or in brackets.
    NoCollationRules,
}

/// What is said of a file that can't be taken in.
#[derive(Clone, Copy)]
struct NotTaken<'p> {
    path: &'p str,
    cause: Cause,
}

impl fmt::Display for NotTaken<'_> {
    fn fmt<W: fmt::Write>(&self, f: &mut fmt::Formatter<W>) -> fmt::Result {
        let path = Shown(self.path);
        match self.cause {
            Cause::Unread(cause) => write!(f, "this takes in {path}: {cause}"),
            Cause::Larger(most) => write!(
                f,
                "this takes in {path}, so that the text may have more than {most} bytes"
            ),
            Cause::TooMany => {
                write!(
                    f,
                    "this takes in {path}, and {MOST_FILES} other files before it"
                )
            }
            Cause::Outside => {
                write!(f, "this takes in {path}, which is outside of its folder;")?;
                f.write_str(" --include-outside allows that")
            }
            Cause::NotUtf8 => write!(f, "this takes in the text of {path}, which is no UTF-8"),
            Cause::NoRules => {
                write!(
                    f,
                    "this takes in the rules of {path}, where a \\u says no character"
                )
            }
            Cause::NoCollationRules => {
                write!(
                    f,
                    "this takes in the rules of {path}, where an escape says no"
                )?;
                f.write_str(" character, or a comment or a [ has no end")
            }
        }
    }
}

/// A text that takes other files in, and how it may.
#[derive(Clone, Copy)]
struct Taking<'t> {
    name: &'t str,
    text: &'t str,
    /// The folder of the files, if it isn't the text's own.
    folder: Option<&'t str>,
    /// Whether they may be outside of that folder.
    may_leave: bool,
}

/// Where the files may be that a text takes in.
#[derive(Drop)]
enum Bounds {
    Anywhere,
    /// Below the folder of this real path.
    Below(PathBuf),
    /// Nowhere, since the real path of their folder isn't known.
    Unknown,
}

/// The files that a text takes in, each once.
#[derive(Drop)]
struct Found {
    files: Vec<TextFile>,
    /// Their paths.
    paths: Vec<String>,
    /// How many bytes the file of a name has.
    lengths: BTreeMap<String, usize>,
}

/// What the text of a name is taken in as, if it may take other files in; or the status, once it is
/// said which of them isn't had. They are in the folder that the words say, or in the text's own.
pub(crate) fn taken_in(
    rt: &HostRuntime,
    name: &str,
    text: &str,
    wanted: &FileWords<'_>,
    limit: Option<u64>,
) -> Result<Option<WithFiles>, u8> {
    if !may_take_files(text) {
        return Ok(None);
    }
    let taking = Taking {
        name,
        text,
        folder: wanted.takes_from,
        may_leave: wanted.includes_outside,
    };
    let found = taking.files(rt, limit)?;
    let taken = taking.whole(rt, found.files.as_slice())?;
    let paths = found.paths;
    Ok(Some(WithFiles { taken, paths }))
}

/// The path of a file in a folder.
fn path_in(alloc: Global, folder: &str, name: &str) -> Result<String, AllocError> {
    format!(in alloc; "{folder}/{name}")
}

impl Taking<'_> {
    /// The text with these files.
    fn whole(&self, rt: &HostRuntime, files: &[TextFile]) -> Result<TakenIn, u8> {
        let (file, cause) = match with_files(rt.alloc(), self.text, files) {
            Ok(taken) => return Ok(taken),
            Err(FilesError::NotUtf8(file)) => (file, Cause::NotUtf8),
            Err(FilesError::NoRules(file)) => (file, Cause::NoRules),
            Err(FilesError::NoCollationRules(file)) => (file, Cause::NoCollationRules),
            Err(FilesError::Missing(file)) => {
                (file, Cause::Unread(InputError::Failed("no such file")))
            }
            Err(FilesError::OutOfMemory) => return Err(refuse_memory(rt, self.name)),
        };
        Err(self.refuse(rt, &file, cause))
    }

    /// The folder in which the files are.
    fn files_folder(&self) -> &str {
        match (self.folder, self.name.rsplit_once('/')) {
            (Some(folder), _) => folder,
            (None, Some((folder, _))) => folder,
            (None, None) => ".",
        }
    }

    /// The files that the text takes in, each once. The text with them has no more bytes than a
    /// text may have.
    fn files(&self, rt: &HostRuntime, limit: Option<u64>) -> Result<Found, u8> {
        let Ok(named) = files_taken(rt.alloc(), self.text) else {
            return Err(refuse_memory(rt, self.name));
        };
        let bounds = self.bounds(rt);
        let most = most_bytes(limit);
        let mut length = self.text.len() as u64;
        let mut found = Found {
            files: Vec::new(rt.alloc()),
            paths: Vec::new(rt.alloc()),
            lengths: BTreeMap::new(rt.alloc()),
        };
        for file in named {
            let known = found.lengths.get(file.name.as_str()).copied();
            let bytes = match known {
                Some(_) => Vec::new(rt.alloc()),
                None if found.files.len() == MOST_FILES => {
                    return Err(self.refuse(rt, &file, Cause::TooMany));
                }
                None => self.bytes(rt, &file, &bounds, limit)?,
            };
            length = length.saturating_add(longest(known.unwrap_or(bytes.len())));
            if length > most {
                return Err(self.refuse(rt, &file, Cause::Larger(most)));
            }
            if known.is_none() && self.keep(rt, &mut found, file, bytes).is_err() {
                return Err(refuse_memory(rt, self.name));
            }
        }
        Ok(found)
    }

    /// Keeps the bytes of a file.
    fn keep(
        &self,
        rt: &HostRuntime,
        found: &mut Found,
        file: FileNamed,
        bytes: Vec<u8>,
    ) -> Result<(), AllocError> {
        let name = file.name;
        found
            .paths
            .push(path_in(rt.alloc(), self.files_folder(), name.as_str())?)?;
        let again = String::from_str(rt.alloc(), name.as_str())?;
        found.lengths.insert(again, bytes.len())?;
        found.files.push(TextFile { name, bytes })?;
        Ok(())
    }

    /// Where the files may be.
    fn bounds(&self, rt: &HostRuntime) -> Bounds {
        if self.may_leave {
            return Bounds::Anywhere;
        }
        let folder = match self.files_folder() {
            "" => "/",
            folder => folder,
        };
        match fs::canonicalize(rt, folder) {
            Ok(real) => Bounds::Below(real),
            Err(_) => Bounds::Unknown,
        }
    }

    /// The bytes of a file that the text takes in.
    fn bytes(
        &self,
        rt: &HostRuntime,
        file: &FileNamed,
        bounds: &Bounds,
        limit: Option<u64>,
    ) -> Result<Vec<u8>, u8> {
        let Ok(path) = path_in(rt.alloc(), self.files_folder(), file.name.as_str()) else {
            return Err(refuse_memory(rt, self.name));
        };
        if let Some(cause) = barred(rt, path.as_str(), bounds) {
            return Err(self.refuse(rt, file, cause));
        }
        match read_input(rt, path.as_str(), limit) {
            Ok(bytes) => Ok(bytes),
            Err(cause) => Err(self.refuse(rt, file, Cause::Unread(cause))),
        }
    }

    /// Says why a file isn't taken in, at the place of its group, and gives the status of that.
    fn refuse(&self, rt: &HostRuntime, file: &FileNamed, cause: Cause) -> u8 {
        let Ok(path) = path_in(rt.alloc(), self.files_folder(), file.name.as_str()) else {
            return refuse_memory(rt, self.name);
        };
        let path = path.as_str();
        let at = location_of(self.text.as_bytes(), file.place);
        say_at(rt, self.name, at, NotTaken { path, cause });
        match cause {
            Cause::Unread(e) => e.status(),
            _ => 1,
        }
    }
}

/// What is said where it isn't known what a path leads to.
const NO_REAL_PATH: &str = "its real path is not known";

/// Why a file of a path isn't taken in, whatever it has: it is outside of the bounds, or a device
/// or a pipe, which may never end.
fn barred(rt: &HostRuntime, path: &str, bounds: &Bounds) -> Option<Cause> {
    let folder = match bounds {
        Bounds::Anywhere => return pipe_cause(rt, path),
        Bounds::Below(folder) => folder,
        Bounds::Unknown => return Some(Cause::Unread(InputError::Failed(NO_REAL_PATH))),
    };
    match fs::canonicalize(rt, path) {
        Ok(real) if real.as_path().starts_with(folder.as_path()) => pipe_cause(rt, path),
        Ok(_) => Some(Cause::Outside),
        Err(e) if e.kind() == ErrorKind::NotFound => None,
        Err(_) => Some(Cause::Unread(InputError::Failed(NO_REAL_PATH))),
    }
}

/// Why what has a path isn't taken in, if it is a device or a pipe.
fn pipe_cause(rt: &HostRuntime, path: &str) -> Option<Cause> {
    let cause = pipe_fault(rt, path)?;
    Some(Cause::Unread(InputError::Failed(cause)))
}

/// The most bytes that are written for a file of so many: an escape has six.
fn longest(length: usize) -> u64 {
    (length as u64).saturating_mul(6).saturating_add(32)
}
