//! The lines of what differs between two trees, written a block at a time and never kept.
//! What a difference is, is in `resb_diff`; which files are compared is in `diff`.
use crate::paths::{Step, push_step};
use crate::shown::{Shown, shown_bytes, spelled_json};
use resb_diff::{Change, ChangeAt, Differences, PathStep};
use resb_json::write_json;
use resb_tree::Resource;
use std::alloc::{AllocError, Global};
use std::borrow::CowStr;
use std::io::{self, ErrorKind, Stdout, Write};

/// So many bytes are kept before they are written.
const BLOCK_LEN: usize = 32768;

/// Where lines go: to standard output, or nowhere. Their bytes are counted, and those of the keys
/// in their paths, of which a line may show less. Neither may be more than `most`.
#[derive(Drop)]
pub(crate) struct Sink {
    alloc: Global,
    out: Option<Stdout>,
    block: Vec<u8>,
    bytes: u64,
    keys: u64,
    most: u64,
}

impl Sink {
    /// Lines are counted, and go to standard output, if one is given.
    pub(crate) fn new(alloc: Global, out: Option<Stdout>, most: u64) -> Sink {
        Sink {
            alloc,
            out,
            block: Vec::new(alloc),
            bytes: 0,
            keys: 0,
            most,
        }
    }

    /// How many bytes lines or keys take at least, if that is more than they may.
    pub(crate) fn excess(&self) -> Option<u64> {
        let taken = if self.keys > self.most {
            self.keys
        } else {
            self.bytes
        };
        if taken > self.most { Some(taken) } else { None }
    }

    /// Fails where there is more than there may be.
    fn check(&self) -> io::Result<()> {
        match self.excess() {
            Some(_) => Err(io::Error::from(ErrorKind::FileTooLarge)),
            None => Ok(()),
        }
    }

    /// Counts the bytes of the keys of a path.
    fn count_keys(&mut self, path: &[PathStep<'_>]) -> io::Result<()> {
        for step in path {
            if let PathStep::Key(key) = step {
                self.keys = self.keys.saturating_add(key.len() as u64);
            }
        }
        self.check()
    }

    /// Puts bytes as they are.
    fn put(&mut self, bytes: &[u8]) -> io::Result<()> {
        self.bytes = self.bytes.saturating_add(bytes.len() as u64);
        self.check()?;
        if self.out.is_none() {
            return Ok(());
        }
        if bytes.len() < BLOCK_LEN {
            self.block.extend_from_slice(bytes)?;
            if self.block.len() < BLOCK_LEN {
                return Ok(());
            }
            return self.send();
        }
        self.send()?;
        match &mut self.out {
            Some(out) => out.write_all(bytes),
            None => Ok(()),
        }
    }

    /// Writes what is kept.
    fn send(&mut self) -> io::Result<()> {
        if let Some(out) = &mut self.out {
            out.write_all(self.block.as_slice())?;
        }
        self.block.clear();
        Ok(())
    }
}

/// Writes JSON and what stands round it, with what is hidden spelled. No character may come in two
/// parts: those who write here give whole texts, and blocks of whole texts.
impl Write for Sink {
    fn write(&mut self, buf: &[u8]) -> io::Result<usize> {
        let Ok(text) = str::from_utf8(buf) else {
            return Err(io::Error::from(ErrorKind::InvalidData));
        };
        if shown_bytes(text) == buf.len() as u64 {
            self.put(buf)?;
        } else {
            let spelled = spelled_json(self.alloc, text)?;
            self.put(spelled.as_str().as_bytes())?;
        }
        Ok(buf.len())
    }

    fn flush(&mut self) -> io::Result<()> {
        Ok(())
    }
}

/// Writes the lines of what differs, as objects of JSON or for people.
pub(crate) fn write_changes(
    alloc: Global,
    sink: &mut Sink,
    differences: &Differences<'_, '_, '_>,
    is_json: bool,
) -> io::Result<()> {
    for number in 0..differences.len() {
        let Ok(found) = differences.get(alloc, number) else {
            return Err(io::Error::from(ErrorKind::OutOfMemory));
        };
        let Some(found) = found else {
            break;
        };
        sink.count_keys(found.path.as_slice())?;
        if is_json {
            write_object(alloc, sink, &found)?;
        } else {
            write_line(alloc, sink, &found)?;
        }
        sink.put(b"\n")?;
    }
    sink.send()
}

/// Writes a line without its end: a sign, the path, which the root has none of, and the values as
/// JSON.
fn write_line(alloc: Global, sink: &mut Sink, found: &ChangeAt<'_, '_, '_>) -> io::Result<()> {
    let front = front_of(alloc, found)?;
    sink.put(front.as_str().as_bytes())?;
    match found.change {
        Change::Added(new) => write_json(alloc, sink, new),
        Change::Removed(old) => write_json(alloc, sink, old),
        Change::Changed(old, new) => {
            let kinds = told_kinds(old, new);
            write_json(alloc, sink, old)?;
            if let Some((kind, _)) = kinds {
                write!(sink, " ({kind})")?;
            }
            sink.put(b" -> ")?;
            write_json(alloc, sink, new)?;
            match kinds {
                Some((_, kind)) => write!(sink, " ({kind})"),
                None => Ok(()),
            }
        }
    }
}

/// What stands before the values in a line.
fn front_of(alloc: Global, found: &ChangeAt<'_, '_, '_>) -> Result<String, AllocError> {
    let sign = match found.change {
        Change::Added(_) => '+',
        Change::Removed(_) => '-',
        Change::Changed(_, _) => '~',
    };
    if found.path.is_empty() {
        return format!(in alloc; "{sign} ");
    }
    let path = path_text(alloc, found.path.as_slice())?;
    let path = Shown(path.as_str());
    format!(in alloc; "{sign} {path} ")
}

/// Writes an object of JSON: the path, `null` for the root, the values `old` and `new` that there
/// are, and behind each its kind where that is told.
fn write_object(alloc: Global, sink: &mut Sink, found: &ChangeAt<'_, '_, '_>) -> io::Result<()> {
    let (old, new) = match found.change {
        Change::Added(new) => (None, Some(new)),
        Change::Removed(old) => (Some(old), None),
        Change::Changed(old, new) => (Some(old), Some(new)),
    };
    let kinds = match (old, new) {
        (Some(old), Some(new)) => told_kinds(old, new),
        _ => None,
    };
    sink.put(b"{\"path\":")?;
    write_path(alloc, sink, found.path.as_slice())?;
    if let Some(old) = old {
        sink.put(b",\"old\":")?;
        write_json(alloc, sink, old)?;
    }
    if let Some((kind, _)) = kinds {
        write!(sink, ",\"old_kind\":\"{kind}\"")?;
    }
    if let Some(new) = new {
        sink.put(b",\"new\":")?;
        write_json(alloc, sink, new)?;
    }
    if let Some((_, kind)) = kinds {
        write!(sink, ",\"new_kind\":\"{kind}\"")?;
    }
    sink.put(b"}")
}

/// Writes a path as JSON.
fn write_path(alloc: Global, sink: &mut Sink, path: &[PathStep<'_>]) -> io::Result<()> {
    if path.is_empty() {
        return sink.put(b"null");
    }
    let text = path_text(alloc, path)?;
    write_json(
        alloc,
        sink,
        &Resource::String(CowStr::Borrowed(text.as_str())),
    )
}

/// A path as `get` takes it.
fn path_text(alloc: Global, path: &[PathStep<'_>]) -> Result<String, AllocError> {
    let mut text = String::new(alloc);
    for (before, step) in path.iter().enumerate() {
        let step = match step {
            PathStep::Key(key) => Step::Key(key),
            PathStep::Number(number) => Step::Number(*number),
        };
        push_step(&mut text, before, step)?;
    }
    Ok(text)
}

/// The kinds of two values, where these are of two kinds and both read as lists or as objects, so
/// that they can't be told apart by what is read.
fn told_kinds(old: &Resource<'_>, new: &Resource<'_>) -> Option<(&'static str, &'static str)> {
    let (Some((old_form, old)), Some((new_form, new))) = (form_of(old), form_of(new)) else {
        return None;
    };
    if old_form == new_form && old != new {
        Some((old, new))
    } else {
        None
    }
}

/// The bracket with which JSON of a value begins, if it begins with one, and its kind, as the text
/// forms name that.
fn form_of(value: &Resource<'_>) -> Option<(char, &'static str)> {
    match value {
        Resource::Array(_) => Some(('[', "array")),
        Resource::IntVector(_) => Some(('[', "intvector")),
        Resource::Table(_) => Some(('{', "table")),
        Resource::Binary(_) => Some(('{', "bin")),
        Resource::Alias(_) => Some(('{', "alias")),
        Resource::String(_) | Resource::Integer(_) => None,
    }
}
