//! The command `get`: what stands at paths in a file. What has nothing inside, as a string, is read
//! alone, and nothing else in the file is looked at; arrays and tables are read as parts of the
//! whole tree. How files are read and shown as a whole is in `show`.
use crate::input::Input;
use crate::paths::{BETWEEN, names_of};
use crate::say::{fail, refuse_memory};
use crate::show::{settled, show_json, status_of};
use crate::shown::Shown;
use crate::subject::Subject;
use crate::words::is_marked;
use resb_format::{BinaryDeserializerError, ResourceReprType};
use resb_opened::{Ascending, Found as Seen, Handle, Kind, Opened};
use resb_path::{Found, find, find_in};
use resb_program::FileError;
use resb_read::{Cursor, Walk};
use resb_tree::{Resource, ResourceBundle};
use resb_words::GetWords;
use std::alloc::Global;
use std::mem;

/// What stands at a path, as far as a look along it shows.
#[derive(Drop)]
enum Along<'f> {
    /// Nothing.
    Nothing,
    /// A number of a vector.
    Number(u32),
    /// What has nothing inside: no array and no table.
    Leaf(Resource<'f>),
    /// An array or a table.
    More,
}

/// A file of which things are shown.
#[derive(Clone, Copy)]
struct Source<'f> {
    subject: Subject<'f>,
    limit: Option<u64>,
    /// Whether its tree has to be right, whatever is asked for.
    is_checked: bool,
}

/// A file as a whole, as far as it was asked for.
#[derive(Drop)]
enum Whole<'f> {
    /// It wasn't read yet.
    Unread,
    /// It isn't had, as was said with this status.
    Refused(u8),
    /// It was opened, and the keys of its tables ascend.
    Opened(Opened<'f>),
    /// Its tree was made.
    Read(ResourceBundle<'f>),
}

/// Prints what stands at each path: a string as it is, a number with its sign, all else as JSON.
pub(crate) fn get(rt: &HostRuntime, wanted: &GetWords<'_>) -> u8 {
    for path in wanted.paths.iter().copied() {
        if is_marked(path) {
            return fail(rt, path, "this path is no UTF-8");
        }
    }
    settled(get_found(rt, wanted))
}

/// Prints what stands there: the status, or that of a file that isn't read.
fn get_found(rt: &HostRuntime, wanted: &GetWords<'_>) -> Result<u8, u8> {
    let (name, limit) = (wanted.file, wanted.limit);
    let input = Input::read(rt, name, limit)?;
    let opened = input.open(rt, name)?;
    let beside = opened.pool(rt, name, wanted.pool, limit)?;
    let source = Source {
        subject: Subject::open(rt, name, opened.bytes, &beside)?,
        limit,
        is_checked: wanted.is_checked || limit.is_some(),
    };
    Ok(get_each(rt, source, wanted.paths.as_slice()))
}

/// Prints what stands at each path in a file. The tree is read where it is needed, and once.
fn get_each(rt: &HostRuntime, source: Source<'_>, paths: &[&str]) -> u8 {
    let mut status = 0;
    let mut whole = Whole::Unread;
    for path in paths.iter().copied() {
        status = status.max(settled(get_one(rt, source, &mut whole, path)));
    }
    // the program ends, and the system takes all memory back at once
    mem::forget(whole);
    status
}

/// A file as a whole, or the status, once it is said why it isn't had. A tree is made where the
/// keys of some table aren't seen to ascend.
fn whole_of<'f>(rt: &HostRuntime, source: Source<'f>) -> Whole<'f> {
    let Source { subject, limit, .. } = source;
    match subject.index(rt, limit) {
        Ok(file) if Ascending::of(file.root()).is_some() => return Whole::Opened(file),
        Ok(_) => {}
        Err(status) => return Whole::Refused(status),
    }
    match subject.bundle(rt, limit) {
        Ok(bundle) => Whole::Read(bundle),
        Err(status) => Whole::Refused(status),
    }
}

/// Prints what stands at a path, by a look along it alone where that is enough.
fn get_one<'f>(
    rt: &HostRuntime,
    source: Source<'f>,
    whole: &mut Whole<'f>,
    path: &str,
) -> Result<u8, u8> {
    let name = source.subject.name;
    let Ok(names) = names_of(rt.alloc(), path) else {
        return Err(refuse_memory(rt, name));
    };
    let Ok(names) = names.split(BETWEEN).collect::<Vec<&str>>(rt.alloc()) else {
        return Err(refuse_memory(rt, name));
    };
    if !source.is_checked {
        match look_along(rt, source.subject, names.as_slice())? {
            Along::Nothing => return Err(say_nothing(rt, name, path)),
            Along::Number(number) => return Ok(show_found(rt, name, Found::Number(number), None)),
            Along::Leaf(leaf) => return Ok(show_found(rt, name, Found::Resource(&leaf), None)),
            Along::More => {}
        }
    }
    if let Whole::Unread = whole {
        *whole = whole_of(rt, source);
    }
    match whole {
        Whole::Opened(file) => match file.root().get(names.as_slice()) {
            None => Err(say_nothing(rt, name, path)),
            Some(found) => Ok(show_seen(rt, name, found, source.limit)),
        },
        Whole::Read(bundle) => match find(bundle.root(), names.as_slice()) {
            None => Err(say_nothing(rt, name, path)),
            Some(found) => Ok(show_found(rt, name, found, source.limit)),
        },
        Whole::Refused(status) => Err(*status),
        Whole::Unread => Err(fail(rt, name, "this was not read")),
    }
}

/// Says that nothing stands at a path, and gives the status of that. An empty path has quotes.
fn say_nothing(rt: &HostRuntime, name: &str, path: &str) -> u8 {
    let path = if path.is_empty() { "''" } else { path };
    let (name, path) = (Shown(name), Shown(path));
    let _ = eprintln!(rt; "{name}: nothing stands at {path}");
    1
}

/// What stands at a path, by a look along it alone; or the status, once it is said why the way
/// there is no right one.
fn look_along<'f>(rt: &HostRuntime, subject: Subject<'f>, names: &[&str]) -> Result<Along<'f>, u8> {
    let found = match find_in(&subject.source.file, names) {
        Ok(Some(at)) => read_alone(rt.alloc(), at),
        Ok(None) => Ok(Along::Nothing),
        Err(e) => Err(e),
    };
    match found {
        Ok(found) => Ok(found),
        Err(e) => Err(subject.refuse(rt, &FileError::Reading(e))),
    }
}

/// What stands at a place, but for what is inside arrays and tables.
fn read_alone<'f>(alloc: Global, at: Cursor<'f>) -> Result<Along<'f>, BinaryDeserializerError> {
    let mut walk = Walk::new(1);
    if let Some(number) = at.as_int_vector() {
        return Ok(Along::Number(number.read_u32()?));
    }
    match at.resource_type()? {
        ResourceReprType::Array
        | ResourceReprType::Array16
        | ResourceReprType::Table
        | ResourceReprType::_Table32
        | ResourceReprType::Table16 => Ok(Along::More),
        _ => Ok(Along::Leaf(at.read_resource(alloc, &mut walk)?)),
    }
}

/// Prints what was found in an opened file.
fn show_seen(rt: &HostRuntime, name: &str, found: Seen<'_>, limit: Option<u64>) -> u8 {
    let handle = match found {
        Seen::Number(number) => return show_found(rt, name, Found::Number(number), None),
        Seen::Resource(handle) => handle,
    };
    if let Some(number) = handle.integer() {
        return show_found(rt, name, Found::Resource(&Resource::Integer(number)), None);
    }
    if let Kind::String = handle.kind() {
        return show_text(rt, name, handle);
    }
    match Ascending::of(handle) {
        Some(shown) => show_json(rt, name, shown, limit),
        None => fail(rt, name, "the keys of its tables do not ascend"),
    }
}

/// Prints a string as it is.
fn show_text(rt: &HostRuntime, name: &str, handle: Handle<'_>) -> u8 {
    let mut text = String::new(rt.alloc());
    if handle.push_text(&mut text).is_err() {
        return refuse_memory(rt, name);
    }
    let text = text.as_str();
    status_of(rt, println!(rt; "{text}").is_ok())
}

/// Prints what was found.
fn show_found(rt: &HostRuntime, name: &str, found: Found<'_, '_>, limit: Option<u64>) -> u8 {
    let shown = match found {
        Found::Number(number) => {
            let number = number.cast_signed();
            println!(rt; "{number}")
        }
        Found::Resource(Resource::Integer(number)) => {
            let number = i32::from(*number);
            println!(rt; "{number}")
        }
        Found::Resource(Resource::String(text)) => {
            let text = text.as_str();
            println!(rt; "{text}")
        }
        Found::Resource(resource) => return show_json(rt, name, resource, limit),
    };
    status_of(rt, shown.is_ok())
}
