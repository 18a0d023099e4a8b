//! The command `diff`: what differs between the trees of two files, a line each.
//! What a difference is, is in `resb_diff`; how files are read is in `show`.
use crate::changes::{Sink, write_changes};
use crate::input::{Beside, Input};
use crate::least::uncounted_in;
use crate::say::{fail, refuse_memory};
use crate::show::{Length, TooLong, refuse_long, status_of};
use crate::subject::Subject;
use resb_diff::{Differences, differences_between};
use resb_tree::{Resource, ResourceBundle};
use resb_words::DiffWords;
use std::alloc::AllocError;
use std::io::ErrorKind;
use std::mem;

/// The most bytes that lines, the keys of their paths, or binaries that are compared take where
/// there is no limit: many places may lead to one binary, and many differences may stand below one
/// long key.
const MOST_BYTES: u64 = 1 << 28;

/// Prints what differs: the status is 0 where nothing does, 1 where something does, and 2 where
/// that can't be told.
pub(crate) fn diff(rt: &HostRuntime, wanted: &DiffWords<'_>) -> u8 {
    match compare(rt, wanted) {
        Ok(has_differences) => u8::from(has_differences),
        Err(_) => 2,
    }
}

/// Whether something differs, or the status of what kept that from being told.
fn compare(rt: &HostRuntime, wanted: &DiffWords<'_>) -> Result<bool, u8> {
    let (old_name, new_name) = (wanted.old, wanted.new);
    let (pool, limit) = (wanted.pool, wanted.limit);
    if old_name == "-" && new_name == "-" {
        return Err(fail(rt, "resb", "one of the files alone can be standard input"));
    }
    let old = Input::read(rt, old_name, limit)?;
    let new = Input::read(rt, new_name, limit)?;
    let (old, new) = (old.open(rt, old_name)?, new.open(rt, new_name)?);
    let old_beside = old.pool(rt, old_name, pool, limit)?;
    let new_beside = new.pool(rt, new_name, pool, limit)?;
    let before = tree_of(rt, old_name, old.bytes, &old_beside, limit)?;
    let after = tree_of(rt, new_name, new.bytes, &new_beside, limit)?;
    let differs = print_differences(rt, wanted, before.root(), after.root());
    // the program ends, and the system takes all memory back at once
    mem::forget(before);
    mem::forget(after);
    differs
}

/// A file's bundle, or the status, once it is said why there is none. What is kept for its levels
/// counts to a limit too.
fn tree_of<'f>(
    rt: &HostRuntime,
    name: &'f str,
    file: &'f [u8],
    beside: &'f Beside<'f>,
    limit: Option<u64>,
) -> Result<ResourceBundle<'f>, u8> {
    let subject = Subject::open(rt, name, file, beside)?;
    if limit.is_some() {
        let _ = subject.index(rt, limit)?;
    }
    subject.bundle(rt, limit)
}

/// Prints what differs between two trees.
fn print_differences(
    rt: &HostRuntime,
    wanted: &DiffWords<'_>,
    old: &Resource<'_>,
    new: &Resource<'_>,
) -> Result<bool, u8> {
    let (alloc, most) = (rt.alloc(), wanted.limit.unwrap_or(MOST_BYTES));
    check_binaries(rt, wanted.new, most, old, new)?;
    let Ok(differences) = differences_between(alloc, old, new) else {
        return Err(refuse_memory(rt, wanted.new));
    };
    // first all lines are counted, then the same are written
    let counting = Sink::new(alloc, None, most);
    print_lines(rt, wanted, &differences, counting)?;
    let printing = Sink::new(alloc, Some(rt.stdout()), most);
    print_lines(rt, wanted, &differences, printing)?;
    Ok(!differences.is_empty())
}

/// Refuses two trees of which more bytes of binaries might be compared than this. Of two binaries
/// no more are compared than the shorter one has, and none twice at one place.
fn check_binaries(
    rt: &HostRuntime,
    name: &str,
    most: u64,
    old: &Resource<'_>,
    new: &Resource<'_>,
) -> Result<(), u8> {
    match compared_at_most(rt, old, new) {
        Ok(bytes) if bytes <= most => Ok(()),
        Ok(bytes) => Err(too_long(rt, name, "binary data", bytes, most)),
        Err(_) => Err(refuse_memory(rt, name)),
    }
}

/// How many bytes of binaries are compared at most.
fn compared_at_most(
    rt: &HostRuntime,
    old: &Resource<'_>,
    new: &Resource<'_>,
) -> Result<u64, AllocError> {
    let old = uncounted_in(rt.alloc(), old)?.binaries;
    let new = uncounted_in(rt.alloc(), new)?.binaries;
    Ok(old.min(new))
}

/// Writes the lines of what differs to a sink, or says why they aren't written.
fn print_lines(
    rt: &HostRuntime,
    wanted: &DiffWords<'_>,
    differences: &Differences<'_, '_, '_>,
    mut sink: Sink,
) -> Result<(), u8> {
    let written = write_changes(rt.alloc(), &mut sink, differences, wanted.is_json);
    match (written, sink.excess()) {
        (Ok(()), _) => Ok(()),
        (Err(_), Some(bytes)) => {
            let most = wanted.limit.unwrap_or(MOST_BYTES);
            Err(too_long(rt, wanted.new, "list of differences", bytes, most))
        }
        (Err(e), None) if e.kind() == ErrorKind::OutOfMemory => Err(refuse_memory(rt, wanted.new)),
        (Err(_), None) => Err(status_of(rt, false)),
    }
}

/// Says that something takes more bytes than it may, and gives the status of that.
fn too_long(rt: &HostRuntime, name: &str, what: &'static str, bytes: u64, limit: u64) -> u8 {
    refuse_long(
        rt,
        name,
        TooLong {
            what,
            length: Length::AtLeast(bytes),
            limit,
        },
    )
}
