//! How deep the collections of a file lie in one another, where a limit counts that.
//! What a walk keeps for each level is in the crates that go through files and print them.
use crate::say::refuse_memory;
use crate::show::{Length, TooLong, refuse_long};
use resb_format::FileBlocks;
use resb_head::CheckedFile;
use resb_walk::{Member, Members, Standing, standing_at};
use std::alloc::{AllocError, Global};

/// How many bytes are counted for a level that is open while a file is read or printed: what is
/// kept for it has 184 bytes at most, in a list that is copied where it grows.
const LEVEL_BYTES: u64 = 368;

/// Refuses a file whose levels take more bytes than the limit: the status, once that is said.
pub(crate) fn check_levels(
    rt: &HostRuntime,
    name: &str,
    parts: CheckedFile<'_>,
    limit: u64,
) -> Result<(), u8> {
    match are_within(rt.alloc(), parts.file, parts.root, limit / LEVEL_BYTES) {
        Ok(true) => Ok(()),
        Ok(false) => {
            let levels = (limit / LEVEL_BYTES).saturating_add(1);
            Err(refuse_long(
                rt,
                name,
                TooLong {
                    what: "depth",
                    length: Length::AtLeast(levels.saturating_mul(LEVEL_BYTES)),
                    limit,
                },
            ))
        }
        Err(_) => Err(refuse_memory(rt, name)),
    }
}

/// Whether no more collections than this lie in one another. No more is kept of each than what is
/// still to come of it.
fn are_within(
    alloc: Global,
    file: FileBlocks<'_>,
    root: u32,
    most: u64,
) -> Result<bool, AllocError> {
    let mut open = Vec::new(alloc);
    enter(&mut open, file, root)?;
    for _ in 0..u64::MAX {
        if open.len() as u64 > most {
            return Ok(false);
        }
        let Some(members) = open.pop() else {
            return Ok(true);
        };
        let Some((member, rest)) = members.split() else {
            continue;
        };
        open.push(rest)?;
        if let Member::Word(word) = member {
            enter(&mut open, file, word)?;
        }
    }
    Ok(true)
}

/// Puts the members of the collection at a word, if one stands there.
fn enter<'f>(
    open: &mut Vec<Members<'f>>,
    file: FileBlocks<'f>,
    word: u32,
) -> Result<(), AllocError> {
    if !is_collection(word) {
        return Ok(());
    }
    match standing_at(file, word) {
        Ok(Standing::List(members)) => open.push(members)?,
        Ok(Standing::Table(entries)) => open.push(entries.members)?,
        Ok(Standing::Leaf(_)) | Err(_) => {}
    }
    Ok(())
}

/// Whether a word's type is one of a table or of an array.
fn is_collection(word: u32) -> bool {
    matches!(word >> 28, 2 | 4 | 5 | 8 | 9)
}
