//! Places of a file, by the numbers of entries and members.
//! What stands there is asked for in `type_rows`.
use crate::answers::number_of;
use resb_format::BinaryDeserializerError;
use resb_read::{Cursor, Walk};

/// The refusal of a step that leads nowhere.
fn nowhere() -> BinaryDeserializerError {
    BinaryDeserializerError::unknown("no such place")
}

/// The key's and the value's place of an entry of a table.
fn entry<'a>(
    table: Cursor<'a>,
    walk: &mut Walk,
    number: usize,
) -> Result<(Cursor<'a>, Cursor<'a>), BinaryDeserializerError> {
    let mut entries = table.read_map(walk)?;
    for _ in 0..number {
        let _ = entries.next_entry_cursor()?;
    }
    entries.next_entry_cursor()?.ok_or(nowhere())
}

/// The place of a member of a sequence.
fn member<'a>(
    sequence: Cursor<'a>,
    walk: &mut Walk,
    number: usize,
) -> Result<Cursor<'a>, BinaryDeserializerError> {
    let mut members = sequence.read_seq(walk)?;
    for _ in 0..number {
        let _ = members.next_cursor()?;
    }
    members.next_cursor()?.ok_or(nowhere())
}

/// The place one step below another: `k1` and `v1`, the key and the value of an entry of a table,
/// and `m1`, a member of a sequence.
fn below<'a>(
    at: Cursor<'a>,
    walk: &mut Walk,
    step: &str,
) -> Result<Cursor<'a>, BinaryDeserializerError> {
    let (kind, number) = step.split_at_checked(1).unwrap_or((step, ""));
    if kind == "m" {
        return member(at, walk, number_of(number));
    }
    let (key, value) = entry(at, walk, number_of(number))?;
    Ok(if kind == "k" { key } else { value })
}

/// The place of a file that is named by `root` and the steps below it.
pub(crate) fn place<'a>(
    bytes: &'a [u8],
    path: &str,
) -> Result<Cursor<'a>, BinaryDeserializerError> {
    let (root, walk) = Cursor::root(bytes)?;
    place_below(root, walk, path)
}

/// The place to which a path leads below the root of a file that is read in another way.
pub(crate) fn place_below<'a>(
    root: Cursor<'a>,
    mut walk: Walk,
    path: &str,
) -> Result<Cursor<'a>, BinaryDeserializerError> {
    let mut at = root;
    for step in path.split(' ') {
        if step != "root" {
            at = below(at, &mut walk, step)?;
        }
    }
    Ok(at)
}
