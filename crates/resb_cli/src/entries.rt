//! What stands at the numbers of a draft's pieces: entries of tables, members of arrays, and texts.
//! What is made of them is in `collation` and `key_order`.
use resb_draft::{Draft, Members, Piece};
use resb_tree::Resource;

/// The keys of the table that the piece of this number stands for, if it stands for one, and the
/// numbers of its values.
pub(crate) fn entries_at<'d, 'a>(
    draft: &'d Draft<'a>,
    number: u32,
) -> Option<(&'d [&'a str], &'d [u32])> {
    let Some(Piece::Table(part, first)) = draft.pieces.get(number as usize) else {
        return None;
    };
    let keys = draft.keys.get(*first as usize..)?;
    Some((keys.get(..part.count as usize)?, members_of(draft, *part)?))
}

/// The number of the value that the table of this number has at a key, if it is one and has it.
pub(crate) fn value_at(draft: &Draft<'_>, number: u32, key: &str) -> Option<u32> {
    let (keys, values) = entries_at(draft, number)?;
    let place = keys.binary_search(&key).ok()?;
    values.get(place).copied()
}

/// The numbers of the members of the array that the piece of this number stands for.
pub(crate) fn members_at<'d>(draft: &'d Draft<'_>, number: u32) -> Option<&'d [u32]> {
    match draft.pieces.get(number as usize)? {
        Piece::Array(part) => members_of(draft, *part),
        _ => None,
    }
}

/// The text of the string that the piece of this number stands for, be it lent or put together of
/// several.
pub(crate) fn text_at<'d>(draft: &'d Draft<'_>, number: u32) -> Option<&'d str> {
    match draft.pieces.get(number as usize)? {
        Piece::String(text) => Some(text),
        Piece::Leaf(leaf) => text_of_leaf(leaf),
        _ => None,
    }
}

/// The text of a string.
fn text_of_leaf<'d>(resource: &'d Resource<'_>) -> Option<&'d str> {
    match resource {
        Resource::String(text) => Some(text.as_str()),
        _ => None,
    }
}

/// A part of a draft's members.
fn members_of<'d>(draft: &'d Draft<'_>, part: Members) -> Option<&'d [u32]> {
    let members = draft.members.get(part.from as usize..)?;
    members.get(..part.count as usize)
}
