//! What is still to be written of a bundle's text.
//! How it is written is said in `text`.
use resb_print::Place;

/// Something to be written. The types `M` and `E` go through an array's members and through a
/// table's entries.
#[derive(Drop)]
pub(crate) enum Task<'s, S: Copy, M, E> {
    /// The bundle's name, whether fallback is on, and the root's `{`.
    Head(&'s str, bool),
    /// A key and its resource, on a line of this level.
    Entry(&'s str, S, usize),
    /// A member of an array, on a line of this level.
    Member(S, usize),
    /// The entries of a table that are still to come, and its end, where the table has this level
    /// and place.
    Entries(E, usize, Place),
    /// The members of an array that are still to come, and its end, in the same way.
    Members(M, usize, Place),
    /// The numbers of a vector from this one on, and its end.
    Numbers(S, usize, Place),
    /// The hex digits of the bytes of a binary that are still to come, and its end.
    Digits(&'s [u8], Place),
    /// The end of the last line.
    LineFeed,
}
