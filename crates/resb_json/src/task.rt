//! What is still to be written of a resource's JSON.
//! How it is written is said in `jobs`.

/// Something to be written. The types `M` and `E` go through an array's members and through a
/// table's entries.
#[derive(Drop)]
pub(crate) enum Task<'s, S: Copy, M, E> {
    /// A resource.
    Value(S),
    /// The members of an array that are still to come, and whether any stands before them.
    Members(M, bool),
    /// The entries of a table that are still to come, and whether any stands before them.
    Entries(E, bool),
    /// The numbers of a vector from this place on.
    Numbers(S, usize),
    /// The bytes of a binary that are still to come.
    Digits(&'s [u8]),
}
