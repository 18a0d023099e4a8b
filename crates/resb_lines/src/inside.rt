//! What is inside a collection and is still to be looked at.
//! What it is looked at for is said in `causes`.

/// The members of an array or the entries of a table that are still to come.
#[derive(Drop)]
pub(crate) enum Inside<M, E> {
    /// Members, the next of which has this number.
    Members(M, usize),
    /// Entries.
    Entries(E),
}
