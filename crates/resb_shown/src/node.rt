//! What one resource is, with what is there at once of it.
//! What is inside it is gone through by the calls of `Shown`.

use resb_tree::Int28;

/// A resource without what is inside it: its kind, and what no call has to ask for any more. The
/// types `M` and `E` go through an array's members and through a table's entries.
#[derive(Drop)]
pub enum Node<'s, M, E> {
    /// A text, which `Shown::push_text` gives.
    String,
    /// An alias, whose path `Shown::push_text` gives.
    Alias,
    /// An array, with all of its members still to come.
    Array(M),
    /// A table, with all of its entries still to come.
    Table(E),
    /// Bytes.
    Binary(&'s [u8]),
    /// A number of 28 bits.
    Integer(Int28),
    /// Numbers of 32 bits, which `Shown::number` gives.
    IntVector,
}
