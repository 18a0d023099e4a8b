//! The kinds of resources.
//! What stands in a resource of a kind is said in `leaves`.

/// Which kind a resource is of.
#[derive(Clone, Copy, Debug, PartialEq, Eq)]
pub enum Kind {
    /// A text.
    String,
    /// The path of another resource, which isn't followed.
    Alias,
    /// Resources in order.
    Array,
    /// Resources by key.
    Table,
    /// Bytes.
    Binary,
    /// A number of 28 bits.
    Integer,
    /// Numbers of 32 bits.
    IntVector,
}
