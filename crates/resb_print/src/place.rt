//! Where a resource stands in a printed text, which says what is written behind it.
//! What is written is in `tokens`.

/// Whether a resource stands behind its key or in an array, where a comma follows it.
#[derive(Clone, Copy)]
pub enum Place {
    /// Behind its key.
    InTable,
    /// In an array.
    InArray,
}
