//! How a file is packed where there is more than one way.
//! What each way means for strings is said in `specs/Container` and `specs/Pool`; what it means for
//! keys and words is said in the crate above.

/// How a file is packed.
#[derive(Clone, Copy, Debug, PartialEq, Eq)]
pub enum Packing {
    /// Each key stands by itself, and the empty string is a string at unit 0. A string without a
    /// marker that others end with lies in the greatest record that ends with it, in the order from
    /// the end.
    Plain,
    /// As ICU's `genrb` packs keys, words and strings: a key that other keys end with lies at the
    /// end of one of them, and the empty string has the word 0. Strings are ordered by their 16-bit
    /// units. One without a marker that others end with lies in the greatest of the strings that
    /// end with it and that no other one ends with; a record at the end of another string, of the
    /// file or beside it, saves nothing.
    Compact,
}
