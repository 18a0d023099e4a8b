//! Where the first cause stands that keeps a bundle from having a text: keys and numbers.
//! How it is found is in `resb_lines`.

/// A step into a table or an array.
#[derive(Clone, Copy, Debug, PartialEq, Eq)]
pub enum PathStep<'t> {
    /// To this key of a table and to its value.
    Key(&'t str),
    /// To the member of an array that has this number, from 0.
    Member(usize),
}
