//! How many bytes of memory a tree is counted for, where there is a limit for them.
//! What is counted, and when, is said where trees are made of texts and of files.

/// A resource of its own.
pub const RESOURCE: u128 = 72;

/// A table that has entries, beside what it is as a resource and what its entries take.
pub const TABLE: u128 = 1024;

/// An entry of a table, beside its value.
pub const ENTRY: u128 = 192;

/// Each byte of a text.
pub const TEXT_BYTE: u128 = 3;

/// Each number of a vector.
pub const NUMBER: u128 = 4;
