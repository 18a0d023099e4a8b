//! From a text to its file: `Compile`, which says what form the text has, how the file is laid out,
//! which rules leave something out, and within which limit the text is read; and the keys with
//! which a tree is written.
//! Texts are read, and files written, in the crates below; nothing here reads a file.
#![tactic(auto)]

mod compiling;
mod error;
mod keys;

pub use compiling::{Compile, TextForm};
pub use error::CompileError;
pub use keys::keys_of;
