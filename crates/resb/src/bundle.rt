//! The tree of a bundle: its types, made and looked at by hand; and a draft of one, which only goes
//! from a text to a file.
//! Texts and files, and the ways between them and trees, are in `text` and `binary`.

pub use resb_draft::{Draft, Members, Piece};
pub use resb_format::{Int28, Key, NoMemory, Resource, ResourceBundle, Table};
