//! What the printed text of a bundle is in a form, by how the form spells it, and what keeps a
//! bundle from having one: one entry or item a line, four blanks a level. With that the plain
//! form's spelling, and the tokens of which the printer `resb_lines` makes a text.
//! What any text is stands in `resb_grammar`, and its reader in `resb_text`.
#![tactic(auto)]

mod cause;
mod error;
pub mod laws;
mod path;
mod place;
mod tokens;

pub use cause::Cause;
pub use error::PrintError;
pub use path::PathStep;
pub use place::Place;
pub use tokens::{
    deeper, has_quote, push_end, push_integer, push_line, push_name, push_number, push_quoted,
    push_root_type,
};
