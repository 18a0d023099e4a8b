//! How ICU's form spells the text of a bundle, and what keeps a bundle from having one, with the
//! keys and strings of which its printer `resb_lines` makes it. What such a printed text is stands
//! in `resb_print`, what any text is in `resb_icu_grammar`, and its reader in `resb_icu_text`.
#![tactic(auto)]

mod keys;
pub mod laws;
mod quoting;

pub use keys::{is_bare, is_key};
pub use quoting::{push_key, push_piece};
