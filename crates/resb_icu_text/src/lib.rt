//! Reads ICU's text form of resource bundles: whole texts, and their tokens, which are where blanks
//! end, and the strings, numbers and types that begin at a place of a text.
//! What the form is stands in `resb_icu_grammar`. Places count bytes of the text from its start.
#![tactic(auto)]

mod behind;
mod blanks;
mod build;
mod digits;
mod drafts;
mod error;
mod escapes;
mod leaf;
mod open;
mod parts;
mod pieces;
mod quota;
mod reader;
mod rows;
mod steps;
mod strings;
mod trees;
mod turns;
mod types;
mod unquoted;
mod words;

pub use blanks::skip;
pub use error::{IcuLimitError, IcuTextError};
pub use reader::IcuReader;
pub use resb_draft::DraftBundle;
pub use strings::{Lexeme, Said, string};
pub use turns::IcuTurns;
pub use types::{group_type, root_type};
pub use words::number;
