//! Texts of ICU's form that take other files in: what such a text is without those groups, given
//! the files. No file is opened here, and what the form means is said in `resb_icu_grammar`.
#![tactic(auto)]

mod collation;
mod error;
mod file;
mod group;
pub mod laws;
mod making;
mod rules;
mod stretch;
mod taken;
mod taking_in;
mod way;
mod writing;

pub use error::FilesError;
pub use file::{FileNamed, TextFile};
pub use taken::{Change, TakenIn};
pub use taking_in::{files_taken, with_files};
pub use way::may_take_files;
