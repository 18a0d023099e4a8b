//! What the words behind the name `resb` ask for, or what to say of them, by the library `clap`.
//! What is done then, and the files and streams that the words name, are the program's.
#![tactic(auto)]

mod collation;
mod command;
mod described;
mod encoding;
mod error;
mod icu_command;
mod icu_request;
mod request;
mod writing;

pub use collation::Collation;
pub use encoding::Encoding;
pub use error::WordsError;
pub use icu_request::{DerbWords, Filters, GenrbWords, are_of_icu};
pub use request::{
    CheckWords, CompileWords, DiffWords, DumpWords, ExtractWords, FileWords, GetWords, Order,
    Request, SwapWords, request_of,
};
pub use writing::WritingWords;
