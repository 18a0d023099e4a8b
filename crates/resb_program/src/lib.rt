//! What programs do with bundles: a text's file and where to look in one that is refused, and what
//! is had of a file; and the streams and words of the program `resb_tool`. How a program keeps the
//! memory that it gives back is in `memory`. The process's own streams, words and files are named
//! in the programs alone.
#![tactic(auto)]

mod bundle_file;
mod command;
mod errors;
mod files;
mod memory;
mod names;
mod sources;
mod streams;

pub use bundle_file::BundleFile;
pub use command::{Command, command_of};
pub use errors::{FileError, SourceError, ToolError};
pub use files::{check_file, index_file, open_file, read_bundle};
pub use memory::keep_freed_memory;
pub use names::bundle_name;
pub use sources::{Blame, compile_text, text_of, where_to_look};
pub use streams::{read_all, read_within, run};
