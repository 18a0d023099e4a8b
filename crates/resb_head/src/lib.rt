//! What a `.res` file is, and its head: header, representation info and index, the checks that they
//! pass, and the parts that they cut a file into. What a word of the parts denotes is said in
//! `resb_format`.
#![tactic(auto)]

mod charset;
mod checked_file;
mod endianness;
mod head;
mod index;
mod index_fields;
pub mod laws;
mod repr_info;
mod version;

pub use charset::CharsetFamily;
pub use checked_file::CheckedFile;
pub use endianness::Endianness;
pub use head::BinHeader;
pub use index::BinIndex;
pub use repr_info::BinReprInfo;
pub use version::FormatVersion;
