//! The heads of files of versions 1.1 to 3.0, what a pool bundle lends, and the parts of a file
//! beside one. What a word of the parts denotes is said in `resb_format`.
#![tactic(auto)]

mod checksum;
mod head;
mod index;
pub mod laws;
mod pool_bundle;

pub use checksum::pool_checksum;
pub use head::FileHead;
pub use pool_bundle::PoolBundle;
