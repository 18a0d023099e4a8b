//! ICU resource bundles: the tree, its text form and its binary form, under the paths of the Rust
//! crate `resb`. What is proved of each call stands with it in the crates below; what the whole way
//! keeps is in `headline` and `laws`.
#![tactic(auto)]

pub mod binary;
pub mod blame;
pub mod bundle;
pub mod diff;
pub mod fields;
pub mod filter;
pub mod headline;
pub mod laws;
pub mod opened;
pub mod package;
pub mod path;
pub mod text;

pub use resb_compile::{Compile, CompileError, TextForm, keys_of};
