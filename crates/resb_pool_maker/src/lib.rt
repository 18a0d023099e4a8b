//! Makes pool bundles: files that hold the keys and the strings that many bundles share.
//! Files over a pool bundle are not written here, and reading one is done in `resb_pool_bundle`.
#![tactic(auto)]

mod drafts;
mod error;
mod file;
mod gathering;
pub mod laws;
mod maker;

pub use error::PoolMakerError;
pub use maker::PoolMaker;
