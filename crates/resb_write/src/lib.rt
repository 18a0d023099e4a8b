//! Writes a bundle's tree, or a draft of one, and its keys as a `.res` file.
//! Reading a file is not done here.
#![tactic(auto)]

mod body_steps;
mod contents;
mod drafts;
mod end_keys;
mod error;
mod file;
mod key_block;
mod keys_beside;
pub mod laws;
mod layout;
mod lends;
mod limits;
mod nodes;
mod numbered_keys;
mod packed_keys;
mod pieces;
mod resource_bodies;
mod serializer;
mod sites;
mod strings;
mod tail_bytes;
mod tree_bodies;
mod unit_count;
mod wanted;
mod with_pool;

pub use error::BinarySerializerError;
pub use layout::Layout;
pub use resb_pool::pool;
pub use serializer::Serializer;
