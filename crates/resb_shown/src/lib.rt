//! What is shown of resources, whatever holds them: a printer, a search or a count that is generic
//! over `Shown` goes through a tree, or through a file without making one.
//! Texts that are made a block at a time go into any writer. How anything is printed is not said
//! here.
#![tactic(auto)]

mod node;
mod resource;
mod shown;
mod sink;

pub use node::Node;
pub use shown::Shown;
pub use sink::{BLOCK_LEN, Blocks, length_within, write_blocks, write_whole};
