//! Plans the strings of a bundle: which get a record in the 16-bit block, and where each text lies.
//! No plan knows of trees, their keys, or files.
#![tactic(auto)]

mod containers;
mod error;
mod firsts;
pub mod holders;
pub mod laws;
mod letters;
mod listed_texts;
mod measure;
mod offsets;
pub mod packed;
mod packing;
pub mod pool;
mod records;
pub mod shared_pool;
pub mod suffix_order;
mod texts;

pub use error::PlanError;
pub use letters::is_far;
pub use measure::{SIZE_LIMIT, excessive_len};
pub use offsets::Plan;
pub use packing::Packing;
pub use records::push_record;
