//! Paths such as `zones/Pole/base`: what stands at one, in a tree or in a file. Names go into
//! tables, and numbers from 0 into arrays and vectors.
//! Trees are made and files are read in the crates below.
#![tactic(auto)]

mod file;
pub mod laws;
mod names;
mod tree;

pub use file::{find_from, find_in};
pub use names::number_of;
pub use tree::{Found, find};
