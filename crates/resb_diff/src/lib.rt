//! What differs between two trees: the paths that were added, removed and changed.
//! Nothing is read or printed here.
#![tactic(auto)]

mod differences;
pub mod laws;
mod members;
mod paths;
mod walk;

pub use differences::{Change, ChangeAt, Differences};
pub use paths::PathStep;
pub use walk::differences_between;
