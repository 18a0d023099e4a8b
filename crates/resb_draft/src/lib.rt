//! Drafts of trees: what a text makes on its way to a file, where no tree is asked for. A draft
//! stands for a tree as a resource does, and takes less: its resources are one list.
//! What is read and what is written isn't said here.
#![tactic(auto)]

mod draft;
mod entries;
mod laying_order;
mod making;

pub use draft::{Draft, DraftBundle, Members, Piece};
