//! Packages: the files in which ICU ships its items, resource bundles among them, under names.
//! What an item holds is read in the crates above: an item is bytes here.
#![tactic(auto)]

mod error;
pub mod laws;
mod package;
mod table;

pub use error::PackageError;
pub use package::{Item, Package};
