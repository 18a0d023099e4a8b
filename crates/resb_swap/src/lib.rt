//! Files in the other order of bytes: from a file that ICU reads on one kind of machine to the one
//! that it reads on the other. What a file denotes is said in the crates that read.
#![tactic(auto)]

mod body;
mod claims;
mod collation;
#[cfg(test)]
mod collation_rows;
mod error;
mod front;
mod head;
mod items;
pub mod laws;
mod mirror;
mod order;
mod package;
mod package_error;
#[cfg(test)]
mod package_rows;
mod parts;
mod role;
mod swap;
#[cfg(test)]
mod swap_rows;
mod table;
mod walk;

pub use error::SwapError;
pub use order::{IcuData, data_of, little_endian, with_little_table};
pub use package::swapped_package;
pub use package_error::PackageSwapError;
pub use swap::swapped;
pub use table::turned_table;
