//! Reads trees and any other types from a file, within a budget of resources.
//! What stands at a word is found in `resb_walk`.
#![tactic(auto)]

mod cursor;
mod deserialize;
mod elements;
mod entries;
mod faults;
mod file;
pub mod helpers;
mod inside;
mod keys;
pub mod laws;
mod lists;
mod maps;
mod measuring;
mod named;
mod number_types;
mod numbers;
mod resources;
mod sequences;
mod skipping;
mod sorted;
mod tables;
mod texts;
mod views;
mod whole_files;
mod words;

pub use cursor::{Cursor, Spot};
pub use deserialize::Deserialize;
pub use entries::MapAccess;
pub use file::{File, Manner};
pub use measuring::Measured;
pub use named::{IntVectorDeserializer, KeyDeserializer, Resource16BitDeserializer};
pub use resb_pool_bundle::PoolBundle;
pub use resb_walk::{Sums, Walk};
pub use sequences::SeqAccess;
pub use sorted::SortedTable;
pub use tables::TableView;
pub use whole_files::{from_bytes, from_bytes_counted};
pub use words::{determine_endianness, from_words, lay_words};
