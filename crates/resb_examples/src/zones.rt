//! A zone table, read into types of one's own by the trait `Deserialize`, with its proofs: how a
//! user of the library writes one. Records, which need no proof, are in `records`.

mod fields;
mod table;
mod zone;

pub use table::ZoneTable;
pub use zone::Zone;
