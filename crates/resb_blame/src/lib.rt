//! What is to blame where a type isn't read: the path to the resource, and the field that it lacks.
//! The types are read in `resb_read`, records in `resb_fields`.
#![tactic(auto)]

mod blame;
mod blames;
mod fields;
mod leaves;
mod lists;
mod maps;
mod message;
mod records;
mod tuples;
mod whole_files;

pub use blame::Blame;
pub use blames::{Blames, Whole};
pub use fields::{BlamesChain, BlamesField};
pub use records::BlamesFields;
pub use whole_files::from_bytes_blaming;
