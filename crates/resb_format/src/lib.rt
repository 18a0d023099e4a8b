//! What the body of a `.res` file is: its numbers, its descriptors, its strings and keys, and the
//! tree that a word of it denotes. No loop here goes over a whole file: what a file is, its head,
//! reading and writing are in the crates above.
#![tactic(auto)]

pub mod bytes;
mod casts;
mod descriptor;
mod error;
mod file_blocks;
pub mod laws;
mod repr_type;
mod units;
mod views;

pub use casts::{
    cast_bytes_to_u16_slice, cast_bytes_to_u32_slice, cast_u32_to_i32_pair_slice,
    cast_u32_to_i32_slice,
};
pub use descriptor::ResDescriptor;
pub use error::{BinaryDeserializerError, ErrorKind, ReadingError};
pub use file_blocks::{FileBlocks, PoolBlocks};
pub use repr_type::ResourceReprType;
pub use resb_tree::{Int28, Key, NoMemory, Resource, ResourceBundle, Table};
pub use units::{MAX_UNMARKED, is_unmarked, marked_part, marker_units, string_at, utf16_len};
pub use views::{I32Pair, I32View, PairView, Utf16View, WordView};
