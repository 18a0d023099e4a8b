//! Views of bytes as numbers, the casts between them, and the calls that read one at a place of a
//! file. They borrow, and need no alignment.

pub use resb_format::{
    I32Pair, I32View, PairView, Utf16View, WordView, cast_bytes_to_u16_slice,
    cast_bytes_to_u32_slice, cast_u32_to_i32_pair_slice, cast_u32_to_i32_slice,
};
pub use resb_read::helpers::{
    i32_tuple, option_i32, option_i32_tuple, option_u32, option_utf_16, vec_utf_16,
};
