//! The numbers and parts among a file's bytes, each answered only where it lies inside.
//! The reads that ask the caller for that, and are not checked again, stay in `resb_format`.

pub use resb_format::bytes::{
    cut_at, first_four_units, first_unit, first_word, some_bytes, some_unit, some_units, some_word,
    some_words,
};
