//! What is to blame where a type isn't read from a file: the path to the resource, and the field
//! that it lacks.
//! How types are read is in `binary` and `fields`.

pub use resb_blame::{Blame, Blames, BlamesField, BlamesFields, Whole, from_bytes_blaming};
pub use resb_diff::PathStep;
