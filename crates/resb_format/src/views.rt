//! Views of bytes as lists of numbers, which are read where they stand, without a copy.
//! How a view is made of bytes is said in `casts` and `units`.
mod numbers;
mod pairs;
mod utf16;
mod words;

pub use numbers::I32View;
pub use pairs::{I32Pair, PairView};
pub use utf16::Utf16View;
pub use words::WordView;
