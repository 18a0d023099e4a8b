//! What differs between two trees, by their paths.
//! What stands at a path is found in `path`.

pub use resb_diff::{Change, ChangeAt, Differences, PathStep, differences_between};
