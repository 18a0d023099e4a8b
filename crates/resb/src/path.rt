//! What stands at a path such as `zones/Pole/base`, in a tree or in a file.
//! What differs between two trees is found in `diff`.

pub use resb_path::{Found, find, find_from, find_in};
