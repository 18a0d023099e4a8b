//! Code as a user's crate would have it: it names `resb` and no other crate of this repository.
//! That of the pages on reading and writing has no proof file; only `zones`, a type with relations
//! of its own, has. What the code answers is tested in `resb_user_rows`.
#![tactic(auto)]

pub mod names;
pub mod orders;
pub mod reading;
pub mod records;
pub mod writing;
pub mod zones;
