//! How a tree is laid out in a file, what a written file is and why none is written: the
//! definitions, and the laws that a writer stands on; the header that such a file begins with; and
//! in which keys others lie. The writer itself is in the crates above.
#![tactic(auto)]

pub mod header;
pub mod key_ends;
pub mod key_laws;
pub mod laws;

pub use resb_pool::Packing;
