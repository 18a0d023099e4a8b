//! An index over a file's blocks, made once, so that no string or key is looked at again for each
//! descriptor that leads to it: breaks between units, long tails of keys, and the widths of units.
//! What descriptors lead to is found in the crates above.
#![tactic(auto)]

mod breaks;
pub mod laws;
mod tails;
mod widths;

pub use breaks::{Breaks, is_high, is_low};
pub use tails::{LongTails, SHORT_TAIL, Tail, first_zero};
pub use widths::Widths;
