//! Reads what stands at a word of a file: any depth, within a budget of resources.
//! Places other than words, and other types than trees, are read in the crate above.
#![tactic(auto)]

mod checker;
mod count;
pub mod faults;
mod filling;
mod frame;
mod known;
mod leads;
mod leaves;
mod lengths;
mod make;
mod members;
pub mod places;
mod read;
mod room;
mod scale;
mod standing;
mod strings;
mod sums;
mod tree;
pub mod types;
mod units;
mod walk;
mod weigh;

pub use count::{count_string_at, count_word};
pub use make::Make;
pub use members::{Leaf, Member, Members, Positions, Rest, Standing, TableParts, WIDE};
pub use read::{read_checked, read_string_at, read_word};
pub use standing::{counted_text_at, key_at, standing_at, text_at};
pub use sums::Sums;
pub use units::{push_text_of_units, text_of_units};
pub use walk::Walk;
pub use weigh::weigh_word;
