//! The text form of resource bundles as definitions: its grammar, the readings of a text token by
//! token, and the laws of both. What both text forms need beside stands here too: what the laws of
//! each form say, the bytes of hex digits, runs of blanks and of digits, the search for a byte that
//! is near, lists of items and of keys, and the limit of what a reading may make.
#![tactic(auto)]

mod expected;
mod group_kind;
mod hex_pairs;
mod items;
mod key_list;
pub mod laws;
mod limit;
mod runs;

pub use expected::Expected;
pub use group_kind::{Kind, kind_named};
pub use hex_pairs::bytes_of_hex;
pub use items::push_item;
pub use key_list::KeyList;
pub use limit::{Limit, Weights};
pub use runs::{blanks_end, bytes_before, digits_end, is_word, negated};
