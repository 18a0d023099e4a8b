//! ICU's text form of resource bundles, which `genrb` reads, as definitions: a grammar of few
//! rules, the steps of a reading, and where one gets stuck. The laws say that each text is one
//! bundle at most, whose discovered keys hold each key of its tree; that the steps lead to the end
//! of a text exactly where it is a bundle; and that a text in which they get stuck, which is no
//! bundle, has one place for it and one expectation. No text is read here.
#![tactic(auto)]

mod expected;
mod group_kind;
mod keys;
pub mod laws;

pub use expected::{IcuExpected, instead_of};
pub use group_kind::{IcuKind, icu_kind_named};
pub use keys::{are_key_bytes, is_word};
