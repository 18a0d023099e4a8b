//! What becomes of a draft between the reader and the writer: the rule files of ICU's data build,
//! `genrb --filterDir`, say which entries of a bundle's tables stay; and rules of collation get the
//! binary forms that another tool made. No file is opened here.
#![tactic(auto)]

mod collation;
mod error;
mod filtering;
pub mod laws;
mod lines;
mod open_tables;
mod remaining;
mod rules;

pub use collation::{CollationForm, with_collation_forms};
pub use error::{RuleError, RuleFault};
pub use rules::Rules;
