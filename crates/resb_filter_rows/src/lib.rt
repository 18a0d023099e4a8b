//! The worked rows of filtering: a text of ICU's form, rules, and what they leave.
//! Only tests stand here, so that no crate with code is proved twice.
#![tactic(auto)]

#[cfg(test)]
mod rows;
