//! The worked rows of opened files: what stands at their paths, and their JSON without a tree.
//! Only tests stand here, so that no crate with code is proved twice.
#![tactic(auto)]

#[cfg(test)]
mod files;
#[cfg(test)]
mod opened_rows;
#[cfg(test)]
mod rows;
#[cfg(test)]
mod shown_rows;
