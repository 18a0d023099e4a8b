//! The worked rows of what is shown: lengths of JSON and of lines, writers that fail, deep trees
//! with their differences, and what is told of texts. What stands in JSON and lines, what differs,
//! and what texts are warned of are rows of `tests/rows.py`.
//! Only tests stand here, so that no crate with code is proved twice.
#![tactic(auto)]

#[cfg(test)]
mod diff_rows;
#[cfg(test)]
mod json_rows;
#[cfg(test)]
mod line_rows;
#[cfg(test)]
mod told_rows;
