//! The worked rows of texts and trees: inputs with the answers that the rules ask for. Only tests
//! stand here, so that no crate with code is proved twice. Whole texts are asked of the programs,
//! by `tests/rows.py`.
#![tactic(auto)]

#[cfg(test)]
mod files_rows;
#[cfg(test)]
mod icu_rows;
#[cfg(test)]
mod print_rows;
#[cfg(test)]
mod text_rows;
#[cfg(test)]
mod tree_rows;
