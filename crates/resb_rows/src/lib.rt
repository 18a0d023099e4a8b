//! The worked rows: inputs with the answers that the rules ask for, each through every public call
//! that takes it. Only tests stand here, so that no other crate is proved twice.
#![tactic(auto)]

#[cfg(test)]
mod answers;
#[cfg(test)]
mod compact_over_rows;
#[cfg(test)]
mod compact_rows;
#[cfg(test)]
mod over_pool_rows;
#[cfg(test)]
mod pool_rows;
#[cfg(test)]
mod rows;
#[cfg(test)]
mod write_rows;
