//! The worked rows of the reader: files with the answers that the rules ask for, through each call
//! that reads them. Only tests stand here, and a type as a user of the reader would write it.
#![tactic(auto)]

#[cfg(test)]
mod answers;
#[cfg(test)]
mod asks;
#[cfg(test)]
mod both;
#[cfg(test)]
mod both_rows;
#[cfg(test)]
mod cursor_rows;
#[cfg(test)]
mod file_rows;
#[cfg(test)]
mod files;
#[cfg(test)]
mod head_rows;
#[cfg(test)]
mod hostile_rows;
#[cfg(test)]
mod measure_rows;
#[cfg(test)]
mod older_rows;
#[cfg(test)]
mod places;
#[cfg(test)]
mod pool_rows;
#[cfg(test)]
mod rows;
#[cfg(test)]
mod type_rows;
