//! The worked rows of the bytes, the codecs, the views, the head and the parts of a file, of
//! packages, and of pool bundles that are made and that lend: inputs with the answers that the
//! format's rules ask for. Only tests stand here, so that no other crate is proved twice. Each kind
//! of row has one helper, which is proved once; a row more is a line of its table.
#![tactic(auto)]

#[cfg(test)]
mod byte_rows;
#[cfg(test)]
mod code_rows;
#[cfg(test)]
mod head_rows;
#[cfg(test)]
mod lent_rows;
#[cfg(test)]
mod package_rows;
#[cfg(test)]
mod parts_rows;
#[cfg(test)]
mod pool_maker_rows;
#[cfg(test)]
mod refusals;
#[cfg(test)]
mod view_rows;
