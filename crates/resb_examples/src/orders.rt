//! Reading files that may be in either order of bytes, as those of ICU for Java.
//! Files that are little-endian are read in `reading`, where keys are borrowed from them.
use resb::binary::{BinaryDeserializerError, File, PoolBundle, SwapError, little_endian};
use std::alloc::Global;
use std::collections::BTreeMap;
use thiserror::Error;

/// Why a file that may be in either order of bytes isn't read.
#[derive(Debug, Drop, Error)]
pub enum OrderError {
    /// It is big-endian, and there is no little-endian one; or it was written in EBCDIC.
    #[error("{0}")]
    Swapping(#[from] SwapError),
    /// It isn't what was looked for.
    #[error("{0}")]
    Reading(#[from] BinaryDeserializerError),
}

/// The strings of a file of names by their keys, over the pool bundle that it uses, each in either
/// order of bytes. A big-endian file is mirrored, so that nothing is borrowed from what the caller
/// has.
pub fn names_in_either_order(
    alloc: Global,
    file: &[u8],
    pool: &[u8],
) -> Result<BTreeMap<String, String>, OrderError> {
    let (file, pool) = (little_endian(alloc, file)?, little_endian(alloc, pool)?);
    let pool = PoolBundle::read(&pool)?;
    Ok(File::open(&file, Some(pool))?.read(alloc)?)
}
