//! The orders of bytes of files: what is big-endian is mirrored once, right behind its reading, so
//! that all else sees little-endian bytes.
//! Which files are mirrored, and how, is decided in `resb_swap`.
use resb_swap::{SwapError, little_endian};
use std::alloc::Global;
use std::borrow::CowSlice;

/// The little-endian file of one in big-endian order; none where the file is read as it is.
pub(crate) fn mirrored(alloc: Global, bytes: &[u8]) -> Result<Option<Vec<u8>>, SwapError> {
    match little_endian(alloc, bytes)? {
        CowSlice::Owned(little) => Ok(Some(little)),
        CowSlice::Borrowed(_) => Ok(None),
    }
}
