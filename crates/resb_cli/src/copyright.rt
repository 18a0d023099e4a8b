//! ICU's notice of copyright in the header of a file, as ICU's compiler puts it there.
//! What else stands in a header is said in `resb_head`.
use std::alloc::{AllocError, Global};

/// The notice, which says under which licence ICU's data are.
const NOTICE: &str = " Copyright (C) 2016 and later: Unicode, Inc. and others. License & terms of \
use: http://www.unicode.org/copyright.html ";

/// How many bytes of a header stand before the notice, and of one that has none (ICU's `udata.h`).
const BEFORE: usize = 24;

const HEADER: usize = 32;

/// How many bytes a header with the notice has: it ends with a zero byte, at a multiple of 16.
const WITH_NOTICE: u8 = 0x90;

/// A file with the notice in its header. The order of its bytes is that of the header's length.
pub(crate) fn with_notice(alloc: Global, file: &[u8]) -> Result<Vec<u8>, AllocError> {
    let mut noted = Vec::new(alloc);
    let length = match file.first() {
        Some(0) => [0, WITH_NOTICE],
        _ => [WITH_NOTICE, 0],
    };
    noted.extend_from_slice(&length)?;
    noted.extend_from_slice(file.get(2..BEFORE).unwrap_or(&[]))?;
    noted.extend_from_slice(NOTICE.as_bytes())?;
    noted.resize(usize::from(WITH_NOTICE), 0)?;
    noted.extend_from_slice(file.get(HEADER..).unwrap_or(&[]))?;
    Ok(noted)
}
