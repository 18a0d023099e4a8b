//! Rows as lines of text, and the lines that they are compared with.
//! A row ends with a `;` and a line feed, and its answer stands behind ` =>`.
use std::alloc::{AllocError, Global};
use std::test::Fail;

/// The 32 bytes that each file begins with.
const HEADER: [u8; 32] = [
    0x20, 0, 0xda, 0x27, 0x14, 0, 0, 0, 0, 0, 2, 0, 0x52, 0x65, 0x73, 0x42, 2, 0, 0, 0, 1, 4, 0, 0,
    0, 0, 0, 0, 0, 0, 0, 0,
];

/// What a row asks for, and the answer that it wants.
pub(crate) fn parts(row: &str) -> Result<(&str, &str), Fail> {
    Ok(row.split_once(" =>").ok_or("a row without an answer")?)
}

/// Whether the line is the one that is wanted, whose own lines begin with blanks.
pub(crate) fn is_said(alloc: Global, found: &str, wanted: &str) -> Result<bool, AllocError> {
    Ok(joined(alloc, wanted)?.as_str() == found)
}

/// The line that two calls give.
pub(crate) fn same(one: String, other: String) -> Result<String, Fail> {
    if one != other {
        return Err("the calls differ")?;
    }
    Ok(one)
}

/// The hex digits of a file behind its header.
pub(crate) fn digits(alloc: Global, file: &[u8]) -> Result<String, Fail> {
    let (header, body) = file.split_at_checked(32).ok_or("short")?;
    if header != HEADER.as_slice() {
        return Err("another header")?;
    }
    Ok(hex::encode(alloc, body)?)
}

/// The lines without the blanks that begin them.
fn joined(alloc: Global, lines: &str) -> Result<String, AllocError> {
    let mut all = String::new(alloc);
    for line in lines.split('\n') {
        all.push_str(line.trim_start())?;
    }
    Ok(all)
}
