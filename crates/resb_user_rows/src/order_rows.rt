//! A file and its pool bundle in big-endian order, as `icupkg -tb` 72.1 makes them of `genrb`'s.
//! What the little-endian ones answer is in `page_rows`.
use resb::binary::SwapError;
use resb_examples::orders::{OrderError, names_in_either_order};
use std::alloc::{AllocError, Global};
use std::test::Fail;

/// The header of both.
const HEADER: [u8; 32] = [
    0, 0x20, 0xda, 0x27, 0, 20, 0, 0, 1, 0, 2, 0, b'R', b'e', b's', b'B', 2, 0, 0, 0, 1, 4, 0, 0,
    0, 0, 0, 0, 0, 0, 0, 0,
];

/// The words behind it of a pool bundle of the keys `alpha`, `beta` and `gamma`.
const POOL: [u32; 15] = [
    0x20000000, 8, 0xe, 0xf, 0xf, 0, 3, 0xf, 0x1baba403, 0x616c7068, 0x61006265, 0x74610067,
    0x616d6d61, 0xaaaaaa, 0xaaaa,
];

/// Those of the file of `a{alpha{"one two three"}beta{"x"}}` over it.
const OVER_POOL: [u32; 20] = [
    0x50000011, 8, 9, 0x14, 0x14, 2, 4, 0x14, 0x1baba403, 0x78, 0x6f, 0x6e0065, 0x200074, 0x77006f,
    0x200074, 0x680072, 0x650065, 2, 6, 0x30001,
];

/// A big-endian file by its words behind the header.
fn file_of(alloc: Global, words: &[u32]) -> Result<Vec<u8>, AllocError> {
    let mut file = Vec::from_slice(alloc, &HEADER)?;
    for word in words {
        file.extend_from_slice(&word.to_be_bytes())?;
    }
    Ok(file)
}

/// Whether its strings are read, each by its key.
fn are_names(alloc: Global, file: &[u8], pool: &[u8]) -> Result<bool, Fail> {
    let names = names_in_either_order(alloc, file, pool)?;
    let (long, short) = (names.get("alpha"), names.get("beta"));
    Ok(
        long.is_some_and(|it| it.as_str() == "one two three")
            && short.is_some_and(|it| it.as_str() == "x"),
    )
}

#[test]
fn a_big_file_is_read(rt: HostRuntime) -> Result<(), Fail> {
    let (file, pool) = (
        file_of(rt.alloc(), &OVER_POOL)?,
        file_of(rt.alloc(), &POOL)?,
    );
    assert!(rt; are_names(rt.alloc(), &file, &pool)?);
    Ok(())
}

#[test]
fn a_file_that_ends_early_is_refused(rt: HostRuntime) -> Result<(), Fail> {
    let (file, pool) = (
        file_of(rt.alloc(), &OVER_POOL[..12])?,
        file_of(rt.alloc(), &POOL)?,
    );
    let answer = names_in_either_order(rt.alloc(), &file, &pool);
    assert!(rt; matches!(answer, Err(OrderError::Swapping(SwapError::NoIndex))));
    Ok(())
}
