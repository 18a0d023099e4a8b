//! The parts of a file, and each check of its head in its order: one damage for each.
//! What the root's word denotes is read in other rows.
use crate::head_rows::damaged;
use crate::refusals::is_refused;
use resb_format::ErrorKind;
use resb_head::CheckedFile;
use std::test::Fail;

/// The file of the string "a", with locale fallback and no keys.
const FILE: [u8; 72] = [
    0x20, 0, 0xda, 0x27, 20, 0, 0, 0, 0, 0, 2, 0, b'R', b'e', b's', b'B', 2, 0, 0, 0, 1, 4, 0, 0,
    0, 0, 0, 0, 0, 0, 0, 0, // the root's descriptor
    1, 0, 0, 0x60, // the index
    7, 0, 0, 0, 8, 0, 0, 0, 10, 0, 0, 0, 10, 0, 0, 0, 0, 0, 0, 0, 0, 0, 0, 0, 10, 0, 0, 0,
    // the 16-bit block
    0, 0, 0x61, 0, 0, 0, 0xaa, 0xaa,
];

const END: &str = "unexpected end of input";

/// A byte put at a place, and the refusal that follows.
const DAMAGES: [(usize, u8, ErrorKind, &str); 16] = [
    (2, 0, ErrorKind::InvalidData, "magic word does not match"),
    (
        8,
        2,
        ErrorKind::InvalidData,
        "unrecognized value for Endianness",
    ),
    (
        8,
        1,
        ErrorKind::UnsupportedFormat,
        "bundle endianness does not match platform endianness",
    ),
    (
        9,
        2,
        ErrorKind::InvalidData,
        "unrecognized value for CharsetFamily",
    ),
    (
        12,
        0,
        ErrorKind::InvalidData,
        "unexpected data format value",
    ),
    (16, 9, ErrorKind::InvalidData, "unrecognized format version"),
    (
        0,
        23,
        ErrorKind::InvalidData,
        "header size specified in file is smaller than expected",
    ),
    (
        9,
        1,
        ErrorKind::UnsupportedFormat,
        "bundle and system character set families do not match",
    ),
    (
        10,
        1,
        ErrorKind::UnsupportedFormat,
        "characters of size other than 2 are not supported",
    ),
    (
        16,
        3,
        ErrorKind::UnsupportedFormat,
        "format versions other than 2.0 are not supported at this time",
    ),
    (0, 73, ErrorKind::InvalidData, END),
    (36, 4, ErrorKind::InvalidData, "invalid index field count"),
    (40, 11, ErrorKind::InvalidData, END),
    (
        36,
        6,
        ErrorKind::InvalidData,
        "offset to the end of 16-bit data not specified",
    ),
    (60, 7, ErrorKind::InvalidData, END),
    (60, 11, ErrorKind::InvalidData, END),
];

/// Whether the file's parts are those of the string "a".
fn has_its_parts() -> bool {
    match CheckedFile::read(FILE.as_slice()) {
        Ok(parts) => {
            parts.root == 0x6000_0001
                && parts.file.body == &FILE[32..]
                && parts.file.keys == &FILE[32..64]
                && parts.file.block == &FILE[64..]
        }
        Err(_) => false,
    }
}

#[test]
fn a_file_has_its_parts(rt: HostRuntime) {
    assert!(rt; has_its_parts());
}

#[test]
fn each_damage_to_the_head_is_named(rt: HostRuntime) -> Result<(), Fail> {
    for (place, byte, kind, message) in DAMAGES {
        let bytes = damaged(rt.alloc(), FILE.as_slice(), place, byte)?;
        let refused = is_refused(CheckedFile::read(bytes.as_slice()), kind, message);
        assert!(rt; refused, "byte {byte} at {place}");
    }
    Ok(())
}

#[test]
fn a_head_cut_short_is_named(rt: HostRuntime) {
    let short = "input is too short to contain file header";
    for length in 0..64usize {
        let (cut, _) = FILE.as_slice().split_at(length);
        let message = if length < 24 { short } else { END };
        assert!(rt; is_refused(CheckedFile::read(cut), ErrorKind::InvalidData, message));
    }
}
