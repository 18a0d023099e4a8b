//! Files of zones that no text has: doubled keys, entries that lead nowhere, a bad name, a shared
//! zone.
//! What a text can say is in `text_rows`.
use resb::binary::{ErrorKind, from_bytes, from_bytes_counted};
use resb_examples::zones::ZoneTable;
use std::alloc::{AllocError, Global};
use std::test::Fail;

/// The first 32 bytes of a written file.
const HEADER: [u8; 32] = [
    0x20, 0, 0xda, 0x27, 20, 0, 0, 0, 0, 0, 2, 0, b'R', b'e', b's', b'B', 2, 0, 0, 0, 1, 4, 0, 0,
    0, 0, 0, 0, 0, 0, 0, 0,
];

/// A file by its words behind the header; its count, its zones, and the offsets of the zone `Pole`,
/// each with its moment.
struct Read {
    words: &'static [u32],
    count: usize,
    zones: usize,
    offsets: [(i32, i32); 5],
}

/// A file that holds no table of zones, and what it is refused for.
struct Refused {
    words: &'static [u32],
    kind: ErrorKind,
    message: &'static str,
}

const READ: [Read; 3] = [
    // two of each entry: the last `base` and the last `pairs` stand
    Read {
        words: &[
            0x2000001d, 7, 0xe, 0x1f, 0x1f, 0, 0, 0xf, 0x656c6f50, 0x73616200, 0x61700065,
            0x737269, 0x65746f6e, 0xaaaaaa00, 0xaaaa0000, 2, 1, 2, 2, 0x64, 0xe10, 0x250005,
            0x30002a, 0x2a0025, 0x70000001, 0xe000000f, 0x70000009, 0x7000003c, 0xe0000012,
            0x200001, 0x20000015,
        ],
        count: 7,
        zones: 1,
        offsets: [(-1, 60), (2, 60), (99, 60), (100, 3600), (200, 3600)],
    },
    // two zones of one name: the last stands, and both are counted
    Read {
        words: &[
            0x2000001a, 7, 0xe, 0x1e, 0x1e, 0, 0, 0xf, 0x656c6f50, 0x73616200, 0x61700065,
            0x737269, 0x65746f6e, 0xaaaaaa00, 0xaaaa0000, 2, 1, 2, 0x250002, 0xaaaa002a,
            0x70000001, 0xe000000f, 0x250002, 0xaaaa002a, 0x7000003c, 0xe000000f, 0x200002,
            0xaaaa0020, 0x20000012, 0x20000016,
        ],
        count: 7,
        zones: 1,
        offsets: [(-1, 60), (0, 60), (1, 2), (2, 2), (100, 2)],
    },
    // an entry that leads nowhere is skipped all the same
    Read {
        words: &[
            0x20000017, 7, 0xe, 0x19, 0x19, 0, 0, 0xf, 0x656c6f50, 0x73616200, 0x61700065,
            0x737269, 0x65746f6e, 0xaaaaaa00, 0xaaaa0000, 2, 1, 2, 0x250003, 0x2a0030, 0x7000003c,
            0x90ffffff, 0xe000000f, 0x200001, 0x20000012,
        ],
        count: 5,
        zones: 1,
        offsets: [(-1, 60), (0, 60), (1, 2), (2, 2), (100, 2)],
    },
];

const REFUSED: [Refused; 3] = [
    // an earlier `base` that can not be read, before one that can
    Refused {
        words: &[
            0x20000017, 7, 0xe, 0x19, 0x19, 0, 0, 0xf, 0x656c6f50, 0x73616200, 0x61700065,
            0x737269, 0x65746f6e, 0xaaaaaa00, 0xaaaa0000, 2, 1, 2, 0x250003, 0x25002a, 0x60000000,
            0xe000000f, 0x7000003c, 0x200001, 0x20000012,
        ],
        kind: ErrorKind::ResourceTypeMismatch,
        message: "expected integer resource",
    },
    // a name that is not UTF-8
    Refused {
        words: &[
            0x20000016, 7, 0xc, 0x18, 0x18, 2, 0, 0xd, 0x656c6fff, 0x73616200, 0x61700065,
            0x737269, 0xaaaa0000, 4, 0x64, 0xe10, 0xc8, 0x1c20, 0x250002, 0xaaaa002a, 0x7000003c,
            0xe000000d, 0x200001, 0x20000012,
        ],
        kind: ErrorKind::InvalidData,
        message: "key string is not valid UTF-8",
    },
    // one zone 24 times, which ends the budget inside its last visit
    Refused {
        words: &[
            0x2000001a, 7, 0xe, 0x3f, 0x3f, 0, 0, 0xf, 0x656c6f50, 0x73616200, 0x61700065,
            0x737269, 0x65746f6e, 0xaaaaaa00, 0xaaaa0000, 2, 1, 2, 0x250005, 0x300030, 0x2a0030,
            0x7000003c, 0x70000001, 0x70000001, 0x70000001, 0xe000000f, 0x200018, 0x200020,
            0x200020, 0x200020, 0x200020, 0x200020, 0x200020, 0x200020, 0x200020, 0x200020,
            0x200020, 0x200020, 0xaaaa0020, 0x20000012, 0x20000012, 0x20000012, 0x20000012,
            0x20000012, 0x20000012, 0x20000012, 0x20000012, 0x20000012, 0x20000012, 0x20000012,
            0x20000012, 0x20000012, 0x20000012, 0x20000012, 0x20000012, 0x20000012, 0x20000012,
            0x20000012, 0x20000012, 0x20000012, 0x20000012, 0x20000012, 0x20000012,
        ],
        kind: ErrorKind::InvalidData,
        message: "resource budget spent",
    },
];

/// The bytes of these words behind a written header.
pub(crate) fn file_of(alloc: Global, words: &[u32]) -> Result<Vec<u8>, AllocError> {
    let mut file = Vec::from_slice(alloc, &HEADER)?;
    for word in words {
        file.extend_from_slice(&word.to_le_bytes())?;
    }
    Ok(file)
}

/// Whether the file's zones are those of the row.
fn is_read(alloc: Global, row: &Read) -> Result<bool, Fail> {
    let file = file_of(alloc, row.words)?;
    let (table, count) = from_bytes_counted::<ZoneTable>(alloc, file.as_slice())?;
    let pole = table.zone("Pole").ok_or("no zone")?;
    let offsets = row
        .offsets
        .iter()
        .all(|(moment, offset)| pole.offset_at(*moment) == *offset);
    Ok(count == row.count && table.len() == row.zones && offsets)
}

/// Whether the file is refused as the row says.
fn is_refused(alloc: Global, row: &Refused) -> Result<bool, Fail> {
    let file = file_of(alloc, row.words)?;
    match from_bytes::<ZoneTable>(alloc, file.as_slice()) {
        Ok(_) => Ok(false),
        Err(error) if error.is_out_of_memory() => Err(error)?,
        Err(error) => Ok(error.kind() == row.kind && error.message() == row.message),
    }
}

#[test]
fn tables_are_read(rt: HostRuntime) -> Result<(), Fail> {
    for (number, row) in READ.iter().enumerate() {
        let read = is_read(rt.alloc(), row)?;
        assert!(rt; read, "row {number}");
    }
    Ok(())
}

#[test]
fn other_files_are_refused(rt: HostRuntime) -> Result<(), Fail> {
    for (number, row) in REFUSED.iter().enumerate() {
        let refused = is_refused(rt.alloc(), row)?;
        assert!(rt; refused, "row {number}");
    }
    Ok(())
}
