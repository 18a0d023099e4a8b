//! Types that are read at places of files with so much of a budget: the value, or why it is
//! refused, and what is left. A row ends with a `;` and a line feed. Whole trees are in
//! `file_rows`, and the tests in `rows`.
use crate::answers::{Answer, BASIS, digest, halves, named, number_of};
use crate::asks::{ASKS, Ask, asked};
use crate::files::file_of;
use crate::places::place;
use resb_format::BinaryDeserializerError;
use std::alloc::Global;

/// Files, places in them, what is left of a budget and what is asked for, and the answer.
pub(crate) const TYPES: &str = "\
NUMBERS / root / 50 word-list-map =>
    Resource did not match expected data type: expected array resource, 48 left;
NUMBERS / root / 50 byte-map => Unknown error: number out of range, 48 left;
TWO_ENTRIES / root / 46 text-map => {\"a\": \"x\", \"c\": \"yz\"}, 43 left;
TWO_ENTRIES / root / 46 key-map => a=x,c=yz,, 43 left;
50000006 7 9 f f 2 0 f 630061 780000 790000 7a 250002 10022 aaaa0003 / root / 46 byte-map =>
    Invalid resource bundle data: unexpected end of data while deserializing key, 45 left;
70000001 7 8 9 9 0 0 9 aaaa0000 / root / 34 option-bool => Some(true), 33 left;
70000001 7 8 9 9 0 0 9 aaaa0000 / root / 34 u64 => 1, 33 left;
70000001 7 8 9 9 0 0 9 aaaa0000 / root / 0 u64 =>
    Invalid resource bundle data: resource budget spent, 0 left;
70000002 7 8 9 9 0 0 9 aaaa0000 / root / 34 bool =>
    Resource did not match expected data type: expected integer resource \
    representable as boolean, 33 left;
70000002 7 8 9 9 0 0 9 aaaa0000 / root / 34 text =>
    Resource did not match expected data type: expected string resource, 33 left;
70000002 7 8 9 9 0 0 9 aaaa0000 / root / 34 bytes =>
    Resource did not match expected data type: expected binary data resource, 33 left;
70000002 7 8 9 9 0 0 9 aaaa0000 / root / 34 byte-map =>
    Resource did not match expected data type: expected table resource, 33 left;
TEXT_A / root / 36 key => Unknown error: value cannot be read here, 35 left;
TEXT_A / root / 0 key => Invalid resource bundle data: resource budget spent, 0 left;
TEXT_A / root / 36 u32 =>
    Resource did not match expected data type: expected integer resource, 35 left;
INTEGER / root / 1 i8 => -1, 0 left;
INTEGER / root / 1 i64 => -1, 0 left;
INTEGER / root / 1 u32 => 268435455, 0 left;
INTEGER / root / 1 bits => 268435455, 0 left;
NUMBERS / root v1 / 9 pair-view => [I32Pair(1, -1)], 8 left;
NUMBERS / root v1 / 9 pairs => [I32Pair(1, -1)], 8 left;
NUMBERS / root v1 / 9 word-view => [1, 4294967295], 8 left;
NUMBERS / root v1 / 9 number-view => [1, -1], 8 left;
NUMBERS / root v1 m1 / 0 i64 => -1, 0 left;
NUMBERS / root v1 m1 / 0 u32 => 4294967295, 0 left;
NUMBERS / root v1 m1 / 0 u16 => Unknown error: number out of range, 0 left;
THREE_NUMBERS / root v0 / 9 pair-view => Unknown error: Wrong length, 8 left;
THREE_NUMBERS / root v0 / 9 pairs => Unknown error: Wrong length, 8 left;
BYTES / root v0 / 9 unit-view => [65280], 8 left;
BYTES / root v0 / 9 word-view => Unknown error: Wrong length, 8 left;
TEXTS / root v0 / 9 unit-view-list => [0, 1], 6 left;
TEXTS / root v0 / 9 unit-lists => 0:[],1:[120],, 6 left;
TEXTS / root v0 / 9 text-list => [\"\", \"x\"], 6 left;
TEXTS / root v0 m1 / 9 text => \"x\", 8 left;
TEXTS / root v0 m1 / 9 bytes => [120, 0], 8 left;
TEXTS / root v0 m0 / 9 i32 => Unknown error: value cannot be read here, 8 left;
TEXTS / root v0 m0 / 0 i32 => Invalid resource bundle data: resource budget spent, 0 left;
TWO_ENTRIES / root k1 / 0 key => \"c\", 0 left;
TWO_ENTRIES / root k1 / 0 bytes => [99], 0 left;
TWO_ENTRIES / root k1 / 0 type => Unknown error: value cannot be read here, 0 left;
60000001 7 8 a a 0 0 a d8000000 0 / root / 1 bytes => [0, 216], 0 left;
WIDE_TABLE / root / 2 byte-map => {\"a\": 5}, 0 left;
WIDE_TABLE / root / 1 byte-map => Invalid resource bundle data: resource budget spent, 0 left;
WIDE_TABLE / root / 1 type => _Table32, 1 left;
30000000 7 8 9 9 0 0 9 aaaa0000 / root / 1 type =>
    Unsupported resource bundle format: resource type is not supported, 1 left;
a0000000 7 8 9 9 0 0 9 aaaa0000 / root / 1 type =>
    Invalid resource bundle data: unrecognized value for ResourceReprType, 1 left;
a0000000 7 8 9 9 0 0 9 aaaa0000 / root / 1 skip => (), 0 left;
a0000000 7 8 9 9 0 0 9 aaaa0000 / root / 1 key =>
    Invalid resource bundle data: unrecognized value for ResourceReprType, 0 left;
1 7 8 9 9 0 0 9 aaaa0000 / root / 1 key =>
    Unsupported resource bundle format: resource type is not supported, 0 left;
";

/// Files, places in them, and the digest of all that is answered there with 0, 1, 2 and 50 of a
/// budget.
pub(crate) const SWEEPS: &str = "\
NUMBERS / root, root k0, root v0, root v1, root v1 m0, root v1 m1 => 7d4cbaa1a0f5c8e1;
TEXTS / root, root k0, root v0, root v0 m0, root v0 m1 => a8ca2e23ddbe45b2;
BYTES / root, root k0, root v0 => 0221c01b958e2b54;
TWO_ENTRIES / root, root k0, root k1, root v0, root v1 => 30987796736f811c;
WIDE_TABLE / root, root k0, root v0 => cccd3a68dc29b4de;
THREE_NUMBERS / root v0, root v0 m2 => f06ce4e6218de01e;
TEXT_A / root => 9f5085cd25d3b1c8;
70000000 7 8 9 9 0 0 9 aaaa0000 / root => c039a014d79544b2;
70000001 7 8 9 9 0 0 9 aaaa0000 / root => 3290ce6c3a57fcb2;
700000ff 7 8 9 9 0 0 9 aaaa0000 / root => fd8a279b8237ec16;
70000100 7 8 9 9 0 0 9 aaaa0000 / root => 3f43bdfa7b64db41;
70007fff 7 8 9 9 0 0 9 aaaa0000 / root => adc4499e364f2e91;
7000ffff 7 8 9 9 0 0 9 aaaa0000 / root => 9a63ba0f5a822cee;
7fffff80 7 8 9 9 0 0 9 aaaa0000 / root => 421fa128d9a4809f;
7ffffe00 7 8 9 9 0 0 9 aaaa0000 / root => 5effe5968ff4c13f;
60000000 7 8 9 9 0 0 9 aaaa0000 / root => 8d5588cf6a0ec23a;
10000000 7 8 9 9 0 0 9 aaaa0000 / root => 66a186de7d17fea0;
20000000 7 8 9 9 0 0 9 aaaa0000 / root => a115150189e8c374;
80000000 7 8 9 9 0 0 9 aaaa0000 / root => 24194d06515cefa2;
90000000 7 8 9 9 0 0 9 aaaa0000 / root => cfcef0357566bae2;
e0000000 7 8 9 9 0 0 9 aaaa0000 / root => 29dfbc58c92a2cfb;
0 7 8 9 9 0 0 9 aaaa0000 / root => f7de028a383eb5f2;
30000000 7 8 9 9 0 0 9 aaaa0000 / root => f7de028a383eb5f2;
a0000000 7 8 9 9 0 0 9 aaaa0000 / root => 70db23325c888c84;
f0000000 7 8 9 9 0 0 9 aaaa0000 / root => 70db23325c888c84;
1000ffff 7 8 9 9 0 0 9 aaaa0000 / root => 127253f28c0f2890;
6000ffff 7 8 9 9 0 0 9 aaaa0000 / root => 28c1ab18786c42c8;
";

/// The parts of a row: a file, a place in it, what is left of a budget, and what is asked for.
pub(crate) fn parts_of(row: &str) -> (&str, &str, usize, Ask) {
    let (words, rest) = halves(row, " / ");
    let (path, rest) = halves(rest, " / ");
    let (left, name) = halves(rest, " ");
    let ask = named(&ASKS, name).unwrap_or(Ask::Type);
    (words, path, number_of(left), ask)
}

/// The answer to what is asked for.
pub(crate) fn answer_to_ask(alloc: Global, row: &str) -> Answer {
    let (words, path, left, ask) = parts_of(row);
    let bytes = file_of(alloc, words)?;
    Ok(asked(alloc, ask, place(&bytes, path)?, left)?)
}

/// The digest so far, and all that is answered at a place of a file to one thing that is asked for.
fn digest_of_ask(
    alloc: Global,
    before: u64,
    bytes: &[u8],
    path: &str,
    ask: Ask,
) -> Result<u64, BinaryDeserializerError> {
    let mut sum = before;
    for left in [0usize, 1, 2, 50] {
        let line = asked(alloc, ask, place(bytes, path)?, left)?;
        sum = digest(sum, &line);
    }
    Ok(sum)
}

/// The digest so far, and all that is answered at a place of a file.
fn digest_of_place(
    alloc: Global,
    before: u64,
    bytes: &[u8],
    path: &str,
) -> Result<u64, BinaryDeserializerError> {
    let mut sum = before;
    for (_, ask) in ASKS {
        sum = digest_of_ask(alloc, sum, bytes, path, ask)?;
    }
    Ok(sum)
}

/// The digest of all that is answered at the places of a row.
pub(crate) fn answer_at_places(alloc: Global, row: &str) -> Answer {
    let (words, paths) = halves(row, " / ");
    let bytes = file_of(alloc, words)?;
    let mut sum = BASIS;
    for path in paths.split(", ") {
        sum = digest_of_place(alloc, sum, &bytes, path)?;
    }
    Ok(format!(in alloc; "{sum:016x}")?)
}
