//! What files add up to before their trees are made, and trees within a limit of bytes.
//! Most of the files are those of `hostile_rows`; the tests are in `rows`.
use crate::answers::{Answer, Line, answer_by_tree, line_of_read, said};
use crate::files::file_of;
use resb_format::BinaryDeserializerError;
use resb_read::{File, Measured, Sums};
use std::alloc::{AllocError, Global};

/// Files, and what they add up to: resources, tables with entries, entries, bytes of keys, of texts
/// and of binaries, and numbers of vectors, replaced entries included; and the bytes of the tree,
/// which are 72 for each resource, 1024 for each such table, 192 for each entry, 3 for each byte of
/// a text and 4 for each number. The first file is an array of one vector of 3 numbers twice, a
/// binary of 5 bytes, an empty table, and a table with two entries of one key.
pub(crate) const MEASURES: &str = "\
80000009 7 9 9 9 0 0 9 aaaa006b 5 e000000f e000000f 10000013 20000000 20000016 3 1 2 3 5 4030201 5
  200002 20 70000001 60000000 => 8: 1, 2, 2, 0, 5, 6; 2008 bytes;
8000000a 7 8 30 30 0 0 a 20000 0 25 90000001*37 => 112: 0, 0, 0, 0, 0, 0; 8064 bytes;
8000000a 7 8 31 31 0 0 a 20000 0 26 90000001*38 =>
    Invalid resource bundle data: resource budget spent;
80000009 7 9 9 9 0 0 9 aaaa006b 2,8000000c+3,8000000c+3*19 2 70000000 =>
    Invalid resource bundle data: unexpected end of input;
80000200 7 8 5e9 5e9 0 0 200 dfee0000 dc02d800*503 3e8 60000001*999 60000003 =>
    1001: 0, 0, 0, 2009992, 0, 0; 6102048 bytes;
80000200 7 8 5e9 5e9 0 0 200 dfee0000 dc01d800*503 3e8 60000001*999 60000003 =>
    Invalid resource bundle data: string resource is not valid UTF-16;
4000006d 7 6d 0 0 0 0 6d a9c3a9c3*100 0 64 20+2*99 e8 70000000*100 =>
    101: 1, 100, 30098, 0, 0, 0; 27496 bytes;
20000009 7 9 9 9 0 0 9 aaaa006b 20ffff 200020*32767 70000000+1*65535 =>
    65536: 1, 65535, 65535, 0, 0, 0; 17302336 bytes;
";

/// The number of a sum, and where none fits, one that no row names.
pub(crate) fn fit(sum: Option<u64>) -> u64 {
    sum.unwrap_or(u64::MAX)
}

/// The line of the sums.
pub(crate) fn line_of_sums(alloc: Global, sums: Sums) -> Line {
    let tables = fit(sums.tables);
    let entries = fit(sums.entries);
    let keys = fit(sums.key_bytes);
    let texts = fit(sums.text_bytes);
    let binaries = fit(sums.binary_bytes);
    let numbers = fit(sums.numbers);
    format!(in alloc; "{tables}, {entries}, {keys}, {texts}, {binaries}, {numbers}")
}

/// The line of what was measured.
pub(crate) fn line_of_measured(alloc: Global, measured: Measured) -> Line {
    let (count, taken) = (measured.resources, fit(measured.tree_bytes()));
    let sums = line_of_sums(alloc, measured.sums)?;
    format!(in alloc; "{count}: {sums}; {taken} bytes")
}

/// The answer for a file's tree, where it is read within a limit.
fn answer_within(alloc: Global, bytes: &[u8], count: usize, limit: u64) -> Answer {
    let file = File::alone(bytes)?;
    line_of_read(alloc, count, file.tree(alloc, Some(limit)))
}

/// Whether just this number of bytes is enough for the keys.
fn are_keys_within(measured: Measured, keys: u64) -> bool {
    let is_over = keys == 0 || !measured.keys_are_within(keys - 1);
    measured.keys_are_within(keys) && is_over
}

/// Why a tree is refused within fewer bytes than it takes, or than its keys have where they have
/// more.
fn refusal_within(taken: u64, keys: u64) -> &'static str {
    if keys > taken {
        "Invalid resource bundle data: keys larger than the limit"
    } else {
        "Invalid resource bundle data: tree larger than the limit"
    }
}

/// Whether the tree is read within just its bytes, or those of its keys where these are more, and
/// refused within fewer.
fn is_within(alloc: Global, bytes: &[u8], measured: Measured) -> Result<bool, AllocError> {
    let count = measured.resources;
    let (taken, keys) = (fit(measured.tree_bytes()), fit(measured.sums.key_bytes));
    let limit = taken.max(keys);
    let fewer = said(
        alloc,
        answer_within(alloc, bytes, count, limit.saturating_sub(1)),
    )?;
    let is_refused = fewer.as_str() == refusal_within(taken, keys);
    let within = said(alloc, answer_within(alloc, bytes, count, limit))?;
    let whole = said(alloc, answer_by_tree(alloc, bytes))?;
    Ok(is_refused && within == whole && are_keys_within(measured, keys))
}

/// The refusal of a tree that is read within fewer bytes, or not within its own.
pub(crate) fn other_limit() -> BinaryDeserializerError {
    BinaryDeserializerError::unknown("the limit is another")
}

/// The answer for the file of a row of these.
pub(crate) fn answer_to_measure(alloc: Global, words: &str) -> Answer {
    let bytes = file_of(alloc, words)?;
    let measured = File::alone(&bytes)?.measure(alloc)?;
    if !is_within(alloc, &bytes, measured)? {
        return Err(other_limit());
    }
    Ok(line_of_measured(alloc, measured)?)
}
