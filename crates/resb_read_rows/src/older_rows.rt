//! Aliases and strings of the older form: a count in the body, and behind it so many units. They
//! are read of files beside a pool bundle or beside none, as here, and are refused where a file is
//! read alone. The tests are in `rows`.
use crate::answers::{Answer, Line, agreed, line_of_read, line_of_tree, said};
use crate::asks::asked;
use crate::files::file_of;
use crate::hostile_rows::ends_of;
use crate::measure_rows::{fit, line_of_measured, other_limit};
use crate::places::place_below;
use crate::type_rows::parts_of;
use resb_format::Resource;
use resb_read::{File, Measured};
use std::alloc::{AllocError, Global};

/// Files, and what is answered of each beside no pool. An alias is shown by its path behind an `@`.
/// The unit 0 that stands behind a text in real files is looked at by nobody.
pub(crate) const BESIDE: &str = "\
30000009 7 8 11 11 0 0 9 aaaa0000 c 4c002f 43004f 4c0041 2f0045 650062 610074 aaaa0000 =>
    1 @\"/LOCALE/beta\";
30000000 7 8 9 9 0 0 9 aaaa0000 => 1 @\"\";
30000009 7 8 a a 0 0 9 aaaa0000 0 => 1 @\"\";
0 7 8 9 9 0 0 9 aaaa0000 => 1 \"\";
9 7 8 a a 0 0 9 aaaa0000 0 => 1 \"\";
9 7 8 b b 0 0 9 aaaa0000 2 620061 => 1 \"ab\";
9 7 8 b b 0 0 9 aaaa0000 1 620061 => 1 \"a\";
80000009 7 8 c c 0 0 9 aaaa0000 2 0 70000005 => 3 [\"\",5,];
8000000b 7 8 e e 0 0 9 aaaa0000 1 61 2 9 30000009 => 3 [\"a\",@\"a\",];
20000014 7 b 18 18 2 0 c 68706c61 65620061 aa006174 aaaa0000 c 4c002f 43004f 4c0041 2f0045 650062
  610074 aaaa0000 200002 aaaa0026 3000000c 70000005 =>
    3 {alpha=@\"/LOCALE/beta\",beta=5,};
30000009 7 8 b b 0 0 9 aaaa0000 3 620061 =>
    Invalid resource bundle data: unexpected end of input;
9 7 8 b b 0 0 9 aaaa0000 ffffffff 620061 =>
    Invalid resource bundle data: unexpected end of input;
3000000a 7 8 a a 0 0 9 aaaa0000 0 =>
    Invalid resource bundle data: unexpected end of input;
30000009 7 8 b b 0 0 9 aaaa0000 1 d800 =>
    Invalid resource bundle data: string resource is not valid UTF-16;
9 7 8 b b 0 0 9 aaaa0000 1 dc00d800 =>
    Invalid resource bundle data: string resource is not valid UTF-16;
9 7 8 b b 0 0 9 aaaa0000 2 dc00d800 => 1 \"\u{10000}\";
a0000000 7 8 9 9 0 0 9 aaaa0000 =>
    Invalid resource bundle data: unrecognized value for ResourceReprType;
80000009 7 8 b b 0 0 9 aaaa0000 1 80000009 => Invalid resource bundle data: resource budget spent;
";

/// Rows of files that are read alone.
pub(crate) const ALONE: &str = "\
30000009 7 8 11 11 0 0 9 aaaa0000 c 4c002f 43004f 4c0041 2f0045 650062 610074 aaaa0000 =>
    Unsupported resource bundle format: resource type is not supported;
30000000 7 8 9 9 0 0 9 aaaa0000 =>
    Unsupported resource bundle format: resource type is not supported;
0 7 8 9 9 0 0 9 aaaa0000 =>
    Unsupported resource bundle format: resource type is not supported;
9 7 8 b b 0 0 9 aaaa0000 2 620061 =>
    Unsupported resource bundle format: resource type is not supported;
80000009 7 8 c c 0 0 9 aaaa0000 2 0 70000005 =>
    Unsupported resource bundle format: resource type is not supported;
20000014 7 b 18 18 2 0 c 68706c61 65620061 aa006174 aaaa0000 c 4c002f 43004f 4c0041 2f0045 650062
  610074 aaaa0000 200002 aaaa0026 3000000c 70000005 =>
    Unsupported resource bundle format: resource type is not supported;
30000009 7 8 b b 0 0 9 aaaa0000 3 620061 =>
    Unsupported resource bundle format: resource type is not supported;
";

/// Files, places in them, what is left of a budget and what is asked for, and the answer, beside no
/// pool. A string of the older form is read where strings are; an alias is a tree, and no string.
pub(crate) const TYPES: &str = "\
20000014 7 b 18 18 2 0 c 68706c61 65620061 aa006174 aaaa0000 c 4c002f 43004f 4c0041 2f0045 650062
  610074 aaaa0000 200002 aaaa0026 3000000c 70000005 / root / 9 text-map =>
    Resource did not match expected data type: expected string resource, 7 left;
30000000 7 8 9 9 0 0 9 aaaa0000 / root / 9 text =>
    Resource did not match expected data type: expected string resource, 8 left;
30000000 7 8 9 9 0 0 9 aaaa0000 / root / 9 bytes =>
    Resource did not match expected data type: expected binary data resource, 8 left;
30000000 7 8 9 9 0 0 9 aaaa0000 / root / 9 u8 =>
    Resource did not match expected data type: expected integer resource, 8 left;
30000000 7 8 9 9 0 0 9 aaaa0000 / root / 9 text-list =>
    Resource did not match expected data type: expected array resource, 8 left;
30000000 7 8 9 9 0 0 9 aaaa0000 / root / 9 byte-map =>
    Resource did not match expected data type: expected table resource, 8 left;
30000000 7 8 9 9 0 0 9 aaaa0000 / root / 9 key =>
    Unknown error: value cannot be read here, 8 left;
30000000 7 8 9 9 0 0 9 aaaa0000 / root / 0 text =>
    Invalid resource bundle data: resource budget spent, 0 left;
30000000 7 8 9 9 0 0 9 aaaa0000 / root / 9 type => _Alias, 9 left;
30000009 7 8 b b 0 0 9 aaaa0000 2 620061 / root / 9 tree => @\"ab\", 8 left;
0 7 8 9 9 0 0 9 aaaa0000 / root / 9 text => \"\", 8 left;
0 7 8 9 9 0 0 9 aaaa0000 / root / 9 bytes => [], 8 left;
0 7 8 9 9 0 0 9 aaaa0000 / root / 9 type => _String, 9 left;
9 7 8 b b 0 0 9 aaaa0000 2 620061 / root / 9 text => \"ab\", 8 left;
9 7 8 b b 0 0 9 aaaa0000 2 620061 / root / 9 bytes => [97, 0, 98, 0], 8 left;
9 7 8 b b 0 0 9 aaaa0000 2 620061 / root / 9 unit-view => [97, 98], 8 left;
8000000b 7 8 e e 0 0 9 aaaa0000 1 61 2 9 0 / root / 9 text-list => [\"a\", \"\"], 6 left;
9 7 8 b b 0 0 9 aaaa0000 1 d800 / root / 9 text =>
    Invalid resource bundle data: string resource is not valid UTF-16, 8 left;
9 7 8 b b 0 0 9 aaaa0000 1 d800 / root / 9 bytes => [0, 216], 8 left;
9 7 8 b b 0 0 9 aaaa0000 3 620061 / root / 9 text =>
    Invalid resource bundle data: unexpected end of input, 8 left;
9 7 8 b b 0 0 9 aaaa0000 3 620061 / root / 9 bytes =>
    Invalid resource bundle data: unexpected end of input, 8 left;
";

/// Files, and what they add up to beside no pool: as in `measure_rows`. The bytes of a path are 3
/// each.
pub(crate) const MEASURES: &str = "\
30000009 7 8 11 11 0 0 9 aaaa0000 c 4c002f 43004f 4c0041 2f0045 650062 610074 aaaa0000 =>
    1: 0, 0, 0, 12, 0, 0; 108 bytes;
8000000b 7 8 e e 0 0 9 aaaa0000 1 20ac 2 9 0 => 3: 0, 0, 0, 3, 0, 0; 225 bytes;
20000014 7 b 18 18 2 0 c 68706c61 65620061 aa006174 aaaa0000 c 4c002f 43004f 4c0041 2f0045 650062
  610074 aaaa0000 200002 aaaa0026 3000000c 70000005 =>
    3: 1, 2, 9, 12, 0, 0; 1660 bytes;
9 7 8 b b 0 0 9 aaaa0000 3 620061 => Invalid resource bundle data: unexpected end of input;
";

/// Arrays whose members all lead to one text of 503 pairs of units but for the last: 500 aliases,
/// and 1000 strings. The tree, and what it adds up to.
pub(crate) const ONE_TEXT: &str = "\
80000201 7 8 3f6 3f6 0 0 9 aaaa0000 3ee dc02d800*503 1f4 30000009*499 0 =>
    501 [@\"\u{10002}\u{10002}\u{10002}\u{10002}\u{10002}\u{10002} and \
    \u{10002}\u{10002}\u{10002}\",\"\",] in 1005993 bytes,
    501: 0, 0, 0, 1003988, 0, 0; 3048036 bytes;
80000201 7 8 5ea 5ea 0 0 9 aaaa0000 3ee dc02d800*503 3e8 9*999 0 =>
    1001 [\"\u{10002}\u{10002}\u{10002}\u{10002}\u{10002}\u{10002} and \
    \u{10002}\u{10002}\u{10002}\",\"\",] in 2012995 bytes,
    1001: 0, 0, 0, 2009988, 0, 0; 6102036 bytes;
80000201 7 8 3f6 3f6 0 0 9 aaaa0000 3ee dc02d800*503 1f4 30000009*499 3000000a =>
    Invalid resource bundle data: unexpected end of input,
    Invalid resource bundle data: unexpected end of input;
";

/// A row of a text of a million units, and what the tree adds up to that nobody makes. A look at
/// the whole text for each member would take minutes.
pub(crate) const LONG_TEXT: &str = "\
8008000a 7 8 c000b c000b 0 0 9 aaaa0000 100000 dc02d800*524288 40000 30000009*262143 0 =>
    262145: 0, 0, 0, 549753716736, 0, 0; 1649280024648 bytes;
8008000a 7 8 c000b c000b 0 0 9 aaaa0000 100000 dc02d800*524288 40000 9*262143 30000000 =>
    262145: 0, 0, 0, 549753716736, 0, 0; 1649280024648 bytes;
";

/// The answer for a file beside no pool, by `read_counted`.
fn answer_by_counted(alloc: Global, bytes: &[u8]) -> Answer {
    let file = File::open(bytes, None)?;
    let (tree, count) = file.read_counted::<Resource<'_>>(alloc)?;
    Ok(line_of_tree(alloc, count, &tree)?)
}

/// The answer for a file beside no pool, by its count and its tree.
fn answer_by_tree(alloc: Global, bytes: &[u8]) -> Answer {
    let file = File::open(bytes, None)?;
    let count = file.count(alloc)?;
    line_of_read(alloc, count, file.tree(alloc, None))
}

/// The line of a file beside no pool, which is the same by each of the calls.
fn line_of(alloc: Global, bytes: &[u8]) -> Line {
    agreed(
        alloc,
        answer_by_counted(alloc, bytes),
        answer_by_tree(alloc, bytes),
    )
}

/// The answer for a file of these words, beside no pool.
pub(crate) fn answer_beside(alloc: Global, words: &str) -> Answer {
    let bytes = file_of(alloc, words)?;
    Ok(line_of(alloc, &bytes)?)
}

/// The answer to what is asked for at a place of a file, beside no pool.
pub(crate) fn answer_to_ask(alloc: Global, row: &str) -> Answer {
    let (words, path, left, ask) = parts_of(row);
    let bytes = file_of(alloc, words)?;
    let (root, walk) = File::open(&bytes, None)?.root();
    Ok(asked(alloc, ask, place_below(root, walk, path)?, left)?)
}

/// What a file adds up to, beside no pool.
fn measured_of(alloc: Global, bytes: &[u8]) -> Answer {
    let measured = File::open(bytes, None)?.measure(alloc)?;
    Ok(line_of_measured(alloc, measured)?)
}

/// The answer for a file's tree beside no pool, where it is read within a limit.
fn answer_within(alloc: Global, bytes: &[u8], count: usize, limit: u64) -> Answer {
    let file = File::open(bytes, None)?;
    line_of_read(alloc, count, file.tree(alloc, Some(limit)))
}

/// Whether the tree of a file is read within just its bytes, and not within fewer.
fn is_within(alloc: Global, bytes: &[u8], measured: Measured) -> Result<bool, AllocError> {
    let (count, limit) = (measured.resources, fit(measured.tree_bytes()));
    let fewer = answer_within(alloc, bytes, count, limit.saturating_sub(1));
    let within = said(alloc, answer_within(alloc, bytes, count, limit))?;
    let whole = said(alloc, answer_by_tree(alloc, bytes))?;
    Ok(within == whole && fewer.is_err())
}

/// What a file adds up to beside no pool, where its tree is read within just its bytes.
fn measured_within(alloc: Global, bytes: &[u8]) -> Answer {
    let measured = File::open(bytes, None)?.measure(alloc)?;
    if !is_within(alloc, bytes, measured)? {
        return Err(other_limit());
    }
    Ok(line_of_measured(alloc, measured)?)
}

/// What a file of these words adds up to, beside no pool.
pub(crate) fn answer_to_measure(alloc: Global, words: &str) -> Answer {
    let bytes = file_of(alloc, words)?;
    measured_within(alloc, &bytes)
}

/// The answer for the file of such an array, and what it adds up to.
pub(crate) fn answer_for_one_text(alloc: Global, words: &str) -> Answer {
    let bytes = file_of(alloc, words)?;
    let tree = ends_of(alloc, line_of(alloc, &bytes)?)?;
    let sums = said(alloc, measured_of(alloc, &bytes))?;
    Ok(format!(in alloc; "{tree},\n    {sums}")?)
}

/// What such an array adds up to.
pub(crate) fn sums_of_long_text(alloc: Global, words: &str) -> Answer {
    let bytes = file_of(alloc, words)?;
    measured_of(alloc, &bytes)
}
