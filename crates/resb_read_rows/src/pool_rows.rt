//! A pool bundle and a file over it, as ICU's `genrb` writes the two, through each call that reads
//! them. Damaged ones are read by the program `resb`, in `tests/pools.py`,
//! and the test is in `rows`.
use crate::answers::Answer;
use crate::files::file_of;
use resb_format::{BinaryDeserializerError, Resource};
use resb_head::FormatVersion;
use resb_path::{find_from, find_in};
use resb_pool_bundle::{FileHead, PoolBundle};
use resb_read::File;
use std::alloc::Global;
use std::collections::BTreeMap;

/// The keys `alpha`, `beta` and `gamma`: the words behind the header.
const POOL: &str = "\
    20000000 8 e f f 0 3 f 1baba403 68706c61 65620061 67006174 616d6d61 aaaaaa00 aaaa0000";

/// `a{alpha{"one two three"}beta{"x"}}` over that pool.
const OVER_POOL: &str = "\
    50000011 8 9 14 14 2 4 14 1baba403 780000 6f0000 65006e 740020 6f0077 740020 720068 650065 \
    20000 60000 10003";

/// Tables of one position of 32 bits over that pool, whose own key `delta` stands from byte 24 to
/// byte 2b; a key; and whether it is the table's. Position 32 would be `beta` with 16 bits.
const WIDE_TABLES: [(&str, &str, bool); 4] = [
    (
        "4000000b 8 b e e 1 4 b 1baba403 746c6564 aaaa0061 1 24 70000005",
        "delta",
        true,
    ),
    (
        "4000000b 8 b e e 1 4 b 1baba403 746c6564 aaaa0061 1 80000006 70000005",
        "beta",
        true,
    ),
    (
        "4000000b 8 b e e 1 4 b 1baba403 746c6564 aaaa0061 1 32 70000005",
        "beta",
        false,
    ),
    (
        "4000000b 8 b e e 1 4 b 1baba403 746c6564 aaaa0061 1 2c 70000005",
        "alpha",
        false,
    ),
];

/// A table of `alpha` over that pool, whose value is an array outside the file.
const CUT_ARRAY: &str = "2000000b 8 b d d 1 4 b 1baba403 746c6564 aaaa0061 2c0001 80000fff";

/// The bytes that its tree takes: three resources, 14 bytes of text, a table and two entries.
const TREE_BYTES: u64 = 3 * 72 + 14 * 3 + 1024 + 2 * 192;

/// Whether the heads say what the files are, and the pool has its checksum.
fn are_heads(pool: &[u8], file: &[u8]) -> Result<bool, BinaryDeserializerError> {
    let (lent, over) = (FileHead::read(pool)?, FileHead::read(file)?);
    let bundle = PoolBundle::read(pool)?;
    let is_lent = lent.is_pool() && !lent.uses_pool() && !lent.has_fallback();
    let is_over = over.uses_pool() && over.has_fallback() && over.largest_table() == 2;
    let is_known = bundle.has_checksum() && bundle.checksum() == 0x1bab_a403;
    let parts = File::beside(over, Some(bundle))?.parts();
    Ok(
        is_lent
            && is_over
            && is_known
            && parts.root == 0x5000_0011
            && over.version() == FormatVersion::V2_0,
    )
}

/// Whether a text is read by its key in a map.
fn is_long(alloc: Global, file: &File<'_>) -> Result<bool, BinaryDeserializerError> {
    let names: BTreeMap<&str, String> = file.read(alloc)?;
    match names.get("alpha") {
        Some(text) => Ok(text.as_str() == "one two three"),
        None => Ok(false),
    }
}

/// Whether a text is read as the value of its key.
fn is_short(alloc: Global, file: &File<'_>) -> Result<bool, BinaryDeserializerError> {
    let (root, mut walk) = file.root();
    let table = root.read_table(&mut walk)?;
    match table.value::<String>(alloc, "beta", &mut walk)? {
        Some(text) => Ok(text.as_str() == "x"),
        None => Ok(false),
    }
}

/// Whether the entries are found by halving, and none of another name.
fn are_found(file: &File<'_>) -> Result<bool, BinaryDeserializerError> {
    let (root, mut walk) = file.root();
    let table = root.read_table(&mut walk)?;
    let places = (table.find("alpha"), table.find("beta"));
    let (Some(long), Some(short)) = places else {
        return Ok(false);
    };
    let (long, short) = (long.read_bytes(&mut walk)?, short.read_bytes(&mut walk)?);
    let misses = table.find("alp").is_none() && table.find("alphas").is_none();
    Ok(long.len() == 26 && short == b"x\0".as_slice() && misses)
}

/// Whether paths from the root lead to a string, and to nothing.
fn are_led(file: &File<'_>) -> Result<bool, BinaryDeserializerError> {
    let (root, mut walk) = file.root();
    let Some(short) = find_in(file, &["beta"])? else {
        return Ok(false);
    };
    let of_file = short.file().keys == root.file().keys;
    let same = of_file && short.read_bytes(&mut walk)? == b"x\0".as_slice();
    let misses = find_from(root, &["beta", "0"])?.is_none() && root.entry("bet")?.is_none();
    Ok(same && misses && root.member(0).is_err())
}

/// Whether the tree is counted and measured.
fn is_measured(alloc: Global, file: &File<'_>) -> Result<bool, BinaryDeserializerError> {
    let measured = file.measure(alloc)?;
    let count = file.count(alloc)?;
    Ok(count == 3 && measured.resources == 3 && measured.tree_bytes() == Some(TREE_BYTES))
}

/// Whether the tree is read in the same way by each call, and not within a byte less than it takes.
fn is_one_tree(alloc: Global, file: &File<'_>) -> Result<bool, BinaryDeserializerError> {
    let (tree, count) = file.read_counted::<Resource<'_>>(alloc)?;
    if file.tree(alloc, None)? != tree {
        return Ok(false);
    }
    let same = file.tree(alloc, Some(TREE_BYTES))?;
    let is_limited = file.tree(alloc, Some(TREE_BYTES - 1)).is_err();
    Ok(same == tree && count == 3 && is_limited)
}

/// Whether the file is read in each way.
fn is_read(alloc: Global, pool: &[u8], file: &[u8]) -> Result<bool, BinaryDeserializerError> {
    let bundle = PoolBundle::read(pool)?;
    let opened = File::open(file, Some(bundle))?;
    Ok(
        are_heads(pool, file)?
            && opened.bytes() == file
            && is_long(alloc, &opened)?
            && is_short(alloc, &opened)?
            && are_found(&opened)?
            && are_led(&opened)?
            && is_measured(alloc, &opened)?
            && is_one_tree(alloc, &opened)?,
    )
}

/// Whether a file has this key, as a path and a count of its resources find it.
fn has_key(
    alloc: Global,
    pool: PoolBundle<'_>,
    words: &str,
    key: &str,
) -> Result<bool, BinaryDeserializerError> {
    let bytes = file_of(alloc, words)?;
    let file = File::open(&bytes, Some(pool))?;
    let is_counted = file.count(alloc).is_ok();
    let is_led = find_in(&file, &[key])?.is_some();
    Ok(is_counted && is_led)
}

/// Whether positions of 32 bits tell own keys below 2^31, and the pool's from there on.
fn are_wide(alloc: Global, pool: PoolBundle<'_>) -> Result<bool, BinaryDeserializerError> {
    for (words, key, is_its) in WIDE_TABLES {
        if has_key(alloc, pool, words, key)? != is_its {
            return Ok(false);
        }
    }
    Ok(true)
}

/// Whether a path into an array outside the file is refused, whatever its last name is, and one
/// that ends there is not.
fn is_cut(alloc: Global, pool: PoolBundle<'_>) -> Result<bool, BinaryDeserializerError> {
    let bytes = file_of(alloc, CUT_ARRAY)?;
    let file = File::open(&bytes, Some(pool))?;
    let ends = find_in(&file, &["alpha"])?.is_some();
    let by_number = find_in(&file, &["alpha", "0"]).is_err();
    let by_name = find_in(&file, &["alpha", "x"]).is_err();
    Ok(ends && by_number && by_name)
}

/// Whether files over a pool bundle are read, and what isn't theirs is not.
pub(crate) fn answer_over_pool(alloc: Global, input: &str) -> Answer {
    let (bytes, file) = (file_of(alloc, POOL)?, file_of(alloc, OVER_POOL)?);
    let pool = PoolBundle::read(&bytes)?;
    let is_so = match input {
        "positions of 32 bits" => are_wide(alloc, pool)?,
        "paths into an array outside the file" => is_cut(alloc, pool)?,
        _ => is_read(alloc, &bytes, &file)?,
    };
    Ok(format!(in alloc; "{is_so}")?)
}

/// The rows of them all.
pub(crate) const OVER_POOLS: &str = "\
a file over its pool bundle => true;
positions of 32 bits => true;
paths into an array outside the file => true;
";
