//! Reading without a type of one's own: by the given types, by look-ups of keys, and by a plain
//! function over cursors.
//! A type of one's own is shown in `records`, and one with relations of its own in `zones`.
use resb::binary::{BinaryDeserializerError, File, PoolBundle};
use std::alloc::Global;
use std::collections::BTreeMap;

/// The number `base` of a zone, in a file of tables of numbers by their names.
pub fn base_of(
    alloc: Global,
    file: &[u8],
    zone: &str,
) -> Result<Option<i32>, BinaryDeserializerError> {
    let file = File::open(file, None)?;
    let zones: BTreeMap<&str, BTreeMap<&str, i32>> = file.read(alloc)?;
    let Some(fields) = zones.get(zone) else {
        return Ok(None);
    };
    Ok(fields.get("base").copied())
}

/// The strings of a file of names by their keys, over the pool bundle that it uses. Keys are
/// borrowed from either.
pub fn names_over_a_pool<'a>(
    alloc: Global,
    file: &'a [u8],
    pool: &'a [u8],
) -> Result<BTreeMap<&'a str, String>, BinaryDeserializerError> {
    let pool = PoolBundle::read(pool)?;
    File::open(file, Some(pool))?.read(alloc)
}

/// The number `base` of a zone, looked up by its keys, in a file of tables that may hold anything
/// beside it.
pub fn base_by_key(
    alloc: Global,
    file: &[u8],
    zone: &str,
) -> Result<Option<i32>, BinaryDeserializerError> {
    let (root, mut walk) = File::open(file, None)?.root();
    let zones = root.read_table(&mut walk)?;
    let Some(fields) = zones.get(zone) else {
        return Ok(None);
    };
    let fields = fields.read_table(&mut walk)?;
    fields.value(alloc, "base", &mut walk)
}

/// The number `base` of a zone, in a file of tables that may hold anything beside it. No memory is
/// asked for, and what isn't looked for is skipped.
pub fn base_by_cursor(file: &[u8], zone: &str) -> Result<Option<i32>, BinaryDeserializerError> {
    let (root, mut walk) = File::open(file, None)?.root();
    let mut zones = root.read_map(&mut walk)?;
    for _ in 0..zones.size_hint() {
        let Some((name, fields)) = zones.next_entry_cursor()? else {
            break;
        };
        if name.read_str(&mut walk)? != zone {
            fields.skip(&mut walk)?;
            continue;
        }
        let mut entries = fields.read_map(&mut walk)?;
        for _ in 0..entries.size_hint() {
            let Some((key, value)) = entries.next_entry_cursor()? else {
                break;
            };
            if key.read_str(&mut walk)? == "base" {
                return Ok(Some(value.read_i32(&mut walk)?));
            }
            value.skip(&mut walk)?;
        }
    }
    Ok(None)
}
