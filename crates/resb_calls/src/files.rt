//! The calls that begin with a file, in bytes or in words: trees, counts, typed values, heads.
//! Those that begin with a text are in `texts`.

use crate::example::{BINARIES, FILE, OVER_POOL, POOL, STRINGS, TEXT, WORDS};
use crate::outcome::{Outcome, Refused, outcome_of};
use resb::binary::helpers::vec_utf_16;
use resb::binary::{
    BinHeader, BinIndex, BinReprInfo, Cursor, File, PoolBundle, from_bytes, from_bytes_counted,
    from_words, lay_words,
};
use resb::bundle::{Key, Resource};
use resb::text::Reader;
use std::alloc::Global;
use std::collections::BTreeMap;

/// Whether it is the tree of the example's text.
fn is_example(alloc: Global, tree: &Resource<'_>) -> Result<bool, Refused> {
    let (bundle, _keys) = Reader::read(alloc, TEXT)?;
    Ok(tree.equals(bundle.root()))
}

pub(crate) fn reads_a_tree(alloc: Global) -> Result<bool, Refused> {
    let tree: Resource = from_bytes(alloc, &FILE)?;
    is_example(alloc, &tree)
}

pub(crate) fn counts(alloc: Global) -> Result<bool, Refused> {
    let (tree, count) = from_bytes_counted::<Resource>(alloc, &FILE)?;
    let file = File::alone(&FILE)?;
    Ok(file.count(alloc)? == count && is_example(alloc, &tree)?)
}

pub(crate) fn measures(alloc: Global) -> Result<bool, Refused> {
    let file = File::alone(&FILE)?;
    let limit = file.measure(alloc)?.tree_bytes();
    let tree = file.tree(alloc, limit)?;
    Ok(limit.is_some() && is_example(alloc, &tree)?)
}

pub(crate) fn reads_by_a_cursor(alloc: Global) -> Result<bool, Refused> {
    let tree = File::alone(&FILE)?.tree(alloc, None)?;
    let (root, mut walk) = Cursor::root(&FILE)?;
    let again = root.read_resource(alloc, &mut walk)?;
    let (strings, mut walk) = Cursor::root(&STRINGS)?;
    let mut entries = strings.read_map(&mut walk)?;
    let Some((key, text)) = entries.next_entry::<String, String>(alloc, &mut walk)? else {
        return Ok(false);
    };
    Ok(tree.equals(&again) && key.as_str() == "a" && text.as_str() == "x")
}

pub(crate) fn reads_a_map(alloc: Global) -> Result<bool, Refused> {
    let map: BTreeMap<Key, String> = from_bytes(alloc, &STRINGS)?;
    let text = map.get(&Key::from("c"));
    Ok(text.is_some_and(|text| text.as_str() == "yz") && map.len() == 2)
}

pub(crate) fn reads_views(alloc: Global) -> Result<bool, Refused> {
    let (at, mut walk) = Cursor::root(&BINARIES)?;
    let views = vec_utf_16(alloc, at, &mut walk)?;
    let binaries: Vec<&[u8]> = from_bytes(alloc, &BINARIES)?;
    Ok(views.len() == 2 && binaries.len() == 2)
}

/// The names of a file over a pool bundle, by their keys.
pub(crate) fn reads_beside_a_pool(alloc: Global) -> Result<bool, Refused> {
    let pool = PoolBundle::read(&POOL)?;
    let file = File::open(&OVER_POOL, Some(pool))?;
    let names: BTreeMap<&str, String> = file.read(alloc)?;
    let text = names.get("alpha");
    Ok(text.is_some_and(|text| text.as_str() == "one two three") && names.len() == 2)
}

/// Counts the tree of that file, measures it, and makes it within its bytes.
pub(crate) fn measures_beside_a_pool(alloc: Global) -> Result<bool, Refused> {
    let file = File::open(&OVER_POOL, Some(PoolBundle::read(&POOL)?))?;
    let limit = file.measure(alloc)?.tree_bytes();
    let tree = file.tree(alloc, limit)?;
    let (again, count) = file.read_counted::<Resource>(alloc)?;
    let is_one = tree.equals(&again) && file.count(alloc)? == count;
    Ok(limit.is_some() && count == 3 && is_one)
}

/// Where memory is wanted for the bytes of the words, the buffer is empty.
pub(crate) fn reads_words(alloc: Global) -> Outcome {
    let mut buffer = Vec::new(alloc);
    match lay_words(alloc, &WORDS, &mut buffer) {
        Ok(()) if buffer.as_slice() == FILE.as_slice() => outcome_of(reads_laid_words(alloc)),
        Err(e) if e.is_out_of_memory() && buffer.is_empty() => Outcome::Wanted,
        _ => Outcome::Wrong,
    }
}

fn reads_laid_words(alloc: Global) -> Result<bool, Refused> {
    let mut buffer = Vec::new(alloc);
    let tree = from_words::<Resource>(alloc, &WORDS, &mut buffer)?;
    is_example(alloc, &tree)
}

pub(crate) fn lays_a_head(alloc: Global) -> Result<bool, Refused> {
    let header = BinHeader::try_from(FILE.as_slice())?.to_bytes(alloc)?;
    let info = BinReprInfo::try_from(&FILE[4..])?.to_bytes(alloc)?;
    let index = BinIndex::try_from(&FILE[36..])?.to_bytes(alloc)?;
    let is_right = header.as_slice() == &FILE[..24]
        && info.as_slice() == &FILE[4..24]
        && index.as_slice() == &FILE[36..64];
    Ok(is_right)
}
