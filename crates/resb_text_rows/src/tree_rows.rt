//! Trees, keys, integers and bundles, and how deep a tree may be when it is dropped or compared.
//! What a text or a file makes of them stands in the other rows.
use resb_tree::{Int28, Key, NoMemory, Resource, ResourceBundle, Table};
use std::alloc::{AllocError, Global};
use std::borrow::{CowSlice, CowStr};
use std::collections::BTreeMap;
use std::hash::{FoldHasher, Hash, Hasher};
use std::test::Fail;

const DEPTH: u32 = 1_000_000;

/// The array of a tree alone.
fn array_of(alloc: Global, tree: Resource<'static>) -> Result<Resource<'static>, AllocError> {
    let mut items = Vec::new(alloc);
    items.push(tree)?;
    Ok(Resource::Array(items))
}

fn nested_arrays(alloc: Global, depth: u32) -> Result<Resource<'static>, AllocError> {
    let mut tree = Resource::Integer(Int28::from(1u32));
    for _ in 0..depth {
        tree = array_of(alloc, tree)?;
    }
    Ok(tree)
}

/// Puts a tree at a key.
fn put<'a>(table: &mut Table<'a>, key: &'a str, tree: Resource<'a>) -> Result<(), AllocError> {
    table.insert(Key::from(key), tree)?;
    Ok(())
}

/// The table of a tree at a and of an empty table at b.
fn table_of(alloc: Global, tree: Resource<'static>) -> Result<Resource<'static>, AllocError> {
    let mut table: Table<'static> = BTreeMap::new(alloc);
    put(&mut table, "a", tree)?;
    put(&mut table, "b", Resource::Table(BTreeMap::new(alloc)))?;
    Ok(Resource::Table(table))
}

fn nested_tables(alloc: Global, depth: u32) -> Result<Resource<'static>, AllocError> {
    let mut tree = Resource::Integer(Int28::from(1u32));
    for _ in 0..depth {
        tree = table_of(alloc, tree)?;
    }
    Ok(tree)
}

/// Whether so many arrays in one another are one, and so many tables. They are dropped.
fn are_nested(alloc: Global, depth: u32) -> Result<(bool, bool), AllocError> {
    let is_array = matches!(&nested_arrays(alloc, depth)?, Resource::Array(_));
    let is_table = matches!(&nested_tables(alloc, depth)?, Resource::Table(_));
    Ok((is_array, is_table))
}

#[test]
fn a_million_levels_are_dropped(rt: HostRuntime) -> Result<(), AllocError> {
    assert!(rt; are_nested(rt.alloc(), DEPTH)? == (true, true));
    Ok(())
}

/// Whether bytes that are borrowed and bytes that are owned are the same tree.
fn are_bytes_equal(alloc: Global, bytes: &[u8]) -> Result<bool, AllocError> {
    let owned = Resource::Binary(CowSlice::Owned(Vec::from_slice(alloc, bytes)?));
    let borrowed = Resource::Binary(CowSlice::Borrowed(bytes));
    Ok(borrowed == owned && borrowed.equals(&owned))
}

/// How many levels tables have, how many others have, and whether they are equal.
const LEVELS: [(u32, u32, bool); 4] = [
    (2, 2, true),
    (2, 3, false),
    (200_000, 200_000, true),
    (200_000, 200_001, false),
];

/// Whether tables of so many levels are equal, and whether they differ.
fn are_tables_equal(alloc: Global, one: u32, other: u32) -> Result<(bool, bool), AllocError> {
    let one = nested_tables(alloc, one)?;
    let other = nested_tables(alloc, other)?;
    Ok((one == other, one != other))
}

/// Whether tables of two levels differ from a vector.
fn is_no_vector(alloc: Global) -> Result<bool, AllocError> {
    Ok(nested_tables(alloc, 2)? != Resource::IntVector(Vec::new(alloc)))
}

#[test]
fn trees_are_compared(rt: HostRuntime) -> Result<(), AllocError> {
    for (one, other, wanted) in LEVELS {
        assert!(rt; are_tables_equal(rt.alloc(), one, other)? == (wanted, !wanted));
    }
    assert!(rt; is_no_vector(rt.alloc())?);
    assert!(rt; are_bytes_equal(rt.alloc(), b"ab")?);
    Ok(())
}

/// The hash of a key.
fn hash_of(key: &Key<'_>) -> u64 {
    let mut hasher = FoldHasher::default();
    key.hash(&mut hasher);
    hasher.finish()
}

/// Whether a key is this text.
fn is_text(key: &Key<'_>, text: &str) -> bool {
    key.as_bytes() == text.as_bytes() && key.as_str() == text
}

/// Whether a key that owns a text is the one that borrows it, also by their hashes.
fn is_owned_key(alloc: Global, text: &str) -> Result<bool, AllocError> {
    let (owned, borrowed) = (Key::from(String::from_str(alloc, text)?), Key::from(text));
    Ok(owned == borrowed && hash_of(&owned) == hash_of(&borrowed))
}

/// Whether a clone is the key.
fn has_clone(alloc: Global, key: &Key<'_>) -> Result<bool, NoMemory> {
    Ok(key.try_clone(alloc)? == *key)
}

/// Whether the text of a key that owns one is that.
fn has_own_text(alloc: Global, text: &str) -> Result<bool, AllocError> {
    match Key::from(String::from_str(alloc, text)?).into_string(alloc) {
        Ok(own) => Ok(own.as_str() == text),
        Err(_) => Ok(false),
    }
}

#[test]
fn a_key_is_its_text(rt: HostRuntime) -> Result<(), Fail> {
    assert!(rt; is_text(&Key::from("key"), "key"));
    assert!(rt; Key::from("key") < Key::from("kez"));
    assert!(rt; is_owned_key(rt.alloc(), "key")?);
    assert!(rt; has_own_text(rt.alloc(), "key")?);
    assert!(rt; has_clone(rt.alloc(), &Key::from("key"))?);
    Ok(())
}

/// A number, and the 28 bits that are kept of it, without a sign and with one.
const INTEGERS: [(u32, u32, i32); 5] = [
    (u32::MAX, 268_435_455, -1),
    (0x0800_0000, 0x0800_0000, -134_217_728),
    (5, 5, 5),
    (0x1000_0005, 5, 5),
    (0, 0, 0),
];

/// Whether these bits are kept of a number, however its sign is read.
fn are_kept(number: u32, bits: u32, signed: i32) -> bool {
    let integer = Int28::from(number);
    integer == Int28::from(number.cast_signed())
        && integer == Int28::from(bits)
        && u32::from(integer) == bits
        && i32::from(integer) == signed
}

#[test]
fn integers_are_kept_modulo_two_to_the_28(rt: HostRuntime) {
    for (number, bits, signed) in INTEGERS {
        assert!(rt; are_kept(number, bits, signed), "{number}");
    }
}

/// The bundle of a string, without fallback.
fn bundle_of<'a>(name: &'a str, text: &'a str) -> ResourceBundle<'a> {
    let root = Resource::String(CowStr::Borrowed(text));
    ResourceBundle::new(CowStr::Borrowed(name), root, false)
}

/// Whether the root of a bundle is this string.
fn is_root(bundle: &ResourceBundle<'_>, text: &str) -> bool {
    match bundle.root() {
        Resource::String(root) => root.as_str() == text,
        _ => false,
    }
}

#[test]
fn a_bundle_holds_name_root_and_flag(rt: HostRuntime) {
    let bundle = bundle_of("root", "x");
    assert!(rt; bundle.name() == "root" && !bundle.is_locale_fallback_enabled);
    assert!(rt; is_root(&bundle, "x"));
}

#[test]
fn want_of_memory_is_named(rt: HostRuntime) -> Result<(), AllocError> {
    let text = format!(in rt.alloc(); "{NoMemory}")?;
    assert!(rt; text.as_str() == "out of memory");
    Ok(())
}
