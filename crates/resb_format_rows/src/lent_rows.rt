//! Where pool bundles have keys and texts, how strings are planned beside one, and a head over one.
//! Each row is what a pool has, a key or a text, and its place: a row more costs no proof.
ghost use Rattle.resb_lent.specs.HeadWithPool.{IsHead};

use crate::pool_maker_rows::pool_of;
use resb_format::bytes::word_at;
use resb_lent::{HeadWithPool, LentKeys, LentTexts, PlanWithPool};
use resb_pool_bundle::PoolBundle;
use std::alloc::Global;
use std::test::Fail;

/// A pool's keys in bytes, a key, and the place at which it stands whole. The first pool is that
/// of `alpha`, `beta` and `gamma`, as ICU's compiler writes it.
const KEYS: [(&[u8], &str, Option<u32>); 12] = [
    (b"alpha\0beta\0gamma\0\xaa\xaa\xaa", "alpha", Some(0)),
    (b"alpha\0beta\0gamma\0\xaa\xaa\xaa", "beta", Some(6)),
    (b"alpha\0beta\0gamma\0\xaa\xaa\xaa", "gamma", Some(11)),
    (b"alpha\0beta\0gamma\0\xaa\xaa\xaa", "eta", None),
    (b"alpha\0beta\0gamma\0\xaa\xaa\xaa", "gam", None),
    (b"alpha\0beta\0gamma\0\xaa\xaa\xaa", "", None),
    (b"eta\0beta\0eta\0beta\0", "beta", Some(4)),
    (b"beta\0eta\0", "eta", Some(5)),
    (b"a\0\0b\0", "", Some(2)),
    (b"a\xff\0\xff\0a\0", "a", Some(5)),
    (b"a\0b", "b", None),
    (b"", "", None),
];

/// A pool's 16-bit block, a text, and its index. The first pool is that of `one two three`, as
/// ICU's compiler writes it; the second has an empty record, a text with U+0000, whose marker says
/// three units, and `xy` twice; the third has two records that end with `b`, of which the greater
/// one holds it; a block that doesn't begin with 0 lends nothing.
const TEXTS: [(&[u8], &str, Option<u32>); 18] = [
    (ONE_TWO_THREE, "one two three", Some(1)),
    (ONE_TWO_THREE, "three", Some(9)),
    (ONE_TWO_THREE, "two three", Some(5)),
    (ONE_TWO_THREE, "", Some(0)),
    (ONE_TWO_THREE, "one", None),
    (ONE_TWO_THREE, "x", None),
    (MIXED, "a\0b", Some(2)),
    (MIXED, "b", Some(5)),
    (MIXED, "xy", Some(7)),
    (MIXED, "y", Some(8)),
    (MIXED, "\u{1f600}", Some(14)),
    (MIXED, "z\u{1f600}", Some(13)),
    (TWO_ENDS, "b", Some(5)),
    (TWO_ENDS, "ab", Some(1)),
    (TWO_ENDS, "cb", Some(4)),
    (b"x\0\0\0", "x", None),
    (b"x\0\0\0", "", None),
    (b"", "", None),
];

/// 0, `one two three`, 0, and what fills the last word.
const ONE_TWO_THREE: &[u8] = b"\0\0o\0n\0e\0 \0t\0w\0o\0 \0t\0h\0r\0e\0e\0\0\0\xaa\xaa";

/// 0, an empty record, `a`, U+0000 and `b` behind a marker, `xy` twice, `z` and U+1F600, and a
/// surrogate alone.
const MIXED: &[u8] = b"\0\0\0\0\x03\xdca\0\0\0b\0\0\0x\0y\0\0\0x\0y\0\0\0\
    z\0\x3d\xd8\x00\xde\0\0\x3d\xd8\0\0";

/// 0, `ab` and `cb`.
const TWO_ENDS: &[u8] = b"\0\0a\0b\0\0\0c\0b\0\0\0";

/// Where a pool of these keys has a key.
fn place_in(alloc: Global, keys: &[u8], key: &str) -> Result<Option<u32>, Fail> {
    let lent = LentKeys::of(alloc, keys)?;
    Ok(lent.place(key))
}

#[test]
fn pools_have_keys_here(rt: HostRuntime) -> Result<(), Fail> {
    for (keys, key, place) in KEYS {
        let found = place_in(rt.alloc(), keys, key)?;
        assert!(rt; found == place, "{key}");
    }
    Ok(())
}

/// Which index a pool with this block has for a text.
fn index_in(alloc: Global, block: &[u8], text: &str) -> Result<Option<u32>, Fail> {
    let lent = LentTexts::of(alloc, block)?;
    Ok(lent.index(text))
}

#[test]
fn pools_have_texts_here(rt: HostRuntime) -> Result<(), Fail> {
    for (block, text, index) in TEXTS {
        let found = index_in(rt.alloc(), block, text)?;
        assert!(rt; found == index, "{text:?}");
    }
    Ok(())
}

/// A pool's 16-bit block, strings in laying order, their indexes beside the pool, and both limits.
/// Over the pool of `one two three` they are those of files that ICU's compiler writes; a pool that
/// lends nothing leaves all strings to the file.
const PLANS: [(&[u8], &[&str], &[u32], u32, u32); 6] = [
    (ONE_TWO_THREE, &["one two three", "x"], &[1, 3], 2, 2),
    (ONE_TWO_THREE, &["one two three", "three"], &[1, 9], 10, 10),
    (
        ONE_TWO_THREE,
        &["two three", "x", "", "three"],
        &[5, 11, 0, 9],
        10,
        10,
    ),
    (ONE_TWO_THREE, &["", ""], &[0, 0], 0, 0),
    (ONE_TWO_THREE, &["ab", "b", "x"], &[3, 4, 1], 0, 0),
    (b"x\0\0\0", &["x", ""], &[1, 0], 0, 0),
];

/// Whether strings stand at these indexes over a pool with this block, with these limits.
fn plan_is(
    alloc: Global,
    block: &[u8],
    strings: &[&str],
    indexes: &[u32],
    limits: (u32, u32),
) -> Result<bool, Fail> {
    let lent = LentTexts::of(alloc, block)?;
    let plan = PlanWithPool::of(alloc, &lent, strings)?;
    Ok(plan.indexes.as_slice() == indexes && (plan.limit, plan.short_limit) == limits)
}

#[test]
fn strings_stand_beside_a_pool(rt: HostRuntime) -> Result<(), Fail> {
    for (block, strings, indexes, limit, short_limit) in PLANS {
        let right = plan_is(rt.alloc(), block, strings, indexes, (limit, short_limit))?;
        assert!(rt; right, "{limit} {short_limit}");
    }
    Ok(())
}

/// The version's first number in a head, and its words behind 32 bytes.
fn written_head(alloc: Global, head: &HeadWithPool) -> Result<(u8, [u32; 9]), Fail>
    requires { IsHead head.now }
{
    let mut file = Vec::new(alloc);
    head.append_to(&mut file)?;
    let mut words = [0; 9];
    for at in 0..9 {
        words[at] = word_at(&file[32..], at);
    }
    Ok((file[16], words))
}

/// The head of a file over the pool of `one two three` with keys of its own, as ICU's compiler
/// writes it.
const WITH_STRINGS: HeadWithPool = HeadWithPool {
    root: 0x2000_000f,
    largest_table: 2,
    is_locale_fallback_enabled: true,
    limit: 10,
    short_limit: 10,
    checksum: 0xe316_10fa,
    key_words: 2,
    block_words: 4,
    tail_words: 4,
};

#[test]
fn a_head_over_a_pool_with_strings(rt: HostRuntime) -> Result<(), Fail> {
    let words = [
        0x2000_000f,
        0xa08,
        0xb,
        0x13,
        0x13,
        2,
        0xa_0004,
        0xf,
        0xe316_10fa,
    ];
    assert!(rt; written_head(rt.alloc(), &WITH_STRINGS)? == (3, words));
    Ok(())
}

/// Whether the pool that is made of bundles has a key and a text at these places.
fn lends(alloc: Global, bundles: &str, key: (&str, u32), text: (&str, u32)) -> Result<bool, Fail> {
    let file = pool_of(alloc, bundles)?;
    let pool = PoolBundle::read(&file)?;
    let place = place_in(alloc, pool.keys(), key.0)?;
    let index = index_in(alloc, pool.block(), text.0)?;
    Ok(place == Some(key.1) && index == Some(text.1))
}

#[test]
fn a_made_pool_lends(rt: HostRuntime) -> Result<(), Fail> {
    let bundles = "alpha=one two three,beta=x / alpha=one two three,gamma=three";
    assert!(rt; lends(rt.alloc(), bundles, ("gamma", 11), ("three", 9))?);
    Ok(())
}
