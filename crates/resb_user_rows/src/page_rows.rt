//! What the code of the pages answers: zones read without a type of one's own, a record's number,
//! names over a pool bundle, names of languages and zones, a tree made in code, and two texts in
//! one file.
//! The zone table has its rows in `text_rows` and `zone_rows`.
use crate::zone_rows::file_of;
use resb::binary::PoolBundle;
use resb::{Compile, TextForm};
use resb_examples::names::{ZoneNames, language_name, zone_names};
use resb_examples::reading::{base_by_cursor, base_by_key, base_of, names_over_a_pool};
use resb_examples::records::{digits_of, digits_or_blame, digits_over_a_pool};
use resb_examples::writing::{file_over, greeting_file, merge};
use std::alloc::Global;
use std::test::Fail;

/// A text of two zones.
const ZONES: &str = "zones { East { base:int { 5 } } Pole { base:int { -60 } width:int { 3 } } }";

/// Names of zones, and their bases.
const BASES: [(&str, Option<i32>); 3] = [("Pole", Some(-60)), ("East", Some(5)), ("West", None)];

/// Two texts, and one with their entries, whose keys stand in the order of their bytes.
const MERGED: [&str; 3] = [
    r#"names { greeting { "hello" } age:int { 7 } }"#,
    r#"names { greeting { "hi" } zone { "Pole" } }"#,
    r#"names { age:int { 7 } greeting { "hi" } zone { "Pole" } }"#,
];

/// A text of two currencies, one of which had other codes.
const CURRENCIES: &str = r#"currencies {
    EUR { digits:int { 2 } name { "Euro" } old { "ECU", "XEU" } }
    JPY { digits:int { 0 } name { "Yen" } }
}"#;

/// Codes of currencies, and their digits.
const DIGITS: [(&str, Option<i32>); 3] = [("EUR", Some(2)), ("JPY", Some(0)), ("XXX", None)];

/// A pool bundle of the keys `alpha`, `beta` and `gamma`, as the words behind its header that ICU's
/// `genrb` writes.
const POOL: [u32; 15] = [
    0x20000000, 8, 0xe, 0xf, 0xf, 0, 3, 0xf, 0x1baba403, 0x68706c61, 0x65620061, 0x67006174,
    0x616d6d61, 0xaaaaaa00, 0xaaaa0000,
];

/// `genrb`'s file of `a{alpha{"one two three"}beta{"x"}}` over it.
const OVER_POOL: [u32; 20] = [
    0x50000011, 8, 9, 0x14, 0x14, 2, 4, 0x14, 0x1baba403, 0x780000, 0x6f0000, 0x65006e, 0x740020,
    0x6f0077, 0x740020, 0x720068, 0x650065, 0x20000, 0x60000, 0x10003,
];

/// Whether the strings of a file over a pool bundle are read by its keys, `genrb`'s and ours.
fn are_names(alloc: Global) -> Result<bool, Fail> {
    let (pool, file) = (file_of(alloc, &POOL)?, file_of(alloc, &OVER_POOL)?);
    let written = file_over(alloc, &pool, r#"a{alpha{"one two three"}beta{"x"}}"#)?;
    Ok(has_strings(alloc, &pool, &file)? && has_strings(alloc, &pool, &written)?)
}

/// Whether the two strings of a file over a pool bundle are read by its keys.
fn has_strings(alloc: Global, pool: &[u8], file: &[u8]) -> Result<bool, Fail> {
    let names = names_over_a_pool(alloc, file, pool)?;
    let (long, short) = (names.get("alpha"), names.get("beta"));
    Ok(
        long.is_some_and(|it| it.as_str() == "one two three")
            && short.is_some_and(|it| it.as_str() == "x"),
    )
}

/// Names of a language and of a zone, as ICU's files of languages and zones have them.
const NAMES: &str = r#"de {
    Languages { de { "Deutsch" } en { "Englisch" } }
    zoneStrings { "meta:Alps" { ld { "Sommerzeit" } ls { "Winterzeit" } ss { "WZ" } } }
}"#;

/// The pool bundle of its keys, as the words behind its header that ICU's `genrb` writes.
const POOL_OF_NAMES: [u32; 22] = [
    0x20000000, 8, 0x15, 0x16, 0x16, 0, 3, 0x16, 0x36bc05c5, 0x676e614c, 0x65676175, 0x65640073,
    0x6e6500, 0x656e6f7a, 0x69727453, 0x73676e, 0x6174656d, 0x706c413a, 0x646c0073, 0x736c00,
    0xaa007373, 0xaaaa0000,
];

/// The file of that text over it.
const NAMES_OVER_POOL: [u32; 43] = [
    0x20000027, 8, 9, 0x2b, 0x2b, 3, 4, 0x25, 0x36bc05c5, 0x570000, 0x5a, 0x650044, 0x740075,
    0x630073, 0x68, 0x6e0045, 0x6c0067, 0x730069, 0x680063, 0x530000, 0x6d006f, 0x65006d, 0x7a0072,
    0x690065, 0x74, 0x690057, 0x74006e, 0x720065, 0x65007a, 0x740069, 0x20000, 0xd000a, 0xc0004,
    0x260003, 0x2c0029, 0x200015, 0xaaaa0001, 0x1c0001, 0x50000030, 2, 0xaaaa0010, 0x5000002b,
    0x20000025,
];

/// Whether the names of a language and of a zone are found in a file, and no others.
fn has_names(alloc: Global, file: &[u8], pool: Option<PoolBundle<'_>>) -> Result<bool, Fail> {
    let found = language_name(alloc, file, pool, "en")?;
    let lacks = language_name(alloc, file, pool, "fr")?;
    let Some(zone) = zone_names(alloc, file, pool, "meta:Alps")? else {
        return Ok(false);
    };
    let ZoneNames {
        daylight,
        generic,
        standard,
    } = zone;
    let is_named = found.is_some_and(|it| it.as_str() == "Englisch")
        && daylight.is_some_and(|it| it.as_str() == "Sommerzeit")
        && standard.is_some_and(|it| it.as_str() == "Winterzeit");
    let other = zone_names(alloc, file, pool, "meta:Andes")?;
    Ok(is_named && lacks.is_none() && generic.is_none() && other.is_none())
}

/// Whether they are found in a file without a pool bundle, and in one over its own.
fn are_found(alloc: Global) -> Result<bool, Fail> {
    let (pool, file) = (
        file_of(alloc, &POOL_OF_NAMES)?,
        file_of(alloc, &NAMES_OVER_POOL)?,
    );
    let pool = PoolBundle::read(&pool)?;
    let alone = Compile::new(TextForm::Plain).text(alloc, NAMES)?;
    Ok(has_names(alloc, &file, Some(pool))? && has_names(alloc, &alone, None)?)
}

/// Whether each zone's base is read, by each way.
fn are_read(alloc: Global) -> Result<bool, Fail> {
    let file = Compile::new(TextForm::Plain).text(alloc, ZONES)?;
    for (name, base) in BASES {
        if base_of(alloc, &file, name)? != base || base_by_cursor(&file, name)? != base {
            return Ok(false);
        }
        if base_by_key(alloc, &file, name)? != base {
            return Ok(false);
        }
    }
    Ok(true)
}

/// Whether the digits of each currency are read.
fn are_records(alloc: Global) -> Result<bool, Fail> {
    let file = Compile::new(TextForm::Plain).text(alloc, CURRENCIES)?;
    for (code, digits) in DIGITS {
        let Ok(found) = digits_or_blame(alloc, &file, code) else {
            return Ok(false);
        };
        if digits_of(alloc, &file, code)? != digits || found != digits {
            return Ok(false);
        }
    }
    let pool = file_of(alloc, &POOL)?;
    let euro = file_over(alloc, &pool, r#"EUR{digits:int{2}name{"Euro"}}"#)?;
    Ok(digits_over_a_pool(alloc, &euro, &pool)? == 2)
}

/// Whether the files that are made are those of the texts.
fn are_written(alloc: Global) -> Result<bool, Fail> {
    let plain = Compile::new(TextForm::Plain);
    let greeting = plain.text(alloc, r#"names { age:int { 7 } greeting { "hello" } }"#)?;
    let merged = merge(alloc, MERGED[0], MERGED[1])?;
    Ok(greeting_file(alloc)? == greeting && merged == plain.text(alloc, MERGED[2])?)
}

#[test]
fn pages_answer(rt: HostRuntime) -> Result<(), Fail> {
    let read = are_read(rt.alloc())? && are_records(rt.alloc())? && are_names(rt.alloc())?;
    let written = are_written(rt.alloc())? && are_found(rt.alloc())?;
    assert!(rt; read && written);
    Ok(())
}
