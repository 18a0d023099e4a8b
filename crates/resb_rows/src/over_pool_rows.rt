//! Bundles that are written over a pool bundle, and texts that are compiled with each option, and
//! their files, as the format's rules ask for them. Each row is an input and its answer, up to a
//! `;`: a row more costs no proof.
use resb_compile::{Compile, TextForm};
use resb_filter::Rules;
use resb_lent::Pool;
use resb_text::Reader;
use resb_tree::Key;
use resb_write::Layout;
use std::alloc::Global;
use std::test::Fail;

/// The pool bundle of `a{alpha{"one two three"}beta{"x"}}` and
/// `b{alpha{"one two three"}gamma{"three"}}`, of version 3.0, as ICU's compiler writes it: its
/// words.
const POOL_3: [u32; 30] = [
    0x27da0020, 0x14, 0x20000, 0x42736552, 3, 0x401, 0, 0, 0x20000000, 8, 0xe, 0x16, 0x16, 0, 3,
    0x16, 0xe31610fa, 0x68706c61, 0x65620061, 0x67006174, 0x616d6d61, 0xaaaaaa00, 0x6f0000,
    0x65006e, 0x740020, 0x6f0077, 0x740020, 0x720068, 0x650065, 0xaaaa0000,
];

/// A pool bundle of version 2.0, which has the keys alone.
const POOL_2: [u32; 23] = [
    0x27da0020, 0x14, 0x20000, 0x42736552, 2, 0x401, 0, 0, 0x20000000, 8, 0xe, 0xf, 0xf, 0, 3, 0xf,
    0x1baba403, 0x68706c61, 0x65620061, 0x67006174, 0x616d6d61, 0xaaaaaa00, 0xaaaa0000,
];

/// The pool bundle of two bundles with the string of an `x`, 20 `a` and 21 `b` under `k`, of
/// version 3.0, as ICU's compiler writes it: its words.
const POOL_OF_LONG: [u32; 41] = [
    0x27da0020, 0x14, 0x20000, 0x42736552, 3, 0x401, 0, 0, 0x20000000, 8, 0xa, 0x21, 0x21, 0, 3,
    0x21, 0x9b2603dd, 0xaaaa006b, 0xdc2a0000, 0x610078, 0x610061, 0x610061, 0x610061, 0x610061,
    0x610061, 0x610061, 0x610061, 0x610061, 0x610061, 0x620061, 0x620062, 0x620062, 0x620062,
    0x620062, 0x620062, 0x620062, 0x620062, 0x620062, 0x620062, 0x620062, 0xaaaa0000,
];

/// The version of a pool, a text and keys in the order of a list; then the version of the file over
/// that pool, and its words behind the header.
pub(crate) const OVER_POOLS: &str = r#"3 a{alpha{"one two three"}beta{"x"}} | alpha beta =>
    3:50000003,208,9,d,d,2,20004,d,e31610fa,780000,20000,60000,30001,;
3 a:table(nofallback){alpha{"one two three"}beta{"x"}} | beta alpha =>
    3:50000003,208,9,d,d,2,20005,d,e31610fa,780000,20000,60000,30001,;
3 b{alpha{"one two three"}gamma{"three"}} | alpha gamma =>
    3:50000001,a08,9,c,c,2,a0004,c,e31610fa,20000,b0000,90001,;
3 c{alpha{"two three"}delta{"x","","three"}} | alpha delta =>
    3:2000000f,a08,b,13,13,2,a0004,f,e31610fa,746c6564,aaaa0061,780000,30000,b,aaaa0009,
    2c0002,aaaa0024,60000005,90000003,;
3 e{delta{"two three"}gamma{"zwei"}eta{alpha{""}d{"o three"}}} | gamma delta eta alpha d =>
    3:20000012,808,c,17,17,3,80004,12,e31610fa,746c6564,74650061,640061,7a0000,650077,69,300002,
    2e,aaaa0007,240003,3b002a,60000005,50000006,60000009,;
3 f{z{"x"}alpha{"three"}y:intvector{1,2}b:bin{616263}n:int{5}} | y alpha z n b =>
    3:20000014,a08,b,1c,1c,5,a0004,d,e31610fa,7a0079,62006e,780000,aaaa0000,aaaaaaaa,aaaaaaaa,3,
    aa636261,2,1,2,2c0005,28002a,260024,60000009,1000000f,70000005,e0000011,6000000b,;
3 g{} | alpha => 2:20000000,8,9,a,a,0,4,a,e31610fa,aaaa0000,;
2 a{alpha{"one two three"}beta{"x"}} | alpha beta =>
    2:50000011,8,9,14,14,2,4,14,1baba403,780000,6f0000,65006e,740020,6f0077,740020,720068,
    650065,20000,60000,10003,;
2 c{alpha{"two three"}delta{"x","","three"}} | alpha delta =>
    2:20000014,8,b,18,18,2,4,14,1baba403,746c6564,aaaa0061,780000,740000,6f0077,740020,720068,
    650065,30000,1,aaaa0007,2c0002,aaaa0024,60000003,9000000d,;
3 a{alpha{"one two three"}zeta{"x"}} | alpha beta =>
    refused: Unexpected error: key not present in position map;
"#;

/// A form, a packing, the version of a pool, rules, a limit and a text of that form, with `-` for
/// what isn't asked for; then its file, or its refusal. The files of ICU's form are those of ICU's
/// compiler. In the row with all options the rules leave the text of a row of `COMPACT_OVER`.
pub(crate) const COMPILED: &str = r#"plain plain 3 - - c{alpha{"two three"}delta{"x","","three"}} =>
    3:2000000f,a08,b,13,13,2,a0004,f,e31610fa,746c6564,aaaa0061,780000,30000,b,aaaa0009,
    2c0002,aaaa0024,60000005,90000003,;
icu plain 3 - - c{alpha{"two three"}delta:array{"x","","three"}} =>
    3:2000000f,a08,b,13,13,2,a0004,f,e31610fa,746c6564,aaaa0061,780000,30000,b,aaaa0009,
    2c0002,aaaa0024,60000005,90000003,;
icu plain 3 - - d{alpha:alias{"/LOCALE/beta"}beta:int{5}} =>
    2:20000012,8,9,16,16,2,4,a,e31610fa,aaaa0000,c,4c002f,43004f,4c0041,2f0045,650062,610074,
    aaaa0000,2,aaaa0006,3000000a,70000005,;
icu plain - -/ab|-/cd/gh - r{ab{"one"}cd{ef{"two"}gh{"three"}}} =>
    2:2000000e,7,a,10,10,1,0,e,65006463,aaaa0066,740000,6f0077,10000,10023,200001,50000005,;
plain plain - -/ab|-/cd/gh 100000 r{ab{"one"}cd{ef{"two"}gh{"three"}}} =>
    2:2000000e,7,a,10,10,1,0,e,65006463,aaaa0066,740000,6f0077,10000,10023,200001,50000005,;
icu plain 3 -/zzz - c{alpha{"two three"}zzz{"y"}delta:array{"x","","three"}} =>
    3:2000000f,a08,b,13,13,2,a0004,f,e31610fa,746c6564,aaaa0061,780000,30000,b,aaaa0009,
    2c0002,aaaa0024,60000005,90000003,;
icu compact 3 -/zzz 100000 a{alpha{""}zzz{"y"}beta{"x"}} =>
    2:50000003,8,9,d,d,2,4,d,e31610fa,780000,20000,60000,10000,;
icu compact 3 -/zzz 1 a{alpha{""}zzz{"y"}beta{"x"}} => refused: text larger than the limit;
plain plain - - 1 a{alpha{""}} => refused: text larger than the limit;
"#;

/// Words as bytes.
fn bytes_of(alloc: Global, words: &[u32]) -> Result<Vec<u8>, Fail> {
    let mut bytes = Vec::new(alloc);
    for word in words {
        bytes.extend_from_slice(&word.to_le_bytes())?;
    }
    Ok(bytes)
}

/// The version of a file, and its words behind the header.
pub(crate) fn words_of(alloc: Global, file: &[u8]) -> Result<String, Fail> {
    let version = file.get(16).copied().unwrap_or(0);
    let mut line = format!(in alloc; "{version}:")?;
    let (_, body) = file.split_at_checked(32).ok_or("short")?;
    for at in 0..body.len() / 4 {
        let (_, rest) = body.split_at(4 * at);
        let (bytes, _) = rest.split_at(4);
        let bytes: [u8; 4] = bytes.try_into()?;
        let word = u32::from_le_bytes(bytes);
        line.push_str(format!(in alloc; "{word:x},")?.as_str())?;
    }
    Ok(line)
}

/// The bytes of the pool bundle of a version, or of that of a long string.
pub(crate) fn pool_named(alloc: Global, version: &str) -> Result<Vec<u8>, Fail> {
    match version {
        "2" => bytes_of(alloc, &POOL_2),
        "long" => bytes_of(alloc, &POOL_OF_LONG),
        _ => bytes_of(alloc, &POOL_3),
    }
}

/// The line of a pool, a text and a list of keys.
pub(crate) fn line_of_pool(alloc: Global, input: &str) -> Result<String, Fail> {
    let (version, input) = input.split_once(' ').ok_or("a row without a pool")?;
    let (text, list) = input.split_once(" | ").ok_or("a row without keys")?;
    let bytes = pool_named(alloc, version)?;
    let pool = Pool::open(alloc, &bytes)?;
    let mut keys = Vec::new(alloc);
    for word in list.split(' ') {
        keys.push(Key::from(word))?;
    }
    let (bundle, _) = Reader::read(alloc, text)?;
    match Layout::plain().over(&pool).write(alloc, &bundle, &keys) {
        Ok(written) => words_of(alloc, &written),
        Err(error) => Ok(format!(in alloc; "refused: {error}")?),
    }
}

/// The first of the words that end with a blank, and what is behind it.
fn word(input: &str) -> Result<(&str, &str), Fail> {
    Ok(input.split_once(' ').ok_or("a row with too few words")?)
}

/// The way of compiling that the words of a row ask for, without a pool and rules.
fn way_named<'p, 'f>(form: &str, packing: &str, limit: &str) -> Result<Compile<'p, 'f>, Fail> {
    let form = if form == "icu" {
        TextForm::Icu
    } else {
        TextForm::Plain
    };
    let way = if packing == "compact" {
        Compile::new(form).compact()
    } else {
        Compile::new(form)
    };
    Ok(if limit == "-" {
        way
    } else {
        way.within(limit.parse::<u64>()?)
    })
}

/// The line of a text that is compiled in this way, over the pool bundle and by the rules, where
/// these are given.
fn line_by(
    alloc: Global,
    way: Compile<'_, '_>,
    pool: Option<&Pool<'_>>,
    rules: Option<&Rules<'_>>,
    text: &str,
) -> Result<String, Fail> {
    let way = match pool {
        Some(pool) => way.over(pool),
        None => way,
    };
    let way = match rules {
        Some(rules) => way.filtered(rules),
        None => way,
    };
    match way.text(alloc, text) {
        Ok(file) => words_of(alloc, &file),
        Err(error) => Ok(format!(in alloc; "refused: {error}")?),
    }
}

/// The line of the words of a row and a text.
pub(crate) fn line_of_compiled(alloc: Global, input: &str) -> Result<String, Fail> {
    let (form, input) = word(input)?;
    let (packing, input) = word(input)?;
    let (version, input) = word(input)?;
    let (lines, input) = word(input)?;
    let (limit, text) = word(input)?;
    let bytes = pool_named(alloc, version)?;
    let pool = Pool::open(alloc, &bytes)?;
    let rules = if lines == "-" { "" } else { lines };
    let rules = rules.replace(alloc, "|", "\n")?;
    let rules = Rules::read(alloc, rules.as_str())?;
    let way = way_named(form, packing, limit)?;
    let pool = if version == "-" { None } else { Some(&pool) };
    let rules = if lines == "-" { None } else { Some(&rules) };
    line_by(alloc, way, pool, rules, text)
}
