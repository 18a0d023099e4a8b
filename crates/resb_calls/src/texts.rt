//! The calls that begin with a text or with keys: reading, writing, compiling, planning a pool.
//! Those that begin with a file are in `files`.

use crate::example::{FILE, OTHERS, OVER_POOL, POOL, TEXT};
use crate::outcome::{Outcome, Refused};
use resb::binary::{File, Layout, Pool, PoolBundle, PoolMaker, Serializer, pool};
use resb::bundle::Key;
use resb::filter::Rules;
use resb::text::{Expected, IcuReader, Reader, Turns};
use resb::{Compile, CompileError, TextForm};
use std::alloc::Global;

pub(crate) fn reads(alloc: Global) -> Result<bool, Refused> {
    let (bundle, keys) = Reader::read(alloc, TEXT)?;
    Ok(bundle.name() == "b" && keys.len() == 8)
}

pub(crate) fn reads_counted(alloc: Global) -> Result<bool, Refused> {
    let mut turns = Turns::new(TEXT);
    let (bundle, keys) = Reader::read_counted(alloc, &mut turns)?;
    Ok(bundle.name() == "b" && keys.len() == 8)
}

pub(crate) fn reads_within(alloc: Global) -> Result<bool, Refused> {
    let (bundle, keys) = Reader::read_within(alloc, TEXT, u64::MAX)?;
    Ok(bundle.name() == "b" && keys.len() == 8)
}

pub(crate) fn writes(alloc: Global) -> Result<bool, Refused> {
    let (bundle, keys) = Reader::read(alloc, TEXT)?;
    let file = Serializer::to_bytes(alloc, &bundle, keys.as_slice())?;
    Ok(file.as_slice() == FILE.as_slice())
}

pub(crate) fn compiles(alloc: Global) -> Result<bool, Refused> {
    let file = Compile::new(TextForm::Plain).text(alloc, TEXT)?;
    Ok(file.as_slice() == FILE.as_slice())
}

/// A text of ICU's form has the file of the text of the other form that says the same.
pub(crate) fn compiles_icu(alloc: Global) -> Result<bool, Refused> {
    let text = "\u{feff}b { a { \"x\\n\" \"y\" } e {} l { {\"z\"} } }";
    let (bundle, keys) = IcuReader::read(alloc, text)?;
    let file = Compile::new(TextForm::Icu).text(alloc, text)?;
    let plain = Compile::new(TextForm::Plain);
    let other = plain.text(alloc, "b{a{\"x\ny\"}e:array{}l:array{{\"z\"}}}")?;
    Ok(bundle.name() == "b" && keys.len() == 3 && file.as_slice() == other.as_slice())
}

/// A text of either form, and its tree, have one file over a pool bundle.
pub(crate) fn compiles_over_a_pool(alloc: Global) -> Result<bool, Refused> {
    let pool = Pool::open(alloc, &POOL)?;
    let text = "a{alpha{\"one two three\"}beta{\"x\"}}";
    let file = Compile::new(TextForm::Plain).over(&pool).text(alloc, text)?;
    let icu_file = Compile::new(TextForm::Icu).over(&pool).text(alloc, text)?;
    let (bundle, keys) = Reader::read(alloc, text)?;
    let written = Layout::plain()
        .over(&pool)
        .write(alloc, &bundle, keys.as_slice())?;
    let over = OVER_POOL.as_slice();
    Ok(file.as_slice() == over && icu_file.as_slice() == over && written.as_slice() == over)
}

/// What rules leave of a text's draft has a pool bundle, and the file of the text that says it.
pub(crate) fn filters(alloc: Global) -> Result<bool, Refused> {
    let rules = Rules::read(alloc, "-/*\n+/a/x")?;
    let text = "b{a{x{\"one two three\"}y{\"2\"}}c{\"3\"}}";
    let (bundle, keys) = IcuReader::read_draft(alloc, text)?;
    let root = rules.filtered(alloc, bundle.root)?;
    let mut maker = PoolMaker::new(alloc);
    maker.add_draft(alloc, &root, keys.as_slice())?;
    let pool = maker.finish(alloc)?;
    let way = Compile::new(TextForm::Icu);
    let file = way.filtered(&rules).text(alloc, text)?;
    let left = way.text(alloc, "b{a{x{\"one two three\"}}}")?;
    Ok(PoolBundle::read(&pool).is_ok() && file.as_slice() == left.as_slice())
}

/// Whether the text has a file that ends with this, and that is read back as the text's tree.
fn compiles_to(alloc: Global, text: &str, body: &[u8]) -> Result<bool, Refused> {
    let file = Compile::new(TextForm::Plain).text(alloc, text)?;
    let tree = File::alone(&file)?.tree(alloc, None)?;
    let (bundle, _keys) = Reader::read(alloc, text)?;
    Ok(file.get(32..) == Some(body) && tree.equals(bundle.root()))
}

pub(crate) fn compiles_others(alloc: Global) -> Result<bool, Refused> {
    for (text, body) in OTHERS {
        if !compiles_to(alloc, text, body)? {
            return Ok(false);
        }
    }
    Ok(true)
}

/// A text whose last group is open is refused at its end, after much of it was read.
pub(crate) fn refuses(alloc: Global) -> Result<bool, Refused> {
    match Compile::new(TextForm::Plain).text(alloc, r#"b{t{k{"v"}}d:bin{"00ff"}a:array{"x"{y}"#) {
        Err(CompileError::Reading(e)) if e.expected() == Expected::Item => Ok(e.position() == 38),
        Err(e) => Err(Refused::from(e)),
        Ok(_) => Ok(false),
    }
}

pub(crate) fn plans(alloc: Global) -> Result<bool, Refused> {
    let plan = pool::plan(alloc, &["yz", "xyz", ""])?;
    let units: &[u16] = &[0, 120, 121, 122, 0];
    Ok(plan.units() == units && plan.offset("yz") == Some(2))
}

pub(crate) fn clones_keys(alloc: Global) -> Result<bool, Refused> {
    let owned = Key::from(String::from_str(alloc, "key")?);
    let again = owned.try_clone(alloc)?;
    Ok(again == owned)
}

/// A key that can't be turned is handed back.
pub(crate) fn turns_a_key_into_a_string(alloc: Global) -> Outcome {
    match Key::from("key").into_string(alloc) {
        Ok(text) if text.as_str() == "key" => Outcome::Right,
        Err(key) if key.as_str() == "key" => Outcome::Wanted,
        _ => Outcome::Wrong,
    }
}
