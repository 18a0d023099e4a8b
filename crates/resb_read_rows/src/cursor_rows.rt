//! Cursors, accesses and named deserializers, step by step: what each step takes from the budget,
//! and what an access answers behind its last step and behind an error. The tests are in `rows`.
use crate::answers::{Answer, Line, halves, line_of_tree, named, push_all, same};
use crate::asks::{ASKS, Ask, line};
use crate::files::file_of;
use crate::places::place;
use resb_format::{BinaryDeserializerError, Key};
use resb_read::{Cursor, IntVectorDeserializer, MapAccess, SeqAccess, Walk};
use std::alloc::{AllocError, Global};

/// What is done with files, and what comes of it. The last are types, and what the number -1 is as
/// each.
pub(crate) const STEPS: &str = "\
skips of NUMBERS => 49 2 48 47 true;
tree of NUMBERS => 47 {i=268435455,v=(1,4294967295,),};
entries of TWO_ENTRIES => Some((\"a\", \"x\")); Some((\"c\", \"yz\")); None; None; ;
keys of TWO_ENTRIES => a=x; c=yz; none; ;
members of TEXTS => Some(\"\"); Some(\"x\"); None; None; ;
refused entries of TWO_ENTRIES => Unknown error: value cannot be read here; false 2 44;
refused members of TEXTS => Unknown error: value cannot be read here; false 2 7;
string of TEXTS => x [120, 0] 0;
key of TWO_ENTRIES => c;
i8 of NUMBERS => -1;
i16 of NUMBERS => -1;
i32 of NUMBERS => -1;
i64 of NUMBERS => -1;
u8 of NUMBERS => Unknown error: number out of range;
u16 of NUMBERS => Unknown error: number out of range;
u32 of NUMBERS => 4294967295;
u64 of NUMBERS => 4294967295;
";

/// A step, or steps.
#[derive(Clone, Copy)]
enum Step {
    Skips,
    Tree,
    Entries,
    Keys,
    Members,
    RefusedEntries,
    RefusedMembers,
    String,
    Key,
    Number,
}

/// The steps by their names; other names are those of types.
const NAMES: [(&str, Step); 9] = [
    ("skips", Step::Skips),
    ("tree", Step::Tree),
    ("entries", Step::Entries),
    ("keys", Step::Keys),
    ("members", Step::Members),
    ("refused entries", Step::RefusedEntries),
    ("refused members", Step::RefusedMembers),
    ("string", Step::String),
    ("key", Step::Key),
];

/// The answer to a row of these.
pub(crate) fn answer_to_step(alloc: Global, row: &str) -> Answer {
    let (name, words) = halves(row, " of ");
    let bytes = file_of(alloc, words)?;
    stepped(
        alloc,
        named(&NAMES, name).unwrap_or(Step::Number),
        name,
        &bytes,
    )
}

/// The answer to a step. The name is that of a type where a number is asked for.
fn stepped(alloc: Global, step: Step, name: &str, bytes: &[u8]) -> Answer {
    match step {
        Step::Skips => skips(alloc, bytes),
        Step::Tree => root(alloc, bytes),
        Step::Entries => entries(alloc, bytes),
        Step::Keys => keys(alloc, bytes),
        Step::Members => members(alloc, bytes),
        Step::RefusedEntries => refused_entries(alloc, bytes),
        Step::RefusedMembers => refused_members(alloc, bytes),
        Step::String => string(alloc, bytes),
        Step::Key => key(alloc, bytes),
        Step::Number => minus_one(alloc, named(&ASKS, name).unwrap_or(Ask::Type), bytes),
    }
}

/// The refusal of what isn't there.
fn lack() -> BinaryDeserializerError {
    BinaryDeserializerError::unknown("nothing is there")
}

/// What is left after a table is opened and after each entry's key and value are skipped.
fn skips(alloc: Global, bytes: &[u8]) -> Answer {
    let (root, mut walk) = Cursor::root(bytes)?;
    let mut entries = root.read_map(&mut walk)?;
    let (opened, count) = (walk.left(), entries.size_hint());
    let first = skipped(entries.next_entry_cursor()?, &mut walk)?;
    let second = skipped(entries.next_entry_cursor()?, &mut walk)?;
    let ends = entries.next_entry_cursor()?.is_none();
    Ok(format!(in alloc; "{opened} {count} {first} {second} {ends}")?)
}

/// What is left after an entry is skipped.
fn skipped(
    entry: Option<(Cursor<'_>, Cursor<'_>)>,
    walk: &mut Walk,
) -> Result<usize, BinaryDeserializerError> {
    let (key, value) = entry.ok_or(lack())?;
    key.skip(walk)?;
    value.skip(walk)?;
    Ok(walk.left())
}

/// The whole tree, with what is left after it.
fn root(alloc: Global, bytes: &[u8]) -> Answer {
    let (root, mut walk) = Cursor::root(bytes)?;
    let tree = root.read_resource(alloc, &mut walk)?;
    Ok(line_of_tree(alloc, walk.left(), &tree)?)
}

/// Adds what a step says.
fn push_step(line: &mut String, said: Line) -> Result<(), AllocError> {
    let said = said?;
    push_all(line, &[said.as_str(), "; "])
}

/// The line of four steps over entries of texts.
fn line_of_entries(alloc: Global, mut entries: MapAccess<'_, 'static>, walk: &mut Walk) -> Line {
    let mut all = String::new(alloc);
    for _ in 0u8..4 {
        let next = line(alloc, entries.next_entry::<&str, String>(alloc, walk));
        push_step(&mut all, next)?;
    }
    Ok(all)
}

/// Four steps over the entries of a table of texts.
fn entries(alloc: Global, bytes: &[u8]) -> Answer {
    let (root, mut walk) = Cursor::root(bytes)?;
    let entries = root.read_map(&mut walk)?;
    Ok(line_of_entries(alloc, entries, &mut walk)?)
}

/// The line of an entry of a key and a text.
fn line_of_entry(
    alloc: Global,
    next: Result<Option<(Key<'_>, String)>, BinaryDeserializerError>,
) -> Line {
    match next {
        Ok(Some((key, text))) => {
            let name = key.as_str();
            format!(in alloc; "{name}={text}")
        }
        Ok(None) => String::from_str(alloc, "none"),
        Err(error) => format!(in alloc; "{error}"),
    }
}

/// The line of three steps over entries of texts by their keys.
fn line_of_keys(alloc: Global, mut entries: MapAccess<'_, 'static>, walk: &mut Walk) -> Line {
    let mut all = String::new(alloc);
    for _ in 0u8..3 {
        let next = entries.next_entry::<Key<'_>, String>(alloc, walk);
        push_step(&mut all, line_of_entry(alloc, next))?;
    }
    Ok(all)
}

/// Three steps over the entries of a table of texts by their keys.
fn keys(alloc: Global, bytes: &[u8]) -> Answer {
    let (root, mut walk) = Cursor::root(bytes)?;
    let entries = root.read_map(&mut walk)?;
    Ok(line_of_keys(alloc, entries, &mut walk)?)
}

/// The line of four steps over members of texts.
fn line_of_members(alloc: Global, mut members: SeqAccess<'_, 'static>, walk: &mut Walk) -> Line {
    let mut all = String::new(alloc);
    for _ in 0u8..4 {
        let next = line(alloc, members.next_element::<String>(alloc, walk));
        push_step(&mut all, next)?;
    }
    Ok(all)
}

/// Four steps over the members of a list of texts.
fn members(alloc: Global, bytes: &[u8]) -> Answer {
    let mut walk = Walk::new(9);
    let members = place(bytes, "root v0")?.read_seq(&mut walk)?;
    Ok(line_of_members(alloc, members, &mut walk)?)
}

/// Two steps over entries whose values are not what is asked for, and what is then to come and
/// left.
fn refused_entries(alloc: Global, bytes: &[u8]) -> Answer {
    let (root, mut walk) = Cursor::root(bytes)?;
    let mut entries = root.read_map(&mut walk)?;
    let first = line(alloc, entries.next_entry::<&str, u8>(alloc, &mut walk));
    let second = line(alloc, entries.next_entry::<&str, u8>(alloc, &mut walk));
    let said = same(alloc, first, second)?;
    let goes_on = entries.next_entry_cursor().is_ok();
    let (rest, left) = (entries.size_hint(), walk.left());
    Ok(format!(in alloc; "{said}; {goes_on} {rest} {left}")?)
}

/// Two steps over members that are not what is asked for, and what is then to come and left.
fn refused_members(alloc: Global, bytes: &[u8]) -> Answer {
    let mut walk = Walk::new(9);
    let mut members = place(bytes, "root v0")?.read_seq(&mut walk)?;
    let first = line(alloc, members.next_element::<u8>(alloc, &mut walk));
    let second = line(alloc, members.next_element::<u8>(alloc, &mut walk));
    let said = same(alloc, first, second)?;
    let goes_on = members.next_cursor().is_ok();
    let (rest, left) = (members.size_hint(), walk.left());
    Ok(format!(in alloc; "{said}; {goes_on} {rest} {left}")?)
}

/// Files and places, and whether a deserializer of short strings, of numbers and of keys is there.
pub(crate) const NAMED: &str = "\
TEXTS / root => false false false;
TEXTS / root v0 m1 => true false false;
NUMBERS / root v1 m1 => false true false;
TEXTS / root k0 => false false true;
";

/// Which deserializers a place has.
pub(crate) fn answer_of_named(alloc: Global, row: &str) -> Answer {
    let (words, path) = halves(row, " / ");
    let bytes = file_of(alloc, words)?;
    let at = place(&bytes, path)?;
    let string = at.as_16_bit().is_some();
    let number = at.as_int_vector().is_some();
    let key = at.as_key().is_some();
    Ok(format!(in alloc; "{string} {number} {key}")?)
}

/// A short string by its deserializer: its text, its bytes, and what of 2 is left.
fn string(alloc: Global, bytes: &[u8]) -> Answer {
    let string = place(bytes, "root v0 m1")?.as_16_bit().ok_or(lack())?;
    let mut walk = Walk::new(2);
    let text = string.read_string(alloc, &mut walk)?;
    let units = string.read_bytes(&mut walk)?;
    let left = walk.left();
    Ok(format!(in alloc; "{text} {units:?} {left}")?)
}

/// The line of a number as a type.
fn line_of_number(alloc: Global, number: IntVectorDeserializer<'_>, ask: Ask) -> Line {
    match ask {
        Ask::I8 => line(alloc, number.read_i8()),
        Ask::I16 => line(alloc, number.read_i16()),
        Ask::I32 => line(alloc, number.read_i32()),
        Ask::I64 => line(alloc, number.read_i64()),
        Ask::U8 => line(alloc, number.read_u8()),
        Ask::U16 => line(alloc, number.read_u16()),
        Ask::U32 => line(alloc, number.read_u32()),
        _ => line(alloc, number.read_u64()),
    }
}

/// The second member of the vector of 1 and -1 as a type.
fn minus_one(alloc: Global, ask: Ask, bytes: &[u8]) -> Answer {
    let number = place(bytes, "root v1 m1")?.as_int_vector().ok_or(lack())?;
    Ok(line_of_number(alloc, number, ask)?)
}

/// A key by its deserializer.
fn key(alloc: Global, bytes: &[u8]) -> Answer {
    let key = place(bytes, "root k1")?.as_key().ok_or(lack())?;
    Ok(String::from_str(alloc, key.read_str()?)?)
}
