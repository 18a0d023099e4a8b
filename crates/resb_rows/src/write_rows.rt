//! Trees with lists of keys, and their files or refusals, as the format's rules ask for them. Each
//! row is an input and its answer, in lines, up to a `;`: a row more costs no proof. Texts and
//! their files are rows of `tests/rows.py` too.
use crate::answers::digits;
use resb_compile::{Compile, CompileError, TextForm};
use resb_text::Reader;
use resb_tree::{Int28, Key, Resource, ResourceBundle};
use resb_write::{BinarySerializerError, Serializer};
use std::alloc::{AllocError, Global};
use std::borrow::CowStr;
use std::test::Fail;

/// Strings of a root array, where `~` stands for U+0000 and `''` for the empty string, and the hex
/// digits of its file behind the header. Texts of 41 and 42 letters have markers, and each a
/// record, although one ends the other.
pub(crate) const STRINGS: &str = r#"~ab ab =>
    0600009007000000080000000d0000000d00000000000000000000000d000000000003dc0000610062000000
    020001000300aaaa;
x y y =>
    0500009007000000080000000d0000000d00000000000000000000000d000000000079000000780000000300
    030001000100aaaa;
'' x '' =>
    0300009007000000080000000c0000000c00000000000000000000000c000000000078000000030000000100
    0000aaaa;
xyz yz z =>
    0500009007000000080000000d0000000d00000000000000000000000d0000000000780079007a0000000300
    010002000300aaaa;
'' => 0100009007000000080000000a0000000a00000000000000000000000a000000000001000000aaaa;
a~b b =>
    0600009007000000080000000d0000000d00000000000000000000000d000000000003dc6100000062000000
    020001000400aaaa;
~ => 0400009007000000080000000b0000000b00000000000000000000000b000000000001dc0000000001000100;
b a =>
    0500009007000000080000000c0000000c00000000000000000000000c000000000061000000620000000200
    03000100;
aa b b =>
    0600009007000000080000000d0000000d00000000000000000000000d000000000062000000610061000000
    0300030001000100;
bb aa aa =>
    0700009007000000080000000e0000000e00000000000000000000000e000000000061006100000062006200
    00000300040001000100aaaa;
a 𐀀a a =>
    0800009007000000080000000e0000000e00000000000000000000000e000000000000e06100000000d800dc
    610000000300010004000600;
😀😀 😀 =>
    0600009007000000080000000d0000000d00000000000000000000000d00000000003dd800de3dd800de0000
    020001000300aaaa;
xa ya a =>
    0700009007000000080000000e0000000e00000000000000000000000e000000000079006100000078006100
    00000300040001000200aaaa;
a~b ~b b =>
    0a00009007000000080000000f0000000f00000000000000000000000f000000000002dc00006200000003dc
    61000000620000000300050001000300;
aaaaaaaaaaaaaaaaaaaaaaaaaaaaaaaaaaaaaaaaa aaaaaaaaaaaaaaaaaaaaaaaaaaaaaaaaaaaaaaaaaa
    a =>
    5800009007000000080000003600000036000000000000000000000036000000000029dc6100610061006100
    6100610061006100610061006100610061006100610061006100610061006100610061006100610061006100
    61006100610061006100610061006100610061006100610061006100610000002adc61006100610061006100
    6100610061006100610061006100610061006100610061006100610061006100610061006100610061006100
    6100610061006100610061006100610061006100610061006100610061000000030001002c002a00;
"#;

/// Texts, keys in the order of a list, where `~` stands for U+0000, and the file of the text's tree
/// with these keys. A key that isn't listed is told before one that holds U+0000.
pub(crate) const LISTS: &str = r#"b{a{"xyz"}c{"yz"}} | a a c =>
    05000050070000000a0000000f0000000f00000002000000000000000f000000610061006300aaaa00007800
    79007a00000002002200240001000200;
b{a{"xyz"}c{"yz"}} | c x a =>
    0500005007000000090000000e0000000e00000002000000000000000e000000630061000000780079007a00
    000002002200200001000200;
b{a{"xyz"}c{"yz"}} | a => refused: Unexpected error: key not present in position map;
b{ab{"x"}b{"y"}} | ab => refused: Unexpected error: key not present in position map;
b{a{x{"1"}}} | x b a x =>
    0d000020070000000a0000000f0000000f00000001000000000000000d000000780061007800aaaa00003100
    00000100240001000100220003000050;
b{} | k => 00000020070000000800000009000000090000000000000000000000090000000000aaaa;
b{a{"x"}} |  => refused: Unexpected error: key not present in position map;
b{a:int{0}"b~":int{0}} | b~ => refused: Unexpected error: key not present in position map;
b{a:int{0}"b~":int{0}} | a b~ => refused: Unexpected error: key contains U+0000;
b{"b~":int{0}} | a b~ => refused: Unexpected error: key contains U+0000;
"#;

/// The digits of the file, or the refusal.
fn told(alloc: Global, answer: Result<Vec<u8>, BinarySerializerError>) -> Result<String, Fail> {
    match answer {
        Ok(file) => digits(alloc, &file),
        Err(error) => Ok(format!(in alloc; "refused: {error}")?),
    }
}

/// The file of a root with these keys.
fn written(
    alloc: Global,
    root: Resource<'_>,
    keys: &[Key<'_>],
) -> Result<Vec<u8>, BinarySerializerError> {
    let bundle = ResourceBundle::new(CowStr::Borrowed("b"), root, true);
    Serializer::to_bytes(alloc, &bundle, keys)
}

/// The text that a word of a row stands for.
pub(crate) fn text_of(alloc: Global, word: &str) -> Result<String, Fail> {
    let mut text = String::new(alloc);
    for c in word.chars() {
        match c {
            '~' => text.push('\0')?,
            '\'' => {}
            other => text.push(other)?,
        }
    }
    Ok(text)
}

/// The string that a word of a row stands for.
fn string<'a>(alloc: Global, word: &str) -> Result<Resource<'a>, Fail> {
    Ok(Resource::String(CowStr::Owned(text_of(alloc, word)?)))
}

/// The line of the file of an array of these strings.
pub(crate) fn line_of_strings(alloc: Global, words: &str) -> Result<String, Fail> {
    let mut items = Vec::new(alloc);
    for word in words.split_whitespace() {
        items.push(string(alloc, word)?)?;
    }
    told(alloc, written(alloc, Resource::Array(items), &[]))
}

/// The line of the file of a text's tree with these keys.
fn line_of_text(alloc: Global, text: &str, keys: &[Key<'_>]) -> Result<String, Fail> {
    let (bundle, _keys) = Reader::read(alloc, text)?;
    told(alloc, Serializer::to_bytes(alloc, &bundle, keys))
}

/// The line of a text and a list of keys.
fn line_of_listed(alloc: Global, input: &str) -> Result<String, Fail> {
    let (text, words) = input.split_once(" | ").ok_or("a row without keys")?;
    let mut keys = Vec::new(alloc);
    for word in words.split(' ') {
        keys.push(Key::from(word))?;
    }
    line_of_text(alloc, text, &keys)
}

/// The line of a row with a list of keys.
pub(crate) fn line_of_list(alloc: Global, input: &str) -> Result<String, Fail> {
    let input = text_of(alloc, input)?;
    line_of_listed(alloc, input.as_str())
}

/// Roots that hold no key, and their files. The string of forty characters of two units each has a
/// marker.
pub(crate) const ROOTS: &str = "\
string =>
    0100006007000000080000000a0000000a00000000000000000000000a000000000061000000aaaa;
number =>
    ffffff7f070000000800000009000000090000000000000000000000090000000000aaaa;
vector =>
    090000e007000000080000000c0000000c0000000000000000000000090000000000aaaa
    020000000100000002000000;
array =>
    00000080070000000800000009000000090000000000000000000000090000000000aaaa;
faces =>
    0100006007000000080000003200000032000000000000000000000032000000000050dc3dd800de3dd800de
    3dd800de3dd800de3dd800de3dd800de3dd800de3dd800de3dd800de3dd800de3dd800de3dd800de3dd800de
    3dd800de3dd800de3dd800de3dd800de3dd800de3dd800de3dd800de3dd800de3dd800de3dd800de3dd800de
    3dd800de3dd800de3dd800de3dd800de3dd800de3dd800de3dd800de3dd800de3dd800de3dd800de3dd800de
    3dd800de3dd800de3dd800de3dd800de3dd800de0000aaaa;
alias =>
    0900003007000000080000000b0000000b0000000000000000000000090000000000aaaa0100000062000000;
";

/// The root that is named: the string a, the number -1, the numbers 1 and 2, forty faces, an alias,
/// and no items.
fn root_named<'a>(alloc: Global, name: &str) -> Result<Resource<'a>, Fail> {
    match name {
        "string" => string(alloc, "a"),
        "number" => Ok(Resource::Integer(Int28::from(-1i32))),
        "vector" => Ok(Resource::IntVector(vec![in alloc; 1u32, 2]?)),
        "faces" => string(alloc, "\u{1f600}".repeat(alloc, 40)?.as_str()),
        "alias" => Ok(Resource::Alias(CowStr::Owned(text_of(alloc, "b")?))),
        _ => Ok(Resource::Array(Vec::new(alloc))),
    }
}

/// The line of the file of a root that is named.
pub(crate) fn line_of_root(alloc: Global, name: &str) -> Result<String, Fail> {
    told(alloc, written(alloc, root_named(alloc, name)?, &[]))
}

/// Whether the words behind a file's header that have these numbers are these.
fn has_words(file: &[u8], words: &[(usize, u32)]) -> bool {
    for (number, word) in words {
        let start = number.saturating_mul(4).saturating_add(32);
        let Some((_, rest)) = file.split_at_checked(start) else {
            return false;
        };
        if !rest.starts_with(word.to_le_bytes().as_slice()) {
            return false;
        }
    }
    true
}

/// The file of a text's tree, with its own keys.
fn file_of_text(alloc: Global, text: &str) -> Result<Vec<u8>, Fail> {
    let (bundle, keys) = Reader::read(alloc, text)?;
    Ok(Serializer::to_bytes(alloc, &bundle, &keys)?)
}

/// The words of the file of `x` at a key of 65502 letters and `y` at `z`, where `z` is listed
/// before that key and behind it: its last place counts, which needs 32 bits.
const FAR_WORDS: [(usize, u32); 5] = [
    (0, 0x4000_4004),
    (7, 0x4004),
    (16388, 2),
    (16389, 0x22),
    (16390, 0x10001),
];

/// The file of a text with the key `z` before and behind a long one.
fn file_of_far(alloc: Global, text: &str, long: &str) -> Result<Vec<u8>, Fail> {
    let keys = [Key::from("z"), Key::from(long), Key::from("z")];
    let (bundle, _keys) = Reader::read(alloc, text)?;
    Ok(Serializer::to_bytes(alloc, &bundle, &keys)?)
}

/// Whether that file has its length and these words.
fn is_far(alloc: Global) -> Result<bool, Fail> {
    let long = "K".repeat(alloc, 65502)?;
    let text = format!(in alloc; "b{{{long}{{x}}z{{y}}}}")?;
    let file = file_of_far(alloc, text.as_str(), long.as_str())?;
    Ok(file.len() == 65604 && has_words(&file, &FAR_WORDS))
}

#[test]
fn a_far_key_has_a_wide_position(rt: HostRuntime) -> Result<(), Fail> {
    assert!(rt; is_far(rt.alloc())?);
    Ok(())
}

/// The text of a table of 65536 entries, `00000` to `65535`.
fn numbered(alloc: Global) -> Result<String, AllocError> {
    let mut text = String::from_str(alloc, "b{")?;
    for number in 0..65536u32 {
        let entry = format!(in alloc; "{number:05}:int{{0}}")?;
        text.push_str(entry.as_str())?;
    }
    text.push('}')?;
    Ok(text)
}

/// Words of its file, which has 32-bit key positions.
const NUMBERED_WORDS: [(usize, u32); 3] = [(0, 0x4001_8009), (98313, 0x10000), (163849, 0x6001a)];

/// Whether its file has its length and these words, and is that of the compiled text.
fn is_numbered(alloc: Global, text: &str) -> Result<bool, Fail> {
    let file = file_of_text(alloc, text)?;
    let has_words = file.len() == 917576 && has_words(&file, &NUMBERED_WORDS);
    Ok(has_words && Compile::new(TextForm::Plain).text(alloc, text)? == file)
}

/// Without a list no key is known, however many are used.
#[test]
fn a_large_table_has_its_file(rt: HostRuntime) -> Result<(), Fail> {
    let text = numbered(rt.alloc())?;
    assert!(rt; is_numbered(rt.alloc(), text.as_str())?);
    let refused = line_of_text(rt.alloc(), text.as_str(), &[])?;
    assert!(rt; refused.as_str() == "refused: Unexpected error: key not present in position map");
    Ok(())
}

/// How a deep text begins, what is repeated, how often, and the length of its tree's file: tables
/// in one another; arrays, and a table in the last.
const DEEP: [(&str, &str, usize, usize); 2] = [
    ("b{", "k{", 1_000_000, 8_000_072),
    ("b{k", "{", 100_000, 800_072),
];

/// The text of so many collections in one another.
fn deep(alloc: Global, start: &str, open: &str, levels: usize) -> Result<String, AllocError> {
    let opened = open.repeat(alloc, levels)?;
    let closed = "}".repeat(alloc, levels)?;
    format!(in alloc; "{start}{opened}{closed}}}")
}

#[test]
fn deep_trees_have_their_files(rt: HostRuntime) -> Result<(), Fail> {
    for (start, open, levels, length) in DEEP {
        let text = deep(rt.alloc(), start, open, levels)?;
        let file = file_of_text(rt.alloc(), text.as_str())?;
        assert!(rt; file.len() == length, "{levels} levels");
    }
    Ok(())
}

/// Whether this is what an error prints where a text is compiled.
fn is_compile_error(alloc: Global, error: CompileError, said: &str) -> Result<bool, AllocError> {
    Ok(format!(in alloc; "{error}")?.as_str() == said)
}

/// Whether this is what an error prints, its text, and what it prints where a text is compiled.
fn says(alloc: Global, error: BinarySerializerError, said: &str) -> Result<bool, AllocError> {
    let printed = format!(in alloc; "{error}")?.as_str() == said;
    let is_text = error.to_string(alloc)?.as_str() == said;
    Ok(printed && is_text && is_compile_error(alloc, CompileError::from(error), said)?)
}

#[test]
fn errors_are_printed(rt: HostRuntime) -> Result<(), AllocError> {
    let length = "Cannot serialize string of length 5, maximum is 4,294,967,295 characters";
    assert!(rt;
        says(
            rt.alloc(),
            BinarySerializerError::string_too_long(5),
            length
        )?
    );
    let unexpected = BinarySerializerError::unexpected("a");
    assert!(rt; !unexpected.is_out_of_memory());
    assert!(rt; says(rt.alloc(), unexpected, "Unexpected error: a")?);
    let limit = BinarySerializerError::limit("file too large");
    assert!(rt; says(rt.alloc(), limit, "Limit exceeded: file too large")?);
    let memory = BinarySerializerError::out_of_memory();
    assert!(rt; memory.is_out_of_memory());
    assert!(rt; says(rt.alloc(), memory, "Out of memory: while writing")?);
    Ok(())
}
