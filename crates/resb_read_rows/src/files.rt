//! Files of words, as the rows name them or write them. Words stand as hex digits: `a*9` is nine
//! times the word a, `a+b*9` nine words that begin with a and grow by b, and `c,a+b*9` nine times
//! two such words. What is read of them is in the other modules.
use crate::answers::named;
use std::alloc::{AllocError, Global};
use std::fmt::Write;

/// The 32 bytes that a written file begins with.
const HEADER: [u8; 32] = [
    0x20, 0, 0xda, 0x27, 0x14, 0, 0, 0, 0, 0, 2, 0, 0x52, 0x65, 0x73, 0x42, 2, 0, 0, 0, 1, 4, 0, 0,
    0, 0, 0, 0, 0, 0, 0, 0,
];

/// The root is an integer, all of whose 28 bits are set.
const INTEGER: &str = "7fffffff 7 8 9 9 0 0 9 aaaa0000";

/// The root is the string "a".
const TEXT_A: &str = "60000001 7 8 a a 0 0 a 610000 aaaa0000";

/// The root is a table of a = the array of "" and "x".
const TEXTS: &str = "2000000c 7 9 e e 1 0 c aaaa0061 780000 20000 10000 200001 90000003";

/// The root is a table of d = the bytes 0 and 255.
const BYTES: &str = "2000000d 7 9 f f 1 0 a aaaa0064 aaaa0000 aaaaaaaa 2 aaaaff00 200001 1000000b";

/// The root is a table of a = "2", with a key and a value alone.
const ONE_ENTRY: &str = "50000003 7 9 c c 1 0 c aaaa0061 320000 10000 10020";

/// The root is a table of a = "x" and c = "yz".
const TWO_ENTRIES: &str = "50000006 7 9 f f 2 0 f 630061 780000 790000 7a 200002 10022 aaaa0003";

/// The root is a table of i = -1 and v = the vector of 1 and -1.
const NUMBERS: &str =
    "2000000d 7 9 11 11 2 0 a 760069 aaaa0000 2 1 ffffffff 200002 aaaa0022 7fffffff \
    e000000a";

/// The root is a table of a = 5, with key positions of 32 bits.
const WIDE_TABLE: &str = "40000009 7 9 c c 1 0 9 aaaa0061 1 20 70000005";

/// The root is a table of v = the vector of 1, 2 and 3.
const THREE_NUMBERS: &str = "2000000e 7 9 10 10 1 0 a aaaa0076 aaaa0000 3 1 2 3 200001 e000000a";

/// The files that have names.
const NAMED: [(&str, &str); 9] = [
    ("INTEGER", INTEGER),
    ("TEXT_A", TEXT_A),
    ("TEXTS", TEXTS),
    ("BYTES", BYTES),
    ("ONE_ENTRY", ONE_ENTRY),
    ("TWO_ENTRIES", TWO_ENTRIES),
    ("NUMBERS", NUMBERS),
    ("WIDE_TABLE", WIDE_TABLE),
    ("THREE_NUMBERS", THREE_NUMBERS),
];

/// The number of hex digits.
fn word_of(digits: &str) -> u32 {
    u32::from_str_radix(digits, 16).unwrap_or(0)
}

/// Words, and by how much each of them grows.
fn growing(alloc: Global, words: &str) -> Result<Vec<(u32, u32)>, AllocError> {
    let mut pairs = Vec::new(alloc);
    for word in words.split(',') {
        let (first, step) = word.split_once('+').unwrap_or((word, "0"));
        pairs.push((word_of(first), word_of(step)))?;
    }
    Ok(pairs)
}

/// Adds words that have grown so often.
fn push_words(bytes: &mut Vec<u8>, words: &[(u32, u32)], times: u32) -> Result<(), AllocError> {
    for (first, step) in words {
        let word = first.wrapping_add(step.wrapping_mul(times));
        bytes.extend_from_slice(&word.to_le_bytes())?;
    }
    Ok(())
}

/// Adds words as often as is said.
fn push_repeated(alloc: Global, bytes: &mut Vec<u8>, words: &str) -> Result<(), AllocError> {
    let (words, count) = words.split_once('*').unwrap_or((words, "1"));
    let words = growing(alloc, words)?;
    for times in 0..count.parse::<u32>().unwrap_or(0) {
        push_words(bytes, &words, times)?;
    }
    Ok(())
}

/// Adds the words of a row.
fn push_row(alloc: Global, bytes: &mut Vec<u8>, row: &str) -> Result<(), AllocError> {
    for words in row.split_whitespace() {
        push_repeated(alloc, bytes, words)?;
    }
    Ok(())
}

/// The bytes of these words, or of those that the row names, behind a written header.
pub(crate) fn file_of(alloc: Global, row: &str) -> Result<Vec<u8>, AllocError> {
    let mut bytes = Vec::from_slice(alloc, &HEADER)?;
    push_row(alloc, &mut bytes, named(&NAMED, row).unwrap_or(row))?;
    Ok(bytes)
}

/// The digits of the keys from 00000 to 65535, with an end behind each.
fn keys_of_digits(alloc: Global) -> Result<String, AllocError> {
    let mut keys = String::new(alloc);
    for number in 0u32..65536 {
        write!(keys, "{number:05}\0")?;
    }
    Ok(keys)
}

/// A table of 65536 keys of five digits, from 00000 to 65535, and the number 0 at each.
pub(crate) fn file_of_many_keys(alloc: Global) -> Result<Vec<u8>, AllocError> {
    let keys = keys_of_digits(alloc)?;
    let mut bytes = file_of(alloc, "40018008 7 18008 0 0 0 0 18008")?;
    bytes.extend_from_slice(keys.as_bytes())?;
    push_row(alloc, &mut bytes, "10000 20+6*65536 70000000*65536")?;
    Ok(bytes)
}

/// The bytes, of which the one at this place is another.
pub(crate) fn with_byte(
    alloc: Global,
    bytes: &[u8],
    place: usize,
    byte: u8,
) -> Result<Vec<u8>, AllocError> {
    let mut changed = Vec::from_slice(alloc, bytes)?;
    if place < changed.len() {
        changed[place] = byte;
    }
    Ok(changed)
}

/// So many of the first bytes.
pub(crate) fn cut(alloc: Global, bytes: &[u8], length: usize) -> Result<Vec<u8>, AllocError> {
    let mut front = Vec::from_slice(alloc, bytes)?;
    front.truncate(length);
    Ok(front)
}
