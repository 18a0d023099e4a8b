//! Strings in a block, markers at their limits, and views of bytes as numbers.
//! Single numbers are in `byte_rows`.
use crate::refusals::is_refused;
use resb_format::{
    ErrorKind, I32Pair, PairView, Utf16View, WordView, cast_bytes_to_u16_slice,
    cast_bytes_to_u32_slice, cast_u32_to_i32_pair_slice, cast_u32_to_i32_slice, is_unmarked,
    marker_units, string_at,
};
use std::alloc::{AllocError, Global};
use std::test::Fail;

/// A block of these units, then so many letters a, then 0.
fn block_of(alloc: Global, marker: &[u16], letters: usize) -> Result<Vec<u8>, AllocError> {
    let mut block = Vec::new(alloc);
    for unit in marker {
        block.extend_from_slice(&unit.to_le_bytes())?;
    }
    for _ in 0..letters {
        block.extend_from_slice(b"a\x00")?;
    }
    block.extend_from_slice(&[0, 0])?;
    Ok(block)
}

/// So many letters, and the marker before them.
const MARKERS: [(usize, &[u16]); 7] = [
    (0, &[]),
    (40, &[]),
    (41, &[0xdc29]),
    (1006, &[0xdfee]),
    (1007, &[0xdfef, 0x03ef]),
    (1_048_575, &[0xdffe, 0xffff]),
    (1_048_576, &[0xdfff, 0x0010, 0x0000]),
];

fn is_marked(alloc: Global, letters: usize, marker: &[u16]) -> Result<bool, Fail> {
    let block = block_of(alloc, marker, letters)?;
    let units = string_at(block.as_slice(), 0)?;
    let letter = units.is_empty() || units.item(0) == 0x61;
    let whole = units.len() == letters && units.as_bytes().len() == 2 * units.len();
    Ok(letter && whole && letters <= 2_000_000 && marker_units(letters) == marker.len())
}

#[test]
fn markers_at_their_limits(rt: HostRuntime) -> Result<(), Fail> {
    for (letters, marker) in MARKERS {
        let marked = is_marked(rt.alloc(), letters, marker)?;
        assert!(rt; marked, "{letters}");
    }
    Ok(())
}

const END: &str = "unexpected end of input";

const UNTERMINATED: &str = "unterminated string with implicit length";

/// A block, a unit of it, and how many units the string there has, or why there is none.
const STRINGS: [(&[u8], usize, Result<usize, &str>); 12] = [
    (&[0, 0, 0x01, 0xdc], 1, Err(END)),
    (&[0, 0, 0xef, 0xdf], 1, Err(END)),
    (&[0, 0, 0xff, 0xdf, 0, 0], 1, Err(END)),
    (&[0, 0, 0x61, 0], 1, Err(UNTERMINATED)),
    (&[0, 0, 0x61, 0, 0], 1, Err(UNTERMINATED)),
    (&[0, 0, 0, 0xdc], 3, Err(END)),
    (&[0, 0, 0, 0xdc], 2, Err(END)),
    (&[], 0, Err(END)),
    (&[0, 0], 18_446_744_073_709_551_615, Err(END)),
    (&[0, 0, 0xff, 0xdf, 0, 0, 1, 0, 0x61, 0], 1, Ok(1)),
    (&[0, 0, 0, 0xdc], 1, Ok(0)),
    (&[0x61, 0, 0, 0], 0, Ok(1)),
];

fn holds(block: &[u8], unit: usize, wanted: Result<usize, &str>) -> bool {
    match (string_at(block, unit), wanted) {
        (Ok(units), Ok(length)) => units.len() == length,
        (refused, Err(message)) => is_refused(refused, ErrorKind::InvalidData, message),
        (Err(_), Ok(_)) => false,
    }
}

#[test]
fn strings_are_cut_or_unterminated(rt: HostRuntime) {
    for (number, (block, unit, wanted)) in STRINGS.iter().enumerate() {
        assert!(rt; holds(block, *unit, *wanted), "row {number}");
    }
}

fn ends_after_forty(alloc: Global) -> Result<bool, AllocError> {
    let letters = block_of(alloc, &[], 41)?;
    let block = letters.as_slice();
    Ok(holds(block, 0, Err(UNTERMINATED)) && holds(block, 1, Ok(40)))
}

#[test]
fn forty_units_need_no_marker(rt: HostRuntime) -> Result<(), Fail> {
    let ends = ends_after_forty(rt.alloc())?;
    assert!(rt; ends);
    Ok(())
}

/// A text, and whether it is written without a marker.
const TEXTS: [(&str, bool); 7] = [
    ("", true),
    ("aaaaaaaaaaaaaaaaaaaaaaaaaaaaaaaaaaaaaaaa", true),
    ("aaaaaaaaaaaaaaaaaaaaaaaaaaaaaaaaaaaaaaaaa", false),
    ("aaaaaaaaaaaaaaaaaaaaaaaaaaaaaaaaaaaaaa\u{1f600}", true),
    ("aaaaaaaaaaaaaaaaaaaaaaaaaaaaaaaaaaaaaaa\u{1f600}", false),
    ("\u{ffff}\u{e000}", true),
    ("a\u{0}b", false),
];

#[test]
fn texts_without_a_marker(rt: HostRuntime) {
    for (text, unmarked) in TEXTS {
        assert!(rt; is_unmarked(text) == unmarked, "{text}");
    }
}

/// Bytes, and the words, pairs of words and units that they are.
struct Spelled {
    bytes: &'static [u8],
    units: Option<&'static [u16]>,
    words: Option<&'static [u32]>,
    pairs: Option<&'static [I32Pair]>,
}

const SPELLED: [Spelled; 5] = [
    Spelled {
        bytes: &[1, 0, 0, 0, 0xff, 0xff, 0xff, 0xff],
        units: Some(&[1, 0, 0xffff, 0xffff]),
        words: Some(&[1, 0xffff_ffff]),
        pairs: Some(&[I32Pair(1, -1)]),
    },
    Spelled {
        bytes: &[1, 0, 0, 0, 2, 0, 0, 0, 3, 0, 0, 0],
        units: Some(&[1, 0, 2, 0, 3, 0]),
        words: Some(&[1, 2, 3]),
        pairs: None,
    },
    Spelled {
        bytes: &[0, 0xff],
        units: Some(&[0xff00]),
        words: None,
        pairs: None,
    },
    Spelled {
        bytes: &[0],
        units: None,
        words: None,
        pairs: None,
    },
    Spelled {
        bytes: &[],
        units: Some(&[]),
        words: Some(&[]),
        pairs: Some(&[]),
    },
];

const WRONG: &str = "Wrong length";

fn are_units(view: Utf16View<'_>, units: &[u16]) -> bool {
    if view.len() != units.len() || view.is_empty() != units.is_empty() {
        return false;
    }
    for (number, unit) in units.iter().enumerate() {
        if view.item(number) != *unit {
            return false;
        }
    }
    true
}

fn are_words(view: WordView<'_>, words: &[u32]) -> bool {
    let numbers = cast_u32_to_i32_slice(view);
    if view.len() != words.len() || numbers.len() != words.len() {
        return false;
    }
    for (number, word) in words.iter().enumerate() {
        if view.item(number) != *word || numbers.item(number) != word.cast_signed() {
            return false;
        }
    }
    view.is_empty() == words.is_empty() && numbers.is_empty() == words.is_empty()
}

fn are_pairs(view: PairView<'_>, pairs: &[I32Pair]) -> bool {
    if view.len() != pairs.len() || view.is_empty() != pairs.is_empty() {
        return false;
    }
    for (number, pair) in pairs.iter().enumerate() {
        if view.item(number) != *pair {
            return false;
        }
    }
    true
}

fn spells_units(bytes: &[u8], units: Option<&[u16]>) -> bool {
    match (cast_bytes_to_u16_slice(bytes), units) {
        (Ok(view), Some(units)) => view.as_bytes() == bytes && are_units(view, units),
        (refused, None) => is_refused(refused, ErrorKind::Unknown, WRONG),
        (Err(_), Some(_)) => false,
    }
}

fn spells_words(bytes: &[u8], words: Option<&[u32]>) -> bool {
    match (cast_bytes_to_u32_slice(bytes), words) {
        (Ok(view), Some(words)) => view.as_bytes() == bytes && are_words(view, words),
        (refused, None) => is_refused(refused, ErrorKind::Unknown, WRONG),
        (Err(_), Some(_)) => false,
    }
}

fn spells_pairs(bytes: &[u8], pairs: Option<&[I32Pair]>) -> bool {
    let Ok(words) = cast_bytes_to_u32_slice(bytes) else {
        return pairs.is_none();
    };
    match (cast_u32_to_i32_pair_slice(words), pairs) {
        (Ok(view), Some(pairs)) => view.as_bytes() == bytes && are_pairs(view, pairs),
        (refused, None) => is_refused(refused, ErrorKind::Unknown, WRONG),
        (Err(_), Some(_)) => false,
    }
}

fn spells(row: &Spelled) -> bool {
    spells_units(row.bytes, row.units)
        && spells_words(row.bytes, row.words)
        && spells_pairs(row.bytes, row.pairs)
}

#[test]
fn bytes_are_numbers(rt: HostRuntime) {
    for (number, row) in SPELLED.iter().enumerate() {
        assert!(rt; spells(row), "row {number}");
    }
}

#[test]
fn pairs_are_ordered(rt: HostRuntime) {
    assert!(rt; I32Pair(-1, 5) < I32Pair(1, -1));
    assert!(rt; I32Pair(1, -2) < I32Pair(1, -1));
}
