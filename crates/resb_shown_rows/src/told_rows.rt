//! What a person is told of texts, counted by hand: places, lines with a mark, what else may be the
//! cause of a refusal, and warnings. More texts with warnings are rows of `tests/rows.py`.
use resb_diagnostics::{
    Location, Locations, Reason, Warning, first_icu_outdent, first_icu_word, first_outdent,
    icu_warnings, innermost_icu_open, innermost_open, is_hidden, location_of,
    long_icu_string_before, long_string_before, pointed_line, repeated_icu_keys, warnings,
};
use std::alloc::{AllocError, Global};

/// The second line is empty, and the character of the third has two bytes.
const TEXT: &[u8] = b"a\n\n\xc3\xa9b\nc";

/// Places in it, in any order, each with its line and its column.
const PLACES: [(usize, usize, usize); 7] = [
    (0, 1, 1),
    (5, 3, 2),
    (100, 4, 2),
    (5, 3, 2),
    (6, 3, 3),
    (7, 4, 1),
    (2, 2, 1),
];

/// Whether a place is on this line, and in this column.
fn is_at(found: Location, line: usize, column: usize) -> bool {
    found.line == line && found.column == column
}

#[test]
fn places_have_lines_and_columns(rt: HostRuntime) {
    let mut places = Locations::new(TEXT);
    for (place, line, column) in PLACES {
        assert!(rt; is_at(location_of(TEXT, place), line, column), "{place}");
        assert!(rt; is_at(places.find(place), line, column), "{place}");
    }
}

#[test]
fn a_line_is_shown_with_a_mark(rt: HostRuntime) -> Result<(), AllocError> {
    let line = pointed_line(rt.alloc(), b"b{\n  k\x07}\n", 6)?;
    assert!(rt; line.as_str() == "  k }\n   ^");
    assert!(rt; is_hidden('\u{1b}') && is_hidden('\u{202e}') && !is_hidden('k'));
    Ok(())
}

#[test]
fn what_may_be_the_cause_is_found(rt: HostRuntime) -> Result<(), AllocError> {
    // an escape hides the quote in ICU's form
    let open = b"b{k{\"\\\"}".as_slice();
    assert!(rt; innermost_open(open) == Some(1));
    assert!(rt; innermost_icu_open(open) == Some(3));
    let long = b"b{\"x\ny\" k".as_slice();
    assert!(rt; long_string_before(long, 8) == Some(2));
    assert!(rt; long_icu_string_before(long, 8) == Some(2));
    let outdented = b"b{\n  k{\n    x\n  y{z}\n".as_slice();
    assert!(rt; first_outdent(rt.alloc(), outdented)? == Some(16));
    assert!(rt; first_icu_outdent(rt.alloc(), outdented)? == Some(16));
    Ok(())
}

/// Whether there is one warning, of this place and reason.
fn is_told(found: &[Warning], place: usize, reason: Reason) -> bool {
    found.len() == 1 && found[0] == Warning { place, reason }
}

#[test]
fn warnings_have_their_places(rt: HostRuntime) -> Result<(), AllocError> {
    let found = warnings(rt.alloc(), "b{a{\"x\\y\"}}")?;
    assert!(rt; is_told(found.as_slice(), 6, Reason::Backslash));
    let found = icu_warnings(rt.alloc(), "b{m{{0} x}}")?;
    assert!(rt; is_told(found.as_slice(), 4, Reason::UnquotedGroup));
    Ok(())
}

/// Texts of ICU's form, and the place of the only key that stands twice, if there is one.
const KEYS: [(&[u8], Option<usize>); 3] = [
    (b"b{a{x} a{y}", Some(7)),
    (b"b{a/b{x} a/b{y}", Some(9)),
    (b"b{(a){x} a{y}", None),
];

/// Whether that is told of a text.
fn is_key_told(alloc: Global, text: &[u8], wanted: Option<usize>) -> Result<bool, AllocError> {
    let found = repeated_icu_keys(alloc, text)?;
    match wanted {
        Some(place) => Ok(is_told(found.as_slice(), place, Reason::RepeatedKey(2))),
        None => Ok(found.is_empty()),
    }
}

#[test]
fn keys_are_told_that_stand_twice(rt: HostRuntime) -> Result<(), AllocError> {
    for (text, wanted) in KEYS {
        assert!(rt; is_key_told(rt.alloc(), text, wanted)?);
    }
    assert!(rt; first_icu_word(b"a/b/*c*/{") == b"a/b".as_slice());
    Ok(())
}
