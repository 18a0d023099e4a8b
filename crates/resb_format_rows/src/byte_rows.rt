//! Numbers and parts among bytes: how they are spelled, and what doesn't lie inside.
//! Views of whole vectors are in `view_rows`.
use resb_format::bytes;

/// Four units, which are two words, and a byte that spells nothing.
const BYTES: [u8; 9] = [1, 2, 3, 4, 5, 6, 7, 8, 9];

fn are_spelled(bytes: &[u8; 9]) -> bool {
    let units = [
        bytes::unit_at(bytes, 3),
        bytes::unit_in(bytes, 0, true),
        bytes::unit_in(bytes, 0, false),
    ];
    let (word, byte) = (bytes::word_at(bytes, 1), bytes::byte_at(bytes, 8));
    let (two, four) = (bytes::two_at(bytes, 7), bytes::four_at(bytes, 5));
    let are_numbers = units == [0x0807, 0x0102, 0x0201] && word == 0x0807_0605 && byte == 9;
    are_numbers && two == [8, 9] && four == [6, 7, 8, 9]
}

#[test]
fn numbers_are_spelled_by_bytes(rt: HostRuntime) {
    assert!(rt; are_spelled(&BYTES));
    assert!(rt; bytes::some_unit(&BYTES, 3) == Some(0x0807));
    assert!(rt; bytes::some_unit(&BYTES, 4) == None);
    assert!(rt; bytes::some_word(&BYTES, 1) == Some(0x0807_0605));
    assert!(rt; bytes::some_word(&BYTES, 2) == None);
}

/// Where a part begins, how many it has, and the first and the last byte of it, if it lies inside.
const PARTS: [(usize, usize, Option<(u8, u8)>); 6] = [
    (0, 9, Some((1, 9))),
    (3, 2, Some((4, 5))),
    (8, 1, Some((9, 9))),
    (9, 1, None),
    (3, 7, None),
    (usize::MAX, 1, None),
];

fn ends(part: Option<&[u8]>) -> Option<(u8, u8)> {
    let part = part?;
    Some((*part.first()?, *part.last()?))
}

#[test]
fn parts_lie_inside(rt: HostRuntime) {
    for (from, count, wanted) in PARTS {
        assert!(rt;
            ends(bytes::some_bytes(&BYTES, from, count)) == wanted,
            "{from}"
        );
    }
    assert!(rt; ends(bytes::some_units(&BYTES, 1, 2)) == Some((3, 6)));
    assert!(rt; ends(bytes::some_units(&BYTES, 3, 2)) == None);
    assert!(rt; ends(bytes::some_words(&BYTES, 1, 1)) == Some((5, 8)));
    assert!(rt; ends(bytes::some_words(&BYTES, 1, 2)) == None);
}

fn is_cut(bytes: &[u8]) -> bool {
    let Some((front, rest)) = bytes::cut_at(bytes, 4) else {
        return false;
    };
    ends(Some(front)) == Some((1, 4)) && ends(Some(rest)) == Some((5, 9))
}

/// The first four units, and how many bytes stand behind them.
fn first_units(bytes: &[u8]) -> Option<(u16, u16, u16, u16, usize)> {
    let ([first, second, third, fourth], rest) = bytes::first_four_units(bytes)?;
    Some((first, second, third, fourth, rest.len()))
}

fn first_numbers(bytes: &[u8]) -> bool {
    let Some((unit, behind_unit)) = bytes::first_unit(bytes) else {
        return false;
    };
    let Some((word, behind_word)) = bytes::first_word(bytes) else {
        return false;
    };
    unit == 0x0201 && behind_unit.len() == 7 && word == 0x0403_0201 && behind_word.len() == 5
}

/// Whether bytes that are too few are not cut, and have no first numbers.
fn are_too_few(bytes: &[u8]) -> bool {
    let is_cut = bytes::cut_at(bytes, 4).is_some();
    let has_word = bytes::first_word(bytes).is_some();
    let has_units = bytes::first_four_units(bytes).is_some();
    !is_cut && !has_word && !has_units
}

#[test]
fn bytes_are_cut_behind_their_first_numbers(rt: HostRuntime) {
    assert!(rt; is_cut(&BYTES) && first_numbers(&BYTES));
    assert!(rt; first_units(&BYTES) == Some((0x0201, 0x0403, 0x0605, 0x0807, 1)));
    assert!(rt; are_too_few(&[1, 2, 3]));
    assert!(rt; bytes::first_unit(&[1]).is_none() && first_units(&BYTES[2..]).is_none());
}
