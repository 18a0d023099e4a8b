//! Texts in the order of their characters from the end, or in a compact file of their 16-bit units.
//! What ends with a text stands before it. In which record a text lies is said in `containers`.
ghost use Rattle.std.specs.Prelude.{◌≡◌, ◌<◌, ◌≤◌, ◌-◌, ◌∷◌, ◌++◌, ◌^◌, ℕ, List, length, reverse};
ghost use Rattle.std.specs.Prelude.{[], All, IfOk, IfSome, IsTrue, slice_index_or, true, false};
ghost use Rattle.std.specs.Str.{IsUtf8};
ghost use Rattle.resb_pool.specs.Order.{suffix_cmp};
ghost use Rattle.resb_pool.specs.Plan.{nows};
ghost use Rattle.resb_pool.specs.Inner.Cuts.{IsCut, IsShared, ShareEnd};
ghost use Rattle.resb_pool.specs.Inner.Ranks.{has_far};
ghost use Rattle.resb_pool.specs.Inner.Suffixes.{AreInOrder, IsRowOf, row_texts, row_cmp};
ghost use Rattle.resb_pool.specs.Inner.Suffixes.{keyed_cmp};
ghost use Rattle.resb_pool.specs.Inner.Suffixes.{char_digits, digits_backwards, key_of_digits};
ghost use Rattle.resb_pool.specs.Inner.Suffixes.{row_key, row_text, IsPart, IsKeyed};
ghost use Rattle.resb_pool.specs.Inner.Suffixes.{IsWholeInRow, TellsEnd};
ghost use Rattle.resb_pool.specs.Inner.Suffixes.{last_digits as digits_of};
ghost use Rattle.resb_pool.specs.declared.packing.Packing.TheVariants.{Plain, Compact};

use crate::letters::{are_compared_by_units, last_rank};
use crate::packing::Packing;
use crate::texts::indexed_text;
use std::alloc::{AllocError, Global};
use std::cmp::Ordering;

/// How many bytes of a long end are compared at once.
const LONG_BLOCK: usize = 64;

/// The greatest byte of an ASCII character.
const ASCII: u8 = 0x7f;

/// Where a text has no further character: above each digit of a character.
const END: u128 = 255;

/// What eight digits stay below.
const EIGHT_DIGITS: u128 = 0x1_0000_0000_0000_0000;

/// A text by its index, with the first 16 digits of its characters, last character first. An ASCII
/// character is one digit, and any other is three. Where the text has ended, 255 stands for each
/// digit. These digits tell it from most other texts. So rows are sorted and read one after the
/// other, and few texts are looked at.
#[derive(Clone, Copy)]
pub(crate) struct Row {
    /// The first eight digits, which are of the last characters.
    pub(crate) last: u64,
    /// The next eight digits, which are of the characters before those.
    pub(crate) before: u64,
    pub(crate) index: u32,
    /// How many of the 16 digits are 255, since the text has ended.
    pub(crate) left: u8,
}

/// The first digits of a text's characters, last character first, as a number. The text has given
/// all of 16 digits but those that are left. In a whole key the end's digit stands for each that
/// is left.
#[derive(Clone, Copy)]
pub(crate) struct EndKey {
    pub(crate) number: u128,
    pub(crate) left: u8,
}

/// One digit more, if one is left.
fn with_digit(key: EndKey, digit: u32) -> EndKey
    requires part { IsPart key }
    requires digit { digit < 256 }
    ensures part { IsPart result }
    ensures left { result.left ≡ key.left - 1 }
    ensures same { (ds : List ℕ) → key_of_digits result.number result.left ds
        ≡ key_of_digits key.number key.left (digit ∷ ds) }
{
    if key.left == 0 {
        return key;
    }
    EndKey {
        number: key.number * 256 + u128::from(digit),
        left: key.left - 1,
    }
}

/// The digits of a character that isn't ASCII more, where three are left.
fn with_three(key: EndKey, code: u32) -> EndKey
    requires part { IsPart key }
    requires left { 3 ≤ key.left }
    requires code { 0x80 ≤ code }
    requires small { code < 0x11_0000 }
    ensures part { IsPart result }
    ensures left { result.left ≡ key.left - length (char_digits code) }
    ensures same { (ds : List ℕ) → key_of_digits result.number result.left ds
        ≡ key_of_digits key.number key.left (char_digits code ++ ds) }
{
    let digits = (0x80 + code / 0x4000) * 0x1_0000 + code / 0x80 % 0x80 * 0x100 + code % 0x80;
    EndKey {
        number: key.number * 0x100_0000 + u128::from(digits),
        left: key.left - 3,
    }
}

/// The digits of a character more, as many as are left.
fn with_char(key: EndKey, c: char) -> EndKey
    requires part { IsPart key }
    ensures part { IsPart result }
    ensures left { result.left ≡ key.left - length (char_digits c) }
    ensures same { (ds : List ℕ) → key_of_digits result.number result.left ds
        ≡ key_of_digits key.number key.left (char_digits c ++ ds) }
{
    let code = u32::from(c);
    if code <= 0x7f {
        return with_digit(key, code);
    }
    if key.left >= 3 {
        return with_three(key, code);
    }
    let first = with_digit(key, 0x80 + code / 0x4000);
    let second = with_digit(first, code / 0x80 % 0x80);
    with_digit(second, code % 0x80)
}

/// The whole key of a text that has no more characters: the end's digit stands for each digit that
/// is left.
fn with_end(key: EndKey) -> EndKey
    requires { IsPart key }
    ensures number { result.number ≡ key_of_digits key.number key.left [] }
    ensures left { result.left ≡ key.left }
{
    let bits = 8 * u32::from(key.left);
    let ends = u128::MAX.unbounded_shr(128 - bits);
    EndKey {
        number: key.number.unbounded_shl(bits) + ends,
        left: key.left,
    }
}

/// The whole key of a text.
fn chars_end_key(text: &str) -> EndKey
    ensures number { result.number ≡ key_of_digits 0 16 (digits_backwards text.now) }
    ensures left { result.left ≡ 16 - length (digits_backwards text.now) }
{
    let mut chars = text.chars();
    let mut key = EndKey {
        number: 0,
        left: 16,
    };
    'digits: while key.left > 0 {
        let Some(c) = chars.next_back() else {
            return with_end(key);
        };
        key = with_char(key, c);
    }
    key
}

/// The whole key of a text whose last 16 bytes, or all of fewer, are ASCII. None of any other one.
fn ascii_end_key(text: &str) -> Option<EndKey>
    ensures { IfSome result (λ k. (k.number ≡ key_of_digits 0 16 (digits_backwards text.now))
        × (k.left ≡ 16 - length (digits_backwards text.now))) }
{
    let mut bytes = text.as_bytes();
    let mut key = EndKey {
        number: 0,
        left: 16,
    };
    'digits: while key.left > 0 {
        let Some((byte, rest)) = bytes.split_last() else {
            return Some(with_end(key));
        };
        if *byte > ASCII {
            return None;
        }
        key = with_digit(key, u32::from(*byte));
        bytes = rest;
    }
    Some(key)
}

/// The whole key of a text.
fn end_key_of(text: &str) -> EndKey
    ensures number { result.number ≡ key_of_digits 0 16 (digits_backwards text.now) }
    ensures left { result.left ≡ 16 - length (digits_backwards text.now) }
{
    match ascii_end_key(text) {
        Some(key) => key,
        None => chars_end_key(text),
    }
}

/// A text in two: what stands before its last bytes, and these, so many of them or up to three
/// more.
/// None where it has fewer.
fn split_block(text: &str, size: usize) -> Option<(&str, &str)>
    requires { 0 < size }
    ensures cut { IfSome result (λ p. IsCut text.now p.0.now p.1.now) }
    ensures shorter { IfSome result (λ p. length p.0.now < length text.now) }
{
    let most = text.len().checked_sub(size)?;
    text.split_at_checked(text.floor_char_boundary(most))
}

/// Two texts without an end that they share, which is compared a block of so many bytes at a time.
fn strip_blocks<'a, 'b>(left: &'a str, right: &'b str, size: usize) -> (&'a str, &'b str)
    requires { 0 < size }
    ensures { IsShared left.now right.now result.0.now result.1.now }
{
    let mut lefts = left;
    let mut rights = right;
    while let Some((left_rest, block)) = split_block(lefts, size) {
        let Some(right_rest) = rights.strip_suffix(block) else {
            break;
        };
        lefts = left_rest;
        rights = right_rest;
    }
    (lefts, rights)
}

/// Whether eight bytes are the same as others.
fn are_same(left: &[u8; 8], right: &[u8; 8]) -> bool
    ensures { IsTrue result → left.now ≡ right.now }
{
    u64::from_le_bytes(*left) == u64::from_le_bytes(*right)
}

/// Bytes without an end that they share, which is compared eight at a time.
fn strip_eights<'a, 'b>(left: &'a [u8], right: &'b [u8]) -> (&'a [u8], &'b [u8])
    ensures { ShareEnd left.now right.now result.0.now result.1.now }
{
    let mut lefts = left;
    let mut rights = right;
    'blocks: while let Some((left_rest, left_block)) = lefts.split_last_chunk::<8>() {
        let Some((right_rest, right_block)) = rights.split_last_chunk::<8>() else {
            break;
        };
        if !are_same(left_block, right_block) {
            break;
        }
        lefts = left_rest;
        rights = right_rest;
    }
    (lefts, rights)
}

/// Bytes without the end that they share.
fn strip_bytes<'a, 'b>(left: &'a [u8], right: &'b [u8]) -> (&'a [u8], &'b [u8])
    ensures { ShareEnd left.now right.now result.0.now result.1.now }
{
    let (mut lefts, mut rights) = strip_eights(left, right);
    'bytes: while let Some((left_byte, left_rest)) = lefts.split_last() {
        match rights.split_last() {
            Some((right_byte, right_rest)) if left_byte == right_byte => {
                lefts = left_rest;
                rights = right_rest;
            }
            _ => break,
        }
    }
    (lefts, rights)
}

/// A text in two, of which the first has so many bytes or up to three more.
fn split_behind(text: &str, least: usize) -> Option<(&str, &str)>
    requires { least ≤ length text.now }
    ensures cut { IfSome result (λ p. IsCut text.now p.0.now p.1.now) }
    ensures least { IfSome result (λ p. least ≤ length p.0.now) }
{
    text.split_at_checked(text.ceil_char_boundary(least))
}

/// Two texts without an end that they share, but for a part of a character.
fn strip_shared<'a, 'b>(left: &'a str, right: &'b str) -> (&'a str, &'b str)
    ensures { IsShared left.now right.now result.0.now result.1.now }
{
    let (front, _) = strip_bytes(left.as_bytes(), right.as_bytes());
    let Some((left_rest, end)) = split_behind(left, front.len()) else {
        return (left, right);
    };
    match right.split_at_checked(right.len() - end.len()) {
        Some((right_rest, _)) => (left_rest, right_rest),
        None => (left, right),
    }
}

/// How two texts compare in a file that is packed this way: by their characters, last first, or in
/// a compact file by their 16-bit units. The end of a text is the greatest. This call is kept out
/// of the sort, which for most rows only compares numbers.
#[inline(never)]
pub fn compare(packing: Packing, left: &str, right: &str) -> Ordering
    ensures { result ≡ suffix_cmp packing left.now right.now }
{
    let (left_long, right_long) = strip_blocks(left, right, LONG_BLOCK);
    let (left_rest, right_rest) = strip_shared(left_long, right_long);
    let mut lefts = left_rest.chars();
    let mut rights = right_rest.chars();
    loop {
        match (lefts.next_back(), rights.next_back()) {
            (Some(x), Some(y)) if x == y => {}
            (Some(x), Some(y)) => return last_rank(packing, x).cmp(&last_rank(packing, y)),
            (Some(_), None) => return Ordering::Less,
            (None, Some(_)) => return Ordering::Greater,
            (None, None) => return Ordering::Equal,
        }
    }
}

/// The first 16 digits of a text's characters, last character first, as a number. An ASCII
/// character is one digit of eight bits, and any other is three. Where the text has ended, 255
/// stands for each digit.
pub fn last_digits(text: &str) -> u128
    ensures { result ≡ digits_of text.now }
{
    end_key_of(text).number
}

/// How two texts compare in a plain file, as `compare` answers it, where their `last_digits` are
/// given. The texts are looked at only where these are the same and aren't all of a text.
#[inline(always)]
pub fn compare_with_digits(
    left: &str,
    left_digits: u128,
    right: &str,
    right_digits: u128,
) -> Ordering
    requires left { left_digits ≡ digits_of left.now }
    requires right { right_digits ≡ digits_of right.now }
    ensures { result ≡ suffix_cmp Plain left.now right.now }
{
    match left_digits.cmp(&right_digits) {
        Ordering::Equal if left_digits % 256 == END => Ordering::Equal,
        Ordering::Equal => compare(Packing::Plain, left, right),
        other => other,
    }
}

/// How two texts without characters beyond U+FFFF compare in a compact file, as `compare` answers
/// it, where their `last_digits` are given.
#[inline(always)]
pub fn compare_near(left: &str, left_digits: u128, right: &str, right_digits: u128) -> Ordering
    requires left { left_digits ≡ digits_of left.now }
    requires right { right_digits ≡ digits_of right.now }
    requires near_left { has_far left.now ≡ false }
    requires near_right { has_far right.now ≡ false }
    ensures { result ≡ suffix_cmp Compact left.now right.now }
{
    compare_with_digits(left, left_digits, right, right_digits)
}

/// How two rows compare: by their first 16 digits, and where these are the same by all characters.
#[inline(always)]
fn compare_rows(texts: &[&str], left: &Row, right: &Row) -> Ordering
    ensures { result ≡ keyed_cmp (nows texts.now) left.now right.now }
{
    match left.last.cmp(&right.last) {
        Ordering::Equal => match left.before.cmp(&right.before) {
            Ordering::Equal => compare(
                Packing::Plain,
                indexed_text(texts, left.index),
                indexed_text(texts, right.index),
            ),
            other => other,
        },
        other => other,
    }
}

/// How the texts of two rows compare by their 16-bit units.
fn compare_by_units(texts: &[&str], left: &Row, right: &Row) -> Ordering
    ensures { result ≡ row_cmp Compact (nows texts.now) left.now right.now }
{
    compare(
        Packing::Compact,
        indexed_text(texts, left.index),
        indexed_text(texts, right.index),
    )
}

/// The row of a text.
pub(crate) fn row_of(text: &str, index: u32) -> Row
    ensures index { result.index ≡ index }
    ensures key { row_key result ≡ key_of_digits 0 16 (digits_backwards text.now) }
    ensures small { result.before < 2 ^ 64 }
    ensures left { result.left ≡ 16 - length (digits_backwards text.now) }
{
    let key = end_key_of(text);
    Row {
        last: (key.number / EIGHT_DIGITS) as u64,
        before: (key.number % EIGHT_DIGITS) as u64,
        index,
        left: key.left,
    }
}

/// The first 16 digits of a row as one number.
fn key_of(row: &Row) -> u128
    ensures { result ≡ row_key row.now }
{
    u128::from(row.last) * EIGHT_DIGITS + u128::from(row.before)
}

/// The first 16 digits of a text without the lowest of them, so many.
fn without_lowest(key: u128, count: u8) -> u128
    ensures { (t : List ℕ) → IsUtf8 t → key ≡ key_of_digits 0 16 (digits_backwards t) → count ≤ 16
        → result ≡ key_of_digits 0 (16 - count) (digits_backwards t) }
{
    key.unbounded_shr(8 * u32::from(count))
}

/// Whether the text of a row ends with that of another row. Where the other text has 16 digits or
/// more, it is whether it may end with it.
pub(crate) fn may_end_with(row: &Row, end: &Row) -> bool
    ensures { (T : List (List ℕ)) → All IsUtf8 T → IsKeyed T row.now → IsKeyed T end.now
        → TellsEnd result (row_text T row.now) (row_text T end.now) }
{
    without_lowest(key_of(row), end.left) == without_lowest(key_of(end), end.left)
}

/// Whether one of the first 16 digits of a text is 0.
fn has_zero_digit(key: u128) -> bool
    ensures { (s : List ℕ) → IsUtf8 s → key ≡ key_of_digits 0 16 (digits_backwards s)
        → result ≡ false → (k : ℕ) → k < 16 → 0 < slice_index_or (digits_backwards s) k 255 }
{
    key.to_be_bytes().contains(&0)
}

/// Whether the row tells that its text has no marker: the text has fewer than 16 digits, one at
/// least, and none that is 0. Another text may have no marker either.
pub(crate) fn is_whole_in_row(row: &Row) -> bool
    ensures { (T : List (List ℕ)) → All IsUtf8 T → IsKeyed T row.now → result ≡ true
        → IsWholeInRow (row_text T row.now) }
{
    if row.left == 0 {
        return false;
    }
    row.left < 16 && !has_zero_digit(key_of(row))
}

/// The rows of texts, in the order of these.
fn rows_of(alloc: Global, texts: &[&str]) -> Result<Vec<Row>, AllocError>
    requires few { length texts.now < 2 ^ 32 }
    ensures texts { IfOk result (λ v. row_texts (nows texts.now) v.items ≡ nows texts.now) }
    ensures each { IfOk result (λ v. All (IsRowOf (nows texts.now)) v.items) }
{
    let mut rows = Vec::with_capacity(alloc, texts.len())?;
    for (index, text) in texts.iter().enumerate() {
        rows.push(row_of(text, index as u32))?;
    }
    Ok(rows)
}

/// The rows of texts, in suffix order in a file that is packed this way. In a compact file the
/// digits, which are those of characters, tell it only where no text has a character beyond U+FFFF.
pub(crate) fn in_suffix_order(
    alloc: Global,
    packing: Packing,
    texts: &[&str],
) -> Result<Vec<Row>, AllocError>
    requires utf8 { All IsUtf8 (nows texts.now) }
    requires few { length texts.now < 2 ^ 32 }
    ensures { IfOk result (λ v. AreInOrder packing (nows texts.now) v.items) }
{
    let mut rows = rows_of(alloc, texts)?;
    if are_compared_by_units(packing, texts) {
        rows.sort_unstable_by(|left, right| compare_by_units(texts, left, right));
        return Ok(rows);
    }
    rows.sort_unstable_by(|left, right| compare_rows(texts, left, right));
    Ok(rows)
}
