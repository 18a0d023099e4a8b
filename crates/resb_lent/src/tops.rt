//! The tops of a pool: its texts that no other one of them ends with, in a compact file's order
//! from the end.
//! Where a text stands in the pool is said in `texts`.
ghost use Rattle.std.specs.Prelude.{◌≡◌, ◌+◌, ◌<◌, ◌≤◌, ℕ, List, All, Contains, MatchOption};
ghost use Rattle.std.specs.Prelude.{◌⊎◌, length, map, IfOk};
ghost use Rattle.std.specs.Bool.{MatchBool};
ghost use Rattle.std.specs.Str.{IsUtf8};
ghost use Rattle.std.specs.String.{string_bytes};
ghost use Rattle.std.specs.declared.cmp.Ordering.TheVariants.{Greater};
ghost use Rattle.resb_pool.specs.Container.{IsTop};
ghost use Rattle.resb_pool.specs.Order.{suffix_cmp};
ghost use Rattle.resb_pool.specs.Records.{EndsWith};
ghost use Rattle.resb_pool.specs.Inner.Ranks.{has_far};
ghost use Rattle.resb_pool.specs.Inner.Suffixes.{last_digits as digits_of};
ghost use Rattle.resb_pool.specs.Inner.Tops.{IsTopOf};
ghost use Rattle.resb_pool.specs.declared.packing.Packing.TheVariants.{Compact};
ghost use Rattle.resb_lent.specs.Inner.Within.{record_bytes};
ghost use Rattle.resb_lent.specs.Inner.Tops.{AreTops, AreInOrder, Precedes, numbered_text};
ghost use Rattle.resb_lent.specs.Inner.Tops.{text_of_number};

use crate::lent_record::LentRecord;
use resb_pool::suffix_order::{compare, compare_near, last_digits};
use resb_pool::{Packing, is_far};
use std::alloc::{AllocError, Global};
use std::cmp::Ordering;

/// The text of a record by its number; empty where there is none.
pub(crate) fn text_of(records: &[LentRecord], number: usize) -> &str
    ensures { result.now ≡ numbered_text records.now number }
{
    match records.get(number) {
        Some(record) => record.text.as_str(),
        None => "",
    }
}

/// The numbers of records, in a compact file's order of their texts from the end.
fn in_order(alloc: Global, records: &[LentRecord]) -> Result<Vec<usize>, AllocError>
    ensures { IfOk result (λ v. AreInOrder records.now v.items) }
{
    let mut numbers = Vec::with_capacity(alloc, records.len())?;
    for number in 0..records.len() {
        numbers.push(number)?;
    }
    numbers.sort_unstable_by(|left, right| compare(
        Packing::Compact,
        text_of(records, *left),
        text_of(records, *right),
    ));
    Ok(numbers)
}

/// Whether a text isn't empty and doesn't end the one that stands right before it.
fn is_top_behind(previous: &str, text: &str) -> bool
    ensures { MatchBool result ((0 < length text.now) × (EndsWith previous.now text.now → ⊥))
        ((length text.now ≡ 0) ⊎ EndsWith previous.now text.now) }
{
    !text.is_empty() && !previous.ends_with(text)
}

/// The numbers of the tops among records. In that order all texts that end with a text stand right
/// before it, so that a text is a top where the one before it doesn't end with it.
pub(crate) fn tops(alloc: Global, records: &[LentRecord]) -> Result<Vec<usize>, AllocError>
    requires { All IsUtf8 (map record_bytes records.now) }
    ensures { IfOk result (λ v. AreTops records.now v.items) }
{
    let numbers = in_order(alloc, records)?;
    let mut tops = Vec::new(alloc);
    let mut previous = "";
    for number in &numbers {
        let text = text_of(records, *number);
        if is_top_behind(previous, text) {
            tops.push(*number)?;
        }
        previous = text;
    }
    Ok(tops)
}

/// How the text of a record compares to a text in a compact file. The last digits of that text are
/// given, and whether it has a character beyond U+FFFF.
fn compare_to(record: &LentRecord, text: &str, digits: u128, is_far_text: bool) -> Ordering
    requires digits { digits ≡ digits_of text.now }
    requires far { is_far_text ≡ has_far text.now }
    ensures { result ≡ suffix_cmp Compact (string_bytes «record».now.text) text.now }
{
    if is_far_text || is_far(&record.text) {
        return compare(Packing::Compact, &record.text, text);
    }
    compare_near(&record.text, record.digits, text, digits)
}

/// How the text of a record compares so, by the record's number; the empty text where there is
/// none.
fn compare_at(
    records: &[LentRecord],
    number: usize,
    text: &str,
    digits: u128,
    is_far_text: bool,
) -> Ordering
    requires digits { digits ≡ digits_of text.now }
    requires far { is_far_text ≡ has_far text.now }
    ensures { result ≡ suffix_cmp Compact (numbered_text records.now number) text.now }
{
    match records.get(number) {
        Some(record) => compare_to(record, text, digits, is_far_text),
        None => compare(Packing::Compact, "", text),
    }
}

/// How many tops stand before the first that comes after a text.
fn count_up_to(records: &[LentRecord], tops: &[usize], text: &str) -> usize
    ensures within { result ≤ length tops.now }
    ensures before { (k : ℕ) → result ≡ k + 1
        → suffix_cmp Compact (text_of_number records.now tops.now k) text.now ≡ Greater → ⊥ }
    ensures behind { result < length tops.now
        → suffix_cmp Compact (text_of_number records.now tops.now result) text.now ≡ Greater }
{
    let digits = last_digits(text);
    let is_far_text = is_far(text);
    let mut low = 0;
    let mut high = tops.len();
    'halves: while low < high {
        let middle = low + (high - low) / 2;
        let order = compare_at(records, tops[middle], text, digits, is_far_text);
        if order == Ordering::Greater {
            high = middle;
        } else {
            low = middle + 1;
        }
    }
    low
}

/// The number of the greatest top that ends with a text, if one does.
pub(crate) fn top_above(records: &[LentRecord], tops: &[usize], text: &str) -> Option<usize>
    ensures { All IsUtf8 (map record_bytes records.now) → AreTops records.now tops.now
        → MatchOption result
        ((r : List ℕ) → IsTop (Contains (map record_bytes records.now)) r
        → EndsWith r text.now → ⊥)
        (λ n. IsTopOf (map record_bytes records.now) text.now (numbered_text records.now n)) }
{
    let count = count_up_to(records, tops, text);
    if count == 0 {
        return None;
    }
    let top = tops[count - 1];
    if text_of(records, top).ends_with(text) {
        Some(top)
    } else {
        None
    }
}

/// Whether a text that ends with a text holds it rather than the one that would hold it without
/// the pool: where it ends with that one, or comes after it and doesn't end it.
pub(crate) fn precedes(top: &str, own: &str) -> bool
    ensures { MatchBool result (Precedes top.now own.now) (Precedes top.now own.now → ⊥) }
{
    if top.ends_with(own) {
        return true;
    }
    !own.ends_with(top) && compare(Packing::Compact, own, top) == Ordering::Less
}
