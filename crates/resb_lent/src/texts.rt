//! The texts that a pool bundle lends: in which of its records each lies.
//! How records are found is said in `records`.
ghost use Rattle.std.specs.Prelude.{◌≡◌, ◌+◌, ◌<◌, ◌≤◌, ℕ, MatchOption, length, slice_get, Some};
ghost use Rattle.std.specs.Prelude.{slice_index_or};
ghost use Rattle.std.specs.Bool.{MatchBool};
ghost use Rattle.std.specs.String.{string_bytes};
ghost use Rattle.std.specs.declared.cmp.Ordering.TheVariants.{Greater};
ghost use Rattle.resb_format.specs.Units.{size};
ghost use Rattle.resb_pool.specs.Order.{suffix_cmp};
ghost use Rattle.resb_pool.specs.Inner.Suffixes.{last_digits as digits_of};
ghost use Rattle.resb_pool.specs.Records.{EndsWith};
ghost use Rattle.resb_pool.specs.declared.packing.Packing.TheVariants.{Plain};
ghost use Rattle.resb_lent.specs.LentTexts.{Holds};
ghost use Rattle.resb_lent.specs.Inner.Listed.{HasPlace};
ghost use Rattle.resb_lent.specs.Inner.Tops.{numbered_text};
ghost use Rattle.resb_lent.specs.Entries.{entry_cmp};
ghost use Rattle.resb_lent.specs.declared.lent_record.LentRecord.{LentRecord as Entry};

use crate::copies::are_same;
use crate::lent_record::LentRecord;
use crate::records::{records_in, units_in};
use crate::tops::{precedes, text_of, top_above, tops};
use resb_format::{is_unmarked, utf16_len};
use resb_pool::suffix_order::{compare_with_digits, last_digits};
use resb_tree::NoMemory;
use std::alloc::Global;
use std::cmp::Ordering;

/// The texts that a pool bundle lends: those of its records, and the ends of these that have no
/// marker. (ICU's `uresdata.h`: pool bundles.)
#[derive(Drop)]
pub struct LentTexts {
    /// In a plain file's order from the end, and of one text the later record first.
    pub(crate) records: Vec<LentRecord>,
    /// The numbers of its tops, in a compact file's order from the end.
    pub(crate) tops: Vec<usize>,
    /// Whether the pool's block begins with 0: only such a pool lends texts.
    pub(crate) lends: bool,
}

/// How a text that isn't empty stands beside those of a pool.
#[derive(Clone, Copy)]
pub(crate) enum Standing {
    /// The pool has a record of it, the first of which stands at this unit.
    Whole(u32),
    /// The pool has no record of it, but one of a text that ends with it.
    End,
    /// No text of the pool ends with it.
    Apart,
}

/// Whether the first unit is 0.
fn begins_with_zero(units: &[u16]) -> bool
    ensures { MatchBool result (slice_get units.now 0 ≡ Some 0)
        (slice_get units.now 0 ≡ Some 0 → ⊥) }
{
    match units.first() {
        Some(unit) => *unit == 0,
        None => false,
    }
}

/// How two records compare: by their texts in a plain file's order from the end, and of one text
/// the later record first.
fn compare_records(left: &LentRecord, right: &LentRecord) -> Ordering
    ensures { result ≡ entry_cmp left.now right.now }
{
    match compare_with_digits(&left.text, left.digits, &right.text, right.digits) {
        Ordering::Equal => right.at.cmp(&left.at),
        other => other,
    }
}

/// How the text of a record compares to a text in a plain file's order, where the last digits of
/// that text are given.
#[inline(always)]
fn compare_to(record: &LentRecord, text: &str, digits: u128) -> Ordering
    requires { digits ≡ digits_of text.now }
    ensures { result ≡ suffix_cmp Plain (string_bytes «record».now.text) text.now }
{
    compare_with_digits(&record.text, record.digits, text, digits)
}

/// How many records stand before the first that comes after a text. The records are sorted.
fn count_up_to(records: &[LentRecord], text: &str) -> usize
    ensures within { result ≤ length records.now }
    ensures before { (k : ℕ) (d : Entry) → result ≡ k + 1
        → suffix_cmp Plain (string_bytes (slice_index_or records.now k d).text) text.now ≡ Greater
        → ⊥ }
    ensures behind { (d : Entry) → result < length records.now
        → suffix_cmp Plain (string_bytes (slice_index_or records.now result d).text) text.now
        ≡ Greater }
{
    let digits = last_digits(text);
    let mut low = 0;
    let mut high = records.len();
    'halves: while low < high {
        let middle = low + (high - low) / 2;
        if compare_to(&records[middle], text, digits) == Ordering::Greater {
            high = middle;
        } else {
            low = middle + 1;
        }
    }
    low
}

/// The unit at which a text stands in a record, if it lies there.
fn place_in(record: &LentRecord, text: &str) -> Option<u32>
    ensures { MatchOption result
        (Holds (string_bytes «record».now.text) text.now → size text.now ≤ «record».now.end → ⊥)
        (HasPlace «record».now text.now) }
{
    if are_same(record.text.as_str(), text) {
        return Some(record.at);
    }
    if !is_unmarked(text) || !record.text.ends_with(text) {
        return None;
    }
    record.end.checked_sub(utf16_len(text) as u32 + 1)
}

/// The last of the records of one text, which is the first in the pool. One of them is given by its
/// number.
fn last_copy(records: &[LentRecord], number: usize) -> usize
    requires { number < length records.now }
    ensures within { result < length records.now }
    ensures same { numbered_text records.now result ≡ numbered_text records.now number }
    ensures last { result + 1 < length records.now
        → numbered_text records.now (result + 1) ≡ numbered_text records.now number → ⊥ }
{
    let text = text_of(records, number);
    let mut last = number;
    'copies: while last + 1 < records.len() {
        if text_of(records, last + 1) != text {
            break;
        }
        last += 1;
    }
    last
}

/// Whether the text of a record ends with a text.
fn has_end(record: &LentRecord, text: &str) -> bool
    ensures { MatchBool result (EndsWith (string_bytes «record».now.text) text.now)
        (EndsWith (string_bytes «record».now.text) text.now → ⊥) }
{
    record.text.ends_with(text)
}

impl LentTexts {
    ghost use Rattle.std.specs.Prelude.{ℕ, List, IfOk};
    ghost use Rattle.resb_format.specs.Bytes.{units_of};
    ghost use Rattle.resb_lent.specs.LentTexts.{LendsText};
    ghost use Rattle.resb_lent.specs.Lending.{LendsTexts};
    ghost use Rattle.resb_lent.specs.Inner.LentEndings.{StandsAs};
    ghost use Rattle.resb_lent.specs.Inner.Within.{NoneHolds, StandsWithin};
    ghost use Rattle.std.specs.Prelude.{◌<◌, All, Contains, MatchOption, length};
    ghost use Rattle.std.specs.Str.{IsUtf8};
    ghost use Rattle.resb_lent.specs.Inner.Tops.{numbered_text};
    ghost use Rattle.resb_pool.specs.Container.{IsContainer};
    ghost use Rattle.resb_pool.specs.declared.packing.Packing.TheVariants.{Compact};
    ghost use Rattle.resb_lent.specs.LentBeside.{LendsTextBy};

    /// What the 16-bit block of a pool bundle lends, given as its bytes. Its records are gone
    /// through and sorted once. They end where no further one stands.
    pub fn of(alloc: Global, block: &[u8]) -> Result<LentTexts, NoMemory>
        ensures { IfOk result (λ l. LendsTexts l (units_of block.now)) }
    {
        let units = units_in(alloc, block)?;
        if !begins_with_zero(&units) {
            return Ok(LentTexts {
                records: Vec::new(alloc),
                tops: Vec::new(alloc),
                lends: false,
            });
        }
        let mut records = records_in(alloc, block, &units)?;
        drop(units);
        records.sort_unstable_by(|left, right| compare_records(left, right));
        let tops = tops(alloc, &records)?;
        Ok(LentTexts {
            records,
            tops,
            lends: true,
        })
    }

    /// How a text stands beside the pool's, which takes one search.
    pub(crate) fn standing(&self, text: &str) -> Standing
        ensures { (block : List ℕ) → LendsTexts self.now block → StandsAs block text.now result }
    {
        let count = count_up_to(&self.records, text);
        if count == 0 {
            return Standing::Apart;
        }
        let record = &self.records[count - 1];
        if are_same(record.text.as_str(), text) {
            return Standing::Whole(record.at);
        }
        if has_end(record, text) {
            Standing::End
        } else {
            Standing::Apart
        }
    }

    /// The unit at which a text of a compact file stands in the greatest top that ends with it, if
    /// that top precedes the one of the file's own texts in whose record the text would lie.
    pub(crate) fn place_in_top(&self, text: &str, own: &str) -> Option<u32>
        ensures { (block : List ℕ) (S : List (List ℕ)) → LendsTexts self.now block → All IsUtf8 S
            → Contains S text.now → 0 < length text.now → NoneHolds block text.now text.now
            → IsContainer Compact S text.now own.now
            → LendsTextBy Compact block S text.now result }
    {
        let Some(top) = top_above(&self.records, &self.tops, text) else {
            return None;
        };
        if !precedes(text_of(&self.records, top), own) {
            return None;
        }
        self.place_within(top, text)
    }

    /// The unit at which a text stands in the first record of the text of a record, if it lies
    /// there.
    fn place_within(&self, number: usize, text: &str) -> Option<u32>
        ensures { number < length self.now.records.items → (block : List ℕ)
            → LendsTexts self.now block
            → let holder = numbered_text self.now.records.items number in
            MatchOption result (NoneHolds block holder text.now)
            (StandsWithin block holder text.now) }
    {
        if number >= self.records.len() {
            return None;
        }
        place_in(&self.records[last_copy(&self.records, number)], text)
    }

    /// The index of a text in the pool: where its marker stands, or its first unit if it has none.
    /// The text has a record of its own, or it has no marker and a record ends with it; then it
    /// lies in the greatest such record in a plain file's order from the end. The empty text has
    /// index 0. A pool whose block doesn't begin with 0 lends no text.
    pub fn index(&self, text: &str) -> Option<u32>
        ensures { (block : List ℕ) → LendsTexts self.now block → LendsText block text.now result }
    {
        if text.is_empty() {
            return if self.lends { Some(0) } else { None };
        }
        let count = count_up_to(&self.records, text);
        if count == 0 {
            return None;
        }
        place_in(&self.records[count - 1], text)
    }
}
