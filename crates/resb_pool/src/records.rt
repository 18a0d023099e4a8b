//! The records in their order, and their units.
//! Which texts are records is said in `containers`.
ghost use Rattle.std.specs.Prelude.{◌≡◌, ℕ, List, ◌++◌, ◌∷◌, ◌+◌, ◌*◌, ◌<◌, ◌^◌, length, map};
ghost use Rattle.std.specs.Prelude.{All, IfOk, OnOk, sum_by, slice_index, slice_index_or};
ghost use Rattle.std.specs.Prelude.{nat_eq, not, ◌&&◌};
ghost use Rattle.std.specs.Char.Escape.{encode_utf16};
ghost use Rattle.std.specs.Cmp.Lexicographic.{slice_cmp};
ghost use Rattle.std.specs.List.{flat_map};
ghost use Rattle.std.specs.List.Sorted.{IsPermutation, IsSorted};
ghost use Rattle.std.specs.Ordering.{nat_cmp};
ghost use Rattle.resb_format.specs.Units.{units as units_of, marker, size};
ghost use Rattle.resb_pool.specs.Pool.{record_units};
ghost use Rattle.resb_pool.specs.Plan.{nows};
ghost use Rattle.resb_pool.specs.Records.{EachOnce, IsRecords};
ghost use Rattle.resb_pool.specs.Inner.Placing.{AreContainers, AreSums, AreEnds};
ghost use Rattle.resb_pool.specs.Inner.Placing.{IsRecordOf, record_text, record_texts};
ghost use Rattle.resb_pool.specs.Inner.Placing.{record_cmp, bytes_cmp, fronted_cmp};
ghost use Rattle.resb_pool.specs.declared.records.Record.{Record};
ghost use Rattle.std.specs.Str.{IsUtf8};
ghost use Rattle.resb_pool.specs.declared.packing.Packing.{Packing};
ghost use Rattle.resb_pool.specs.declared.packing.Packing.TheVariants.{Compact};
ghost use Rattle.resb_pool.specs.Inner.Placing.{AreBytes, front_bytes};

use crate::letters::{are_compared_by_units, compare_units};
use crate::measure::{Measure, is_unmarked};
use crate::packing::Packing;
use crate::texts::indexed_text;
use std::alloc::{AllocError, Global};
use std::cmp::Ordering;

/// The record of a text, by the text's index. Its other numbers tell it from most other records,
/// and are compared first, so that few texts are looked at.
#[derive(Clone, Copy)]
pub(crate) struct Record {
    /// How many units the text has.
    pub(crate) unit_count: u32,
    /// How many units sharing the record saves.
    pub(crate) saved: u32,
    /// The text's first eight bytes.
    pub(crate) front: u64,
    /// The four bytes behind these. Twelve bytes tell most texts apart.
    pub(crate) next: u32,
    /// The text's index.
    pub(crate) index: u32,
}

/// Unit 0 and the units of the records, and where each text's closing 0 stands, or 0 where the text
/// is no record.
#[derive(Drop)]
pub(crate) struct Block {
    pub(crate) units: Vec<u16>,
    pub(crate) ends: Vec<u32>,
}

/// Whether the text of an index, which lies in that of the other one, is a record: it isn't empty
/// and lies in itself.
fn is_record(container: u32, index: usize, text: &str) -> bool
    ensures { result ≡ (nat_eq container index && not (nat_eq (length text.now) 0)) }
{
    container as usize == index && !text.is_empty()
}

/// The byte at a place, or 0 behind the last.
fn byte_or_0(bytes: &[u8], place: usize) -> u8
    ensures { result ≡ slice_index bytes.now place }
{
    if place < bytes.len() { bytes[place] } else { 0 }
}

/// The first eight bytes as a number, the first one in the highest place. A byte that isn't there
/// is 0.
fn front_of(bytes: &[u8]) -> u64
    ensures front { result ≡ front_bytes 0 8 bytes.now }
    ensures bytes { AreBytes bytes.now }
{
    u64::from_be_bytes([
        byte_or_0(bytes, 0),
        byte_or_0(bytes, 1),
        byte_or_0(bytes, 2),
        byte_or_0(bytes, 3),
        byte_or_0(bytes, 4),
        byte_or_0(bytes, 5),
        byte_or_0(bytes, 6),
        byte_or_0(bytes, 7),
    ])
}

/// The four bytes behind the first eight as a number, in the same way.
fn next_of(bytes: &[u8]) -> u32
    ensures { front_bytes 0 12 bytes.now ≡ front_bytes 0 8 bytes.now * 0x1_0000_0000 + result }
{
    u32::from_be_bytes([
        byte_or_0(bytes, 8),
        byte_or_0(bytes, 9),
        byte_or_0(bytes, 10),
        byte_or_0(bytes, 11),
    ])
}

/// The records among texts: those that aren't empty and lie in themselves.
pub(crate) fn find_records(
    alloc: Global,
    texts: &[&str],
    containers: &[u32],
    measures: &[Measure],
    sums: &[u32],
) -> Result<Vec<Record>, AllocError>
    requires distinct { EachOnce (nows texts.now) }
    requires few { length texts.now < 2 ^ 32 }
    requires containers { (way : Packing) × AreContainers way (nows texts.now) containers.now }
    requires sums { AreSums (nows texts.now) measures.now sums.now }
    ensures records { IfOk result (λ v. IsRecords (nows texts.now)
        (record_texts (nows texts.now) v.items)) }
    ensures each { IfOk result (λ v. All (IsRecordOf (nows texts.now) sums.now) v.items) }
{
    let mut records = Vec::with_capacity(alloc, containers.len())?;
    for (index, container) in containers.iter().enumerate() {
        if !is_record(*container, index, texts[index]) {
            continue;
        }
        let measure = &measures[index];
        let bytes = texts[index].as_bytes();
        records.push(Record {
            unit_count: measure.unit_count,
            saved: sums[index] - measure.size,
            front: front_of(bytes),
            next: next_of(bytes),
            index: index as u32,
        })?;
    }
    Ok(records)
}

/// How two texts compare by their bytes. This call is kept out of the sort, which for most records
/// only compares numbers.
#[inline(never)]
fn compare_texts(left: &str, right: &str) -> Ordering
    ensures { result ≡ slice_cmp nat_cmp left.now right.now }
{
    left.cmp(right)
}

/// How the texts of two records compare: by their first twelve bytes, and where these are the same
/// by all.
#[inline(always)]
fn compare_bytes(texts: &[&str], left: &Record, right: &Record) -> Ordering
    ensures { result ≡ bytes_cmp (nows texts.now) left.now right.now }
{
    match left.front.cmp(&right.front) {
        Ordering::Equal => match left.next.cmp(&right.next) {
            Ordering::Equal => compare_texts(
                indexed_text(texts, left.index),
                indexed_text(texts, right.index),
            ),
            other => other,
        },
        other => other,
    }
}

/// How two records compare: by their texts' units, then by the units that sharing them saves, the
/// most first, then by their texts' bytes.
#[inline(always)]
fn compare_records(texts: &[&str], left: &Record, right: &Record) -> Ordering
    ensures { result ≡ fronted_cmp (nows texts.now) left.now right.now }
{
    match left.unit_count.cmp(&right.unit_count) {
        Ordering::Equal => match right.saved.cmp(&left.saved) {
            Ordering::Equal => compare_bytes(texts, left, right),
            other => other,
        },
        other => other,
    }
}

/// How two records compare in a compact file: the same, but by their texts' 16-bit units at last.
fn compare_by_units(texts: &[&str], left: &Record, right: &Record) -> Ordering
    ensures { result ≡ record_cmp Compact (nows texts.now) left.now right.now }
{
    let by_count = left.unit_count.cmp(&right.unit_count);
    match by_count {
        Ordering::Equal => match right.saved.cmp(&left.saved) {
            Ordering::Equal => compare_units(
                indexed_text(texts, left.index),
                indexed_text(texts, right.index),
            ),
            other => other,
        },
        other => other,
    }
}

/// Records of texts, in the order in which they stand in the block of a file that is packed this
/// way. In a compact file the first bytes tell it only where no text has a character beyond U+FFFF.
pub(crate) fn ordered(packing: Packing, texts: &[&str], mut records: Vec<Record>) -> Vec<Record>
    requires utf8 { All IsUtf8 (nows texts.now) }
    requires each { (sums : List ℕ) × All (IsRecordOf (nows texts.now) sums) records.items }
    ensures moved { IsPermutation records.items result.items }
    ensures ascend { IsSorted (record_cmp packing (nows texts.now)) result.items }
{
    if are_compared_by_units(packing, texts) {
        records.sort_unstable_by(|left, right| compare_by_units(texts, left, right));
        return records;
    }
    records.sort_unstable_by(|left, right| compare_records(texts, left, right));
    records
}

/// Appends numbers as units.
fn push_bytes(units: &mut Vec<u16>, bytes: &[u8]) -> Result<(), AllocError>
    ensures { OnOk result (units.new.items ≡ units.old.items ++ bytes.now) }
{
    units.extend(bytes.iter().map(|byte| u16::from(*byte)))
}

/// Appends the one or two units of a character.
#[inline(always)]
fn push_char(units: &mut Vec<u16>, c: char) -> Result<(), AllocError>
    ensures { OnOk result (units.new.items ≡ units.old.items ++ encode_utf16 c) }
{
    let code = u32::from(c);
    if code <= 0xffff {
        units.push(code as u16)?;
        return Ok(());
    }
    let mut buffer = [0u16; 2];
    units.extend_from_slice(c.encode_utf16(&mut buffer))
}

/// Appends the units of a text: its bytes, where all of them are ASCII.
fn push_units(units: &mut Vec<u16>, text: &str) -> Result<(), AllocError>
    ensures { OnOk result (units.new.items ≡ units.old.items ++ units_of text.now) }
{
    if text.is_ascii() {
        return push_bytes(units, text.as_bytes());
    }
    for c in text.chars() {
        push_char(units, c)?;
    }
    Ok(())
}

/// Appends the marker of a text of so many units. (ICU's `uresdata.h`, strings of format version
/// 2.)
fn push_marker(units: &mut Vec<u16>, text: &str, count: u32) -> Result<(), AllocError>
    requires count { count ≡ length (units_of text.now) }
    requires short { count < 2 ^ 28 }
    ensures { OnOk result (units.new.items ≡ units.old.items ++ marker text.now) }
{
    if is_unmarked(text, count as usize) {
        return Ok(());
    }
    if count <= 0x3ee {
        return units.extend_from_slice(&[0xdc00 + count as u16]);
    }
    let high = (count / 0x1_0000) as u16;
    let low = (count % 0x1_0000) as u16;
    if count <= 0xf_ffff {
        return units.extend_from_slice(&[0xdfef + high, low]);
    }
    units.extend_from_slice(&[0xdfff, high, low])
}

/// Appends the record of a text of so many units, and gives the index of its closing 0.
pub fn push_record(units: &mut Vec<u16>, text: &str, count: u32) -> Result<u32, AllocError>
    requires count { count ≡ length (units_of text.now) }
    requires short { count < 2 ^ 28 }
    requires fits { length units.old.items + size text.now < 2 ^ 32 }
    ensures appends { OnOk result (units.new.items ≡ units.old.items ++ record_units text.now) }
    ensures end { IfOk result (λ end. end + 1 ≡ length units.old.items + size text.now) }
{
    push_marker(units, text, count)?;
    push_units(units, text)?;
    let end = units.len() as u32;
    units.push(0)?;
    Ok(end)
}

/// Room for unit 0 and these records, each with the longest marker.
fn room_for(records: &[Record]) -> usize {
    let mut room = 1usize;
    for record in records {
        room = room.saturating_add(record.unit_count as usize + 4);
    }
    room
}

/// The text of the record at a place, or the empty one where there is no record.
fn record_text_at<'a>(texts: &[&'a str], records: &[Record], place: usize) -> &'a str
    ensures { (d : Record) → place < length records.now
        → result.now ≡ record_text (nows texts.now) (slice_index_or records.now place d) }
{
    match records.get(place) {
        Some(record) => indexed_text(texts, record.index),
        None => "",
    }
}

/// Unit 0 and these records of texts, with the indexes of their closing zeros.
pub(crate) fn lay(alloc: Global, texts: &[&str], records: &[Record]) -> Result<Block, AllocError>
    requires counts { All (λ r. r.unit_count
        ≡ length (units_of (record_text (nows texts.now) r))) records.now }
    requires within { All (λ r. r.index < length texts.now) records.now }
    requires short { sum_by size (record_texts (nows texts.now) records.now) < 2 ^ 28 }
    ensures units { IfOk result (λ b. b.units.items
        ≡ 0 ∷ flat_map record_units (record_texts (nows texts.now) records.now)) }
    ensures len { IfOk result (λ b. length b.ends.items ≡ length texts.now) }
    ensures ends { IfOk result (λ b. AreEnds (nows texts.now) records.now records.now
        b.ends.items) }
{
    let mut units = Vec::with_capacity(alloc, room_for(records))?;
    let mut ends = vec![in alloc; 0; texts.len()]?;
    units.push(0)?;
    // a text is looked up while the record before it is laid, since it is likely to stand far off
    let mut next = record_text_at(texts, records, 0);
    for (place, record) in records.iter().enumerate() {
        let text = next;
        next = record_text_at(texts, records, place + 1);
        ends[record.index as usize] = push_record(&mut units, text, record.unit_count)?;
    }
    Ok(Block { units, ends })
}
