//! The records of a pool bundle: one right behind the other, from unit 1 of its 16-bit block on.
//! In which of them a text lies is said in `texts`.
ghost use Rattle.std.specs.Prelude.{◌≡◌, ◌+◌, ◌<◌, ◌≤◌, ◌^◌, ℕ, List, IfOk, MatchOption, drop};
ghost use Rattle.std.specs.Prelude.{option_map, length, nat_eq};
ghost use Rattle.std.specs.List.{starts_with};
ghost use Rattle.std.specs.String.{string_bytes};
ghost use Rattle.resb_format.specs.Bytes.{units_of};
ghost use Rattle.resb_format.specs.Strings as strings;
ghost use Rattle.resb_format.specs.Units.{units};
ghost use Rattle.resb_format.specs.Views.{view_units};
ghost use Rattle.resb_pool.specs.Pool.{record_units};
ghost use Rattle.resb_lent.specs.LentTexts.{StandsAt};
ghost use Rattle.resb_lent.specs.Inner.Listed.{IsRecordAt, ListsRecords};

use crate::lent_record::LentRecord;
use resb_format::bytes::unit_at;
use resb_format::{Utf16View, string_at, utf16_len};
use resb_pool::push_record;
use resb_pool::suffix_order::last_digits;
use resb_tree::NoMemory;
use std::alloc::Global;

/// A record of a pool stands below this unit, since indexes of strings have 28 bits.
const INDEX_LIMIT: usize = 0x1000_0000;

/// The units that bytes spell.
pub(crate) fn units_in(alloc: Global, block: &[u8]) -> Result<Vec<u16>, NoMemory>
    ensures { IfOk result (λ v. v.items ≡ units_of block.now) }
{
    let count = block.len() / 2;
    let mut units = Vec::with_capacity(alloc, count)?;
    for number in 0..count {
        units.push(unit_at(block, number))?;
    }
    Ok(units)
}

/// The units of a view.
fn viewed(alloc: Global, view: Utf16View<'_>) -> Result<Vec<u16>, NoMemory>
    ensures { IfOk result (λ v. v.items ≡ view_units view.entry) }
{
    let count = view.len();
    let mut units = Vec::with_capacity(alloc, count)?;
    for number in 0..count {
        units.push(view.item(number))?;
    }
    Ok(units)
}

/// The text that units spell, if no surrogate among them is unpaired.
fn spelled(alloc: Global, units: &[u16]) -> Result<Option<String>, NoMemory>
    ensures { IfOk result (λ o. option_map string_bytes o ≡ strings.text_of_units units.now) }
{
    match String::from_utf16(alloc, units)? {
        Ok(text) => Ok(Some(text)),
        Err(_) => Ok(None),
    }
}

/// The text of the string at a unit.
fn text_at(alloc: Global, block: &[u8], unit: usize) -> Result<Option<String>, NoMemory>
    ensures { IfOk result (λ o.
        option_map string_bytes o ≡ strings.text_at (units_of block.now) unit) }
{
    let Ok(view) = string_at(block, unit) else {
        return Ok(None);
    };
    let units = viewed(alloc, view)?;
    spelled(alloc, &units)
}

/// Whether these units stand among others from a place on.
fn stand_at(units: &[u16], at: usize, wanted: &[u16]) -> bool
    ensures { result ≡ starts_with nat_eq (drop at units.now) wanted.now }
{
    match units.split_at_checked(at) {
        Some((_, rest)) => rest.starts_with(wanted),
        None => wanted.is_empty(),
    }
}

/// The record of a text, if it ends below the greatest index.
fn record_of(alloc: Global, text: &str) -> Result<Option<Vec<u16>>, NoMemory>
    ensures { IfOk result (λ o. MatchOption o (2 ^ 28 ≤ length (units text.now))
        (λ v. v.items ≡ record_units text.now)) }
{
    let count = utf16_len(text);
    if count >= INDEX_LIMIT {
        return Ok(None);
    }
    let mut record = Vec::with_capacity(alloc, count + 4)?;
    push_record(&mut record, text, count as u32)?;
    Ok(Some(record))
}

/// The record that stands at a unit, if one does.
fn record_at(
    alloc: Global,
    block: &[u8],
    units: &[u16],
    at: usize,
) -> Result<Option<LentRecord>, NoMemory>
    requires units { units.now ≡ units_of block.now }
    requires small { at < 2 ^ 28 }
    ensures { IfOk result (λ o. MatchOption o
        ((r : List ℕ) → StandsAt (units_of block.now) at r → ⊥)
        (IsRecordAt (units_of block.now) at)) }
{
    let Some(text) = text_at(alloc, block, at)? else {
        return Ok(None);
    };
    let Some(record) = record_of(alloc, &text)? else {
        return Ok(None);
    };
    if record.len() > INDEX_LIMIT - at || !stand_at(units, at, &record) {
        return Ok(None);
    }
    let digits = last_digits(&text);
    Ok(Some(LentRecord {
        text,
        at: at as u32,
        end: (at + record.len()) as u32,
        digits,
    }))
}

/// The records of a pool's 16-bit block, which its bytes and its units tell.
pub(crate) fn records_in(
    alloc: Global,
    block: &[u8],
    units: &[u16],
) -> Result<Vec<LentRecord>, NoMemory>
    requires { units.now ≡ units_of block.now }
    ensures { IfOk result (λ v. ListsRecords (units_of block.now) v.items) }
{
    let mut records = Vec::new(alloc);
    let mut at = 1;
    'records: while at < INDEX_LIMIT {
        let Some(record) = record_at(alloc, block, units, at)? else {
            break;
        };
        at = record.end as usize;
        records.push(record)?;
    }
    records.shrink_to_fit();
    Ok(records)
}
