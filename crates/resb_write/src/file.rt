//! Puts the file together: the header, the root's word and the index around the blocks.
//! What the blocks hold is said in `key_block` and by those who plan and lay.
ghost use Rattle.std.specs.Prelude.{◌≡◌, ◌++◌, ◌*◌, ◌^◌, ◌<◌, ℕ, length, slice_index, IfOk, OnOk};
ghost use Rattle.resb_head.specs.Head.{index_words};
ghost use Rattle.resb_format.specs.Bytes.{units_as_bytes};
ghost use Rattle.resb_layout.specs.Written.{even};
ghost use Rattle.resb_write.specs.Inner.Files.{index_words_of, file_with, FitsFile};

use crate::key_block::{KEYS_START, append_block, block_length};
use crate::sites::Bodies;
use resb_head::BinIndex;
use resb_layout::header::{HEADER_SIZE, append_header};
use resb_tree::NoMemory;
use std::alloc::{AllocError, Global};

/// The parts that a file is put together from.
#[derive(Clone, Copy)]
pub(crate) struct FileParts<'c> {
    pub(crate) root: u32,
    pub(crate) largest_table: u32,
    pub(crate) is_locale_fallback_enabled: bool,
    pub(crate) keys: &'c [&'c str],
    pub(crate) bodies: &'c Bodies,
}

/// Puts units as bytes into their place.
fn put_units(place: &mut [u8], units: &[u16])
    requires { length place.old ≡ 2 * length units.now }
    ensures bytes { place.new ≡ units_as_bytes units.now }
    ensures fits { (k : ℕ) → slice_index units.now k < 2 ^ 16 }
{
    for (number, unit) in units.iter().enumerate() {
        let bytes = unit.to_le_bytes();
        place[2 * number] = bytes[0];
        place[2 * number + 1] = bytes[1];
    }
}

/// Appends the 16-bit block, with a unit that fills its last word.
pub(crate) fn append_units(file: &mut Vec<u8>, units: &[u16]) -> Result<(), AllocError>
    ensures appends { OnOk result (file.new.items
        ≡ file.old.items ++ units_as_bytes (even units.now)) }
    ensures fits { (k : ℕ) → slice_index units.now k < 2 ^ 16 }
{
    let start = file.len();
    file.resize(start + 2 * units.len(), 0)?;
    put_units(&mut file[start..], units);
    if units.len() % 2 == 1 {
        file.extend_from_slice(&[0xaa, 0xaa])?;
    }
    Ok(())
}

/// The index of a file: its parts in words.
fn index_of(parts: &FileParts<'_>) -> BinIndex
    requires fits { FitsFile parts.now }
    ensures { index_words result ≡ index_words_of parts.now }
{
    let keys_end = KEYS_START / 4 + block_length(parts.keys) / 4;
    let block_end = keys_end + parts.bodies.units.len().div_ceil(2);
    let end = (block_end + parts.bodies.tail.len() / 4) as u32;
    let attributes = if parts.is_locale_fallback_enabled {
        0
    } else {
        1
    };
    BinIndex {
        field_count: 7,
        keys_end: keys_end as u32,
        resources_end: end,
        bundle_end: end,
        largest_table_entry_count: parts.largest_table,
        bundle_attributes: Some(attributes),
        data_16_bit_end: Some(block_end as u32),
        pool_checksum: None,
    }
}

/// The file of these parts.
pub(crate) fn assemble(alloc: Global, parts: &FileParts<'_>) -> Result<Vec<u8>, NoMemory>
    requires fits { FitsFile parts.now }
    ensures file { IfOk result (λ file. file.items ≡ file_with parts.now) }
    ensures fits { OnOk result ((k : ℕ)
        → slice_index parts.now.bodies.now.units.items k < 2 ^ 16) }
    ensures words { OnOk result (parts.now.root < 2 ^ 32) }
{
    let index = index_of(parts);
    let mut file = Vec::with_capacity(
        alloc,
        usize::from(HEADER_SIZE) + 4 * index.resources_end as usize,
    )?;
    append_header(&mut file, false)?;
    file.extend_from_slice(&parts.root.to_le_bytes())?;
    index.append_to(&mut file)?;
    append_block(&mut file, parts.keys)?;
    append_units(&mut file, &parts.bodies.units)?;
    file.extend_from_slice(&parts.bodies.tail)?;
    Ok(file)
}
