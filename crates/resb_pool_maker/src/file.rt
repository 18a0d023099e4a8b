//! The bytes of a pool bundle: the header, the root's word and the index around its two blocks.
//! Which keys and units a pool bundle has is said in `maker`.
ghost use Rattle.std.specs.Prelude.{◌≡◌, ◌++◌, ◌∷◌, ◌≤◌, ◌<◌, ◌^◌, ℕ, IfOk, OnOk, length};
ghost use Rattle.std.specs.Prelude.{slice_index};
ghost use Rattle.resb_format.specs.Bytes.{units_as_bytes, units_of};
ghost use Rattle.resb_head.specs.Head.{index_words};
ghost use Rattle.resb_layout.specs.KeyBlock.{key_bytes, padded};
ghost use Rattle.resb_layout.specs.Written.{even};
ghost use Rattle.resb_pool.specs.Plan.{nows};
ghost use Rattle.resb_pool_maker.specs.PoolFile.{head_words, pool_file, blocks_checksum};
ghost use Rattle.resb_pool_maker.specs.PoolFile.{is_third as has_version_3};

use resb_head::BinIndex;
use resb_layout::Packing;
use resb_layout::header::{HEADER_SIZE, append_header};
use resb_pool_bundle::pool_checksum;
use resb_tree::NoMemory;
use std::alloc::{AllocError, Global};

/// The root's word and the index of 8 fields, in words.
const HEAD_WORDS: usize = 9;

/// The word of the empty table, which is the root of each pool bundle.
const EMPTY_TABLE: u32 = 0x2000_0000;

/// The attributes of a pool bundle without locale fallback.
const POOL_WITHOUT_FALLBACK: u32 = 3;

/// Appends keys, each with a zero byte.
fn append_keys(block: &mut Vec<u8>, keys: &[&str]) -> Result<(), AllocError>
    ensures { OnOk result (block.new.items ≡ block.old.items ++ key_bytes (nows keys.now)) }
{
    for key in keys {
        block.extend_from_slice(key.as_bytes())?;
        block.push(0)?;
    }
    Ok(())
}

/// Appends bytes 0xaa up to the next multiple of 4.
fn fill_word(block: &mut Vec<u8>) -> Result<(), AllocError>
    ensures { OnOk result (block.new.items ≡ padded block.old.items) }
{
    match block.len() % 4 {
        1 => block.extend_from_slice(&[0xaa, 0xaa, 0xaa]),
        2 => block.extend_from_slice(&[0xaa, 0xaa]),
        3 => block.extend_from_slice(&[0xaa]),
        _ => Ok(()),
    }
}

/// The key block: each key with a zero byte, filled to a word.
fn key_block(alloc: Global, keys: &[&str]) -> Result<Vec<u8>, AllocError>
    ensures { IfOk result (λ v. v.items ≡ padded (key_bytes (nows keys.now))) }
{
    let mut block = Vec::new(alloc);
    append_keys(&mut block, keys)?;
    fill_word(&mut block)?;
    Ok(block)
}

/// Appends units as bytes, the lower byte of each first.
fn append_units(block: &mut Vec<u8>, units: &[u16]) -> Result<(), AllocError>
    ensures { OnOk result (block.new.items ≡ block.old.items ++ units_as_bytes units.now) }
{
    for unit in units {
        block.extend_from_slice(&unit.to_le_bytes())?;
    }
    Ok(())
}

/// The 16-bit block, with a unit that fills its last word.
fn unit_block(alloc: Global, units: &[u16]) -> Result<Vec<u8>, AllocError>
    ensures block { IfOk result (λ v. v.items ≡ units_as_bytes (even units.now)) }
    ensures fits { (k : ℕ) → slice_index units.now k < 2 ^ 16 }
{
    let mut block = Vec::new(alloc);
    append_units(&mut block, units)?;
    if units.len() % 2 == 1 {
        block.extend_from_slice(&[0xaa, 0xaa])?;
    }
    Ok(block)
}

/// The index of a pool bundle with this key block and this 16-bit block, both in whole words.
fn index_of(keys: &[u8], block: &[u8]) -> BinIndex
    requires keys { length keys.now < 2 ^ 32 }
    requires block { length block.now < 2 ^ 32 }
    ensures words { EMPTY_TABLE ∷ index_words result ≡ head_words keys.now (units_of block.now) }
    ensures fits { blocks_checksum keys.now (units_of block.now) < 2 ^ 32 }
{
    let keys_end = HEAD_WORDS + keys.len() / 4;
    let end = (keys_end + block.len() / 4) as u32;
    BinIndex {
        field_count: 8,
        keys_end: keys_end as u32,
        resources_end: end,
        bundle_end: end,
        largest_table_entry_count: 0,
        bundle_attributes: Some(POOL_WITHOUT_FALLBACK),
        data_16_bit_end: Some(end),
        pool_checksum: Some(pool_checksum(keys, block)),
    }
}

/// Whether a pool bundle with these units is of version 3.0.
fn is_third(packing: Packing, units: &[u16]) -> bool
    ensures { result ≡ has_version_3 packing units.now }
{
    match packing {
        Packing::Plain => units.len() > 1,
        Packing::Compact => true,
    }
}

/// The pool bundle that has these keys, and these units in its 16-bit block, packed like this.
pub(crate) fn assemble(
    alloc: Global,
    packing: Packing,
    keys: &[&str],
    units: &[u16],
) -> Result<Vec<u8>, NoMemory>
    requires near { length (key_bytes (nows keys.now)) ≤ 2 ^ 31 }
    requires room { length units.now ≤ 2 ^ 28 }
    ensures file { IfOk result (λ v. v.items ≡ pool_file packing (nows keys.now) units.now) }
    ensures units_fit { OnOk result ((k : ℕ) → slice_index units.now k < 2 ^ 16) }
    ensures checksum_fits { OnOk result
        (blocks_checksum (padded (key_bytes (nows keys.now))) (even units.now) < 2 ^ 32) }
{
    let key_bytes = key_block(alloc, keys)?;
    let unit_bytes = unit_block(alloc, units)?;
    let index = index_of(&key_bytes, &unit_bytes);
    let mut file = Vec::with_capacity(
        alloc,
        usize::from(HEADER_SIZE) + 4 * index.bundle_end as usize,
    )?;
    append_header(&mut file, is_third(packing, units))?;
    file.extend_from_slice(&EMPTY_TABLE.to_le_bytes())?;
    index.append_to(&mut file)?;
    file.extend_from_slice(&key_bytes)?;
    file.extend_from_slice(&unit_bytes)?;
    Ok(file)
}
