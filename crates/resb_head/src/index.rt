//! The index of a bundle: how many fields it has, and where the blocks end.
//! That the blocks lie inside the file is checked in `checked_file`.
ghost use Rattle.std.specs.Prelude.{◌≡◌, ◌≤◌, nat_le};
ghost use Rattle.std.specs.Option.{is_some};

use crate::index_fields::{append_field, append_word, field};
use resb_format::BinaryDeserializerError;
use resb_format::bytes::word_at;
use resb_tree::NoMemory;
use std::alloc::Global;

/// The words behind the root's descriptor. Ends are in words from the body's start.
/// An optional field is there exactly where the count asks for it.
/// (ICU's `uresdata.h`: `URES_INDEX_LENGTH` and those below.)
#[derive(Clone, Copy, Debug)]
pub struct BinIndex {
    /// The number of fields, this one included. Only the first 8 are known.
    pub field_count: u32,
    /// The end of the keys, where the 16-bit block begins.
    pub keys_end: u32,
    /// The end of the resources.
    pub resources_end: u32,
    /// The end of the bundle.
    pub bundle_end: u32,
    /// The most entries of any table.
    pub largest_table_entry_count: u32,
    /// The attributes: 1 where locale fallback is off, in a written file.
    pub bundle_attributes: Option<u32>,
    /// The end of the 16-bit block.
    pub data_16_bit_end: Option<u32>,
    /// The checksum of a pool bundle.
    pub pool_checksum: Option<u32>,
    pub ghost enough: { 5 ≤ field_count },
    pub ghost attributes_there: { is_some bundle_attributes ≡ nat_le 6 field_count },
    pub ghost end_there: { is_some data_16_bit_end ≡ nat_le 7 field_count },
    pub ghost checksum_there: { is_some pool_checksum ≡ nat_le 8 field_count },
}

impl BinIndex {
    ghost use Rattle.std.specs.Prelude.{◌≡◌, ◌++◌, IfOk, OnOk};
    ghost use Rattle.resb_head.specs.Head.{index_bytes};

    /// The words of the index, up to 8, in little-endian order.
    pub fn to_bytes(&self, alloc: Global) -> Result<Vec<u8>, NoMemory>
        ensures { IfOk result (λ bytes. bytes.items ≡ index_bytes self.now) }
    {
        let mut bytes = Vec::with_capacity(alloc, 32)?;
        self.append_to(&mut bytes)?;
        Ok(bytes)
    }

    /// Appends the words of the index, up to 8. For want of memory a part of them may be there.
    pub fn append_to(&self, bytes: &mut Vec<u8>) -> Result<(), NoMemory>
        ensures { OnOk result (bytes.new.items ≡ bytes.old.items ++ index_bytes self.now) }
    {
        append_word(bytes, self.field_count)?;
        append_word(bytes, self.keys_end)?;
        append_word(bytes, self.resources_end)?;
        append_word(bytes, self.bundle_end)?;
        append_word(bytes, self.largest_table_entry_count)?;
        append_field(bytes, self.bundle_attributes)?;
        append_field(bytes, self.data_16_bit_end)?;
        append_field(bytes, self.pool_checksum)?;
        Ok(())
    }
}

/// The words at the front of these bytes: those that the count asks for, up to 8.
/// Bytes behind them are left alone.
impl TryFrom<&[u8]> for BinIndex {
    ghost use Rattle.resb_head.specs.HeadReading.{ReadsIndex};

    type Error = BinaryDeserializerError;

    ghost try_from_gives = { λ bytes r. ReadsIndex bytes.now r };

    fn try_from(bytes: &[u8]) -> Result<BinIndex, BinaryDeserializerError> {
        if bytes.len() < 4 {
            return Err(BinaryDeserializerError::end_of_input());
        }
        let field_count = word_at(bytes, 0);
        if field_count < 5 {
            return Err(BinaryDeserializerError::invalid_data("invalid index field count"));
        }
        if bytes.len() < 4 * field_count.min(8) as usize {
            return Err(BinaryDeserializerError::end_of_input());
        }
        Ok(BinIndex {
            field_count,
            keys_end: word_at(bytes, 1),
            resources_end: word_at(bytes, 2),
            bundle_end: word_at(bytes, 3),
            largest_table_entry_count: word_at(bytes, 4),
            bundle_attributes: field(bytes, field_count, 5),
            data_16_bit_end: field(bytes, field_count, 6),
            pool_checksum: field(bytes, field_count, 7),
        })
    }
}
