//! The parts of a file: body, keys, 16-bit block and the root's word, once every check of its head
//! holds. What the root's word leads to is read in the crates above.
ghost use Rattle.std.specs.Prelude.{drop, ◌≤◌, length};
ghost use Rattle.resb_head.specs.Head.{IndexAt};
ghost use Rattle.resb_head.specs.HeadReading.{ReadsFile};
ghost use Rattle.resb_head.specs.Inner.Checked.{ReadsBody, ReadsBlocks};

use crate::head::BinHeader;
use crate::index::BinIndex;
use resb_format::bytes::word_at;
use resb_format::{BinaryDeserializerError, FileBlocks};

/// The parts of a file whose head passes every check. (ICU's `uresdata.h`.)
#[derive(Clone, Copy)]
pub struct CheckedFile<'de> {
    /// The body and its two blocks.
    pub file: FileBlocks<'de>,
    /// The root's descriptor.
    pub root: u32,
}

impl<'de> CheckedFile<'de> {
    /// The parts of a file. The checks of header, format, index and blocks are made in this order,
    /// and the first that fails answers.
    pub fn read(bytes: &'de [u8]) -> Result<CheckedFile<'de>, BinaryDeserializerError>
        ensures { ReadsFile bytes.now result }
    {
        let header = BinHeader::try_from(bytes)?;
        header.repr_info.check_support()?;
        let (_, body) = bytes.split_at(bytes.len().min(usize::from(header.size)));
        CheckedFile::of_body(body)
    }

    /// The parts of a body: the root's word, the index, and the blocks whose ends this gives.
    fn of_body(body: &'de [u8]) -> Result<CheckedFile<'de>, BinaryDeserializerError>
        ensures { ReadsBody body.now result }
    {
        if body.len() < 4 {
            return Err(BinaryDeserializerError::end_of_input());
        }
        let (_, rest) = body.split_at(4);
        let index = BinIndex::try_from(rest)?;
        CheckedFile::cut(body, &index)
    }

    /// Cuts the blocks out of a body with this index.
    fn cut(body: &'de [u8], index: &BinIndex) -> Result<CheckedFile<'de>, BinaryDeserializerError>
        requires long { 4 ≤ length body.now }
        requires indexed { IndexAt index.now (drop 4 body.now) }
        ensures { ReadsBlocks body.now result }
    {
        let keys_end = 4 * index.keys_end as usize;
        if keys_end > body.len() {
            return Err(BinaryDeserializerError::end_of_input());
        }
        let block_end = index.data_16_bit_end.ok_or(BinaryDeserializerError::invalid_data(
            "offset to the end of 16-bit data not specified",
        ))?;
        let block_end = 4 * block_end as usize;
        if block_end < keys_end || block_end > body.len() {
            return Err(BinaryDeserializerError::end_of_input());
        }
        let (front, _) = body.split_at(block_end);
        let (keys, block) = front.split_at(keys_end);
        let file = FileBlocks {
            body,
            keys,
            block,
            pool: None,
        };
        let root = word_at(body, 0);
        Ok(CheckedFile { file, root })
    }
}
