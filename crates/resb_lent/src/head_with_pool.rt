//! The head of a file that uses a pool bundle, as it is written.
//! What stands behind it is not said here; heads are read in `resb_pool_bundle`.
use resb_head::BinIndex;
use resb_layout::header::append_header;
use resb_tree::NoMemory;

/// The head of a file that uses a pool bundle. (ICU's `uresdata.h`: pool bundles, and the limits
/// of string indexes.)
#[derive(Clone, Copy)]
pub struct HeadWithPool {
    /// The root's descriptor.
    pub root: u32,
    /// The number of entries of the largest table.
    pub largest_table: u32,
    /// Whether fallback is on.
    pub is_locale_fallback_enabled: bool,
    /// The first index of a string that is the file's own.
    pub limit: u32,
    /// The first index of the file's own strings, as a unit tells it.
    pub short_limit: u32,
    /// By which the file and its pool know each other.
    pub checksum: u32,
    /// The length of the key block, in words.
    pub key_words: u32,
    /// The length of the 16-bit block, in words.
    pub block_words: u32,
    /// The length of the tail, in words.
    pub tail_words: u32,
}

impl HeadWithPool {
    ghost use Rattle.std.specs.Prelude.{◌≡◌, ◌++◌, ◌∷◌, OnOk};
    ghost use Rattle.resb_head.specs.Head.{index_words};
    ghost use Rattle.resb_lent.specs.HeadWithPool.{IsHead, attributes_with, head_words, head_bytes};

    /// The attributes, with the bits of both limits that stand there.
    fn attributes(&self) -> u32
        requires { IsHead self.now }
        ensures { result ≡ attributes_with self.now }
    {
        let flags = if self.is_locale_fallback_enabled {
            4
        } else {
            5
        };
        flags + 0x1000 * (self.limit / 0x100_0000) + 0x1_0000 * self.short_limit
    }

    /// The index.
    fn index(&self) -> BinIndex
        requires { IsHead self.now }
        ensures { self.now.root ∷ index_words result ≡ head_words self.now }
    {
        let keys_end = 9 + self.key_words;
        let block_end = keys_end + self.block_words;
        let end = block_end + self.tail_words;
        BinIndex {
            field_count: 8 + 0x100 * (self.limit % 0x100_0000),
            keys_end,
            resources_end: end,
            bundle_end: end,
            largest_table_entry_count: self.largest_table,
            bundle_attributes: Some(self.attributes()),
            data_16_bit_end: Some(block_end),
            pool_checksum: Some(self.checksum),
        }
    }

    /// Appends the header, the root's word and the index of 8 fields, 68 bytes in all. For want of
    /// memory a part of them may be there.
    pub fn append_to(&self, file: &mut Vec<u8>) -> Result<(), NoMemory>
        requires { IsHead self.now }
        ensures { OnOk result (file.new.items ≡ file.old.items ++ head_bytes self.now) }
    {
        let index = self.index();
        append_header(file, self.limit != 0)?;
        file.extend_from_slice(&self.root.to_le_bytes())?;
        index.append_to(file)
    }
}
