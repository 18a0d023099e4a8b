//! The head of a file of any version, what a file may say of pool bundles, and the parts of a file
//! beside the one that it uses. Sizes are checked in `index`.
ghost use Rattle.std.specs.Prelude.{◌≡◌, None};
ghost use Rattle.resb_pool_bundle.specs.Checks.{head_refusal};
ghost use Rattle.resb_pool_bundle.specs.Inner.Lending.{ReadsLending};

use crate::index::Index;
use crate::pool_bundle::PoolBundle;
use resb_format::bytes::word_at;
use resb_format::{BinaryDeserializerError, FileBlocks, PoolBlocks};
use resb_head::{CheckedFile, FormatVersion};

/// The head of a file of version 1.1 to 3.0. (ICU's `uresdata.h`.)
#[derive(Clone, Copy)]
pub struct FileHead<'a> {
    index: Index<'a>,
    ghost passes: { head_refusal index.bytes.now ≡ None },
}

/// Refuses what a head may not say of pool bundles: that the file is or uses one without a
/// checksum, or that it has strings in one that it doesn't use.
fn check_lending(index: Index<'_>) -> Result<(), BinaryDeserializerError>
    ensures { ReadsLending index.entry.bytes.now result }
{
    if !index.has_checksum_due() {
        return Err(BinaryDeserializerError::invalid_data("pool checksum not specified"));
    }
    if !index.has_pool_of_strings() {
        return Err(BinaryDeserializerError::invalid_data("pool strings without a pool bundle"));
    }
    Ok(())
}

impl<'a> FileHead<'a> {
    ghost use Rattle.std.specs.Prelude.{◌≡◌, ◌==◌, ◌%◌, slice_range, option_map};
    ghost use Rattle.resb_head.specs.Codes.{version_bytes};
    ghost use Rattle.resb_head.specs.File.{body_word};
    ghost use Rattle.resb_pool_bundle.specs.Fields as said;
    ghost use Rattle.resb_pool_bundle.specs.FileWith.{ReadsPool, ReadsFileWith};
    ghost use Rattle.resb_pool_bundle.specs.Heads.{ReadsHead, head_bytes};
    ghost use Rattle.resb_pool_bundle.specs.Inner.Lending.{Lends};
    ghost use Rattle.resb_pool_bundle.specs.Pool.{pool_in, own_keys, block_bytes};

    /// The head of a file. The checks of header, version, sizes and of what it says of pool bundles
    /// are made in this order, and the first that fails answers.
    pub fn read(bytes: &'a [u8]) -> Result<FileHead<'a>, BinaryDeserializerError>
        ensures { ReadsHead bytes.now result }
    {
        let index = Index::read(bytes)?;
        check_lending(index)?;
        Ok(FileHead { index })
    }

    /// The bytes of the file.
    pub fn bytes(&self) -> &'a [u8]
        ensures { result.now ≡ head_bytes self.now }
    {
        self.index.bytes
    }

    /// The version of the file, from 1.1 up.
    pub fn version(&self) -> FormatVersion
        ensures { version_bytes result ≡ slice_range (head_bytes self.now) 16 20 }
    {
        self.index.version
    }

    /// Whether the file is a pool bundle.
    pub fn is_pool(&self) -> bool
        ensures { result ≡ said.is_pool (head_bytes self.now) }
    {
        self.index.is_pool()
    }

    /// Whether the file uses a pool bundle. Then it can be read only beside that.
    pub fn uses_pool(&self) -> bool
        ensures { result ≡ said.uses_pool (head_bytes self.now) }
    {
        self.index.uses_pool()
    }

    /// Whether what the file lacks is looked for in the files that it falls back to.
    pub fn has_fallback(&self) -> bool
        ensures { result ≡ (said.attributes_in (head_bytes self.now) % 2 == 0) }
    {
        self.index.attributes() % 2 == 0
    }

    /// The most entries of any table, as the file says.
    pub fn largest_table(&self) -> u32
        ensures { result ≡ body_word (head_bytes self.now) 5 }
    {
        word_at(self.index.body, 5)
    }

    /// What the file lends, if it is a pool bundle whose keys begin behind its index.
    pub(crate) fn lend(self) -> Result<PoolBundle<'a>, BinaryDeserializerError>
        ensures { ReadsPool (head_bytes self.entry) result }
    {
        if !self.is_pool() {
            return Err(BinaryDeserializerError::invalid_data("file is not a pool bundle"));
        }
        let index_end = 4 * (1 + self.index.fields);
        if self.index.keys_end < index_end {
            return Err(BinaryDeserializerError::end_of_input());
        }
        let (front, _) = self.index.body.split_at(self.index.keys_end);
        let (_, keys) = front.split_at(index_end);
        Ok(PoolBundle {
            keys,
            block: self.block(),
            checksum: self.index.checksum().unwrap_or(0),
        })
    }

    /// The 16-bit block.
    fn block(self) -> &'a [u8]
        ensures { result.now ≡ block_bytes (head_bytes self.entry) }
    {
        let (front, _) = self.index.body.split_at(self.index.block_end);
        let (_, block) = front.split_at(self.index.keys_end);
        block
    }

    /// The file's own keys: none where it uses a pool bundle and has no key behind its index.
    fn keys(self) -> &'a [u8]
        ensures { result.now ≡ own_keys (head_bytes self.entry) }
    {
        let has_none = self.index.keys_end <= 4 * (1 + self.index.fields);
        let end = if self.uses_pool() && has_none {
            0
        } else {
            self.index.keys_end
        };
        let (keys, _) = self.index.body.split_at(end);
        keys
    }

    /// What the file takes from the pool bundle that is given: nothing where it uses none.
    fn borrow(self, pool: Option<PoolBundle<'a>>) -> Result<PoolBlocks<'a>, BinaryDeserializerError>
        ensures { Lends (option_map pool_in pool.entry) (head_bytes self.entry) result }
    {
        if !self.uses_pool() {
            return Ok(PoolBlocks::none());
        }
        let Some(pool) = pool else {
            return Err(BinaryDeserializerError::unsupported_format("file uses a pool bundle"));
        };
        if self.index.checksum().unwrap_or(0) != pool.checksum {
            return Err(BinaryDeserializerError::invalid_data("pool bundle has another checksum"));
        }
        Ok(PoolBlocks {
            keys: pool.keys,
            block: pool.block,
            limit: self.index.limit(),
            short_limit: self.index.short_limit(),
        })
    }

    /// The parts of the file beside a pool bundle, of which aliases and strings of the older form
    /// are read too. Refused where the file uses a pool bundle, and none or another is given; to
    /// other files it doesn't matter.
    pub fn beside(
        self,
        pool: Option<PoolBundle<'a>>,
    ) -> Result<CheckedFile<'a>, BinaryDeserializerError>
        ensures { ReadsFileWith (option_map pool_in pool.entry) (head_bytes self.entry) result }
    {
        let pool = self.borrow(pool)?;
        let file = FileBlocks {
            body: self.index.body,
            keys: self.keys(),
            block: self.block(),
            pool: Some(pool),
        };
        let root = word_at(self.index.body, 0);
        Ok(CheckedFile { file, root })
    }
}
