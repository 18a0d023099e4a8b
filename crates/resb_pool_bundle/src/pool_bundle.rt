//! A pool bundle: the keys and units that files beside it use, and the checksum by which they know
//! it. What a file takes from it is said in `head`.

use crate::checksum::{after_bytes, after_units};
use crate::head::FileHead;
use resb_format::BinaryDeserializerError;

/// What a pool bundle lends to the files beside it. It borrows the bundle's bytes.
/// (ICU's `uresdata.h`: `URES_ATT_IS_POOL_BUNDLE`.)
#[derive(Clone, Copy)]
pub struct PoolBundle<'a> {
    /// The keys, from behind the index on.
    pub(crate) keys: &'a [u8],
    /// The 16-bit block, two bytes for each unit.
    pub(crate) block: &'a [u8],
    pub(crate) checksum: u32,
}

impl<'a> PoolBundle<'a> {
    ghost use Rattle.std.specs.Prelude.{◌≡◌, ◌==◌};
    ghost use Rattle.resb_pool_bundle.specs.Checksum.{checksum_of};
    ghost use Rattle.resb_pool_bundle.specs.FileWith.{ReadsPool};
    ghost use Rattle.resb_pool_bundle.specs.Pool.{pool_in, block_in};

    /// What the pool bundle in these bytes lends. The checks of its head are made in their order,
    /// and the first that fails answers. No key and no string is looked at, so that the time is the
    /// same for each bundle; nor is the checksum computed: see `has_checksum`.
    pub fn read(bytes: &'a [u8]) -> Result<PoolBundle<'a>, BinaryDeserializerError>
        ensures { ReadsPool bytes.now result }
    {
        FileHead::read(bytes)?.lend()
    }

    /// Its keys in bytes, each up to a zero byte, from behind the index on.
    pub fn keys(&self) -> &'a [u8]
        ensures { result.now ≡ (pool_in self.now).keys }
    {
        self.keys
    }

    /// The bytes of its 16-bit block as the file has them, two for each unit, the lower one first.
    pub fn block(&self) -> &'a [u8]
        ensures { result.now ≡ block_in self.now }
    {
        self.block
    }

    /// The checksum that its head says. A file that uses this pool bundle says the same.
    pub fn checksum(&self) -> u32
        ensures { result ≡ (pool_in self.now).checksum }
    {
        self.checksum
    }

    /// Whether its keys and units have the checksum that its head says. Reading never asks for it.
    /// The time grows with the bundle.
    #[tactic(auto, unfolding(crate::specs::Checksum::checksum_of))]
    pub fn has_checksum(&self) -> bool
        ensures { let pool = pool_in self.now in
            result ≡ (checksum_of pool == pool.checksum) }
    {
        after_units(after_bytes(0, self.keys), self.block) == self.checksum
    }
}
