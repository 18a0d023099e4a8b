//! A pool bundle that was opened to write files over it: what it lends is found out once.
//! What a reader takes of a pool bundle is said in `resb_pool_bundle`.
ghost use Rattle.std.specs.Prelude.{◌≡◌};

use crate::ends::LentEnds;
use crate::keys::LentKeys;
use crate::texts::LentTexts;
use resb_format::BinaryDeserializerError;
use resb_pool_bundle::PoolBundle;
use resb_tree::NoMemory;
use std::alloc::Global;
use std::marker::Model;

/// A pool bundle with the indexes of its keys and strings, which every file that is written over
/// it uses. It borrows the bundle's bytes.
///
/// Open it once, and write any number of files over it: a file then takes the time of a file
/// without a pool, and a look-up for each string and key. The indexes are made by going through
/// the keys and the strings and sorting them.
#[derive(Drop)]
pub struct Pool<'p> {
    bundle: PoolBundle<'p>,
    keys: LentKeys<'p>,
    ends: LentEnds<'p>,
    texts: LentTexts,
}

impl<'p> Model for Pool<'p> {
    ghost use Rattle.std.specs.Prelude.{◌≡◌};
    ghost use Rattle.resb_pool_bundle.specs.Pool.{pool_in};
    ghost use Rattle.resb_pool_bundle.specs.declared.pool_bundle.PoolBundle.{PoolBundle};
    ghost use Rattle.resb_lent.specs.Lending.{lent_keys, LendsTexts};
    ghost use Rattle.resb_lent.specs.LendingEnds.{LendsEnds};

    ghost Value = { PoolBundle };

    ghost view = { λ p. p.bundle };

    ghost invariant = { λ p. (lent_keys p.keys ≡ (pool_in p.bundle).keys)
        × LendsEnds p.ends (pool_in p.bundle).keys
        × LendsTexts p.texts (pool_in p.bundle).block };
}

impl<'p> Pool<'p> {
    ghost use Rattle.std.specs.Prelude.{◌≡◌, ◌⊎◌, IfOk, IfErr, Ok, Err};
    ghost use Rattle.resb_format.specs.Error.{IsWantOfMemory};
    ghost use Rattle.resb_pool_bundle.specs.FileWith.{ReadsPool};
    ghost use Rattle.resb_pool_bundle.specs.Pool.{pool_in};
    ghost use Rattle.resb_lent.specs.Lending.{lent_keys, LendsTexts};
    ghost use Rattle.resb_lent.specs.LendingEnds.{LendsEnds};

    /// Reads the pool bundle of these bytes, and indexes what it lends. `PoolBundle::read` says
    /// which bytes are refused; memory may be wanted too.
    pub fn open(alloc: Global, bytes: &'p [u8]) -> Result<Pool<'p>, BinaryDeserializerError>
        ensures ok { IfOk result (λ p. ReadsPool bytes.entry.now (Ok p)) }
        ensures err { IfErr result
            (λ e. IsWantOfMemory e ⊎ ReadsPool bytes.entry.now (Err e)) }
    {
        Ok(Pool::of(alloc, PoolBundle::read(bytes)?)?)
    }

    /// Indexes what a pool bundle lends.
    pub fn of(alloc: Global, bundle: PoolBundle<'p>) -> Result<Pool<'p>, NoMemory>
        ensures { IfOk result (λ p. p ≡ bundle.entry) }
    {
        let keys = LentKeys::of(alloc, bundle.keys())?;
        let ends = LentEnds::of(alloc, bundle.keys())?;
        let texts = LentTexts::of(alloc, bundle.block())?;
        Ok(Pool {
            bundle,
            keys,
            ends,
            texts,
        })
    }

    /// What a reader of the files over it takes.
    pub fn bundle(&self) -> PoolBundle<'p>
        ensures { result ≡ self.now }
    {
        self.bundle
    }

    /// The checksum that files over it say.
    pub fn checksum(&self) -> u32
        ensures { result ≡ (pool_in self.now).checksum }
    {
        self.bundle.checksum()
    }

    /// Where its keys stand whole.
    pub fn keys(&self) -> &LentKeys<'p>
        ensures { lent_keys result.now ≡ (pool_in self.now).keys }
    {
        &self.keys
    }

    /// Where its keys end.
    pub fn ends(&self) -> &LentEnds<'p>
        ensures { LendsEnds result.now (pool_in self.now).keys }
    {
        &self.ends
    }

    /// In which of its records its texts lie.
    pub fn texts(&self) -> &LentTexts
        ensures { LendsTexts result.now (pool_in self.now).block }
    {
        &self.texts
    }
}
