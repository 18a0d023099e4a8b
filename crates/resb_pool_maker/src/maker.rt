//! A pool bundle in the making: what each bundle gives, and the file that is made of all of it.
//! How a bundle's gift is found is said in `gathering`, and the file's form in `file`.
ghost use Rattle.std.specs.Prelude.{◌≡◌, ◌++◌, ◌<◌, ◌≤◌, ◌^◌, List, IfOk, IfErr, OnOk, length};
ghost use Rattle.std.specs.Prelude.{fold};
ghost use Rattle.std.specs.List.{flat_map};
ghost use Rattle.resb_layout.specs.CompactKeys.{keys_by};
ghost use Rattle.resb_layout.specs.KeyBlock.{key_bytes};
ghost use Rattle.resb_pool.specs.Plan.{nows, NotPlanned};
ghost use Rattle.resb_pool.specs.Shared.{IsSharedPool};
ghost use Rattle.resb_pool_maker.specs.Holding.{bytes_each};
ghost use Rattle.resb_pool_maker.specs.Inner.Given.{gift_keys, gift_records};
ghost use Rattle.resb_pool_maker.specs.PoolOf.{each_once, join_key, least_saved};
ghost use Rattle.resb_pool_maker.specs.declared.error.PoolMakerError.TheVariants.{KeysTooLarge};

use crate::drafts::{draft_gift_of, join_all};
use crate::error::PoolMakerError;
use crate::file::assemble;
use crate::gathering::{Gift, KeySet, gift_of, has_nul_key};
use indexmap::IndexSet;
use resb_draft::Draft;
use resb_layout::Packing;
use resb_layout::key_ends::{in_end_order, kept_keys};
use resb_pool::{PlanError, shared_pool};
use resb_tree::{Key, Resource};
use std::alloc::{AllocError, Global};

/// How many 16-bit units a record has to save so that it stands in the pool. (ICU's `reslist.cpp`.)
const LEAST_SAVED: u32 = 10;

/// How many bytes the keys may take, each with its zero byte: positions of keys have 31 bits.
const KEY_BYTES_LIMIT: usize = 0x8000_0000;

/// Makes the pool bundle of bundles that are added one after the other. It holds the keys and the
/// texts that these give, and no tree.
#[derive(Drop)]
pub struct PoolMaker {
    pub(crate) gifts: Vec<Gift>,
}

impl PoolMaker {
    ghost use Rattle.std.specs.Prelude.{◌≡◌, ◌++◌, ◌∷◌, [], List, IfOk, IfErr, OnOk, OnErr};
    ghost use Rattle.std.specs.Prelude.{true};
    ghost use Rattle.resb_draft.specs.Drafts.{draft_tree, is_ready};
    ghost use Rattle.resb_tree.specs.View.{tree_of};
    ghost use Rattle.resb_pool.specs.declared.packing.Packing.TheVariants.{Plain, Compact};
    ghost use Rattle.resb_pool_maker.specs.Holding.{Holds};
    ghost use Rattle.resb_pool_maker.specs.Inner.Given.{Gives};
    ghost use Rattle.resb_pool_maker.specs.PoolFault.{RefusesBundle, RefusesPoolBy};
    ghost use Rattle.resb_pool_maker.specs.PoolOf.{Bundle, IsPoolOfBy};

    /// A maker to which no bundle was added.
    pub fn new(alloc: Global) -> PoolMaker
        ensures { Holds result [] }
    {
        PoolMaker {
            gifts: Vec::new(alloc),
        }
    }

    /// Adds the bundle of a tree and of a list of its keys, of which those count that some table of
    /// the tree has. After an error the maker is as it was, and may be used on.
    ///
    /// Refused are, in this order, the first string of more than 4294967295 16-bit units; strings
    /// whose units and 16 for each come to 2^28 or more; and a used key that holds U+0000.
    pub fn add(
        &mut self,
        alloc: Global,
        root: &Resource<'_>,
        keys_in_discovery_order: &[Key<'_>],
    ) -> Result<(), PoolMakerError>
        ensures adds { OnOk result ((bs : List Bundle) → Holds self.old bs
            → Holds self.new (bs ++ (record {
              tree = tree_of root.now;
              keys = keys_in_discovery_order.now;
            }) ∷ [])) }
        ensures stays { OnErr result ((bs : List Bundle) → Holds self.old bs
            → Holds self.new bs) }
        ensures err { IfErr result (RefusesBundle (record {
          tree = tree_of root.now;
          keys = keys_in_discovery_order.now;
        })) }
    {
        self.keep(gift_of(alloc, root, keys_in_discovery_order)?)
    }

    /// Adds the bundle of a draft: as `add` does, for the tree for which the draft stands, which is
    /// whole.
    pub fn add_draft(
        &mut self,
        alloc: Global,
        root: &Draft<'_>,
        keys_in_discovery_order: &[Key<'_>],
    ) -> Result<(), PoolMakerError>
        requires { is_ready root.now ≡ true }
        ensures adds { OnOk result ((bs : List Bundle) → Holds self.old bs
            → Holds self.new (bs ++ (record {
              tree = draft_tree root.now;
              keys = keys_in_discovery_order.now;
            }) ∷ [])) }
        ensures stays { OnErr result ((bs : List Bundle) → Holds self.old bs
            → Holds self.new bs) }
        ensures err { IfErr result (RefusesBundle (record {
          tree = draft_tree root.now;
          keys = keys_in_discovery_order.now;
        })) }
    {
        self.keep(draft_gift_of(alloc, root, keys_in_discovery_order)?)
    }

    /// Keeps what a bundle gives, unless a key holds U+0000.
    fn keep(&mut self, gift: Gift) -> Result<(), PoolMakerError>
        ensures adds { OnOk result ((b : Bundle) → Gives b gift → (bs : List Bundle)
            → Holds self.old bs → Holds self.new (bs ++ b ∷ [])) }
        ensures stays { OnErr result ((bs : List Bundle) → Holds self.old bs
            → Holds self.new bs) }
        ensures err { IfErr result (λ e. (b : Bundle) → Gives b gift
            → RefusesBundle b e) }
    {
        if has_nul_key(&gift.keys) {
            return Err(PoolMakerError::KeyWithNul);
        }
        self.gifts.push(gift)?;
        Ok(())
    }

    /// The pool bundle of the bundles that were added: their used keys, each once, in the order in
    /// which they first come; and as strings those of their records of which sharing each between
    /// bundles saves 10 units or more. It is of version 3.0 where it has such a string, and else of
    /// 2.0. (ICU's `reslist.cpp` and `uresdata.h`.)
    ///
    /// Refused are keys that come to more than 2^31 bytes, each with a zero byte, and where they
    /// don't, records whose units and 16 for each come to 2^28 or more.
    pub fn finish(&self, alloc: Global) -> Result<Vec<u8>, PoolMakerError>
        ensures ok { IfOk result (λ v. (bs : List Bundle) → Holds self.now bs
            → IsPoolOfBy Plain v.items bs) }
        ensures err { IfErr result (λ e. (bs : List Bundle) → Holds self.now bs
            → RefusesPoolBy Plain bs e) }
    {
        self.finish_by(alloc, Packing::Plain)
    }

    /// The compact pool bundle of the bundles that were added: what `finish` gives, but that a key
    /// that other keys end with, of its bundle or of the pool, lies at the end of the greatest of
    /// them, by their bytes from the last to the first; that a record which another string ends
    /// with saves nothing; that strings are ordered by their 16-bit units; and that the version is
    /// 3.0 in any case. So ICU's `genrb` makes it.
    ///
    /// Refused is what `finish` refuses, where the keys are those that lie in themselves.
    pub fn finish_compact(&self, alloc: Global) -> Result<Vec<u8>, PoolMakerError>
        ensures ok { IfOk result (λ v. (bs : List Bundle) → Holds self.now bs
            → IsPoolOfBy Compact v.items bs) }
        ensures err { IfErr result (λ e. (bs : List Bundle) → Holds self.now bs
            → RefusesPoolBy Compact bs e) }
    {
        self.finish_by(alloc, Packing::Compact)
    }

    /// The pool bundle of the bundles that were added, packed like this.
    fn finish_by(&self, alloc: Global, packing: Packing) -> Result<Vec<u8>, PoolMakerError>
        ensures ok { IfOk result (λ v. (bs : List Bundle) → Holds self.now bs
            → IsPoolOfBy packing v.items bs) }
        ensures err { IfErr result (λ e. (bs : List Bundle) → Holds self.now bs
            → RefusesPoolBy packing bs e) }
    {
        let keys = joined_keys(alloc, packing, &self.gifts)?;
        check_near(&keys)?;
        let units = shared_units(alloc, packing, &self.gifts)?;
        Ok(assemble(alloc, packing, &keys, &units)?)
    }
}

/// Those of keys that stand in a key block that is packed like this.
fn standing_keys<'k>(
    alloc: Global,
    packing: Packing,
    keys: &[&'k str],
) -> Result<Vec<&'k str>, AllocError>
    ensures { IfOk result (λ v. nows v.items ≡ keys_by packing (nows keys.now)) }
{
    match packing {
        Packing::Plain => Vec::from_slice(alloc, keys),
        Packing::Compact => {
            let sorted = in_end_order(alloc, keys)?;
            kept_keys(alloc, keys, &sorted)
        }
    }
}

/// Joins those keys of a gift that its packed bundle has.
fn join_gift<'g>(
    alloc: Global,
    packing: Packing,
    set: &mut KeySet<'g>,
    gift: &'g Gift,
) -> Result<(), AllocError>
    ensures { OnOk result (nows set.new.keys
        ≡ fold join_key (nows set.old.keys) (keys_by packing (bytes_each gift.now.keys.items))) }
{
    let mut keys = Vec::with_capacity(alloc, gift.keys.len())?;
    add_texts(&mut keys, &gift.keys)?;
    let keys = standing_keys(alloc, packing, &keys)?;
    join_all(set, &keys)
}

/// The keys of gifts, each once, in the order in which they first come, and of these the ones that
/// stand in the pool.
fn joined_keys<'g>(
    alloc: Global,
    packing: Packing,
    gifts: &'g [Gift],
) -> Result<Vec<&'g str>, AllocError>
    ensures { IfOk result (λ v.
        nows v.items ≡ keys_by packing (each_once (gift_keys packing gifts.now))) }
{
    let mut set = IndexSet::new(alloc);
    for gift in gifts {
        join_gift(alloc, packing, &mut set, gift)?;
    }
    standing_keys(alloc, packing, set.as_slice())
}

/// Appends texts.
fn add_texts<'g>(texts: &mut Vec<&'g str>, strings: &'g [String]) -> Result<(), AllocError>
    ensures { OnOk result (nows texts.new.items ≡ nows texts.old.items ++ bytes_each strings.now) }
{
    for text in strings {
        texts.push(text.as_str())?;
    }
    Ok(())
}

/// The texts of the records of gifts.
fn given_records<'g>(alloc: Global, gifts: &'g [Gift]) -> Result<Vec<&'g str>, AllocError>
    ensures { IfOk result (λ v. nows v.items ≡ gift_records gifts.now) }
{
    let mut texts = Vec::new(alloc);
    for gift in gifts {
        add_texts(&mut texts, &gift.records)?;
    }
    Ok(texts)
}

/// Unit 0 and the records of gifts that save enough.
fn shared_units(alloc: Global, packing: Packing, gifts: &[Gift]) -> Result<Vec<u16>, PlanError>
    ensures ok { IfOk result
        (λ v. IsSharedPool packing (gift_records gifts.now) least_saved v.items) }
    ensures err { IfErr result (NotPlanned (gift_records gifts.now)) }
{
    let records = given_records(alloc, gifts)?;
    shared_pool::units_saving(alloc, packing, &records, LEAST_SAVED)
}

/// Refuses keys that come to more bytes than positions reach.
fn check_near(keys: &[&str]) -> Result<(), PoolMakerError>
    ensures ok { OnOk result (length (key_bytes (nows keys.now)) ≤ 2 ^ 31) }
    ensures err { IfErr result (λ e. (e ≡ KeysTooLarge)
        × (2 ^ 31 < length (key_bytes (nows keys.now)))) }
{
    let mut length: usize = 0;
    for key in keys {
        length = length.saturating_add(key.len()).saturating_add(1);
    }
    if length > KEY_BYTES_LIMIT {
        return Err(PoolMakerError::KeysTooLarge);
    }
    Ok(())
}
