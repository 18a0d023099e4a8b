//! How a file is laid out: plain or compact, over a pool bundle or over none; and the calls that
//! write a bundle so, from its tree or from a draft.
//! How the parts of a file are made is said in `serializer` and `with_pool`.
ghost use Rattle.std.specs.Prelude.{◌≡◌, true, IfOk, IfErr};
ghost use Rattle.resb_tree.specs.Bundle.{root_of};
ghost use Rattle.resb_draft.specs.Drafts.{draft_tree, is_ready};
ghost use Rattle.resb_write.specs.FaultOf.{fault_of};
ghost use Rattle.resb_write.specs.Layouts as layouts;
ghost use Rattle.resb_write.specs.Layouts.{IsFileOver, RefusesOver};

use crate::error::BinarySerializerError;
use crate::serializer::{write_bundle, write_draft};
use crate::wanted::Wanted;
use resb_draft::DraftBundle;
use resb_layout::Packing;
use resb_lent::Pool;
use resb_tree::{Key, ResourceBundle};
use std::alloc::Global;

/// How a file is laid out: plain or compact, and over a pool bundle or over none.
#[derive(Clone, Copy)]
pub struct Layout<'p, 'f> {
    pub(crate) packing: Packing,
    pub(crate) pool: Option<&'p Pool<'f>>,
}

impl<'p, 'f> Layout<'p, 'f> {
    /// Files in which each key has bytes of its own, over no pool bundle.
    pub fn plain() -> Layout<'p, 'f>
        ensures { result ≡ layouts.plain }
    {
        Layout {
            packing: Packing::Plain,
            pool: None,
        }
    }

    /// Files as ICU's `genrb` packs them, over no pool bundle: a key that other keys end with lies
    /// at the end of the greatest of them, by their bytes from the last to the first, an empty
    /// string has the word 0, and strings share ends only with strings that no other one ends with,
    /// where strings are ordered by their 16-bit units. A file with word 0 is for readers of
    /// aliases.
    pub fn compact() -> Layout<'p, 'f>
        ensures { result ≡ layouts.compacted layouts.plain }
    {
        Layout::plain().compacted()
    }

    /// Compact files over the pool bundle of this layout, if it has one.
    pub fn compacted(self) -> Layout<'p, 'f>
        ensures { result ≡ layouts.compacted self.entry }
    {
        Layout {
            packing: Packing::Compact,
            pool: self.pool,
        }
    }

    /// Files that are packed like this over a pool bundle: its keys and strings that the pool has
    /// stay there. A key stands in the pool where the pool has it whole, and a string where a
    /// record of the pool is that string, or ends with it if it has no marker; the others are the
    /// file's own. The version is 3.0 where a string stands in the pool, and else 2.0. Which pool
    /// is used the file says by the pool's checksum. (ICU's `uresdata.h`: pool bundles.)
    ///
    /// In a compact file a key lies at the end of a key of the pool or of the file, and strings
    /// share ends only with those strings of the file and the pool that no other one of these ends
    /// with. Of the pool's keys that end with a key the last one is looked at, by their bytes from
    /// the last to the first, where an end is the greatest. The key lies in it unless the one in
    /// which a file over no pool has the key is behind it. So ICU's `genrb` writes it.
    pub fn over(self, pool: &'p Pool<'f>) -> Layout<'p, 'f>
        ensures { result ≡ layouts.laid_over self.entry pool.entry }
    {
        Layout {
            packing: self.packing,
            pool: Some(pool),
        }
    }

    /// The `.res` file of a bundle, laid out like this: a header of 32 bytes, the root's word, an
    /// index of 7 fields or, over a pool, of 8, the key block, the 16-bit block with the strings
    /// and the short arrays and tables, and behind it all other resources. The keys that stand in a
    /// plain file stand in the order of `keys_in_discovery_order`, those that no table uses left
    /// out. (ICU's `uresdata.h`.)
    ///
    /// Refused is the first of these: a used key that isn't in the list; one that holds U+0000; one
    /// that would stand at a position over 2147483647; a string of more than 4294967295 16-bit
    /// units; an array, binary or vector of more than 4294967295 members, or a path of more units;
    /// and then, as `file too large`, a plain size of 2^28 or more, or, over a pool, strings whose
    /// indexes would take more than 28 bits with those of the pool. Want of memory may come before
    /// any of them.
    pub fn write(
        &self,
        alloc: Global,
        bundle: &ResourceBundle<'_>,
        keys_in_discovery_order: &[Key<'_>],
    ) -> Result<Vec<u8>, BinarySerializerError>
        ensures ok { IfOk result (λ v. IsFileOver self.now v.items (root_of bundle.now)
            bundle.now.is_locale_fallback_enabled keys_in_discovery_order.now) }
        ensures err { IfErr result (λ e. RefusesOver self.now (root_of bundle.now)
            keys_in_discovery_order.now (fault_of e)) }
    {
        write_bundle(alloc, bundle, keys_in_discovery_order, *self)
    }

    /// The `.res` file of a bundle whose root is given as a draft: what `write` gives, and what it
    /// refuses, for the tree for which the draft stands, which is whole.
    pub fn write_draft(
        &self,
        alloc: Global,
        bundle: DraftBundle<'_>,
        keys_in_discovery_order: &[Key<'_>],
    ) -> Result<Vec<u8>, BinarySerializerError>
        requires { is_ready bundle.root ≡ true }
        ensures ok { IfOk result (λ v. IsFileOver self.now v.items (draft_tree bundle.entry.root)
            bundle.entry.is_locale_fallback_enabled keys_in_discovery_order.now) }
        ensures err { IfErr result (λ e. RefusesOver self.now (draft_tree bundle.entry.root)
            keys_in_discovery_order.now (fault_of e)) }
    {
        let wanted = Wanted {
            layout: *self,
            is_locale_fallback_enabled: bundle.is_locale_fallback_enabled,
            list: keys_in_discovery_order,
        };
        write_draft(alloc, bundle.root, &wanted)
    }
}
