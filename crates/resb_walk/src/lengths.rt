//! How long the keys and strings of a block of keys or of units are, as far as that was found for
//! all of them at once. Which of a file's blocks a position tells is found in `places`.
ghost use Rattle.std.specs.Prelude.{◌≡◌, ◌+◌, ◌≤◌, ℕ, List, length, take, drop, Some, IfOk, IfSome};
ghost use Rattle.std.specs.Option.{ForSome};
ghost use Rattle.resb_format.specs.Bytes.{units_of};
ghost use Rattle.resb_format.specs.Strings.{text_at};
ghost use Rattle.resb_blocks.specs.Blocks.{widths_block};
ghost use Rattle.resb_blocks.specs.Wide.{text_width};

use crate::known::KnownKeys;
use crate::strings::marked;
use resb_blocks::Widths;
use resb_tree::NoMemory;
use std::alloc::Global;

/// A block of units, and how many bytes of UTF-8 they take, if that was summed. That is done once
/// more bytes of long strings were looked at than the block has.
#[derive(Drop)]
pub(crate) struct KnownWidths<'a> {
    pub block: &'a [u8],
    widths: Option<Widths<'a>>,
    looked: usize,
    ghost of_block: { ForSome widths (λ w. widths_block w ≡ block.now) },
}

impl<'a> KnownWidths<'a> {
    /// A block of units of which nothing is looked at yet.
    pub fn new(block: &'a [u8]) -> KnownWidths<'a>
        ensures { result.block ≡ block.entry }
    {
        KnownWidths {
            block,
            widths: None,
            looked: 0,
        }
    }

    /// How many bytes of UTF-8 so many units from this one on take, if the sums show it.
    #[inline(always)]
    pub fn units_len(&self, from: usize, count: usize) -> Option<usize>
        ensures { let block = units_of self.now.block.now in
            IfSome result (λ n. (from + count ≤ length block)
            × (n ≡ text_width (take count (drop from block)))) }
    {
        let Some(widths) = &self.widths else {
            return None;
        };
        let units = self.block.len() / 2;
        if from > units || count > units - from {
            return None;
        }
        Some(widths.utf8_len(from, count))
    }

    /// How many bytes the text at a unit of a 16-bit block has, if the sums show it.
    #[inline(always)]
    pub fn text_len(&self, unit: usize) -> Option<usize>
        ensures { let block = units_of self.now.block.now in
            IfSome result (λ n. (s : List ℕ) → text_at block unit ≡ Some s → length s ≡ n) }
    {
        if self.widths.is_none() {
            return None;
        }
        let (from, count) = marked(self.block, unit)?;
        self.units_len(from, count)
    }

    /// Notes that a long string was looked at, and sums the widths where that is worth it.
    pub fn note(&mut self, alloc: Global, len: usize) -> Result<(), NoMemory>
        ensures { self.new.block ≡ self.old.block }
    {
        self.looked = self.looked.saturating_add(len);
        if self.looked > self.block.len() && self.widths.is_none() {
            self.widths = Some(Widths::of_block(alloc, self.block)?);
        }
        Ok(())
    }
}

/// What is known of the lengths in both blocks.
#[derive(Drop)]
pub(crate) struct Lengths<'a> {
    pub keys: KnownKeys<'a>,
    pub texts: KnownWidths<'a>,
}

impl<'a> Lengths<'a> {
    /// Two blocks of which nothing is looked at yet.
    pub fn new(keys: &'a [u8], block: &'a [u8]) -> Lengths<'a>
        ensures keys { result.keys.keys ≡ keys.entry }
        ensures block { result.texts.block ≡ block.entry }
    {
        Lengths {
            keys: KnownKeys::new(keys),
            texts: KnownWidths::new(block),
        }
    }
}
