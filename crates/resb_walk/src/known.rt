//! What is known of a block of keys or of units, so that no key and no string of it, but short
//! ones, is looked at again and again as a whole. Which block a position tells is found in
//! `places`.
ghost use Rattle.std.specs.Prelude.{◌≡◌, ◌+◌, ◌≤◌, ℕ, List, length, take, drop, Some, IfOk, IfSome};
ghost use Rattle.std.specs.Prelude.{IsTrue};
ghost use Rattle.std.specs.Option.{ForSome};
ghost use Rattle.resb_format.specs.Bytes.{units_of};
ghost use Rattle.resb_format.specs.Strings.{key_at, text_at};
ghost use Rattle.resb_blocks.specs.Blocks.{breaks_block, tails_keys};
ghost use Rattle.resb_blocks.specs.Links.{IsWellFormed};

use crate::strings::marked;
use resb_blocks::{Breaks, LongTails};
use resb_tree::NoMemory;
use std::alloc::Global;

/// A string of no more bytes than this may be looked at as often as something leads to it.
pub(crate) const SHORT_STRING: usize = 512;

/// A key block, and the long tails of its keys, if they were listed. That is done once more bytes
/// of long keys were looked at than the block has: then some of them were looked at twice.
#[derive(Drop)]
pub(crate) struct KnownKeys<'a> {
    pub keys: &'a [u8],
    tails: Option<LongTails<'a>>,
    looked: usize,
    ghost of_keys: { ForSome tails (λ t. tails_keys t ≡ keys.now) },
}

impl<'a> KnownKeys<'a> {
    /// A key block of which nothing is looked at yet.
    pub fn new(keys: &'a [u8]) -> KnownKeys<'a>
        ensures { result.keys ≡ keys.entry }
    {
        KnownKeys {
            keys,
            tails: None,
            looked: 0,
        }
    }

    /// The key at a byte, if a listed tail shows it.
    #[inline(always)]
    pub fn key(&self, at: usize) -> Option<&'a str>
        ensures { IfSome result (λ s. key_at self.now.keys.now at ≡ Some s.now) }
    {
        match &self.tails {
            Some(tails) => tails.key(at),
            None => None,
        }
    }

    /// Whether a listed tail shows that a key stands at a byte.
    #[inline(always)]
    pub fn has_key(&self, at: usize) -> bool
        ensures { let keys = self.now.keys.now in IsTrue result
            → (key : List ℕ) × (key_at keys at ≡ Some key) }
    {
        self.key(at).is_some()
    }

    /// How many bytes the key at a byte has, if a listed tail shows it.
    #[inline(always)]
    pub fn key_len(&self, at: usize) -> Option<usize>
        ensures { let keys = self.now.keys.now in
            IfSome result (λ n. (k : List ℕ) → key_at keys at ≡ Some k → length k ≡ n) }
    {
        let key = self.key(at)?;
        Some(key.len())
    }

    /// Notes that a long key was looked at, and lists the long tails where that is worth it.
    pub fn note(&mut self, alloc: Global, len: usize) -> Result<(), NoMemory>
        ensures { self.new.keys ≡ self.old.keys }
    {
        self.looked = self.looked.saturating_add(len);
        if self.looked > self.keys.len() && self.tails.is_none() {
            self.tails = Some(LongTails::of_keys(alloc, self.keys)?);
        }
        Ok(())
    }
}

/// A block of units, and where they break, if that was counted. That is done once more bytes of
/// long strings were looked at than the block has.
#[derive(Drop)]
pub(crate) struct KnownTexts<'a> {
    pub block: &'a [u8],
    breaks: Option<Breaks<'a>>,
    looked: usize,
    ghost of_block: { ForSome breaks (λ b. breaks_block b ≡ block.now) },
}

impl<'a> KnownTexts<'a> {
    /// A block of units of which nothing is looked at yet.
    pub fn new(block: &'a [u8]) -> KnownTexts<'a>
        ensures { result.block ≡ block.entry }
    {
        KnownTexts {
            block,
            breaks: None,
            looked: 0,
        }
    }

    /// Whether the breaks show that so many units from this one on are a text.
    #[inline(always)]
    pub fn has_units(&self, from: usize, count: usize) -> bool
        ensures { let block = units_of self.now.block.now in IsTrue result
            → (from + count ≤ length block) × IsWellFormed (take count (drop from block)) }
    {
        let Some(breaks) = &self.breaks else {
            return false;
        };
        let units = self.block.len() / 2;
        if from > units || count > units - from {
            return false;
        }
        breaks.is_text(from, count)
    }

    /// Whether the breaks show that a text stands at a unit of a 16-bit block.
    #[inline(always)]
    pub fn has_text(&self, unit: usize) -> bool
        ensures { let block = units_of self.now.block.now in IsTrue result
            → (text : List ℕ) × (text_at block unit ≡ Some text) }
    {
        if self.breaks.is_none() {
            return false;
        }
        match marked(self.block, unit) {
            Some((from, count)) => self.has_units(from, count),
            None => false,
        }
    }

    /// Notes that a long string was looked at, and counts the breaks where that is worth it.
    pub fn note(&mut self, alloc: Global, len: usize) -> Result<(), NoMemory>
        ensures { self.new.block ≡ self.old.block }
    {
        self.looked = self.looked.saturating_add(len);
        if self.looked > self.block.len() && self.breaks.is_none() {
            self.breaks = Some(Breaks::of_block(alloc, self.block)?);
        }
        Ok(())
    }
}

/// What is known of both blocks.
#[derive(Drop)]
pub(crate) struct Known<'a> {
    pub keys: KnownKeys<'a>,
    pub texts: KnownTexts<'a>,
}

impl<'a> Known<'a> {
    /// Two blocks of which nothing is looked at yet.
    pub fn new(keys: &'a [u8], block: &'a [u8]) -> Known<'a>
        ensures keys { result.keys.keys ≡ keys.entry }
        ensures block { result.texts.block ≡ block.entry }
    {
        Known {
            keys: KnownKeys::new(keys),
            texts: KnownTexts::new(block),
        }
    }
}
