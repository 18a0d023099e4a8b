//! Looks at the keys and strings of a file, and at none of them, but short ones, again and again as
//! a whole. What is known of its blocks and of its pool's is in `known`; the rounds are in `count`.
ghost use Rattle.std.specs.Prelude.{◌≡◌, ◌<◌, ◌^◌, ℕ, List, Some, IsTrue};
ghost use Rattle.std.specs.Option.{ForSome};
ghost use Rattle.resb_format.specs.Content as at;
ghost use Rattle.resb_format.specs.Lookups.{key_in, text_in};
ghost use Rattle.resb_format.specs.Parts.{parts_in};
ghost use Rattle.resb_walk.specs.Inner.Counting.{LooksKey, LooksText, LooksCounted, LooksAt};
ghost use Rattle.resb_walk.specs.Inner.Members.{member_of};
ghost use Rattle.resb_walk.specs.Inner.Places.{pool_keys, pool_block};

use crate::faults::not_utf16;
use crate::known::{Known, KnownTexts, SHORT_STRING};
use crate::leads::{Glance, Lead, glance_at, lead_at};
use crate::members::{Member, Rest, Standing};
use crate::places::{Place, key_spot, position_in, text_place, text_spot};
use crate::standing::{counted_units, is_plain_key, is_plain_text, key_at, text_at};
use crate::units::is_well_formed;
use resb_blocks::SHORT_TAIL;
use resb_format::{BinaryDeserializerError, FileBlocks};
use resb_tree::NoMemory;
use std::alloc::Global;

/// A file, and what is known of its own blocks, of those of its pool, and of its body, in which the
/// texts stand that begin with a count. Each is found once more bytes of it were looked at than it
/// has. So a walk costs at most the file and the pool together, and one that looks at little of a
/// large pool, or at no text in the body, doesn't pay for the whole of it.
#[derive(Drop)]
pub struct Checker<'a> {
    pub file: FileBlocks<'a>,
    own: Known<'a>,
    lent: Option<Known<'a>>,
    counted: KnownTexts<'a>,
    /// Whether a long key or string was looked at. Before, nothing is known of any block.
    has_noted: bool,
    ghost own_keys: { own.keys.keys ≡ file.keys },
    ghost own_block: { own.texts.block ≡ file.block },
    ghost lent_keys: { ForSome lent (λ k. pool_keys file.pool ≡ Some k.keys.keys.now) },
    ghost lent_block: { ForSome lent (λ k. pool_block file.pool ≡ Some k.texts.block.now) },
    ghost of_body: { counted.block ≡ file.body },
}

impl<'a> Checker<'a> {
    /// A file of which nothing is looked at yet.
    pub fn new(file: FileBlocks<'a>) -> Checker<'a>
        ensures { result.file ≡ file.entry }
    {
        Checker {
            file,
            own: Known::new(file.keys, file.block),
            lent: match file.pool {
                Some(pool) => Some(Known::new(pool.keys, pool.block)),
                None => None,
            },
            counted: KnownTexts::new(file.body),
            has_noted: false,
        }
    }

    /// Whether a listed tail shows that a key stands at a position.
    #[inline(always)]
    fn has_key(&self, at: usize) -> bool
        ensures { IsTrue result
            → (key : List ℕ) × (key_in (parts_in self.now.file) at ≡ Some key) }
    {
        match key_spot(self.file, at) {
            Place::Own(byte) => self.own.keys.has_key(byte),
            Place::Lent(_, byte) => match &self.lent {
                Some(lent) => lent.keys.has_key(byte),
                None => false,
            },
        }
    }

    /// Notes that the key at a position was looked at.
    fn note_key(&mut self, alloc: Global, at: usize, len: usize) -> Result<(), NoMemory>
        ensures { self.new.file ≡ self.old.file }
    {
        self.has_noted = true;
        match key_spot(self.file, at) {
            Place::Own(_) => self.own.keys.note(alloc, len),
            Place::Lent(..) => match &mut self.lent {
                Some(lent) => lent.keys.note(alloc, len),
                None => Ok(()),
            },
        }
    }

    /// Looks at the key at a position, the file's own or the pool's. Most are short ASCII, of which
    /// one look is enough.
    #[inline(always)]
    #[tactic(auto, unfolding(resb_format::specs::Lookups::key_place_by))]
    pub fn key(&mut self, alloc: Global, at: usize) -> Result<(), BinaryDeserializerError>
        ensures looks { LooksKey (parts_in self.old.file) at result }
        ensures file { self.new.file ≡ self.old.file }
    {
        let byte = position_in(at);
        if byte < self.file.keys.len() && is_plain_key(self.file.keys, byte) {
            return Ok(());
        }
        self.any_key(alloc, at)
    }

    /// Looks at a key of any kind.
    #[inline(never)]
    fn any_key(&mut self, alloc: Global, at: usize) -> Result<(), BinaryDeserializerError>
        ensures looks { LooksKey (parts_in self.old.file) at result }
        ensures file { self.new.file ≡ self.old.file }
    {
        if self.has_noted && self.has_key(at) {
            return Ok(());
        }
        let key = key_at(self.file, at)?;
        if key.len() > SHORT_TAIL {
            self.note_key(alloc, at, key.len())?;
        }
        Ok(())
    }

    /// Whether the breaks show that the string with an index is a text.
    #[inline(always)]
    fn has_text(&self, index: usize) -> bool
        ensures { IsTrue result
            → (text : List ℕ)
            × (text_in (parts_in self.now.file) index ≡ Some text) }
    {
        match text_spot(self.file, index) {
            Place::Own(unit) => self.own.texts.has_text(unit),
            Place::Lent(_, unit) => match &self.lent {
                Some(lent) => lent.texts.has_text(unit),
                None => false,
            },
        }
    }

    /// Notes that the string with an index was looked at.
    fn note_text(&mut self, alloc: Global, index: usize, len: usize) -> Result<(), NoMemory>
        ensures { self.new.file ≡ self.old.file }
    {
        self.has_noted = true;
        match text_spot(self.file, index) {
            Place::Own(_) => self.own.texts.note(alloc, len),
            Place::Lent(..) => match &mut self.lent {
                Some(lent) => lent.texts.note(alloc, len),
                None => Ok(()),
            },
        }
    }

    /// Looks at the string with an index, own or the pool's. Most are short and have no surrogate,
    /// so that one look is enough.
    #[inline(always)]
    pub fn text(&mut self, alloc: Global, index: usize) -> Result<(), BinaryDeserializerError>
        ensures looks { LooksText (parts_in self.old.file) index result }
        ensures file { self.new.file ≡ self.old.file }
    {
        let (block, unit) = text_place(self.file, index);
        if is_plain_text(block, unit) {
            return Ok(());
        }
        self.any_text(alloc, index)
    }

    /// Looks at a string of any kind.
    #[inline(never)]
    fn any_text(&mut self, alloc: Global, index: usize) -> Result<(), BinaryDeserializerError>
        ensures looks { LooksText (parts_in self.old.file) index result }
        ensures file { self.new.file ≡ self.old.file }
    {
        if self.has_noted && self.has_text(index) {
            return Ok(());
        }
        let units = text_at(self.file, index)?;
        if units.len() > SHORT_STRING {
            self.note_text(alloc, index, units.len())?;
        }
        Ok(())
    }

    /// Looks at the text in the body whose count stands at a word.
    pub fn counted(&mut self, alloc: Global, word: usize) -> Result<(), BinaryDeserializerError>
        requires { word < 2 ^ 28 }
        ensures looks { LooksCounted (parts_in self.old.file) word result }
        ensures file { self.new.file ≡ self.old.file }
    {
        let units = counted_units(self.file, word)?;
        if self.counted.has_units(2 * word + 2, units.len() / 2) {
            return Ok(());
        }
        if !is_well_formed(units) {
            return Err(not_utf16());
        }
        if units.len() > SHORT_STRING {
            self.counted.note(alloc, units.len())?;
        }
        Ok(())
    }

    /// Looks at a member: at its own members, if it is a collection.
    #[inline(always)]
    pub fn look(
        &mut self,
        alloc: Global,
        member: Member,
    ) -> Result<Option<Rest<'a>>, BinaryDeserializerError>
        ensures looks { LooksAt (parts_in self.old.file) (member_of member) result }
        ensures file { self.new.file ≡ self.old.file }
    {
        match glance_at(self.file, member) {
            Glance::Text(index) => {
                self.text(alloc, index)?;
                Ok(None)
            }
            Glance::Integer(_) => Ok(None),
            Glance::Other(word) => self.look_closer(alloc, word),
        }
    }

    /// Looks at what stands at a word.
    #[inline(always)]
    fn look_closer(
        &mut self,
        alloc: Global,
        word: u32,
    ) -> Result<Option<Rest<'a>>, BinaryDeserializerError>
        ensures looks { LooksAt (parts_in self.old.file) (at.word word) result }
        ensures file { self.new.file ≡ self.old.file }
    {
        match lead_at(self.file, Member::Word(word))? {
            Lead::Text(index) => self.any_text(alloc, index)?,
            Lead::Counted(word) => self.counted(alloc, word)?,
            Lead::Plain(Standing::Leaf(_)) => {}
            Lead::Plain(Standing::List(members)) => return Ok(Some(Rest::List(members))),
            Lead::Plain(Standing::Table(entries)) => return Ok(Some(Rest::Table(entries))),
        }
        Ok(None)
    }
}
