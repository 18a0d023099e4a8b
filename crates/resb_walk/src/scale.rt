//! How long the keys and strings of a file are, and the sums of one piece after another. No key and
//! no string, but short ones, is looked at again and again as a whole. Going from member to member
//! is the business of `weigh`.
ghost use Rattle.std.specs.Prelude.{◌≡◌, Some};
ghost use Rattle.std.specs.Option.{ForSome};
ghost use Rattle.resb_walk.specs.Inner.Places.{pool_keys, pool_block};

use crate::count::Inner;
use crate::leads::{Lead, lead_at};
use crate::lengths::{KnownWidths, Lengths};
use crate::members::{Member, Rest, Standing};
use crate::places::{Place, index_of, key_spot, text_spot};
use crate::standing::{counted_units, key_at, text_at};
use crate::sums::Sums;
use crate::units::text_len;
use resb_blocks::SHORT_TAIL;
use resb_format::FileBlocks;
use resb_tree::NoMemory;
use std::alloc::Global;

/// A string of no more bytes than this is looked at as often as something leads to it: that takes
/// no longer than sums of widths would.
const SHORT_TEXT: usize = 128;

/// A file, and what is known of the lengths in its own blocks, in those of its pool, and in its
/// body, where the texts stand that begin with a count. Each is found once more bytes of it were
/// looked at than it has. So a weighing costs at most the file and the pool together, and one that
/// looks at little of a large pool, or at no text in the body, doesn't pay for the whole of it.
#[derive(Drop)]
pub struct Scale<'a> {
    pub file: FileBlocks<'a>,
    alloc: Global,
    own: Lengths<'a>,
    lent: Option<Lengths<'a>>,
    counted: KnownWidths<'a>,
    ghost own_keys: { own.keys.keys ≡ file.keys },
    ghost own_block: { own.texts.block ≡ file.block },
    ghost lent_keys: { ForSome lent (λ k. pool_keys file.pool ≡ Some k.keys.keys.now) },
    ghost lent_block: { ForSome lent (λ k. pool_block file.pool ≡ Some k.texts.block.now) },
    ghost of_body: { counted.block ≡ file.body },
}

impl<'a> Scale<'a> {
    ghost use Rattle.std.specs.Prelude.{◌≡◌, ◌<◌, ◌^◌, ℕ, List, length, Some, IfOk, IfSome};
    ghost use Rattle.resb_format.specs.Content.{counted_text, content_at};
    ghost use Rattle.resb_format.specs.Lookups.{key_in, text_in};
    ghost use Rattle.resb_format.specs.Parts.{Parts, parts_in};
    ghost use Rattle.resb_walk.specs.Inner.Members.{member_of, content_of};
    ghost use Rattle.resb_walk.specs.Inner.Weighing.{Looked, TakenPieces, ToCome};
    ghost use Rattle.resb_walk.specs.Pieces.{Piece, Holds, HoldsMember};
    ghost use Rattle.resb_walk.specs.Sums.{AddsUp};

    /// A file of which nothing is looked at yet.
    pub fn of_file(alloc: Global, file: FileBlocks<'a>) -> Scale<'a>
        ensures { result.file ≡ file.entry }
    {
        Scale {
            file,
            alloc,
            own: Lengths::new(file.keys, file.block),
            lent: match file.pool {
                Some(pool) => Some(Lengths::new(pool.keys, pool.block)),
                None => None,
            },
            counted: KnownWidths::new(file.body),
        }
    }

    /// How many bytes the key at a position has, if a listed tail shows it.
    fn known_key_len(&self, at: usize) -> Option<usize>
        ensures { let p = parts_in self.now.file in
            IfSome result (λ n. (k : List ℕ) → key_in p at ≡ Some k → length k ≡ n) }
    {
        match key_spot(self.file, at) {
            Place::Own(byte) => self.own.keys.key_len(byte),
            Place::Lent(_, byte) => match &self.lent {
                Some(lent) => lent.keys.key_len(byte),
                None => None,
            },
        }
    }

    /// Notes that the key at a position was looked at.
    fn note_key(&mut self, at: usize, len: usize) -> Result<(), NoMemory>
        ensures { self.new.file ≡ self.old.file }
    {
        match key_spot(self.file, at) {
            Place::Own(_) => self.own.keys.note(self.alloc, len),
            Place::Lent(..) => match &mut self.lent {
                Some(lent) => lent.keys.note(self.alloc, len),
                None => Ok(()),
            },
        }
    }

    /// How many bytes the key at a position has.
    fn key_len(&mut self, at: usize) -> Result<usize, NoMemory>
        ensures len { let p = parts_in self.old.file in
            IfOk result (λ n. (k : List ℕ) → key_in p at ≡ Some k → length k ≡ n) }
        ensures file { self.new.file ≡ self.old.file }
    {
        if let Some(len) = self.known_key_len(at) {
            return Ok(len);
        }
        let Ok(key) = key_at(self.file, at) else {
            return Ok(0);
        };
        if key.len() > SHORT_TAIL {
            self.note_key(at, key.len())?;
        }
        Ok(key.len())
    }

    /// How many bytes the text with an index has, if the sums show it.
    fn known_text_len(&self, index: usize) -> Option<usize>
        ensures { let p = parts_in self.now.file in
            IfSome result (λ n. (s : List ℕ) → text_in p index ≡ Some s → length s ≡ n) }
    {
        match text_spot(self.file, index) {
            Place::Own(unit) => self.own.texts.text_len(unit),
            Place::Lent(_, unit) => match &self.lent {
                Some(lent) => lent.texts.text_len(unit),
                None => None,
            },
        }
    }

    /// Notes that the string with an index was looked at.
    fn note_text(&mut self, index: usize, len: usize) -> Result<(), NoMemory>
        ensures { self.new.file ≡ self.old.file }
    {
        match text_spot(self.file, index) {
            Place::Own(_) => self.own.texts.note(self.alloc, len),
            Place::Lent(..) => match &mut self.lent {
                Some(lent) => lent.texts.note(self.alloc, len),
                None => Ok(()),
            },
        }
    }

    /// How many bytes the text with an index has.
    fn text_len(&mut self, index: usize) -> Result<usize, NoMemory>
        ensures len { let p = parts_in self.old.file in
            IfOk result (λ n. (s : List ℕ) → text_in p index ≡ Some s → length s ≡ n) }
        ensures file { self.new.file ≡ self.old.file }
    {
        if let Some(len) = self.known_text_len(index) {
            return Ok(len);
        }
        let Ok(text) = text_at(self.file, index) else {
            return Ok(0);
        };
        if text.len() > SHORT_TEXT {
            self.note_text(index, text.len())?;
        }
        Ok(text_len(text))
    }

    /// How many bytes the text in the body has whose count stands at a word.
    fn counted_len(&mut self, word: usize) -> Result<usize, NoMemory>
        requires { word < 2 ^ 28 }
        ensures len { let p = parts_in self.old.file in
            IfOk result (λ n. (s : List ℕ) → counted_text p word ≡ Some s → length s ≡ n) }
        ensures file { self.new.file ≡ self.old.file }
    {
        let Ok(units) = counted_units(self.file, word) else {
            return Ok(0);
        };
        if let Some(len) = self.counted.units_len(2 * word + 2, units.len() / 2) {
            return Ok(len);
        }
        if units.len() > SHORT_TEXT {
            self.counted.note(self.alloc, units.len())?;
        }
        Ok(text_len(units))
    }

    /// Sums the resource at a word, which stands there. Where it has members, they are still to
    /// come.
    fn look_plainly(word: u32, standing: Standing<'a>, sums: &mut Sums) -> Option<Inner<'a>>
        ensures { (p : Parts) (xs zs : List Piece)
            → content_at p word ≡ Some (content_of standing.entry) → Holds p word xs
            → AddsUp sums.old zs → Looked p xs zs result sums.new }
    {
        match standing {
            Standing::Leaf(leaf) => {
                *sums = sums.with_leaf(leaf);
                None
            }
            Standing::List(members) => {
                let rest = Rest::List(members);
                Some(Inner { word, rest })
            }
            Standing::Table(entries) => {
                *sums = sums.with_table(entries.len());
                let rest = Rest::Table(entries);
                Some(Inner { word, rest })
            }
        }
    }

    /// Sums the resource at a word. Where it has members, they are still to come.
    fn look_at(&mut self, word: u32, sums: &mut Sums) -> Result<Option<Inner<'a>>, NoMemory>
        ensures looked { let p = parts_in self.old.file in (xs zs : List Piece)
            → Holds p word xs → AddsUp sums.old zs
            → IfOk result (λ r. Looked p xs zs r sums.new) }
        ensures file { self.new.file ≡ self.old.file }
    {
        match lead_at(self.file, Member::Word(word)) {
            Ok(Lead::Text(index)) => {
                let len = self.text_len(index)?;
                *sums = sums.with_text(len);
                Ok(None)
            }
            Ok(Lead::Counted(place)) => {
                let len = self.counted_len(place)?;
                *sums = sums.with_text(len);
                Ok(None)
            }
            Ok(Lead::Plain(standing)) => Ok(Scale::look_plainly(word, standing, sums)),
            Err(_) => Ok(None),
        }
    }

    /// Sums a member. Where it has members of its own, they are still to come.
    pub fn look(&mut self, member: Member, sums: &mut Sums) -> Result<Option<Inner<'a>>, NoMemory>
        ensures looked { let p = parts_in self.old.file in (xs zs : List Piece)
            → HoldsMember p (member_of member) xs → AddsUp sums.old zs
            → IfOk result (λ r. Looked p xs zs r sums.new) }
        ensures file { self.new.file ≡ self.old.file }
    {
        match member {
            Member::Word(word) => self.look_at(word, sums),
            Member::Unit(unit) => {
                let len = self.text_len(index_of(self.file, unit))?;
                *sums = sums.with_text(len);
                Ok(None)
            }
        }
    }

    /// The next member of a collection, and what is still to come behind it. An entry's key is
    /// summed.
    pub fn next(
        &mut self,
        inner: Inner<'a>,
        sums: &mut Sums,
    ) -> Result<Option<(Member, Inner<'a>)>, NoMemory>
        ensures taken { let p = parts_in self.old.file in (xs zs : List Piece)
            → ToCome p inner.entry xs → AddsUp sums.old zs
            → IfOk result (λ r. TakenPieces p xs zs r sums.new) }
        ensures file { self.new.file ≡ self.old.file }
    {
        let word = inner.word;
        match inner.rest {
            Rest::List(members) => {
                let Some((member, later)) = members.split() else {
                    return Ok(None);
                };
                let rest = Rest::List(later);
                Ok(Some((member, Inner { word, rest })))
            }
            Rest::Table(entries) => {
                let Some((position, member, later)) = entries.split() else {
                    return Ok(None);
                };
                let len = self.key_len(position)?;
                *sums = sums.with_key(len);
                let rest = Rest::Table(later);
                Ok(Some((member, Inner { word, rest })))
            }
        }
    }
}
