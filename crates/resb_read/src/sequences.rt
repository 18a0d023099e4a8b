//! The members of an array or a vector, one after another.
//! Whole lists are read in `lists`.
ghost use Rattle.std.specs.Prelude.{◌≡◌, ◌≤◌, ◌<◌, ◌+◌, ◌⊎◌, Some, None, [], ◌∷◌, drop, length};
ghost use Rattle.std.specs.Prelude.{MatchOption, MatchResult, IfOk, IfErr};
ghost use Rattle.resb_read.specs.Places.{place_of};
ghost use Rattle.resb_read.specs.Inner.Elements.{spots_to_come};
ghost use Rattle.resb_read.specs.Sequences.{members_at, members_in};
ghost use Rattle.resb_format.specs.Parts.{parts_in};
ghost use Rattle.resb_read.specs.Access.{StepsTo, StepsReading};
ghost use Rattle.resb_walk.specs.BlockRefusals.{Says};
ghost use Rattle.resb_read.specs.PlaceRefusals.{word_members_refusal};
ghost use Rattle.resb_read.specs.PlaceRefusals.{members_refusal_from};
ghost use Rattle.resb_read.specs.RefusedReadings.{RefusesAs};

use crate::cursor::{Cursor, Spot};
use crate::deserialize::Deserialize;
use crate::elements::Elements;
use crate::faults::refused_here;
use resb_format::{BinaryDeserializerError, FileBlocks, ReadingError, ResourceReprType};
use resb_walk::faults::past_end;
use resb_walk::types::readable;
use resb_walk::{Leaf, Standing, Walk, standing_at};
use std::alloc::Global;
use std::marker::Model;

/// The members of an array or a vector that are still to come.
/// After an `Err` it stands where it stood, and answers that error from then on.
#[derive(Drop)]
pub struct SeqAccess<'de, 'm> {
    file: FileBlocks<'de>,
    rest: Elements<'de>,
    failed: Option<ReadingError<'m>>,
}

impl<'de, 'm> Model for SeqAccess<'de, 'm> {
    ghost use Rattle.resb_read.specs.Access.{Access};
    ghost use Rattle.resb_read.specs.Inner.Elements.{places_to_come};

    ghost Value = { Access };

    ghost view = { λ s. record { rest = places_to_come s.file s.rest; failed = s.failed } };
}

impl<'de, 'm> SeqAccess<'de, 'm> {
    /// How many members are still to come.
    #[tactic(auto, using(crate::proofs::Viewing::lengths))]
    pub fn size_hint(&self) -> usize
        ensures { result ≡ length self.now.rest }
    {
        self.rest.len()
    }

    /// The first of the members.
    #[tactic(auto, using(crate::proofs::PlainLists::firsts))]
    fn first(&self) -> Option<Cursor<'de>>
        ensures { MatchOption result (self.now.rest ≡ [])
            (λ c. self.now.rest ≡ place_of c ∷ drop 1 self.now.rest) }
    {
        let (at, _) = self.rest.split()?;
        Some(Cursor {
            file: self.file,
            at,
        })
    }

    /// Goes past the first of the members.
    #[tactic(auto, using(crate::proofs::PlainLists::rests))]
    fn advance(&mut self)
        requires { 0 < length self.old.rest }
        ensures { self.new ≡ record { rest = drop 1 self.old.rest; failed = self.old.failed } }
    {
        if let Some((_, rest)) = self.rest.split() {
            self.rest = rest;
        }
    }

    /// The place of the next member.
    pub fn next_cursor(&mut self) -> Result<Option<Cursor<'de>>, ReadingError<'m>>
        ensures { StepsTo self.old self.new result }
    {
        if let Some(error) = self.failed {
            return Err(error);
        }
        let Some(at) = self.first() else {
            return Ok(None);
        };
        self.advance();
        Ok(Some(at))
    }

    /// Reads the next member.
    pub fn next_element<T: Deserialize<'de>>(
        &mut self,
        alloc: Global,
        walk: &mut Walk,
    ) -> Result<Option<T>, ReadingError<'m>>
        ensures { StepsReading T.reads T.counts T.refuses self.old walk.old self.new walk.new
            result }
    {
        if let Some(error) = self.failed {
            return Err(error);
        }
        let Some(at) = self.first() else {
            return Ok(None);
        };
        match T::deserialize(alloc, at, walk) {
            Ok(value) => {
                self.advance();
                Ok(Some(value))
            }
            Err(error) => {
                self.failed = Some(error);
                Err(error)
            }
        }
    }
}

/// The members of the array or vector at a word.
#[inline(always)]
pub(crate) fn members_at<'de>(
    file: FileBlocks<'de>,
    word: u32,
) -> Result<Elements<'de>, BinaryDeserializerError>
    ensures { let members = members_in (parts_in file.entry) word in
        MatchResult result (λ r. members ≡ Some (spots_to_come r))
        (λ e. (members ≡ None) × Says (word_members_refusal (parts_in file.entry) word) e) }
{
    match readable(file, word)?.0 {
        ResourceReprType::Array | ResourceReprType::Array16 | ResourceReprType::IntVector => {}
        _ => {
            return Err(BinaryDeserializerError::resource_type_mismatch("expected array resource"));
        }
    }
    match standing_at(file, word)? {
        Standing::List(members) => Ok(Elements::Members(members)),
        Standing::Leaf(Leaf::Numbers(numbers)) => Ok(Elements::Numbers(numbers)),
        // Nothing else stands at a word of these types.
        Standing::Table(_) | Standing::Leaf(_) => Err(past_end()),
    }
}

impl<'de> Cursor<'de> {
    /// The members of the array or vector that stands here. The fields of all lie in the file, but
    /// where they lead isn't looked at yet.
    pub fn read_seq<'m>(self, walk: &mut Walk) -> Result<SeqAccess<'de, 'm>, ReadingError<'m>>
        ensures read { IfOk result (λ s. (members_at (place_of self.entry) ≡ Some s.rest)
            × (s.failed ≡ None) × (walk.new + 1 ≡ walk.old)) }
        ensures refused { IfErr result (λ e. (walk.new ≤ walk.old)
            × (members_at (place_of self.entry) ≡ None ⊎ walk.old ≡ 0)
            × RefusesAs members_refusal_from (place_of self.entry) walk.old walk.new e) }
    {
        let Spot::Descriptor(word) = self.at else {
            return Err(refused_here(self, walk));
        };
        walk.pay()?;
        Ok(SeqAccess {
            file: self.file,
            rest: members_at(self.file, word)?,
            failed: None,
        })
    }
}
