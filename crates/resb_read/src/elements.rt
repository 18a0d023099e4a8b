//! The members of a sequence that are still to come, by their bytes.
//! An access that goes from one to the next is in `sequences`.
ghost use Rattle.std.specs.Prelude.{◌≡◌, [], ◌∷◌, length, slice_get, MatchOption};
ghost use Rattle.resb_walk.specs.Inner.Members.{member_of};
ghost use Rattle.resb_read.specs.Inner.Elements.{spots_to_come};
ghost use Rattle.resb_read.specs.Places as places;

use crate::cursor::Spot;
use resb_format::bytes::{first_word, some_unit, some_word};
use resb_walk::{Member, Members};

/// Members that are still to come.
#[derive(Clone, Copy)]
pub(crate) enum Elements<'de> {
    /// Descriptors, or offsets of strings.
    Members(Members<'de>),
    /// Four bytes for each number.
    Numbers(&'de [u8]),
}

impl<'de> Elements<'de> {
    /// How many members are still to come.
    #[tactic(auto, using(crate::proofs::Viewing::lengths))]
    pub(crate) fn len(self) -> usize
        ensures { result ≡ length (spots_to_come self.entry) }
    {
        match self {
            Elements::Members(members) => members.len(),
            Elements::Numbers(bytes) => bytes.len() / 4,
        }
    }

    /// The member of a number, from 0 on, if there are so many.
    #[tactic(auto, using(crate::proofs::InsideTrees::mapped_at))]
    pub(crate) fn get(self, number: usize) -> Option<Spot>
        ensures { result ≡ slice_get (spots_to_come self.entry) number }
    {
        match self {
            Elements::Members(Members::Words(words)) => {
                Some(Spot::Descriptor(some_word(words, number)?))
            }
            Elements::Members(Members::Units(units)) => {
                Some(Spot::Unit(some_unit(units, number)?))
            }
            Elements::Numbers(words) => Some(Spot::Word(some_word(words, number)?)),
        }
    }

    /// The first member, and those after it.
    pub(crate) fn split(self) -> Option<(Spot, Elements<'de>)>
        ensures { MatchOption result (spots_to_come self.entry ≡ [])
            (λ r. spots_to_come self.entry ≡ r.0 ∷ spots_to_come r.1) }
    {
        match self {
            Elements::Members(members) => {
                let (member, rest) = members.split()?;
                Some((spot_of(member), Elements::Members(rest)))
            }
            Elements::Numbers(bytes) => {
                let (number, rest) = first_word(bytes)?;
                Some((Spot::Word(number), Elements::Numbers(rest)))
            }
        }
    }
}

/// Where a member stands.
pub(crate) fn spot_of(member: Member) -> Spot
    ensures { result ≡ places.spot_of (member_of member) }
{
    match member {
        Member::Word(word) => Spot::Descriptor(word),
        Member::Unit(unit) => Spot::Unit(unit),
    }
}
