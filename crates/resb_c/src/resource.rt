//! The name that a resource of an opened file has for the caller: two numbers.
//! What stands at it is found in `seen` and `within`.
ghost use Rattle.std.specs.Prelude.{◌≡◌};
ghost use Rattle.resb_read.specs.Places as places;
ghost use Rattle.resb_read.specs.Spots.{IsKeySpot};
ghost use Rattle.resb_read.specs.declared.cursor.Spot.TheVariants as spot;
ghost use Rattle.resb_walk.specs.Inner.Members.{member_of};
ghost use Rattle.resb_c.specs.Opened.{spot_of};

use resb_read::Spot;
use resb_walk::Member;

/// A resource of a file, or a number of a vector. Any two numbers name one, though perhaps nothing
/// that stands in the file.
#[derive(Clone, Copy)]
#[repr(C)]
pub struct ResbResource {
    /// 0 for a descriptor, 1 for a unit of the 16-bit block, and else for a number of a vector.
    pub form: u32,
    /// The descriptor's word, the unit, or the number.
    pub number: u32,
}

impl ResbResource {
    /// What is told where nothing is found: a number, 0.
    pub(crate) fn none() -> ResbResource
        ensures { spot_of result ≡ spot.Word 0 }
    {
        ResbResource::of_number(0)
    }

    /// A number of a vector.
    pub(crate) fn of_number(number: u32) -> ResbResource
        ensures { spot_of result ≡ spot.Word number }
    {
        ResbResource { form: 2, number }
    }

    /// A member of a collection.
    pub(crate) fn of_member(member: Member) -> ResbResource
        ensures { spot_of result ≡ places.spot_of (member_of member) }
    {
        match member {
            Member::Word(number) => ResbResource { form: 0, number },
            Member::Unit(unit) => ResbResource {
                form: 1,
                number: u32::from(unit),
            },
        }
    }

    /// What stands at a spot, unless that is a key.
    pub(crate) fn of_spot(at: Spot) -> ResbResource
        ensures { (IsKeySpot at → ⊥) → spot_of result ≡ at }
    {
        match at {
            Spot::Descriptor(word) => ResbResource::of_member(Member::Word(word)),
            Spot::Unit(unit) => ResbResource::of_member(Member::Unit(unit)),
            Spot::Word(number) => ResbResource::of_number(number),
            Spot::Key(_) => ResbResource::none(),
        }
    }

    /// Where the resource stands.
    pub(crate) fn spot(self) -> Spot
        ensures { result ≡ spot_of self }
    {
        match (self.form, u16::try_from(self.number)) {
            (0, _) => Spot::Descriptor(self.number),
            (1, Ok(unit)) => Spot::Unit(unit),
            _ => Spot::Word(self.number),
        }
    }
}
