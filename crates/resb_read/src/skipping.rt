//! What a cursor tells without reading: a resource's type, and how to go past it.
//! The places below a descriptor have deserializers of their own in `named`.
ghost use Rattle.std.specs.Prelude.{◌≡◌, Some, None, MatchResult};
ghost use Rattle.resb_format.specs.Descriptor.{type_number};
ghost use Rattle.resb_read.specs.Places.{place_of};
ghost use Rattle.resb_read.specs.Spots.{Skips, type_at};
ghost use Rattle.resb_walk.specs.BlockRefusals.{Says};
ghost use Rattle.resb_read.specs.PlaceRefusals.{untold};

use crate::cursor::{Cursor, Spot};
use crate::faults::elsewhere;
use resb_format::{BinaryDeserializerError, ResourceReprType};
use resb_walk::Walk;
use resb_walk::types::readable;

impl<'de> Cursor<'de> {
    /// Goes past a resource, and looks at nothing of it.
    pub fn skip(self, walk: &mut Walk) -> Result<(), BinaryDeserializerError>
        ensures { Skips self.entry.at walk.old walk.new result }
    {
        match self.at {
            Spot::Descriptor(_) | Spot::Unit(_) => walk.pay(),
            Spot::Word(_) | Spot::Key(_) => Ok(()),
        }
    }

    /// The type of the resource here. Types that aren't read are refused, as those of aliases and
    /// of strings of the older form are in a file that is read alone.
    pub fn resource_type(self) -> Result<ResourceReprType, BinaryDeserializerError>
        ensures { let p = place_of self.entry in
            MatchResult result (λ t. type_at p ≡ Some (type_number t))
            (λ e. (type_at p ≡ None) × Says (untold p) e) }
    {
        match self.at {
            Spot::Descriptor(word) => {
                let (kind, _) = readable(self.file, word)?;
                Ok(kind)
            }
            Spot::Unit(_) => Ok(ResourceReprType::StringV2),
            Spot::Word(_) | Spot::Key(_) => Err(elsewhere()),
        }
    }
}
