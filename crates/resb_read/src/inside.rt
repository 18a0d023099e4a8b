//! What stands inside a table, an array or a vector: one value, by its key or its number. Nothing
//! is taken from a budget, and nothing else of the file is looked at.
//! Whole collections are read in `entries` and `sequences`.
ghost use Rattle.std.specs.Prelude.{◌≡◌, Some, None, option_map, slice_get, MatchResult};
ghost use Rattle.resb_walk.specs.BlockRefusals.{Says};
ghost use Rattle.resb_read.specs.Places.{place_of};
ghost use Rattle.resb_read.specs.PlaceRefusals.{entries_refusal, members_refusal};
ghost use Rattle.resb_read.specs.Sequences as sequences;
ghost use Rattle.resb_read.specs.Tables.{last_named};

use crate::cursor::{Cursor, Spot};
use crate::entries::entries_at;
use crate::faults::elsewhere;
use crate::sequences::members_at;
use crate::tables::TableView;
use resb_format::BinaryDeserializerError;

impl<'de> Cursor<'de> {
    /// Where the value of the last entry of a name stands, in the table that stands here, if an
    /// entry has the name. It is refused as `read_map` is where no table stands here.
    pub fn entry(self, name: &str) -> Result<Option<Cursor<'de>>, BinaryDeserializerError>
        ensures { let p = place_of self.entry in let entries = sequences.entries_at p in
            MatchResult result
            (λ c. option_map (last_named name.now) entries ≡ Some (option_map place_of c))
            (λ e. (entries ≡ None) × Says (entries_refusal p 1) e) }
    {
        let Spot::Descriptor(word) = self.at else {
            return Err(elsewhere());
        };
        let file = self.file;
        let entries = entries_at(file, word)?;
        Ok(TableView { file, entries }.get(name))
    }

    /// Where the member of a number stands, from 0 on, in the array or vector that stands here, if
    /// there are so many. It is refused as `read_seq` is where neither stands here.
    #[tactic(auto, using(crate::proofs::InsideTrees::mapped_at))]
    pub fn member(self, number: usize) -> Result<Option<Cursor<'de>>, BinaryDeserializerError>
        ensures { let p = place_of self.entry in let members = sequences.members_at p in
            MatchResult result
            (λ c. option_map (λ ps. slice_get ps number) members ≡ Some (option_map place_of c))
            (λ e. (members ≡ None) × Says (members_refusal p 1) e) }
    {
        let Spot::Descriptor(word) = self.at else {
            return Err(elsewhere());
        };
        let file = self.file;
        let members = members_at(file, word)?;
        let Some(at) = members.get(number) else {
            return Ok(None);
        };
        Ok(Some(Cursor { file, at }))
    }
}
