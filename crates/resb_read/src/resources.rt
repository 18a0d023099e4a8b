//! Resources, at a descriptor and at a string's unit.
//! The walk through what stands at a word is in `resb_walk`.
ghost use Rattle.std.specs.Prelude.{◌≡◌, ◌≤◌, ◌+◌, ℕ, IfOk, IfErr};
ghost use Rattle.resb_tree.specs.Tree.{Tree};
ghost use Rattle.resb_tree.specs.View.{tree_of};
ghost use Rattle.resb_walk.specs.Meets.{Blames};
ghost use Rattle.resb_walk.specs.Refusals.{Refuses};
ghost use Rattle.resb_read.specs.Places.{place_of};
ghost use Rattle.resb_read.specs.Resources.{DenPlace, ReachesPlace, MeetsPlace};
ghost use Rattle.resb_read.specs.Leaves.{CountsOf};
ghost use Rattle.resb_read.specs.Resources.{ReadsTree};
ghost use Rattle.resb_read.specs.RefusedReadings.{RefusesTree, TakesSome};
ghost use Rattle.resb_read.specs.TypeLaws.{tree_counted, tree_one};

use crate::cursor::{Cursor, Spot};
use crate::deserialize::Deserialize;
use crate::faults::elsewhere;
use resb_format::{BinaryDeserializerError, ReadingError, Resource};
use resb_walk::{Walk, count_string_at, count_word, read_checked, read_string_at};
use std::alloc::Global;

impl<'de> Cursor<'de> {
    /// Reads the tree that stands here. Its binaries are slices of the file.
    ///
    /// Memory aside, the budget is spent exactly where one resource more than it stands here before
    /// the first fault, and any other refusal is given only where nothing is denoted: it is what is
    /// said of the first fault, with the members of a collection in their order.
    /// No count asks for room that the budget doesn't pay.
    pub fn read_resource(
        self,
        alloc: Global,
        walk: &mut Walk,
    ) -> Result<Resource<'de>, BinaryDeserializerError>
        ensures read { IfOk result
            (λ r. (n : ℕ) × ReadsTree (place_of self.entry) r n × (walk.new + n ≡ walk.old)) }
        ensures refused { IfErr result (λ e. (walk.new ≤ walk.old)
            × Refuses (DenPlace (place_of self.entry)) (ReachesPlace (place_of self.entry)) walk.old
            e) }
        ensures meets { IfErr result (Blames (MeetsPlace (place_of self.entry))) }
        ensures takes { IfErr result (TakesSome self.entry.at walk.old walk.new) }
    {
        match self.at {
            Spot::Descriptor(word) => read_checked::<Resource<'de>>(alloc, self.file, word, walk),
            Spot::Unit(unit) => read_string_at::<Resource<'de>>(alloc, self.file, unit, walk),
            Spot::Word(_) | Spot::Key(_) => Err(elsewhere()),
        }
    }

    /// Reads the tree that stands here and makes nothing of it: the walk tells how many resources.
    pub(crate) fn count_resource(
        self,
        alloc: Global,
        walk: &mut Walk,
    ) -> Result<(), BinaryDeserializerError>
        ensures read { IfOk result (λ _. (t : Tree) × (n : ℕ) × DenPlace (place_of self.entry) t n
            × (walk.new + n ≡ walk.old)) }
        ensures refused { IfErr result (λ e. (walk.new ≤ walk.old)
            × Refuses (DenPlace (place_of self.entry)) (ReachesPlace (place_of self.entry)) walk.old
            e) }
        ensures meets { IfErr result (Blames (MeetsPlace (place_of self.entry))) }
    {
        match self.at {
            Spot::Descriptor(word) => count_word(alloc, self.file, word, walk),
            Spot::Unit(unit) => count_string_at(self.file, unit, walk),
            Spot::Word(_) | Spot::Key(_) => Err(elsewhere()),
        }
    }
}

impl<'de> Deserialize<'de> for Resource<'de> {
    ghost reads = { ReadsTree };

    ghost counts = { CountsOf DenPlace };

    ghost refuses = { RefusesTree };

    ghost counted = { λ p r n h. tree_counted p (tree_of r) n h.0 };

    ghost one_count = { tree_one };

    fn deserialize<'m>(
        alloc: Global,
        at: Cursor<'de>,
        walk: &mut Walk,
    ) -> Result<Resource<'de>, ReadingError<'m>> {
        at.read_resource(alloc, walk)
    }
}
