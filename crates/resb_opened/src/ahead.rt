//! What of an array or of a table of an opened file is still to come, where the keys of all of its
//! tables ascend. How it is gone through is said in `shown`.
ghost use Rattle.std.specs.Prelude.{◌≡◌, map, true};
ghost use Rattle.resb_format.specs.Parts.{parts_in};
ghost use Rattle.resb_walk.specs.Inner.Members.{members_of, keyed_members};
ghost use Rattle.resb_opened.specs.Ahead.{MembersStand, EntriesStand};
ghost use Rattle.resb_opened.specs.FieldLaws.{members-prop, entries-prop};
ghost use Rattle.resb_opened.specs.Ordered.{OrderedEach};

use crate::opened::Opened;
use resb_walk::{Members, TableParts};

/// The members of an array that are still to come.
#[derive(Clone, Copy)]
pub struct MembersAhead<'a> {
    pub(crate) file: &'a Opened<'a>,
    pub(crate) rest: Members<'a>,
    pub ghost stand: { MembersStand file.now.parts rest } by { members-prop file.now.parts rest },
    pub ghost ascends: { file.now.ascends ≡ true },
    pub ghost ordered: { ∥ OrderedEach (parts_in file.now.parts) (members_of rest) ∥₁ },
}

/// The entries of a table that are still to come.
#[derive(Clone, Copy)]
pub struct EntriesAhead<'a> {
    pub(crate) file: &'a Opened<'a>,
    pub(crate) rest: TableParts<'a>,
    pub ghost stand: { EntriesStand file.now.parts rest } by { entries-prop file.now.parts rest },
    pub ghost ascends: { file.now.ascends ≡ true },
    pub ghost ordered: { ∥ OrderedEach (parts_in file.now.parts)
        (map (λ e. e.1) (keyed_members rest)) ∥₁ },
}

impl<'a> MembersAhead<'a> {
    ghost use Rattle.std.specs.Prelude.{◌≡◌, List};
    ghost use Rattle.resb_tree.specs.Tree.{Tree, trees_of};
    ghost use Rattle.resb_opened.specs.Ahead.{EachDenotes};
    ghost use Rattle.resb_opened.specs.Shown.{members_ahead};

    /// These members of a file.
    #[tactic(auto, using(crate::proofs::AheadLemmas::same_ahead))]
    pub(crate) fn at(file: &'a Opened<'a>, rest: Members<'a>) -> MembersAhead<'a>
        requires stand { MembersStand file.now.parts rest }
        requires ascends { file.now.ascends ≡ true }
        requires ordered { ∥ OrderedEach (parts_in file.now.parts) (members_of rest) ∥₁ }
        ensures { (ts : List Tree)
            → EachDenotes (parts_in file.entry.now.parts) (members_of rest.entry) ts
            → members_ahead result ≡ trees_of ts }
    {
        MembersAhead { file, rest }
    }
}

impl<'a> EntriesAhead<'a> {
    ghost use Rattle.std.specs.Prelude.{◌≡◌, ℕ, List};
    ghost use Rattle.resb_tree.specs.Tree.{Tree, entries_of};
    ghost use Rattle.resb_opened.specs.Ahead.{PairsDenote};
    ghost use Rattle.resb_opened.specs.Shown.{entries_ahead};

    /// These entries of a file.
    #[tactic(auto, using(crate::proofs::AheadLemmas::same_entries_ahead))]
    pub(crate) fn at(file: &'a Opened<'a>, rest: TableParts<'a>) -> EntriesAhead<'a>
        requires stand { EntriesStand file.now.parts rest }
        requires ascends { file.now.ascends ≡ true }
        requires ordered { ∥ OrderedEach (parts_in file.now.parts)
            (map (λ e. e.1) (keyed_members rest)) ∥₁ }
        ensures { (ts : List (List ℕ × Tree))
            → PairsDenote (parts_in file.entry.now.parts) (keyed_members rest.entry) ts
            → entries_ahead result ≡ entries_of ts }
    {
        EntriesAhead { file, rest }
    }
}
