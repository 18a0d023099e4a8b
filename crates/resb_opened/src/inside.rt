//! What stands inside an array or a table, by its number or its key.
//! What stands at a path is found in `found`.
ghost use Rattle.std.specs.Prelude.{◌≡◌, Some, option_map, slice_get, true};
ghost use Rattle.resb_format.specs.Content as content;
ghost use Rattle.resb_read.specs.Places as places;
ghost use Rattle.resb_read.specs.Places.{place_of};
ghost use Rattle.resb_read.specs.Tables.{view_entries, keys_ascend, last_named};
ghost use Rattle.resb_tree.specs.Maps.{get};
ghost use Rattle.resb_walk.specs.Inner.Members.{member_of, members_of};
ghost use Rattle.resb_opened.specs.Handles as seen;
ghost use Rattle.resb_opened.specs.Handles.{tree_at};

use crate::handle::Handle;
use resb_format::bytes::{some_unit, some_word};
use resb_read::{Cursor, Spot, TableView};
use resb_walk::{Member, Members, Standing};

/// The member with this number, counted from 0, if there are so many.
#[tactic(auto, using(resb_read::proofs::InsideTrees::mapped_at))]
fn member_at(members: Members<'_>, number: usize) -> Option<Member>
    ensures { option_map member_of result ≡ slice_get (members_of members.entry) number }
{
    match members {
        Members::Words(words) => Some(Member::Word(some_word(words, number)?)),
        Members::Units(units) => Some(Member::Unit(some_unit(units, number)?)),
    }
}

/// The member that stands at a spot, where it is one of a member.
#[tactic(auto, using(crate::proofs::NamedLemmas::spots))]
fn member_of_spot(spot: Spot) -> Option<Member>
    ensures { (m : content.Member) → places.spot_of m ≡ spot
        → option_map member_of result ≡ Some m }
{
    match spot {
        Spot::Descriptor(word) => Some(Member::Word(word)),
        Spot::Unit(unit) => Some(Member::Unit(unit)),
        Spot::Word(_) | Spot::Key(_) => None,
    }
}

/// Where the value of the last entry of a name stands: by halving, where the keys ascend.
#[inline(always)]
fn entry_named<'de>(table: TableView<'de>, ascends: bool, name: &str) -> Option<Cursor<'de>>
    requires { ascends ≡ true → keys_ascend (view_entries table) ≡ true }
    ensures { option_map place_of result ≡ last_named name.now (view_entries table.entry) }
{
    if ascends {
        table.find(name)
    } else {
        table.get(name)
    }
}

impl<'a> Handle<'a> {
    /// The member that an array has at this place, counted from 0, if it has so many; of any other
    /// resource none.
    pub fn member(self, number: usize) -> Option<Handle<'a>>
        ensures { option_map tree_at result
            ≡ slice_get (seen.members_in (tree_at self.entry)) number }
    {
        let Standing::List(members) = self.standing() else {
            return None;
        };
        let at = member_at(members, number)?;
        Some(Handle::at(self.file, at))
    }

    /// The value that a table has at this key, if it has one; of any other resource none.
    pub fn named(self, name: &str) -> Option<Handle<'a>>
        ensures { option_map tree_at result ≡ get name.now (seen.entries_in (tree_at self.entry)) }
    {
        let Standing::Table(entries) = self.standing() else {
            return None;
        };
        let table = TableView::of(self.file.parts, entries);
        let found = entry_named(table, self.file.ascends, name)?;
        let at = member_of_spot(found.spot())?;
        Some(Handle::at(self.file, at))
    }
}
