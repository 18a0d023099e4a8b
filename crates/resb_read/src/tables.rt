//! A table whose values are looked up by their keys.
//! Its entries one after another are in `entries`; a table whose keys ascend is in `sorted`.
ghost use Rattle.std.specs.Prelude.{◌≡◌, ◌≤◌, ◌<◌, ◌+◌, ◌⊎◌, ℕ, Some, None, length, option_map};
ghost use Rattle.std.specs.Prelude.{MatchResult, IfOk, IfErr, IfSome, get_or, slice_index, true};
ghost use Rattle.std.specs.Prelude.{map};
ghost use Rattle.resb_format.specs.Parts.{parts_in};
ghost use Rattle.resb_walk.specs.Inner.Members.{member_of, members_of, positions_of, keyed_members};
ghost use Rattle.resb_walk.specs.Refusals.{IsSpent};
ghost use Rattle.resb_read.specs.Places.{place_of};
ghost use Rattle.resb_read.specs.Sequences as sequences;
ghost use Rattle.resb_read.specs.Inner.Elements.{entry_places, near_entries};
ghost use Rattle.resb_read.specs.Tables.{view_entries, last_named, keys_ascend, HasEntry};
ghost use Rattle.resb_read.specs.Tables.{RefusesTable};
ghost use Rattle.resb_read.specs.Tables.{ReadsFound, RefusesFound};

use crate::cursor::{Cursor, Spot};
use crate::deserialize::Deserialize;
use crate::elements::spot_of;
use crate::keys::{is_key, order_of};
use resb_format::bytes::{unit_at, word_at};
use resb_format::{BinaryDeserializerError, FileBlocks, ReadingError};
use resb_walk::{Member, Members, Positions, TableParts, WIDE, Walk};
use std::alloc::Global;
use std::cmp::Ordering;

/// A table that stands in a file, with one paid of the budget for each of its entries.
#[derive(Clone, Copy)]
pub struct TableView<'de> {
    pub(crate) file: FileBlocks<'de>,
    pub(crate) entries: TableParts<'de>,
}

impl<'de> TableView<'de> {
    /// The table of these entries of a file. Nothing is paid, and no entry is looked at.
    pub fn of(file: FileBlocks<'de>, entries: TableParts<'de>) -> TableView<'de>
        ensures { view_entries result
            ≡ map (sequences.at_entry (parts_in file.entry)) (keyed_members entries.entry) }
    {
        TableView { file, entries }
    }

    /// How many entries there are.
    #[tactic(auto, using(crate::proofs::Viewing::lengths))]
    pub fn len(&self) -> usize
        ensures { result ≡ length (view_entries self.now) }
    {
        self.entries.len()
    }

    /// Where the value of the last entry stands whose key is this name. A key that can't be read is
    /// no name. Of each key at most one byte more than the name has is looked at.
    #[inline(always)]
    pub fn get(&self, name: &str) -> Option<Cursor<'de>>
        ensures { option_map place_of result ≡ last_named name.now (view_entries self.now) }
    {
        match (self.entries.keys, self.entries.members) {
            // Most tables are so.
            (Positions::Halves(positions), Members::Words(words)) => {
                last_near(self.file, positions, words, name)
            }
            _ => last_of(self.file, self.entries, name),
        }
    }

    /// Where the value of an entry stands whose key is this name, by halving. Where the keys are
    /// texts and ascend, as in files that ICU or `resb` wrote, this is what `get` answers. Nothing
    /// is tested of their order: in a table of another one an entry may be missed. Of each key that
    /// is met at most one byte more than the name has is looked at.
    #[inline(always)]
    pub fn find(&self, name: &str) -> Option<Cursor<'de>>
        ensures found { IfSome result (λ c.
            HasEntry name.now (view_entries self.now) (place_of c)) }
        ensures exact { keys_ascend (view_entries self.now) ≡ true
            → option_map place_of result ≡ last_named name.now (view_entries self.now) }
    {
        found_by_halves(self.file, self.entries, name)
    }

    /// Reads the value of the last entry whose key is this name, if there is one.
    pub fn value<'m, T: Deserialize<'de>>(
        &self,
        alloc: Global,
        name: &str,
        walk: &mut Walk,
    ) -> Result<Option<T>, ReadingError<'m>>
        ensures read { let found = last_named name.now (view_entries self.now) in
            IfOk result (λ x. (n : ℕ) × ReadsFound T.reads found x n × (walk.new + n ≡ walk.old)) }
        ensures refused { let found = last_named name.now (view_entries self.now) in
            IfErr result (RefusesFound T.counts T.refuses found walk.old walk.new) }
    {
        let Some(at) = self.get(name) else {
            return Ok(None);
        };
        Ok(Some(T::deserialize(alloc, at, walk)?))
    }
}

/// Where the value of the last of these entries stands whose key is this name: of each key's
/// position two bytes are given, of each value's descriptor four. The last one is looked at first.
fn last_near<'de>(
    file: FileBlocks<'de>,
    positions: &'de [u8],
    words: &'de [u8],
    name: &str,
) -> Option<Cursor<'de>>
    ensures { option_map place_of result
        ≡ last_named name.now (near_entries file.entry positions.now words.now) }
{
    let mut left = (positions.len() / 2).min(words.len() / 4);
    'entries: while left > 0 {
        left -= 1;
        if is_key(file, usize::from(unit_at(positions, left)), name) {
            let at = Spot::Descriptor(word_at(words, left));
            return Some(Cursor { file, at });
        }
    }
    None
}

/// Where the value of the last of these entries stands whose key is this name.
#[inline(never)]
fn last_of<'de>(file: FileBlocks<'de>, entries: TableParts<'de>, name: &str) -> Option<Cursor<'de>>
    ensures { option_map place_of result
        ≡ last_named name.now (entry_places file.entry entries.entry) }
{
    let mut found = None;
    let mut rest = entries;
    'entries: while let Some((position, member, later)) = rest.split() {
        if is_key(file, position, name) {
            found = Some(Cursor {
                file,
                at: spot_of(member),
            });
        }
        rest = later;
    }
    found
}

/// The position with this number, as an entry has it.
#[tactic(auto, using(crate::proofs::Halving::lengths, crate::proofs::Halving::wide_there))]
fn position_at(keys: Positions<'_>, number: usize) -> usize
    requires { number < length (positions_of keys) }
    ensures { result ≡ slice_index (positions_of keys.entry) number }
{
    match keys {
        Positions::Halves(bytes) => usize::from(unit_at(bytes, number)),
        Positions::Wholes(bytes) => WIDE + word_at(bytes, number) as usize,
    }
}

/// The member with this number.
#[tactic(auto, using(crate::proofs::Halving::lengths))]
fn member_at(members: Members<'_>, number: usize) -> Member
    requires { number < length (members_of members) }
    ensures { get_or (members_of members.entry) number (member_of result) ≡ member_of result }
{
    match members {
        Members::Words(bytes) => Member::Word(word_at(bytes, number)),
        Members::Units(bytes) => Member::Unit(unit_at(bytes, number)),
    }
}

/// Where the value of one of these entries stands whose key is this name: the entry in the middle
/// tells in which half of them it can be.
fn found_by_halves<'de>(
    file: FileBlocks<'de>,
    entries: TableParts<'de>,
    name: &str,
) -> Option<Cursor<'de>>
    ensures found { IfSome result (λ c.
        HasEntry name.now (entry_places file.entry entries.entry) (place_of c)) }
    ensures exact { keys_ascend (entry_places file.entry entries.entry) ≡ true
        → option_map place_of result
        ≡ last_named name.now (entry_places file.entry entries.entry) }
{
    let mut low = 0;
    let mut high = entries.len();
    'halves: while low < high {
        let middle = low + (high - low) / 2;
        match order_of(file, name, position_at(entries.keys, middle)) {
            Ordering::Equal => {
                let at = spot_of(member_at(entries.members, middle));
                return Some(Cursor { file, at });
            }
            Ordering::Less => high = middle,
            Ordering::Greater => low = middle + 1,
        }
    }
    None
}

/// Pays one for each of so many entries, or nothing where not so many are left.
pub(crate) fn pay_each(count: usize, walk: &mut Walk) -> Result<(), BinaryDeserializerError>
    ensures { MatchResult result (λ _. walk.new + count ≡ walk.old)
        (λ e. IsSpent e × (walk.old < count) × (walk.new ≡ walk.old)) }
{
    let left = walk.left();
    if left < count {
        return Err(BinaryDeserializerError::invalid_data("resource budget spent"));
    }
    *walk = Walk::new(left - count);
    Ok(())
}

impl<'de> Cursor<'de> {
    /// The table that stands here, for look-ups by key. It takes one from the budget, and one for
    /// each entry: then any number of names may be looked for. The fields of all entries lie in the
    /// file, but where they lead isn't looked at yet.
    pub fn read_table<'m>(self, walk: &mut Walk) -> Result<TableView<'de>, ReadingError<'m>>
        ensures read { IfOk result (λ t.
            (sequences.entries_at (place_of self.entry) ≡ Some (view_entries t))
            × (walk.new + 1 + length (view_entries t) ≡ walk.old)) }
        ensures refused { IfErr result (λ e.
            RefusesTable (place_of self.entry) walk.old walk.new e) }
    {
        let access = self.read_map(walk)?;
        access.table(walk)
    }
}
