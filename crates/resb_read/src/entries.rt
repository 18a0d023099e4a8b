//! The entries of a table, one after another.
//! Whole maps are read in `maps`.
ghost use Rattle.std.specs.Prelude.{◌≡◌, ◌≤◌, ◌<◌, ◌+◌, ◌⊎◌, ℕ, Some, None, [], ◌∷◌, drop, length};
ghost use Rattle.std.specs.Prelude.{MatchOption, MatchResult, IfOk, IfErr};
ghost use Rattle.resb_read.specs.Places.{place_of};
ghost use Rattle.resb_read.specs.Sequences as sequences;
ghost use Rattle.resb_read.specs.Access.{EntersTo, StepsReading};
ghost use Rattle.resb_read.specs.Sequences.{ReadsEntry, CountsEntry};
ghost use Rattle.resb_read.specs.Reading.{LacksOrMemory};
ghost use Rattle.resb_walk.specs.BlockRefusals.{Says};
ghost use Rattle.resb_format.specs.Parts.{parts_in};
ghost use Rattle.resb_walk.specs.Inner.Members.{keyed_members};
ghost use Rattle.resb_read.specs.PlaceRefusals.{word_entries_refusal};
ghost use Rattle.resb_read.specs.PlaceRefusals.{entries_refusal_from};
ghost use Rattle.resb_read.specs.RefusedReadings.{RefusesAs, RefusesKeyOrValue};
ghost use Rattle.resb_read.specs.Tables.{view_entries, RefusesPaying};

use crate::cursor::{Cursor, Spot};
use crate::deserialize::Deserialize;
use crate::elements::spot_of;
use crate::faults::refused_here;
use crate::tables::{TableView, pay_each};
use resb_format::{BinaryDeserializerError, FileBlocks, ReadingError, ResourceReprType};
use resb_walk::faults::past_end;
use resb_walk::types::readable;
use resb_walk::{Standing, TableParts, Walk, standing_at};
use std::alloc::Global;
use std::marker::Model;

/// The entries of a table that are still to come.
/// After an `Err` it stands where it stood, and answers that error from then on.
#[derive(Drop)]
pub struct MapAccess<'de, 'm> {
    file: FileBlocks<'de>,
    rest: TableParts<'de>,
    failed: Option<ReadingError<'m>>,
}

impl<'de, 'm> Model for MapAccess<'de, 'm> {
    ghost use Rattle.resb_read.specs.Access.{EntryAccess};
    ghost use Rattle.resb_read.specs.Inner.Elements.{entry_places};

    ghost Value = { EntryAccess };

    ghost view = { λ s. record { rest = entry_places s.file s.rest; failed = s.failed } };
}

impl<'de, 'm> MapAccess<'de, 'm> {
    /// How many entries are still to come.
    #[tactic(auto, using(crate::proofs::Viewing::lengths))]
    pub fn size_hint(&self) -> usize
        ensures { result ≡ length self.now.rest }
    {
        self.rest.len()
    }

    /// The entries that are still to come, for look-ups by key. It takes one from the budget for
    /// each of them, or nothing where not so many are left.
    pub fn table(&self, walk: &mut Walk) -> Result<TableView<'de>, ReadingError<'m>>
        ensures read { IfOk result (λ t. (view_entries t ≡ self.now.rest)
            × (walk.new + length self.now.rest ≡ walk.old)) }
        ensures refused { IfErr result (RefusesPaying self.now.rest walk.old walk.new) }
    {
        pay_each(self.size_hint(), walk)?;
        Ok(TableView {
            file: self.file,
            entries: self.rest,
        })
    }

    /// The places of the first entry's key and value.
    #[tactic(auto, using(crate::proofs::PlainLists::firsts))]
    fn first(&self) -> Option<(Cursor<'de>, Cursor<'de>)>
        ensures { MatchOption result (self.now.rest ≡ [])
            (λ c. self.now.rest ≡ (place_of c.0, place_of c.1) ∷ drop 1 self.now.rest) }
    {
        let (position, member, _) = self.rest.split()?;
        let key = Cursor {
            file: self.file,
            at: Spot::Key(position),
        };
        let value = Cursor {
            file: self.file,
            at: spot_of(member),
        };
        Some((key, value))
    }

    /// Goes past the first of the entries.
    #[tactic(auto, using(crate::proofs::PlainLists::rests))]
    fn advance(&mut self)
        requires { 0 < length self.old.rest }
        ensures { self.new ≡ record { rest = drop 1 self.old.rest; failed = self.old.failed } }
    {
        if let Some((_, _, rest)) = self.rest.split() {
            self.rest = rest;
        }
    }

    /// The places of the next entry's key and value.
    pub fn next_entry_cursor(
        &mut self,
    ) -> Result<Option<(Cursor<'de>, Cursor<'de>)>, ReadingError<'m>>
        ensures { EntersTo self.old self.new result }
    {
        if let Some(error) = self.failed {
            return Err(error);
        }
        let Some(entry) = self.first() else {
            return Ok(None);
        };
        self.advance();
        Ok(Some(entry))
    }

    /// Reads the next entry, its key before its value.
    pub fn next_entry<K: Deserialize<'de>, T: Deserialize<'de>>(
        &mut self,
        alloc: Global,
        walk: &mut Walk,
    ) -> Result<Option<(K, T)>, ReadingError<'m>>
        ensures { StepsReading (ReadsEntry K.reads T.reads) (CountsEntry K.counts T.counts)
            (RefusesKeyOrValue K.counts K.refuses T.counts T.refuses) self.old walk.old self.new
            walk.new result }
    {
        if let Some(error) = self.failed {
            return Err(error);
        }
        let Some((key_at, value_at)) = self.first() else {
            return Ok(None);
        };
        match read_entry::<K, T>(alloc, key_at, value_at, walk) {
            Ok(entry) => {
                self.advance();
                Ok(Some(entry))
            }
            Err(error) => {
                self.failed = Some(error);
                Err(error)
            }
        }
    }
}

/// Reads a key, and then its value.
fn read_entry<'de, 'm, K: Deserialize<'de>, T: Deserialize<'de>>(
    alloc: Global,
    key_at: Cursor<'de>,
    value_at: Cursor<'de>,
    walk: &mut Walk,
) -> Result<(K, T), ReadingError<'m>>
    ensures read { IfOk result (λ e. (n : ℕ)
        × ReadsEntry K.reads T.reads (place_of key_at.entry, place_of value_at.entry) e n
        × (walk.new + n ≡ walk.old)) }
    ensures refused { IfErr result (λ e. (walk.new ≤ walk.old)
        × LacksOrMemory (CountsEntry K.counts T.counts
        (place_of key_at.entry, place_of value_at.entry)) walk.old e) }
    ensures says { IfErr result (RefusesKeyOrValue K.counts K.refuses T.counts T.refuses
        (place_of key_at.entry, place_of value_at.entry) walk.old walk.new) }
{
    let key = K::deserialize(alloc, key_at, walk)?;
    let value = T::deserialize(alloc, value_at, walk)?;
    Ok((key, value))
}

/// The entries of the table at a word.
#[inline(always)]
pub(crate) fn entries_at<'de>(
    file: FileBlocks<'de>,
    word: u32,
) -> Result<TableParts<'de>, BinaryDeserializerError>
    ensures { let entries = sequences.entries_in (parts_in file.entry) word in
        MatchResult result (λ r. entries ≡ Some (keyed_members r))
        (λ e. (entries ≡ None) × Says (word_entries_refusal (parts_in file.entry) word) e) }
{
    match readable(file, word)?.0 {
        ResourceReprType::Table | ResourceReprType::_Table32 | ResourceReprType::Table16 => {}
        _ => {
            return Err(BinaryDeserializerError::resource_type_mismatch("expected table resource"));
        }
    }
    match standing_at(file, word)? {
        Standing::Table(rest) => Ok(rest),
        // Nothing else stands at a word of these types.
        Standing::List(_) | Standing::Leaf(_) => Err(past_end()),
    }
}

impl<'de> Cursor<'de> {
    /// The entries of the table that stands here. The fields of all lie in the file, but where they
    /// lead isn't looked at yet.
    pub fn read_map<'m>(self, walk: &mut Walk) -> Result<MapAccess<'de, 'm>, ReadingError<'m>>
        ensures read { IfOk result (λ s. (sequences.entries_at (place_of self.entry) ≡ Some s.rest)
            × (s.failed ≡ None) × (walk.new + 1 ≡ walk.old)) }
        ensures refused { IfErr result (λ e. (walk.new ≤ walk.old)
            × (sequences.entries_at (place_of self.entry) ≡ None ⊎ walk.old ≡ 0)
            × RefusesAs entries_refusal_from (place_of self.entry) walk.old walk.new e) }
    {
        let Spot::Descriptor(word) = self.at else {
            return Err(refused_here(self, walk));
        };
        walk.pay()?;
        Ok(MapAccess {
            file: self.file,
            rest: entries_at(self.file, word)?,
            failed: None,
        })
    }
}
