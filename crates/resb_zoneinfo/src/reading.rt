//! A whole file read into its records: the values of five keys of its root.
//! What a zone's record is and how it is checked is said in `data` and `checking`.
ghost use Rattle.std.specs.Prelude.{◌≡◌, ◌≤◌, ◌+◌, ℕ, IfOk, IfErr};
ghost use Rattle.resb.specs.Fields.{ReadsRecord, CountsRecord, RefusesRecord};
ghost use Rattle.resb.specs.Places.{place_of};
ghost use Rattle.resb.specs.Reading.{LacksOrMemory};
ghost use Rattle.resb.specs.Tables.{view_entries};
ghost use Rattle.resb_zoneinfo.specs.Reading.{info_names, ReadsInfo, RefusesInfo};

use crate::data::{InfoFields, ZoneInfo};
use resb::binary::{Cursor, File, ReadingError, TableView, Walk};
use resb::fields::Fields;
use std::alloc::Global;

impl<'de> ZoneInfo<'de> {
    /// Reads the root of a file of any version, with the whole budget of the file. A file that uses
    /// a pool bundle is refused.
    pub fn from_bytes<'m>(
        alloc: Global,
        bytes: &'de [u8],
    ) -> Result<ZoneInfo<'de>, ReadingError<'m>>
        ensures read { IfOk result (λ i. ReadsInfo ⟦<InfoFields<'de> as Fields<'de>>⟧.reads
            bytes.entry.now (i.version, i.names, i.zones, i.rules, i.regions)) }
        ensures refused { IfErr result (RefusesInfo ⟦<InfoFields<'de> as Fields<'de>>⟧.counts
            ⟦<InfoFields<'de> as Fields<'de>>⟧.refuses bytes.entry.now) }
    {
        let (root, mut walk) = File::open(bytes, None)?.root();
        ZoneInfo::read(alloc, root, &mut walk)
    }

    /// Reads the values of the keys `TZVersion`, `Names`, `Zones`, `Rules` and `Regions` of the
    /// table that stands here, which in a file is the root. Of equal keys the last stands; what
    /// stands at other keys isn't looked at. It takes one from the budget for the table, one for
    /// each of its entries, and what the values take.
    pub fn read<'m>(
        alloc: Global,
        at: Cursor<'de>,
        walk: &mut Walk,
    ) -> Result<ZoneInfo<'de>, ReadingError<'m>>
        ensures read { IfOk result (λ i. (n : ℕ)
            × ReadsRecord ⟦<InfoFields<'de> as Fields<'de>>⟧.reads info_names (λ f. f)
            (place_of at.entry) (i.version, i.names, i.zones, i.rules, i.regions) n
            × (walk.new + n ≡ walk.old)) }
        ensures refused { IfErr result (λ e. (walk.new ≤ walk.old)
            × LacksOrMemory (CountsRecord ⟦<InfoFields<'de> as Fields<'de>>⟧.counts info_names
            (place_of at.entry)) walk.old e) }
        ensures says { IfErr result (RefusesRecord
            ⟦<InfoFields<'de> as Fields<'de>>⟧.refuses info_names (place_of at.entry) walk.old
            walk.new) }
    {
        let table = at.read_table(walk)?;
        ZoneInfo::from_table(alloc, table, walk)
    }

    /// Reads the values of the five keys of a table.
    fn from_table<'m>(
        alloc: Global,
        table: TableView<'de>,
        walk: &mut Walk,
    ) -> Result<ZoneInfo<'de>, ReadingError<'m>>
        ensures read { IfOk result (λ i. (n : ℕ)
            × ⟦<InfoFields<'de> as Fields<'de>>⟧.reads info_names (view_entries table.entry)
            (i.version, i.names, i.zones, i.rules, i.regions) n × (walk.new + n ≡ walk.old)) }
        ensures refused { IfErr result (λ e. (walk.new ≤ walk.old)
            × LacksOrMemory (⟦<InfoFields<'de> as Fields<'de>>⟧.counts info_names
            (view_entries table.entry)) walk.old e) }
        ensures says { IfErr result (⟦<InfoFields<'de> as Fields<'de>>⟧.refuses info_names
            (view_entries table.entry) walk.old walk.new) }
    {
        let keys = ["TZVersion", "Names", "Zones", "Rules", "Regions"];
        let (version, names, zones, rules, regions) = <InfoFields<'de> as Fields<'de>>::read_fields(
            alloc, table, &keys, walk,
        )?;
        Ok(ZoneInfo {
            version,
            names,
            zones,
            rules,
            regions,
        })
    }
}
