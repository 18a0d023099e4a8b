//! Zones by their names.
//! What a zone is read from is said in `zone`.
ghost use Rattle.std.specs.Prelude.{◌≡◌};
ghost use Rattle.std.specs.Option.{option_copied};
ghost use Rattle.std.specs.BTreeMap.{btree_map_len};
ghost use Rattle.resb_examples.specs.Zones.{ReadsZoneTable, CountsZoneTable, zone_named};
ghost use Rattle.resb_examples.specs.ZoneLaws.{table_counted, table_one};

use crate::zones::zone::Zone;
use resb::binary::{Cursor, Deserialize, ReadingError, Walk};
use std::alloc::Global;
use std::collections::BTreeMap;

/// The zones of a bundle by their names, which stand in the file. Of equal names the last stands.
#[derive(Drop)]
pub struct ZoneTable<'de> {
    zones: BTreeMap<&'de str, Zone<'de>>,
}

impl<'de> ZoneTable<'de> {
    /// The zone of this name.
    pub fn zone(&self, name: &str) -> Option<&Zone<'de>>
        ensures { option_copied result ≡ zone_named name.now self.now }
    {
        self.zones.get(name)
    }

    /// How many zones there are.
    pub fn len(&self) -> usize
        ensures { result ≡ btree_map_len self.now.zones }
    {
        self.zones.len()
    }
}

impl<'de> Deserialize<'de> for ZoneTable<'de> {
    ghost reads = { ReadsZoneTable };

    ghost counts = { CountsZoneTable };

    ghost counted = { table_counted };

    ghost one_count = { table_one };

    fn deserialize<'m>(
        alloc: Global,
        at: Cursor<'de>,
        walk: &mut Walk,
    ) -> Result<ZoneTable<'de>, ReadingError<'m>> {
        let zones = BTreeMap::deserialize(alloc, at, walk)?;
        Ok(ZoneTable { zones })
    }
}
