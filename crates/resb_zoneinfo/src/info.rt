//! Zones by their names: the record that a name leads to, checked.
//! How names and links are followed is said in `names` and `following`.
ghost use Rattle.std.specs.Prelude.{IfOk, IfErr};

use crate::checking::ZoneError;
use crate::data::ZoneInfo;
use crate::following::value_at;
use crate::names::number_of;
use crate::zone::Zone;

impl<'de> ZoneInfo<'de> {
    ghost use Rattle.resb_zoneinfo.specs.Info.{IsZoneOf, HasNoZone};

    /// The zone of this name, which is the first of the names that is it. Names are ASCII: a name
    /// with other letters is none. Where a link stands in the zone's place, it is that of the link.
    pub fn zone(&self, name: &str) -> Result<Zone<'de>, ZoneError>
        ensures said { IfOk result (IsZoneOf self.now name.now) }
        ensures refused { IfErr result (HasNoZone self.now name.now) }
    {
        let Some(number) = number_of(&self.names, name.as_bytes()) else {
            return Err(ZoneError::NoZone);
        };
        let table = value_at(&self.zones, number)?;
        table.0.checked(self)
    }
}
