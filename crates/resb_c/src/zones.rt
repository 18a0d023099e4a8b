//! The offset of a time zone at a moment, out of ICU's file of zones.
//! What such a file holds, and how an offset follows from it, is said in `resb_zoneinfo`.
ghost use Rattle.std.specs.Prelude.{None, IfOk, IfErr};
ghost use Rattle.resb_zoneinfo.specs.Reading.{ReadsInfo, RefusesInfo};
ghost use Rattle.resb_c.specs.Inner.Heads.{IsToldAs};
ghost use Rattle.resb_c.specs.Zones.{HasNoInfo, TellsOffset};

use crate::fault::Fault;
use crate::files::text_of;
use resb_fields::Fields;
use resb_format::BinaryDeserializerError;
use resb_pool_bundle::FileHead;
use resb_zoneinfo::{InfoFields, ZoneInfo};
use std::alloc::Global;

/// Why a file has no records: that it uses a pool bundle, or the reader's refusal.
fn fault_of(file: &[u8], refusal: BinaryDeserializerError) -> Fault
    ensures { IsToldAs None file.now refusal.entry result }
{
    match FileHead::read(file) {
        Ok(head) if head.uses_pool() => Fault::UsesPool,
        _ => Fault::Reading(refusal),
    }
}

/// The records of a file, which uses no pool bundle.
fn info_of<'f>(alloc: Global, file: &'f [u8]) -> Result<ZoneInfo<'f>, Fault>
    ensures ok { IfOk result (λ i. ReadsInfo ⟦<InfoFields<'f> as Fields<'f>>⟧.reads
        file.entry.now (i.version, i.names, i.zones, i.rules, i.regions)) }
    ensures err { IfErr result (HasNoInfo (RefusesInfo
        ⟦<InfoFields<'f> as Fields<'f>>⟧.counts ⟦<InfoFields<'f> as Fields<'f>>⟧.refuses)
        file.entry.now) }
{
    match ZoneInfo::from_bytes(alloc, file) {
        Ok(info) => Ok(info),
        Err(refusal) => Err(fault_of(file, refusal)),
    }
}

/// The offset of the zone of a name at a moment, both in seconds.
#[tactic(auto, unfolding(crate::specs::Zones::TellsOffset))]
pub(crate) fn tell_offset(
    alloc: Global,
    file: &[u8],
    zone: &[u8],
    moment: i64,
) -> Result<i64, Fault>
    ensures { TellsOffset
        (λ bytes i. ReadsInfo ⟦<InfoFields<'static> as Fields<'static>>⟧.reads bytes
        (i.version, i.names, i.zones, i.rules, i.regions))
        (RefusesInfo ⟦<InfoFields<'static> as Fields<'static>>⟧.counts
        ⟦<InfoFields<'static> as Fields<'static>>⟧.refuses) file.now zone.now moment result }
{
    let name = text_of(zone)?;
    match info_of(alloc, file) {
        Ok(info) => match info.zone(name) {
            Ok(zone) => Ok(zone.offset_at(moment)),
            Err(e) => Err(Fault::Zone(e)),
        },
        Err(fault) => Err(fault),
    }
}
