//! Offsets of a small made file, by hand from the rules: moments before, within and after the
//! range of 32 bits, a link, a final rule of the last Sundays of March and October at 1:00, and one
//! of the south; and a zone for each thing that a file may have wrong.
use resb::{Compile, TextForm};
use resb_zoneinfo::{RuleError, ZoneError, ZoneInfo};
use std::alloc::Global;
use std::test::Fail;

/// Four transitions and three types; a link to them; a final rule from 1997 on, and one that saves
/// over the turn of the year from 2008 on; and zones that are refused, by their names.
const MADE: &str = r#"zoneinfo64:table(nofallback){
  TZVersion{"made"}
  Names{"A/Old","B/Link","C/Rule","D/South","Beyond","Before","Twice","Types","Half","Offsets",
    "Type","NoRule","NoRaw","NoYear","Year","Length","Month","Weekday","Day","Time","Clock",
    "Saving",}
  Zones:array{
    :table{
      transPre32:intvector{4294967295,2147483647}
      trans:intvector{0,100}
      transPost32:intvector{1,0}
      typeMap:bin{"01000102"}
      typeOffsets:intvector{-100,0,3600,0,3600,1800}
    }
    :int{0}
    :table{
      typeOffsets:intvector{-100,0}
      finalRule{"EU"}
      finalRaw:int{3600}
      finalYear:int{1997}
    }
    :table{
      typeOffsets:intvector{36000,0}
      finalRule{"AU"}
      finalRaw:int{36000}
      finalYear:int{2008}
    }
    :int{22}
    :int{-1}
    :int{1}
    :table{trans:intvector{0} typeOffsets:intvector{0,0}}
    :table{transPre32:intvector{0} typeOffsets:intvector{0,0}}
    :table{typeOffsets:intvector{}}
    :table{trans:intvector{0} typeMap:bin{"01"} typeOffsets:intvector{0,0}}
    :table{typeOffsets:intvector{0,0} finalRule{"XX"} finalRaw:int{0} finalYear:int{1970}}
    :table{typeOffsets:intvector{0,0} finalRule{"EU"} finalYear:int{1970}}
    :table{typeOffsets:intvector{0,0} finalRule{"EU"} finalRaw:int{0}}
    :table{typeOffsets:intvector{0,0} finalRule{"EU"} finalRaw:int{0} finalYear:int{1969}}
    :table{typeOffsets:intvector{0,0} finalRule{"length"} finalRaw:int{0} finalYear:int{1970}}
    :table{typeOffsets:intvector{0,0} finalRule{"month"} finalRaw:int{0} finalYear:int{1970}}
    :table{typeOffsets:intvector{0,0} finalRule{"weekday"} finalRaw:int{0} finalYear:int{1970}}
    :table{typeOffsets:intvector{0,0} finalRule{"day"} finalRaw:int{0} finalYear:int{1970}}
    :table{typeOffsets:intvector{0,0} finalRule{"time"} finalRaw:int{0} finalYear:int{1970}}
    :table{typeOffsets:intvector{0,0} finalRule{"clock"} finalRaw:int{0} finalYear:int{1970}}
    :table{typeOffsets:intvector{0,0} finalRule{"saving"} finalRaw:int{0} finalYear:int{1970}}
  }
  Rules{
    AU:intvector{9,1,-1,7200,1,3,1,-1,7200,1,3600}
    EU:intvector{2,-31,-1,3600,2,9,-31,-1,3600,2,3600}
    length:intvector{2,-31,-1,3600,2,9,-31,-1,3600,2}
    month:intvector{2,-31,-1,3600,2,12,-31,-1,3600,2,3600}
    weekday:intvector{2,-31,8,3600,2,9,-31,-1,3600,2,3600}
    day:intvector{2,-32,-1,3600,2,9,-31,-1,3600,2,3600}
    time:intvector{2,-31,-1,86401,2,9,-31,-1,3600,2,3600}
    clock:intvector{2,-31,-1,3600,3,9,-31,-1,3600,2,3600}
    saving:intvector{2,-31,-1,3600,2,9,-31,-1,3600,2,0}
  }
  Regions{"001",}
}"#;

/// A zone, a moment and the offset then. Those of the south are those of Sydney.
const ROWS: [(&str, i64, i64); 22] = [
    ("A/Old", -2_147_483_650, -100),
    ("A/Old", -2_147_483_649, 3600),
    ("A/Old", -1, 3600),
    ("A/Old", 0, -100),
    ("A/Old", 99, -100),
    ("B/Link", 100, 3600),
    ("B/Link", 4_294_967_295, 3600),
    ("B/Link", 4_294_967_296, 5400),
    ("C/Rule", 852_076_799, -100),
    ("C/Rule", 852_076_800, 3600),
    ("C/Rule", 1_679_792_399, 3600),
    ("C/Rule", 1_679_792_400, 7200),
    ("C/Rule", 1_698_541_199, 7200),
    ("C/Rule", 1_698_541_200, 3600),
    ("D/South", 1_199_145_599, 36_000),
    ("D/South", 1_199_145_600, 39_600),
    ("D/South", 1_680_364_799, 39_600),
    ("D/South", 1_680_364_800, 36_000),
    ("D/South", 1_696_089_599, 36_000),
    ("D/South", 1_696_089_600, 39_600),
    ("D/South", 1_704_067_199, 39_600),
    ("D/South", 1_704_067_200, 39_600),
];

/// A name, and why it has no zone.
const REFUSED: [(&str, ZoneError); 19] = [
    ("A/Older", ZoneError::NoZone),
    ("Beyond", ZoneError::Link),
    ("Before", ZoneError::Link),
    ("Twice", ZoneError::Link),
    ("Types", ZoneError::Count),
    ("Half", ZoneError::Count),
    ("Offsets", ZoneError::NoOffset),
    ("Type", ZoneError::Type),
    ("NoRule", ZoneError::NoRule),
    ("NoRaw", ZoneError::NoFinalRaw),
    ("NoYear", ZoneError::NoFinalYear),
    ("Year", ZoneError::FinalYear),
    ("Length", ZoneError::Rule(RuleError::Length)),
    ("Month", ZoneError::Rule(RuleError::Month)),
    ("Weekday", ZoneError::Rule(RuleError::Weekday)),
    ("Day", ZoneError::Rule(RuleError::Day)),
    ("Time", ZoneError::Rule(RuleError::Time)),
    ("Clock", ZoneError::Rule(RuleError::Clock)),
    ("Saving", ZoneError::Rule(RuleError::Saving)),
];

/// What two of these print.
const PRINTED: [(ZoneError, &str); 2] = [
    (ZoneError::NoZone, "no zone has this name"),
    (
        ZoneError::Rule(RuleError::Clock),
        "the zone's final rule is none: a clock is not 0, 1 or 2",
    ),
];

/// The records of a file.
fn info_of<'de>(alloc: Global, file: &'de [u8]) -> Option<ZoneInfo<'de>> {
    ZoneInfo::from_bytes(alloc, file).ok()
}

/// Whether a name has no zone, and this is why.
fn is_refused(info: &ZoneInfo<'_>, name: &str, wanted: ZoneError) -> bool {
    match info.zone(name) {
        Ok(_) => false,
        Err(error) => error == wanted,
    }
}

/// The offset of a zone of the file, if there is one.
fn offset_of(info: &ZoneInfo<'_>, name: &str, moment: i64) -> Option<i64> {
    let zone = info.zone(name).ok()?;
    Some(zone.offset_at(moment))
}

#[test]
fn a_made_file_has_its_offsets(rt: HostRuntime) -> Result<(), Fail> {
    let file = Compile::new(TextForm::Plain).text(rt.alloc(), MADE)?;
    let info = info_of(rt.alloc(), file.as_slice()).ok_or("the file is refused")?;
    for (name, moment, wanted) in ROWS {
        let found = offset_of(&info, name, moment).ok_or("no such zone")?;
        assert_eq!(rt; found, wanted, "{name} {moment}");
    }
    Ok(())
}

#[test]
fn faults_print_as_they_are(rt: HostRuntime) -> Result<(), Fail> {
    for (error, wanted) in PRINTED {
        let printed = format!(in rt.alloc(); "{error}")?;
        assert_eq!(rt; printed.as_str(), wanted);
    }
    Ok(())
}

#[test]
fn what_is_wrong_is_named(rt: HostRuntime) -> Result<(), Fail> {
    let file = Compile::new(TextForm::Plain).text(rt.alloc(), MADE)?;
    let info = info_of(rt.alloc(), file.as_slice()).ok_or("the file is refused")?;
    for (name, wanted) in REFUSED {
        assert!(rt; is_refused(&info, name, wanted), "{name}");
    }
    Ok(())
}
