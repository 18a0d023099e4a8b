//! Texts of zones, compiled and read as a table of zones, and what the rules ask for. Each row is
//! a text and its answer, up to a `;`: a row more costs no proof. What no text says is in
//! `zone_rows`.
use resb::binary::{from_bytes, from_bytes_counted};
use resb::{Compile, TextForm};
use resb_examples::zones::ZoneTable;
use std::alloc::{AllocError, Global};
use std::test::Fail;

/// The zones that the answers speak of.
const NAMES: [&str; 3] = ["East", "Pole", "é"];

/// The moments of the offsets in the answers.
const MOMENTS: [i32; 8] = [i32::MIN, -1, 0, 99, 100, 199, 200, i32::MAX];

/// Texts with their zones: the count, the number of zones, and on a line of its own, after its
/// name, a zone's offset at each of the moments.
pub(crate) const ZONES: &str = r#"z{Pole{base:int{60}pairs:intvector{100,3600,200,7200}}}
  => 4 resources, 1 zones,
  Pole 60 60 60 60 3600 3600 7200 7200;
z{Pole{base:int{60}pairs:intvector{100,3600,200,7200}note{"n"}}} => 5 resources, 1 zones,
  Pole 60 60 60 60 3600 3600 7200 7200;
z{Pole{pairs:intvector{100,3600,200,7200}base:int{60}}} => 4 resources, 1 zones,
  Pole 60 60 60 60 3600 3600 7200 7200;
z{Pole{note{"n"}pairs:intvector{100,3600}
  zz:array{"x" {"y"}}base:int{60}aa:table{base{"x"}}mid:bin{"00"}}} => 8 resources, 1 zones,
  Pole 60 60 60 60 3600 3600 3600 3600;
z{Pole{base:int{60}pairs:intvector{}}} => 4 resources, 1 zones,
  Pole 60 60 60 60 60 60 60 60;
z{} => 1 resources, 0 zones;
z:table(nofallback){Pole{base:int{60}pairs:intvector{100,3600}}} => 4 resources, 1 zones,
  Pole 60 60 60 60 3600 3600 3600 3600;
z{Pole{base:int{-1}pairs:intvector{-5,10,-20,0,0,30}}} => 4 resources, 1 zones,
  Pole -1 0 30 30 30 30 30 30;
z{Pole{base:int{60}pairs:intvector{200,1,100,2,0,3,-1,4}}} => 4 resources, 1 zones,
  Pole 60 4 4 4 4 4 4 4;
z{Pole{base:int{60}pairs:intvector{100,1,100,2}}} => 4 resources, 1 zones,
  Pole 60 60 60 60 2 2 2 2;
z{Pole{base:int{134217727}pairs:intvector{2147483647,-2147483648}}} => 4 resources, 1 zones,
  Pole 134217727 134217727 134217727 134217727 134217727 134217727 134217727 -2147483648;
z{Pole{base:int{-134217728}pairs:intvector{-2147483648,2147483647}}} => 4 resources, 1 zones,
  Pole 2147483647 2147483647 2147483647 2147483647 2147483647 2147483647 2147483647 2147483647;
z{Pole{base:int{134217728}pairs:intvector{100,4294967295}}} => 4 resources, 1 zones,
  Pole -134217728 -134217728 -134217728 -134217728 -1 -1 -1 -1;
z{Pole{base:int{1}base:int{2}pairs:intvector{}}} => 4 resources, 1 zones,
  Pole 2 2 2 2 2 2 2 2;
z{Pole{base{"x"}pairs:intvector{100,1}base:int{60}pairs:intvector{100,2}}} => 4 resources, 1 zones,
  Pole 60 60 60 60 2 2 2 2;
z{Pole{pairs:intvector{100,1}base:int{60}pairs:intvector{}base:int{61}}} => 4 resources, 1 zones,
  Pole 61 61 61 61 61 61 61 61;
z{East{base:int{1}pairs:intvector{100,2}}Pole{base:int{60}pairs:intvector{200,7200}}}
  => 7 resources, 2 zones,
  East 1 1 1 1 2 2 2 2,
  Pole 60 60 60 60 60 60 7200 7200;
z{Pole{base:int{60}pairs:intvector{200,7200}}East{base:int{1}pairs:intvector{100,2}}}
  => 7 resources, 2 zones,
  East 1 1 1 1 2 2 2 2,
  Pole 60 60 60 60 60 60 7200 7200;
z{Pole{base:int{1}pairs:intvector{100,2}}Pole{base:int{60}pairs:intvector{}}}
  => 4 resources, 1 zones,
  Pole 60 60 60 60 60 60 60 60;
z{Pole{base{"x"}}Pole{base:int{60}pairs:intvector{}}} => 4 resources, 1 zones,
  Pole 60 60 60 60 60 60 60 60;
z{pole{base:int{1}pairs:intvector{}}Pol{base:int{2}pairs:intvector{}}
  "Pole "{base:int{3}pairs:intvector{}}}
  => 10 resources, 3 zones;
z{Pole{Base{"x"}base:int{60}base2{"x"}pairs:intvector{0,1}Pairs{"x"}pair{"x"}bas{"x"}}}
  => 9 resources, 1 zones,
  Pole 60 60 1 1 1 1 1 1;
z{Pole{base:int{60}pairs:bin{"6400000010000000"}}} => 4 resources, 1 zones,
  Pole 60 60 60 60 16 16 16 16;
z{Pole{base:int{60}pairs{"abcd"}}} => 4 resources, 1 zones,
  Pole 60 60 60 60 60 60 60 6553699;
z{""{base:int{1}pairs:intvector{}}"é"{base:int{2}pairs:intvector{0,5}}} => 7 resources, 2 zones,
  é 2 2 5 5 5 5 5 5;
z{Pole{""{"x"}base:int{60}"é"{"y"}pairs:intvector{0,1}}} => 6 resources, 1 zones,
  Pole 60 60 1 1 1 1 1 1;
z{/*c*/Pole/*{*/{base:integer{+60}pairs:intvector{100,+3600,}}} => 4 resources, 1 zones,
  Pole 60 60 60 60 3600 3600 3600 3600;
z{Pole{base:int{60}pairs{""}}} => 4 resources, 1 zones,
  Pole 60 60 60 60 60 60 60 60;
z{Pole{base:int{60}pairs:bin{""}}} => 4 resources, 1 zones,
  Pole 60 60 60 60 60 60 60 60;
"#;

/// Texts that hold no table of zones, and what they are refused for.
pub(crate) const REFUSALS: &str = r#"z{Pole{base:int{60}}} => Unknown error: zone field missing;
z{Pole{base:int{60}pairs:intvector{1,2,3}}} => Unknown error: Wrong length;
z{Pole{base:int{60}pairs:intvector{1}}} => Unknown error: Wrong length;
z{Pole{pairs:intvector{1,2}}} => Unknown error: zone field missing;
z{Pole:table{}} => Unknown error: zone field missing;
z{Pole{note{"n"}}} => Unknown error: zone field missing;
z{Pole{pairs:intvector{1}}} => Unknown error: Wrong length;
z{Pole{base{"x"}}} => Unknown error: value cannot be read here;
z{Pole{base{"x"}pairs:intvector{1,2}}}
  => Resource did not match expected data type: expected integer resource;
z{Pole{base{"x"}pairs:intvector{1,2,3}}}
  => Resource did not match expected data type: expected integer resource;
z{Pole{base:int{60}pairs:int{1}}}
  => Resource did not match expected data type: expected binary data resource;
z{Pole{base:int{60}pairs{"x"}}} => Unknown error: Wrong length;
z{Pole{base:int{60}pairs:array{:int{100} :int{3600}}}}
  => Resource did not match expected data type: expected binary data resource;
z{Pole{base:intvector{60}pairs:intvector{1,2}}}
  => Resource did not match expected data type: expected integer resource;
z{Pole{"x"}} => Unknown error: value cannot be read here;
z{Pole{x,y}} => Resource did not match expected data type: expected table resource;
z{Pole:array{:int{60}}} => Resource did not match expected data type: expected table resource;
z{Pole:int{60}} => Resource did not match expected data type: expected table resource;
z{Pole:intvector{100,3600}} => Resource did not match expected data type: expected table resource;
z{Pole{base:int{60}pairs:intvector{}}note{"n"}}
  => Resource did not match expected data type: expected table resource;
z{East{base:int{60}}Pole{base:int{60}pairs:intvector{}}} => Unknown error: zone field missing;
z{Pole{base:int{60}pairs:intvector{}}West{base:int{60}pairs:intvector{1}}}
  => Unknown error: Wrong length;
z{Pole{base:int{60}pairs:binary{"64000000"}}} => Unknown error: Wrong length;
z{Pole{pairs{"abcd"}}} => Unknown error: zone field missing;
z{Pole{pairs{"abc"}}} => Unknown error: Wrong length;
z{Pole{base{""}pairs{""}}} => Unknown error: value cannot be read here;
z{Pole{base:bin{"3c000000"}pairs:intvector{}}}
  => Resource did not match expected data type: expected integer resource;
z{Pole:string{"base"}} => Unknown error: value cannot be read here;
z{Pole:bin{""}} => Resource did not match expected data type: expected table resource;
z{Pole:array{}} => Resource did not match expected data type: expected table resource;
z{Pole{}} => Unknown error: zone field missing;
"#;

/// The table as the rows write it.
fn described(alloc: Global, table: &ZoneTable<'_>, count: usize) -> Result<String, AllocError> {
    let zones = table.len();
    let mut line = format!(in alloc; "{count} resources, {zones} zones")?;
    for name in NAMES {
        if let Some(zone) = table.zone(name) {
            line.push_str(",\n  ")?;
            line.push_str(name)?;
            for moment in MOMENTS {
                let offset = zone.offset_at(moment);
                let digits = format!(in alloc; " {offset}")?;
                line.push_str(digits.as_str())?;
            }
        }
    }
    Ok(line)
}

/// The line of what is read of the text's file.
pub(crate) fn line_of_zones(alloc: Global, text: &str) -> Result<String, Fail> {
    let file = Compile::new(TextForm::Plain).text(alloc, text)?;
    match from_bytes::<ZoneTable>(alloc, file.as_slice()) {
        Ok(table) => {
            let (_, count) = from_bytes_counted::<ZoneTable>(alloc, file.as_slice())?;
            Ok(described(alloc, &table, count)?)
        }
        Err(error) if error.is_out_of_memory() => Err(error)?,
        Err(error) => Ok(format!(in alloc; "{error}")?),
    }
}
