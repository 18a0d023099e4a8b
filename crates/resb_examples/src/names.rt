//! Names that users see, out of ICU's files of languages and zones over their pool bundles.
//! Offsets of zones are read in `zones`.
ghost use Rattle.std.specs.Prelude.{codes, ◌∷◌, []};

use resb::binary::{BinaryDeserializerError, File, PoolBundle};
use resb::fields::{Maybe, Record, Table};
use std::alloc::Global;

/// The long names of a zone, or of zones that share them, as `meta:Europe_Central`.
#[derive(Debug, Drop)]
pub struct ZoneNames {
    /// Its name in summer.
    pub daylight: Option<String>,
    /// Its name at no certain time of the year.
    pub generic: Option<String>,
    /// Its name in winter.
    pub standard: Option<String>,
}

/// The types of its fields in the file: each may be left out.
pub type ZoneNamesFields = (Maybe<String>, Maybe<String>, Maybe<String>);

impl<'de> Record<'de, ZoneNamesFields> for ZoneNames {
    ghost names = { codes "ld" ∷ codes "lg" ∷ codes "ls" ∷ [] };

    ghost made = { λ f. record { daylight = f.0.0; generic = f.1.0; standard = f.2.0 } };

    fn names() -> &'de [&'de str] {
        &["ld", "lg", "ls"]
    }

    fn made(fields: ZoneNamesFields) -> ZoneNames {
        let (Maybe(daylight), Maybe(generic), Maybe(standard)) = fields;
        ZoneNames {
            daylight,
            generic,
            standard,
        }
    }
}

/// The name of a language by its code, as `de`, out of a file of ICU's folder `lang` and the pool
/// bundle there.
pub fn language_name<'a>(
    alloc: Global,
    file: &'a [u8],
    pool: Option<PoolBundle<'a>>,
    code: &str,
) -> Result<Option<String>, BinaryDeserializerError> {
    let (root, mut walk) = File::open(file, pool)?.root();
    let bundle = root.read_table(&mut walk)?;
    let Some(languages) = bundle.get("Languages") else {
        return Ok(None);
    };
    let languages = languages.read_table(&mut walk)?;
    languages.value(alloc, code, &mut walk)
}

/// The long names of a zone, as `meta:Europe_Central`, out of a file of ICU's folder `zone` and the
/// pool bundle there.
pub fn zone_names<'a>(
    alloc: Global,
    file: &'a [u8],
    pool: Option<PoolBundle<'a>>,
    zone: &str,
) -> Result<Option<ZoneNames>, BinaryDeserializerError> {
    let (root, mut walk) = File::open(file, pool)?.root();
    let bundle = root.read_table(&mut walk)?;
    let Some(zones) = bundle.get("zoneStrings") else {
        return Ok(None);
    };
    let zones = zones.read_table(&mut walk)?;
    let found: Option<Table<ZoneNames, ZoneNamesFields>> = zones.value(alloc, zone, &mut walk)?;
    Ok(found.map(|table| table.0))
}
