//! The records of the file: what a zone's table and the whole file hold, as they stand there.
//! How a zone's record is checked is said in `checking`.
ghost use Rattle.resb_zoneinfo.specs.ZoneKeys.{zone_keys};

use crate::linked::Linked;
use crate::transitions::Transitions;
use resb::binary::helpers::{I32View, PairView, Utf16View, WordView};
use resb::fields::{Maybe, Record, Table};
use std::collections::BTreeMap;

/// A zone as its table has it.
#[derive(Drop)]
pub struct ZoneData<'de> {
    /// When the offset changed.
    pub transitions: Transitions<'de>,
    /// A byte for each transition: which of the types it changed to. It may be left out where there
    /// is no transition.
    pub types: Option<&'de [u8]>,
    /// Of each type the offset without what is saved, and what is saved, both in seconds.
    pub offsets: PairView<'de>,
    /// The name of the rule of the final years, if there are any.
    pub final_rule: Option<String>,
    /// The offset in the final years, in seconds, without what is saved.
    pub final_raw: Option<i32>,
    /// The first of the final years.
    pub final_year: Option<i32>,
}

/// The types of a zone's fields in the file.
pub type ZoneFields<'de> = (
    Maybe<WordView<'de>>,
    Maybe<I32View<'de>>,
    Maybe<WordView<'de>>,
    Maybe<&'de [u8]>,
    PairView<'de>,
    Maybe<String>,
    Maybe<i32>,
    Maybe<i32>,
);

impl<'de> Record<'de, ZoneFields<'de>> for ZoneData<'de> {
    ghost names = { zone_keys };

    ghost made = { λ f. record {
      transitions = record { before32 = f.0.0; within32 = f.1.0; after32 = f.2.0 };
      types = f.3.0;
      offsets = f.4;
      final_rule = f.5.0;
      final_raw = f.6.0;
      final_year = f.7.0;
    } };

    fn names() -> &'de [&'de str] {
        &[
            "transPre32",
            "trans",
            "transPost32",
            "typeMap",
            "typeOffsets",
            "finalRule",
            "finalRaw",
            "finalYear",
        ]
    }

    fn made(fields: ZoneFields<'de>) -> ZoneData<'de> {
        let (pre, mid, post, types, offsets, rule, raw, year) = fields;
        ZoneData {
            transitions: Transitions {
                before32: pre.0,
                within32: mid.0,
                after32: post.0,
            },
            types: types.0,
            offsets,
            final_rule: rule.0,
            final_raw: raw.0,
            final_year: year.0,
        }
    }
}

/// The types of the values of a file's root: its version, names, zones, rules and regions.
pub type InfoFields<'de> = (
    String,
    Vec<Utf16View<'de>>,
    Vec<Linked<Table<ZoneData<'de>, ZoneFields<'de>>>>,
    BTreeMap<&'de str, I32View<'de>>,
    Vec<Utf16View<'de>>,
);

/// The whole file: its zones by number, and their names, rules and regions. Each is the value of a
/// key of the file's root, `TZVersion`, `Names`, `Zones`, `Rules` and `Regions`.
#[derive(Drop)]
pub struct ZoneInfo<'de> {
    /// The version of the time zone database that the file was made of.
    pub version: String,
    /// The names of the zones, in the order of `zones`.
    pub names: Vec<Utf16View<'de>>,
    /// The zones: each is a table, or the number of the zone that it is the same as.
    pub zones: Vec<Linked<Table<ZoneData<'de>, ZoneFields<'de>>>>,
    /// The rules of final years by their names: eleven numbers each.
    pub rules: BTreeMap<&'de str, I32View<'de>>,
    /// The region that each zone is in, in the order of `zones`.
    pub regions: Vec<Utf16View<'de>>,
}
