//! A zone: its first offset, and the pairs of a moment and the offset from then on.
//! How its entries are read one after another is said in `fields`.
ghost use Rattle.std.specs.Prelude.{◌≡◌, ◌≤◌, ◌+◌, ℕ, IfOk, IfErr, codes};
ghost use Rattle.resb.specs.Error.{IsRefusal};
ghost use Rattle.resb.specs.Places.{place_of};
ghost use Rattle.resb.specs.Reading.{LacksOrMemory};
ghost use Rattle.resb_examples.specs.Offsets.{IsOffset};
ghost use Rattle.resb_examples.specs.Zones.{ReadsZone, CountsZone, LacksField};
ghost use Rattle.resb_examples.specs.ZoneLaws.{zone_counted, zone_one};

use crate::zones::fields::read_fields;
use resb::binary::helpers::PairView;
use resb::binary::{BinaryDeserializerError, Cursor, Deserialize, ErrorKind, ReadingError, Walk};
use std::alloc::Global;

/// A zone, read from a table with the entries `base` and `pairs`. Any other entry is skipped.
#[derive(Clone, Copy)]
pub struct Zone<'de> {
    /// The offset before each pair's moment.
    pub base: i32,
    /// A moment, and the offset from then on. They stand in the file.
    pub pairs: PairView<'de>,
}

impl<'de> Zone<'de> {
    /// The offset at a moment: that of the last pair, in their order, whose moment is not after it,
    /// else the base.
    pub fn offset_at(&self, moment: i32) -> i32
        ensures { IsOffset self.now moment result }
    {
        for number in (0..self.pairs.len()).rev() {
            let pair = self.pairs.item(number);
            if pair.0 <= moment {
                return pair.1;
            }
        }
        self.base
    }
}

impl<'de> Deserialize<'de> for Zone<'de> {
    ghost reads = { ReadsZone };

    ghost counts = { CountsZone };

    ghost counted = { zone_counted };

    ghost one_count = { zone_one };

    /// Refused as `zone field missing` where all entries can be read and paid for, and `base` or
    /// `pairs` is not among them.
    fn deserialize<'m>(
        _alloc: Global,
        at: Cursor<'de>,
        walk: &mut Walk,
    ) -> Result<Zone<'de>, ReadingError<'m>>
        ensures read { let p = place_of at.entry in
            IfOk result (λ z. (n : ℕ) × ReadsZone p z n × (walk.new + n ≡ walk.old)) }
        ensures refused { let p = place_of at.entry in
            IfErr result (λ e. (walk.new ≤ walk.old) × LacksOrMemory (CountsZone p) walk.old e) }
        ensures says { IfErr result (λ _. Unit {0}) }
        ensures missing { let p = place_of at.entry in
            IfErr result (λ e. LacksField p walk.old
            → IsRefusal e ErrorKind.Unknown (codes "zone field missing")) }
    {
        let entries = at.read_map(walk)?;
        let fields = read_fields(entries, walk)?;
        match (fields.base, fields.pairs) {
            (Some(base), Some(pairs)) => Ok(Zone { base, pairs }),
            _ => Err(BinaryDeserializerError::unknown("zone field missing")),
        }
    }
}
