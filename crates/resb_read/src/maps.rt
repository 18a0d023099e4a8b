//! Maps of what can be read.
//! Their laws follow from those of their keys and values alone.
ghost use Rattle.std.specs.Prelude.{◌≡◌, ◌≤◌, ◌+◌, ℕ, None, IfOk, IfErr};
ghost use Rattle.resb_read.specs.Reading.{LacksOrMemory};
ghost use Rattle.resb_read.specs.Sequences.{ReadsAll, CountsEach, CountsEntry, ReadsMap, CountsMap};
ghost use Rattle.resb_read.specs.RefusedReadings.{RefusesEach, RefusesKeyOrValue, RefusesMap};
ghost use Rattle.resb_read.specs.TypeLaws.{map_counted, map_one};

use crate::cursor::Cursor;
use crate::deserialize::Deserialize;
use crate::entries::MapAccess;
use resb_format::ReadingError;
use resb_walk::Walk;
use std::alloc::Global;
use std::collections::BTreeMap;

/// Reads all entries that are still to come. The last value of an equal key stands.
fn read_entries<'de, 'm, K: Deserialize<'de> + Ord, T: Deserialize<'de>>(
    alloc: Global,
    mut access: MapAccess<'de, 'm>,
    walk: &mut Walk,
) -> Result<BTreeMap<K, T>, ReadingError<'m>>
    requires { access.failed ≡ None }
    ensures read { IfOk result (λ m. (n : ℕ)
        × ReadsAll K.cmp K.reads T.reads access.entry.rest m.entries n
        × (walk.new + n ≡ walk.old)) }
    ensures refused { IfErr result (λ e. (walk.new ≤ walk.old)
        × LacksOrMemory (CountsEach (CountsEntry K.counts T.counts) access.entry.rest) walk.old
        e) }
    ensures says { IfErr result (RefusesEach (CountsEntry K.counts T.counts)
        (RefusesKeyOrValue K.counts K.refuses T.counts T.refuses) access.entry.rest walk.old
        walk.new) }
{
    let mut map = BTreeMap::new(alloc);
    'entries: while let Some((key, value)) = access.next_entry::<K, T>(alloc, walk)? {
        map.insert(key, value)?;
    }
    Ok(map)
}

impl<'de, K: Deserialize<'de> + Ord, T: Deserialize<'de>> Deserialize<'de> for BTreeMap<K, T> {
    ghost reads = { λ p m n. ReadsMap K.cmp K.reads T.reads p m.entries n };

    ghost counts = { CountsMap K.counts T.counts };

    ghost refuses = { RefusesMap K.counts K.refuses T.counts T.refuses };

    ghost counted = { λ p m n. map_counted K.reads T.reads K.counts T.counts K.counted T.counted
        K.cmp p
        m.entries n };

    ghost one_count = { map_one K.counts T.counts K.one_count T.one_count };

    fn deserialize<'m>(
        alloc: Global,
        at: Cursor<'de>,
        walk: &mut Walk,
    ) -> Result<BTreeMap<K, T>, ReadingError<'m>> {
        let access = at.read_map(walk)?;
        read_entries(alloc, access, walk)
    }
}
