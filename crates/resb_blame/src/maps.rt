//! What is to blame in maps.
//! How these are read is said in `resb_read::maps`.
ghost use Rattle.std.specs.Prelude.{◌≡◌, ◌+◌, ◌⊎◌, ℕ, None, IfOk, IfErr};
ghost use Rattle.resb_format.specs.Error.{IsWantOfMemory};
ghost use Rattle.resb_read.specs.Places.{place_of};
ghost use Rattle.resb_read.specs.RefusedReadings.{RefusesOne};
ghost use Rattle.resb_read.specs.Sequences.{CountsEach, CountsEntry};
ghost use Rattle.resb_blame.specs.Blames.{BlamesEntry, BlamesMap, IsUnderKey};
ghost use Rattle.resb_blame.specs.Pointing.{map_points};

use crate::blame::Blame;
use crate::blames::Blames;
use resb_diff::PathStep;
use resb_read::{Cursor, Deserialize, MapAccess, Walk};
use std::alloc::Global;
use std::collections::BTreeMap;

/// What is to blame at the value of an entry, seen from its table: under the entry's key, if that
/// is a text.
fn under_key<'de, 'm>(
    alloc: Global,
    key_at: Cursor<'de>,
    value_at: Cursor<'de>,
    blame: Blame<'de, 'm>,
) -> Blame<'de, 'm>
    ensures { IsWantOfMemory result.error
        ⊎ IsUnderKey (place_of key_at.entry, place_of value_at.entry) blame.entry result }
{
    match key_at.read_str(&mut Walk::new(0)) {
        Ok(name) => blame.under(PathStep::Key(name)),
        Err(_) => Blame::whole(alloc, blame.error()),
    }
}

/// Goes through a key, and then through its value.
fn blame_entry<'de, 'm, K: Deserialize<'de>, T: Blames<'de>>(
    alloc: Global,
    key_at: Cursor<'de>,
    value_at: Cursor<'de>,
    walk: &mut Walk,
) -> Result<(), Blame<'de, 'm>>
    ensures counted { IfOk result (λ _. (n : ℕ)
        × CountsEntry K.counts T.counts (place_of key_at.entry, place_of value_at.entry) n
        × (walk.new + n ≡ walk.old)) }
    ensures blamed { IfErr result (λ b. IsWantOfMemory b.error
        ⊎ BlamesEntry K.counts K.refuses T.counts T.blames
        (place_of key_at.entry, place_of value_at.entry) walk.old walk.new b) }
{
    if let Err(error) = K::deserialize(alloc, key_at, walk) {
        return Err(Blame::whole(alloc, error));
    }
    match T::blame(alloc, value_at, walk) {
        Ok(()) => Ok(()),
        Err(blame) => Err(under_key(alloc, key_at, value_at, blame)),
    }
}

/// Goes through all entries that are still to come.
fn blame_entries<'de, 'm, K: Deserialize<'de>, T: Blames<'de>>(
    alloc: Global,
    mut access: MapAccess<'de, 'm>,
    walk: &mut Walk,
) -> Result<(), Blame<'de, 'm>>
    requires { access.failed ≡ None }
    ensures counted { IfOk result (λ _. (n : ℕ)
        × CountsEach (CountsEntry K.counts T.counts) access.entry.rest n
        × (walk.new + n ≡ walk.old)) }
    ensures blamed { IfErr result (λ b. IsWantOfMemory b.error
        ⊎ RefusesOne (CountsEntry K.counts T.counts)
        (BlamesEntry K.counts K.refuses T.counts T.blames) access.entry.rest walk.old walk.new b) }
{
    'entries: while let Ok(Some((key_at, value_at))) = access.next_entry_cursor() {
        if let Err(blame) = blame_entry::<K, T>(alloc, key_at, value_at, walk) {
            return Err(blame);
        }
    }
    Ok(())
}

impl<'de, K: Deserialize<'de> + Ord, T: Blames<'de>> Blames<'de> for BTreeMap<K, T> {
    ghost blames = { BlamesMap K.counts K.refuses T.counts T.blames };

    ghost points = { map_points K.counts K.refuses T.counts T.blames T.points };

    fn blame<'m>(alloc: Global, at: Cursor<'de>, walk: &mut Walk) -> Result<(), Blame<'de, 'm>> {
        match at.read_map(walk) {
            Ok(access) => blame_entries::<K, T>(alloc, access, walk),
            Err(error) => Err(Blame::whole(alloc, error)),
        }
    }
}
