//! A type as a user of the reader would write it: what is read as it, its two laws, and its
//! reading.
//! The words of its contracts are in `specs/Fields`, their laws in `specs/FieldLaws`, and the page
//! that walks through it is `docs/READING.md`.
ghost use Rattle.std.specs.Prelude.{◌≡◌, ◌+◌, ◌≤◌, ℕ, ◌∷◌, None, IfOk, IfErr};
ghost use Rattle.resb_read.specs.Reading.{LacksOrMemory};
ghost use Rattle.resb_read_rows.specs.Fields.{Entry, ReadsField, CountsFirst, ReadsBoth};
ghost use Rattle.resb_read_rows.specs.Fields.{CountsBoth};
ghost use Rattle.resb_read_rows.specs.FieldLaws.{both_counted, both_one, i16_counted, i16_one};
ghost use Rattle.resb_read_rows.specs.FieldLaws.{list_counted, list_one};

use resb_format::{BinaryDeserializerError, ReadingError};
use resb_read::{Cursor, Deserialize, MapAccess, Walk};
use std::alloc::Global;

/// A table with the entries `i` and `v`, in this order and no others.
#[derive(Debug, Drop)]
pub struct Both {
    /// The entry `i`.
    pub i: i16,
    /// The entry `v`.
    pub v: Vec<i32>,
}

impl<'de> Deserialize<'de> for Both {
    ghost reads = { λ p x n. ReadsBoth ⟦<i16 as Deserialize<'de>>⟧.reads
        ⟦<Vec<i32> as Deserialize<'de>>⟧.reads p x.i x.v n };

    ghost counts = { CountsBoth ⟦<i16 as Deserialize<'de>>⟧.counts
        ⟦<Vec<i32> as Deserialize<'de>>⟧.counts };

    ghost counted = { λ p x n. both_counted ⟦<i16 as Deserialize<'de>>⟧.reads
        ⟦<Vec<i32> as Deserialize<'de>>⟧.reads ⟦<i16 as Deserialize<'de>>⟧.counts
        ⟦<Vec<i32> as Deserialize<'de>>⟧.counts i16_counted (λ q v. list_counted q v.items) p x.i
        x.v n };

    ghost one_count = { both_one ⟦<i16 as Deserialize<'de>>⟧.counts
        ⟦<Vec<i32> as Deserialize<'de>>⟧.counts
        i16_one list_one };

    fn deserialize<'m>(
        alloc: Global,
        at: Cursor<'de>,
        walk: &mut Walk,
    ) -> Result<Both, ReadingError<'m>> {
        let mut entries = at.read_map(walk)?;
        let i = field::<i16>(alloc, &mut entries, "i", walk)?;
        let v = field::<Vec<i32>>(alloc, &mut entries, "v", walk)?;
        if entries.size_hint() > 0 {
            return Err(BinaryDeserializerError::unknown("more fields than two"));
        }
        Ok(Both { i, v })
    }
}

/// Reads the next entry's value, where its key is this name.
fn field<'de, 'm, T: Deserialize<'de>>(
    alloc: Global,
    entries: &mut MapAccess<'de, 'm>,
    name: &str,
    walk: &mut Walk,
) -> Result<T, ReadingError<'m>>
    requires { entries.old.failed ≡ None }
    ensures read { IfOk result (λ x. (e : Entry) × (n : ℕ)
        × (entries.old.rest ≡ e ∷ entries.new.rest) × (entries.new.failed ≡ None)
        × ReadsField name.now T.reads e x n × (walk.new + n ≡ walk.old)) }
    ensures refused { IfErr result (λ e. (walk.new ≤ walk.old)
        × LacksOrMemory (CountsFirst name.now T.counts entries.old.rest) walk.old e) }
{
    let Some((key, value)) = entries.next_entry_cursor()? else {
        return Err(BinaryDeserializerError::unknown("a field is missing"));
    };
    if key.read_str(walk)? != name {
        return Err(BinaryDeserializerError::unknown("another field"));
    }
    T::deserialize(alloc, value, walk)
}
