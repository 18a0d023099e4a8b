//! Options and lists of what can be read.
//! Their laws follow from those of their parts alone.
ghost use Rattle.std.specs.Prelude.{◌≡◌, ◌≤◌, ◌+◌, ℕ, None, IfOk, IfErr, IsSomeAnd};
ghost use Rattle.resb_read.specs.Reading.{LacksOrMemory};
ghost use Rattle.resb_read.specs.Sequences.{ReadsEach, CountsEach, ReadsSeq, CountsSeq};
ghost use Rattle.resb_read.specs.RefusedReadings.{RefusesThere, RefusesEach, RefusesSeq};
ghost use Rattle.resb_read.specs.TypeLaws.{option_counted, seq_counted, seq_one};

use crate::cursor::Cursor;
use crate::deserialize::Deserialize;
use crate::sequences::SeqAccess;
use resb_format::ReadingError;
use resb_walk::Walk;
use std::alloc::Global;

impl<'de, T: Deserialize<'de>> Deserialize<'de> for Option<T> {
    ghost reads = { λ p o n. IsSomeAnd o (λ x. T.reads p x n) };

    ghost counts = { T.counts };

    ghost refuses = { T.refuses };

    ghost counted = { option_counted T.reads T.counts T.counted };

    ghost one_count = { T.one_count };

    fn deserialize<'m>(
        alloc: Global,
        at: Cursor<'de>,
        walk: &mut Walk,
    ) -> Result<Option<T>, ReadingError<'m>> {
        Ok(Some(T::deserialize(alloc, at, walk)?))
    }
}

/// Reads all members that are still to come.
fn read_members<'de, 'm, T: Deserialize<'de>>(
    alloc: Global,
    mut seq: SeqAccess<'de, 'm>,
    walk: &mut Walk,
) -> Result<Vec<T>, ReadingError<'m>>
    requires { seq.failed ≡ None }
    ensures read { IfOk result
        (λ v. (n : ℕ) × ReadsEach T.reads seq.entry.rest v.items n × (walk.new + n ≡ walk.old)) }
    ensures refused { IfErr result (λ e. (walk.new ≤ walk.old)
        × LacksOrMemory (CountsEach T.counts seq.entry.rest) walk.old e) }
    ensures says { IfErr result
        (RefusesEach T.counts (RefusesThere T.counts T.refuses) seq.entry.rest walk.old walk.new) }
{
    let mut values = Vec::new(alloc);
    'members: while let Some(value) = seq.next_element::<T>(alloc, walk)? {
        values.push(value)?;
    }
    Ok(values)
}

impl<'de, T: Deserialize<'de>> Deserialize<'de> for Vec<T> {
    ghost reads = { λ p v n. ReadsSeq T.reads p v.items n };

    ghost counts = { CountsSeq T.counts };

    ghost refuses = { RefusesSeq T.counts T.refuses };

    ghost counted = { λ p v n. seq_counted T.reads T.counts T.counted p v.items n };

    ghost one_count = { seq_one T.counts T.one_count };

    fn deserialize<'m>(
        alloc: Global,
        at: Cursor<'de>,
        walk: &mut Walk,
    ) -> Result<Vec<T>, ReadingError<'m>> {
        let seq = at.read_seq(walk)?;
        read_members(alloc, seq, walk)
    }
}
