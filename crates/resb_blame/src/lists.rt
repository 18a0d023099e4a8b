//! What is to blame in options and lists.
//! How these are read is said in `resb_read::lists`.
ghost use Rattle.std.specs.Prelude.{◌≡◌, ◌+◌, ◌⊎◌, ℕ, None, IfOk, IfErr};
ghost use Rattle.resb_format.specs.Error.{IsWantOfMemory};
ghost use Rattle.resb_read.specs.Sequences.{CountsEach};
ghost use Rattle.resb_blame.specs.Blames.{BlamesSeq, BlamesOne};
ghost use Rattle.resb_blame.specs.Pointing.{seq_points};

use crate::blame::Blame;
use crate::blames::Blames;
use resb_diff::PathStep;
use resb_read::{Cursor, SeqAccess, Walk};
use std::alloc::Global;

impl<'de, T: Blames<'de>> Blames<'de> for Option<T> {
    ghost blames = { T.blames };

    ghost points = { T.points };

    fn blame<'m>(alloc: Global, at: Cursor<'de>, walk: &mut Walk) -> Result<(), Blame<'de, 'm>> {
        T::blame(alloc, at, walk)
    }
}

/// Goes through all members that are still to come.
fn blame_members<'de, 'm, T: Blames<'de>>(
    alloc: Global,
    mut seq: SeqAccess<'de, 'm>,
    walk: &mut Walk,
) -> Result<(), Blame<'de, 'm>>
    requires { seq.failed ≡ None }
    ensures counted { IfOk result (λ _. (n : ℕ)
        × CountsEach T.counts seq.entry.rest n × (walk.new + n ≡ walk.old)) }
    ensures blamed { IfErr result (λ b. IsWantOfMemory b.error
        ⊎ BlamesOne T.counts T.blames seq.entry.rest walk.old walk.new b) }
{
    let count = seq.size_hint();
    'members: while let Ok(Some(at)) = seq.next_cursor() {
        if let Err(blame) = T::blame(alloc, at, walk) {
            let number = count - seq.size_hint() - 1;
            return Err(blame.under(PathStep::Number(number)));
        }
    }
    Ok(())
}

impl<'de, T: Blames<'de>> Blames<'de> for Vec<T> {
    ghost blames = { BlamesSeq T.counts T.blames };

    ghost points = { seq_points T.counts T.blames T.points };

    fn blame<'m>(alloc: Global, at: Cursor<'de>, walk: &mut Walk) -> Result<(), Blame<'de, 'm>> {
        match at.read_seq(walk) {
            Ok(seq) => blame_members::<T>(alloc, seq, walk),
            Err(error) => Err(Blame::whole(alloc, error)),
        }
    }
}
