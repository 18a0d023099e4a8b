//! What is to blame where a record isn't read.
//! What a record is is said in `resb_fields`.
ghost use Rattle.std.specs.Prelude.{◌≡◌, ◌+◌, ◌⊎◌, ℕ, List, Some, map, length, IfOk, IfErr};
ghost use Rattle.resb_format.specs.Error.{IsWantOfMemory};
ghost use Rattle.resb_fields.specs.Fields.{Entry};
ghost use Rattle.resb_read.specs.Places.{Place};
ghost use Rattle.resb_read.specs.Sequences.{entries_at};
ghost use Rattle.resb_read.specs.Tables.{view_entries};
ghost use Rattle.resb_blame.specs.Blamed.{Blamed, Points};
ghost use Rattle.resb_blame.specs.BlamedFields.{BlamesRecord};
ghost use Rattle.resb_blame.specs.Pointing.{record_points};

use crate::blame::Blame;
use crate::blames::Blames;
use resb_fields::{Fields, Record, Table};
use resb_read::{Cursor, TableView, Walk};
use std::alloc::Global;

/// Fields that tell what is to blame where they aren't read.
pub trait BlamesFields<'de>: Fields<'de> {
    /// At the fields of these names among these entries, this may be blamed.
    ghost blames: { List (List ℕ) → List Entry → ℕ → ℕ → Blamed → Type 0 };

    /// Goes through the fields as `read_fields` does, and makes nothing of them.
    fn blame_fields<'m>(
        alloc: Global,
        table: TableView<'de>,
        names: &[&'de str],
        walk: &mut Walk,
    ) -> Result<(), Blame<'de, 'm>>
        requires { length names.now ≡ Self.size }
        ensures counted { IfOk result (λ _. (n : ℕ)
            × Self.counts (map (λ s. s.now) names.now) (view_entries table.entry) n
            × (walk.new + n ≡ walk.old)) }
        ensures blamed { IfErr result (λ b. IsWantOfMemory b.error
            ⊎ blames (map (λ s. s.now) names.now) (view_entries table.entry) walk.old walk.new b) };

    /// The path leads from the table of the fields to a place, and a field that is named is one
    /// that the table there lacks.
    ghost points: { (p : Place) (es : List Entry) (names : List (List ℕ)) (left left' : ℕ)
        (b : Blamed) → entries_at p ≡ Some es → blames names es left left' b → Points p b };
}

impl<'de, F: BlamesFields<'de>, R: Record<'de, F>> Blames<'de> for Table<R, F> {
    ghost blames = { BlamesRecord F.blames R.names };

    ghost points = { record_points F.blames F.points R.names };

    fn blame<'m>(alloc: Global, at: Cursor<'de>, walk: &mut Walk) -> Result<(), Blame<'de, 'm>> {
        match at.read_table(walk) {
            Ok(table) => F::blame_fields(alloc, table, R::names(), walk),
            Err(error) => Err(Blame::whole(alloc, error)),
        }
    }
}
