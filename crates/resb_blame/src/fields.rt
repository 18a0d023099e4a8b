//! What is to blame at a field of a record, and at a chain of fields.
//! Which fields there are is said in `resb_fields`; records are in `records`.
ghost use Rattle.std.specs.Prelude.{◌≡◌, ◌+◌, ◌⊎◌, ℕ, List, Option, Some, map, length};
ghost use Rattle.std.specs.Prelude.{option_map, IfOk, IfErr};
ghost use Rattle.resb_format.specs.Error.{IsWantOfMemory};
ghost use Rattle.resb_fields.specs.Fields.{Entry, RefusesNext};
ghost use Rattle.resb_read.specs.Places.{Place, place_of};
ghost use Rattle.resb_read.specs.Sequences.{entries_at};
ghost use Rattle.resb_read.specs.Tables.{view_entries, last_named};
ghost use Rattle.resb_blame.specs.Blamed.{Blamed, Points};
ghost use Rattle.resb_blame.specs.BlamedFields.{BlamesAt, BlamesRequired, BlamesFound};
ghost use Rattle.resb_blame.specs.BlamedFields.{BlamesNone};
ghost use Rattle.resb_blame.specs.Pointing.{required_points, found_points};
ghost use Rattle.resb_blame.specs.Pointing.{points_none, points_next, points_three};

use crate::blame::Blame;
use crate::blames::Blames;
use resb_diff::PathStep;
use resb_fields::{Chain, Field, Maybe, OrDefault};
use resb_format::BinaryDeserializerError;
use resb_read::{Cursor, TableView, Walk};
use std::alloc::Global;

/// A field that tells what is to blame where it isn't read.
pub trait BlamesField<'de>: Field<'de> {
    /// At a field of this name, given where its value stands, this may be blamed.
    ghost blames: { List ℕ → Option Place → ℕ → ℕ → Blamed → Type 0 };

    /// Goes through a field as `read_field` does, and makes no value of it.
    fn blame_field<'m>(
        alloc: Global,
        at: Option<Cursor<'de>>,
        name: &'de str,
        walk: &mut Walk,
    ) -> Result<(), Blame<'de, 'm>>
        ensures counted { IfOk result (λ _. (n : ℕ)
            × Self.counts (option_map place_of at.entry) n × (walk.new + n ≡ walk.old)) }
        ensures blamed { IfErr result (λ b. IsWantOfMemory b.error
            ⊎ blames name.entry.now (option_map place_of at.entry) walk.old walk.new b) };

    /// The path leads from the table of the field to a place, and a field that is named is one that
    /// the table there lacks.
    ghost points: { (p : Place) (es : List Entry) (name : List ℕ) (o : Option Place)
        (left left' : ℕ) (b : Blamed)
        → entries_at p ≡ Some es → last_named name es ≡ o → blames name o left left' b
        → Points p b };
}

/// Goes through the value of a name.
fn blame_at<'de, 'm, T: Blames<'de>>(
    alloc: Global,
    at: Cursor<'de>,
    name: &'de str,
    walk: &mut Walk,
) -> Result<(), Blame<'de, 'm>>
    ensures counted { IfOk result
        (λ _. (n : ℕ) × T.counts (place_of at.entry) n × (walk.new + n ≡ walk.old)) }
    ensures blamed { IfErr result (λ b. IsWantOfMemory b.error
        ⊎ BlamesAt T.blames name.entry.now (place_of at.entry) walk.old walk.new b) }
{
    match T::blame(alloc, at, walk) {
        Ok(()) => Ok(()),
        Err(blame) => Err(blame.under(PathStep::Key(name))),
    }
}

impl<'de, T: Blames<'de>> BlamesField<'de> for T {
    ghost blames = { BlamesRequired T.blames };

    ghost points = { required_points T.blames T.points };

    fn blame_field<'m>(
        alloc: Global,
        at: Option<Cursor<'de>>,
        name: &'de str,
        walk: &mut Walk,
    ) -> Result<(), Blame<'de, 'm>> {
        match at {
            Some(value) => blame_at::<T>(alloc, value, name, walk),
            None => {
                let error = BinaryDeserializerError::unknown("field missing");
                Err(Blame::lacking(alloc, error, name))
            }
        }
    }
}

impl<'de, T: Blames<'de>> BlamesField<'de> for Maybe<T> {
    ghost blames = { BlamesFound T.blames };

    ghost points = { found_points T.blames T.points };

    fn blame_field<'m>(
        alloc: Global,
        at: Option<Cursor<'de>>,
        name: &'de str,
        walk: &mut Walk,
    ) -> Result<(), Blame<'de, 'm>> {
        match at {
            Some(value) => blame_at::<T>(alloc, value, name, walk),
            None => Ok(()),
        }
    }
}

impl<'de, T: Blames<'de> + Default> BlamesField<'de> for OrDefault<T> {
    ghost blames = { BlamesFound T.blames };

    ghost points = { found_points T.blames T.points };

    fn blame_field<'m>(
        alloc: Global,
        at: Option<Cursor<'de>>,
        name: &'de str,
        walk: &mut Walk,
    ) -> Result<(), Blame<'de, 'm>> {
        match at {
            Some(value) => blame_at::<T>(alloc, value, name, walk),
            None => Ok(()),
        }
    }
}

/// A chain of fields that tell what is to blame where they aren't read.
pub trait BlamesChain<'de>: Chain<'de> {
    /// At the fields of these names among these entries, this may be blamed.
    ghost blames: { List (List ℕ) → List Entry → ℕ → ℕ → Blamed → Type 0 };

    /// Goes through the fields as `read_chain` does, and makes nothing of them.
    fn blame_chain<'m>(
        alloc: Global,
        table: TableView<'de>,
        names: &[&'de str],
        walk: &mut Walk,
    ) -> Result<(), Blame<'de, 'm>>
        requires { length names.now ≡ Self.size }
        ensures counted { IfOk result (λ _. (n : ℕ)
            × Self.counts (map (λ s. s.now) names.now) (view_entries table.entry) n
            × (walk.new + n ≡ walk.old)) }
        ensures blamed { IfErr result (λ b. IsWantOfMemory b.error
            ⊎ blames (map (λ s. s.now) names.now) (view_entries table.entry) walk.old walk.new b) };

    /// The path leads from the table of the fields to a place, and a field that is named is one
    /// that the table there lacks.
    ghost points: { (p : Place) (es : List Entry) (names : List (List ℕ)) (left left' : ℕ)
        (b : Blamed) → entries_at p ≡ Some es → blames names es left left' b → Points p b };
}

impl<'de> BlamesChain<'de> for () {
    ghost blames = { BlamesNone };

    ghost points = { points_none };

    fn blame_chain<'m>(
        _alloc: Global,
        _table: TableView<'de>,
        names: &[&'de str],
        _walk: &mut Walk,
    ) -> Result<(), Blame<'de, 'm>> {
        Ok(())
    }
}

impl<'de, A: BlamesField<'de>, B: BlamesChain<'de>> BlamesChain<'de> for (A, B) {
    ghost blames = { RefusesNext A.counts A.blames B.blames };

    ghost points = { points_next A.counts A.points B.points };

    fn blame_chain<'m>(
        alloc: Global,
        table: TableView<'de>,
        names: &[&'de str],
        walk: &mut Walk,
    ) -> Result<(), Blame<'de, 'm>> {
        let Some((name, later)) = names.split_first() else {
            unreachable!()
        };
        A::blame_field(alloc, table.get(name), name, walk)?;
        B::blame_chain(alloc, table, later, walk)
    }
}

/// Three fields at once, and the chain of the others.
impl<
    'de,
    A: BlamesField<'de>,
    B: BlamesField<'de>,
    C: BlamesField<'de>,
    D: BlamesChain<'de>,
> BlamesChain<'de> for (A, B, C, D) {
    ghost blames = { ⟦<(A, (B, (C, D))) as BlamesChain<'de>>⟧.blames };

    ghost points = { points_three A.counts B.counts C.counts A.points B.points C.points D.points };

    fn blame_chain<'m>(
        alloc: Global,
        table: TableView<'de>,
        names: &[&'de str],
        walk: &mut Walk,
    ) -> Result<(), Blame<'de, 'm>> {
        <(A, (B, (C, D))) as BlamesChain<'de>>::blame_chain(alloc, table, names, walk)
    }
}
