//! The fields of a record, one after another, each at the last entry of its name.
//! How one field is read is said in `field`, which tuples are chains in `tuples`.
ghost use Rattle.std.specs.Prelude.{◌≡◌, ◌≤◌, ◌+◌, ℕ, List, map, length, IfOk, IfErr};
ghost use Rattle.resb_format.specs.declared.error.ReadingError.{ReadingError};
ghost use Rattle.resb_read.specs.Places.{Place};
ghost use Rattle.resb_read.specs.Reading.{LacksOrMemory};
ghost use Rattle.resb_read.specs.Tables.{view_entries};
ghost use Rattle.resb_fields.specs.Fields.{ReadsNone, ReadsNext, CountsNext, RefusesNext};
ghost use Rattle.resb_fields.specs.FieldLaws.{none_one, next_counted, next_one};
ghost use Rattle.resb_fields.specs.FieldLaws.{counted_next, one_next};

use crate::field::Field;
use resb_format::ReadingError;
use resb_read::{TableView, Walk};
use std::alloc::Global;

/// Fields that are read from a table's entries, by the names that are given: a first one and the
/// chain of the others, or none.
pub trait Chain<'de>: Sized + Drop {
    /// How many fields there are.
    ghost size: { ℕ };

    /// The fields of these names are read from these entries, with this count.
    ghost reads: { List (List ℕ) → List (Place × Place) → Self → ℕ → Type 0 };

    /// Some fields are read from them, with this count.
    ghost counts: { List (List ℕ) → List (Place × Place) → ℕ → Type 0 };

    /// From them, with so much left, this error may be answered and so much left behind it.
    ghost refuses: { List (List ℕ) → List (Place × Place) → ℕ → ℕ → ReadingError → Type 0 };

    /// Reads the fields, and takes their count from what is left. Other entries are not looked at.
    fn read_chain<'m>(
        alloc: Global,
        table: TableView<'de>,
        names: &[&str],
        walk: &mut Walk,
    ) -> Result<Self, ReadingError<'m>>
        requires { length names.now ≡ size }
        ensures read { IfOk result (λ x. (n : ℕ)
            × reads (map (λ s. s.now) names.now) (view_entries table.entry) x n
            × (walk.new + n ≡ walk.old)) }
        ensures refused { IfErr result (λ e. (walk.new ≤ walk.old)
            × LacksOrMemory (counts (map (λ s. s.now) names.now) (view_entries table.entry))
            walk.old e) }
        ensures says { IfErr result
            (refuses (map (λ s. s.now) names.now) (view_entries table.entry) walk.old walk.new) };

    /// The count of every reading is a count.
    ghost counted: { (names : List (List ℕ)) (es : List (Place × Place)) (x : Self) (n : ℕ)
        → reads names es x n → counts names es n };

    /// There is at most one count.
    ghost one_count: { (names : List (List ℕ)) (es : List (Place × Place)) (m n : ℕ)
        → counts names es m → counts names es n → m ≡ n };
}

impl<'de> Chain<'de> for () {
    ghost size = { 0 };

    ghost reads = { λ names _ _ n. ReadsNone names n };

    ghost counts = { λ names _ n. ReadsNone names n };

    ghost refuses = { λ _ _ _ _ _. ⊥ };

    ghost counted = { λ _ _ _ _ h. h };

    ghost one_count = { λ names _. none_one names };

    fn read_chain<'m>(
        _alloc: Global,
        _table: TableView<'de>,
        names: &[&str],
        _walk: &mut Walk,
    ) -> Result<(), ReadingError<'m>> {
        Ok(())
    }
}

impl<'de, A: Field<'de>, B: Chain<'de>> Chain<'de> for (A, B) {
    ghost size = { 1 + B.size };

    ghost reads = { λ names es x n. ReadsNext A.reads B.reads names es x.0 x.1 n };

    ghost counts = { CountsNext A.counts B.counts };

    ghost refuses = { RefusesNext A.counts (λ _. A.refuses) B.refuses };

    ghost counted = { λ names es x n. next_counted A.reads B.reads A.counts B.counts A.counted
        B.counted names es x.0 x.1 n };

    ghost one_count = { next_one A.counts B.counts A.one_count B.one_count };

    fn read_chain<'m>(
        alloc: Global,
        table: TableView<'de>,
        names: &[&str],
        walk: &mut Walk,
    ) -> Result<(A, B), ReadingError<'m>> {
        let Some((name, later)) = names.split_first() else {
            unreachable!()
        };
        let at = table.get(name);
        let first = A::read_field(alloc, at, walk)?;
        let rest = B::read_chain(alloc, table, later, walk)?;
        Ok((first, rest))
    }
}

/// Three fields at once, and the chain of the others: read as three cells of one. A long chain is
/// then a third as deep, and what is proved of it takes as much less time.
impl<'de, A: Field<'de>, B: Field<'de>, C: Field<'de>, D: Chain<'de>> Chain<'de> for (A, B, C, D) {
    ghost size = { 3 + D.size };

    ghost reads = { λ names es x n.
        ⟦<(A, (B, (C, D))) as Chain<'de>>⟧.reads names es (x.0, (x.1, (x.2, x.3))) n };

    ghost counts = { ⟦<(A, (B, (C, D))) as Chain<'de>>⟧.counts };

    ghost refuses = { ⟦<(A, (B, (C, D))) as Chain<'de>>⟧.refuses };

    ghost counted = { λ names es x. counted_next A.counted (counted_next B.counted
        (counted_next C.counted D.counted))
        names es (x.0, (x.1, (x.2, x.3))) };

    ghost one_count = { one_next A.one_count (one_next B.one_count (one_next C.one_count
        D.one_count)) };

    fn read_chain<'m>(
        alloc: Global,
        table: TableView<'de>,
        names: &[&str],
        walk: &mut Walk,
    ) -> Result<(A, B, C, D), ReadingError<'m>> {
        let (a, (b, (c, rest))) = <(A, (B, (C, D))) as Chain<'de>>::read_chain(
            alloc, table, names, walk,
        )?;
        Ok((a, b, c, rest))
    }
}
