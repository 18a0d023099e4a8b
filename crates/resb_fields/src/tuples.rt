//! Tuples of fields, of 1 to 12. Each is read as the chain of its members.
//! How a chain is read is said in `chain`.
ghost use Rattle.std.specs.Prelude.{◌≡◌, ◌≤◌, ◌+◌, ℕ, List, map, length, IfOk, IfErr};
ghost use Rattle.resb_format.specs.declared.error.ReadingError.{ReadingError};
ghost use Rattle.resb_read.specs.Places.{Place};
ghost use Rattle.resb_read.specs.Reading.{LacksOrMemory};
ghost use Rattle.resb_read.specs.Tables.{view_entries};
ghost use Rattle.resb_fields.specs.FieldLaws.{counted_next, counted_end, one_next, one_end};

use crate::chain::Chain;
use crate::field::Field;
use resb_format::ReadingError;
use resb_read::{TableView, Walk};
use std::alloc::Global;

/// Fields that are read from a table's entries, by the names that are given.
pub trait Fields<'de>: Sized + Drop {
    /// How many fields there are.
    ghost size: { ℕ };

    /// The fields of these names are read from these entries, with this count.
    ghost reads: { List (List ℕ) → List (Place × Place) → Self → ℕ → Type 0 };

    /// Some fields are read from them, with this count.
    ghost counts: { List (List ℕ) → List (Place × Place) → ℕ → Type 0 };

    /// From them, with so much left, this error may be answered and so much left behind it.
    ghost refuses: { List (List ℕ) → List (Place × Place) → ℕ → ℕ → ReadingError → Type 0 };

    /// Reads the fields, and takes their count from what is left. Other entries are not looked at.
    fn read_fields<'m>(
        alloc: Global,
        table: TableView<'de>,
        names: &[&str],
        walk: &mut Walk,
    ) -> Result<Self, ReadingError<'m>>
        requires { length names.now ≡ size }
        ensures read { IfOk result (λ x. (n : ℕ)
            × reads (map (λ s. s.now) names.now) (view_entries table.entry) x n
            × (walk.new + n ≡ walk.old)) }
        ensures refused { IfErr result (λ e. (walk.new ≤ walk.old)
            × LacksOrMemory (counts (map (λ s. s.now) names.now) (view_entries table.entry))
            walk.old e) }
        ensures says { IfErr result
            (refuses (map (λ s. s.now) names.now) (view_entries table.entry) walk.old walk.new) };

    /// The count of every reading is a count.
    ghost counted: { (names : List (List ℕ)) (es : List (Place × Place)) (x : Self) (n : ℕ)
        → reads names es x n → counts names es n };

    /// There is at most one count.
    ghost one_count: { (names : List (List ℕ)) (es : List (Place × Place)) (m n : ℕ)
        → counts names es m → counts names es n → m ≡ n };
}

impl<'de, A: Field<'de>> Fields<'de> for (A,) {
    ghost size = { 1 };

    ghost reads = { λ names es x n.
        ⟦<(A, ()) as Chain<'de>>⟧.reads
        names es (x.0, tt) n };

    ghost counts = { ⟦<(A, ()) as Chain<'de>>⟧.counts };

    ghost refuses = { ⟦<(A, ()) as Chain<'de>>⟧.refuses };

    ghost counted = { λ names es x. counted_next A.counted counted_end
        names es (x.0, tt) };

    ghost one_count = { one_next A.one_count one_end };

    fn read_fields<'m>(
        alloc: Global,
        table: TableView<'de>,
        names: &[&str],
        walk: &mut Walk,
    ) -> Result<(A,), ReadingError<'m>> {
        let (a, ()) = <(A, ()) as Chain<'de>>::read_chain(alloc, table, names, walk)?;
        Ok((a,))
    }
}

impl<'de, A: Field<'de>, B: Field<'de>> Fields<'de> for (A, B) {
    ghost size = { 2 };

    ghost reads = { λ names es x n.
        ⟦<(A, (B, ())) as Chain<'de>>⟧.reads
        names es (x.0, (x.1, tt)) n };

    ghost counts = { ⟦<(A, (B, ())) as Chain<'de>>⟧.counts };

    ghost refuses = { ⟦<(A, (B, ())) as Chain<'de>>⟧.refuses };

    ghost counted = { λ names es x. counted_next A.counted (counted_next B.counted counted_end)
        names es (x.0, (x.1, tt)) };

    ghost one_count = { one_next A.one_count (one_next B.one_count one_end) };

    fn read_fields<'m>(
        alloc: Global,
        table: TableView<'de>,
        names: &[&str],
        walk: &mut Walk,
    ) -> Result<(A, B), ReadingError<'m>> {
        let (a, (b, ())) = <(A, (B, ())) as Chain<'de>>::read_chain(alloc, table, names, walk)?;
        Ok((a, b))
    }
}

impl<'de, A: Field<'de>, B: Field<'de>, C: Field<'de>> Fields<'de> for (A, B, C) {
    ghost size = { 3 };

    ghost reads = { λ names es x n.
        ⟦<(A, (B, (C, ()))) as Chain<'de>>⟧.reads
        names es (x.0, (x.1, (x.2, tt))) n };

    ghost counts = { ⟦<(A, (B, (C, ()))) as Chain<'de>>⟧.counts };

    ghost refuses = { ⟦<(A, (B, (C, ()))) as Chain<'de>>⟧.refuses };

    ghost counted = { λ names es x. counted_next A.counted (counted_next B.counted
        (counted_next C.counted counted_end))
        names es (x.0, (x.1, (x.2, tt))) };

    ghost one_count = { one_next A.one_count (one_next B.one_count (one_next C.one_count
        one_end)) };

    fn read_fields<'m>(
        alloc: Global,
        table: TableView<'de>,
        names: &[&str],
        walk: &mut Walk,
    ) -> Result<(A, B, C), ReadingError<'m>> {
        let (a, (b, (c, ()))) = <(A, (B, (C, ()))) as Chain<'de>>::read_chain(
            alloc, table, names, walk,
        )?;
        Ok((a, b, c))
    }
}

impl<'de, A: Field<'de>, B: Field<'de>, C: Field<'de>, D: Field<'de>> Fields<'de> for (A, B, C, D) {
    ghost size = { 4 };

    ghost reads = { λ names es x n.
        ⟦<(A, (B, (C, (D, ())))) as Chain<'de>>⟧.reads
        names es (x.0, (x.1, (x.2, (x.3, tt)))) n };

    ghost counts = { ⟦<(A, (B, (C, (D, ())))) as Chain<'de>>⟧.counts };

    ghost refuses = { ⟦<(A, (B, (C, (D, ())))) as Chain<'de>>⟧.refuses };

    ghost counted = { λ names es x. counted_next A.counted (counted_next B.counted
        (counted_next C.counted (counted_next D.counted counted_end)))
        names es (x.0, (x.1, (x.2, (x.3, tt)))) };

    ghost one_count = { one_next A.one_count (one_next B.one_count (one_next C.one_count
        (one_next D.one_count one_end))) };

    fn read_fields<'m>(
        alloc: Global,
        table: TableView<'de>,
        names: &[&str],
        walk: &mut Walk,
    ) -> Result<(A, B, C, D), ReadingError<'m>> {
        let (a, (b, (c, (d, ())))) = <(A, (B, (C, (D, ())))) as Chain<'de>>::read_chain(
            alloc, table, names, walk,
        )?;
        Ok((a, b, c, d))
    }
}

impl<'de, A: Field<'de>, B: Field<'de>, C: Field<'de>, D: Field<'de>, E: Field<'de>> Fields<'de>
    for (A, B, C, D, E) {
    ghost size = { 5 };

    ghost reads = { λ names es x n.
        ⟦<(A, (B, (C, (D, (E, ()))))) as Chain<'de>>⟧.reads
        names es (x.0, (x.1, (x.2, (x.3, (x.4, tt))))) n };

    ghost counts = { ⟦<(A, (B, (C, (D, (E, ()))))) as Chain<'de>>⟧.counts };

    ghost refuses = { ⟦<(A, (B, (C, (D, (E, ()))))) as Chain<'de>>⟧.refuses };

    ghost counted = { λ names es x. counted_next A.counted (counted_next B.counted
        (counted_next C.counted (counted_next D.counted (counted_next E.counted counted_end))))
        names es (x.0, (x.1, (x.2, (x.3, (x.4, tt))))) };

    ghost one_count = { one_next A.one_count (one_next B.one_count (one_next C.one_count
        (one_next D.one_count (one_next E.one_count one_end)))) };

    fn read_fields<'m>(
        alloc: Global,
        table: TableView<'de>,
        names: &[&str],
        walk: &mut Walk,
    ) -> Result<(A, B, C, D, E), ReadingError<'m>> {
        let (a, (b, (c, (d, (e, ()))))) = <(A, (B, (C, (D, (E, ()))))) as Chain<'de>>::read_chain(
            alloc, table, names, walk,
        )?;
        Ok((a, b, c, d, e))
    }
}

impl<
    'de,
    A: Field<'de>,
    B: Field<'de>,
    C: Field<'de>,
    D: Field<'de>,
    E: Field<'de>,
    F: Field<'de>,
> Fields<'de> for (A, B, C, D, E, F) {
    ghost size = { 6 };

    ghost reads = { λ names es x n.
        ⟦<(A, (B, (C, (D, (E, (F, ())))))) as Chain<'de>>⟧.reads
        names es (x.0, (x.1, (x.2, (x.3, (x.4, (x.5, tt)))))) n };

    ghost counts = { ⟦<(A, (B, (C, (D, (E, (F, ())))))) as Chain<'de>>⟧.counts };

    ghost refuses = { ⟦<(A, (B, (C, (D, (E, (F, ())))))) as Chain<'de>>⟧.refuses };

    ghost counted = { λ names es x. counted_next A.counted (counted_next B.counted
        (counted_next C.counted (counted_next D.counted (counted_next E.counted (counted_next
        F.counted counted_end)))))
        names es (x.0, (x.1, (x.2, (x.3, (x.4, (x.5, tt)))))) };

    ghost one_count = { one_next A.one_count (one_next B.one_count (one_next C.one_count
        (one_next D.one_count (one_next E.one_count (one_next F.one_count one_end))))) };

    fn read_fields<'m>(
        alloc: Global,
        table: TableView<'de>,
        names: &[&str],
        walk: &mut Walk,
    ) -> Result<(A, B, C, D, E, F), ReadingError<'m>> {
        let (a, (b, (c, (d, (e, (f, ())))))) = <(A, (B, (C, (D, (E, (F, ())))))) as Chain<
            'de,
        >>::read_chain(alloc, table, names, walk)?;
        Ok((a, b, c, d, e, f))
    }
}

impl<
    'de,
    A: Field<'de>,
    B: Field<'de>,
    C: Field<'de>,
    D: Field<'de>,
    E: Field<'de>,
    F: Field<'de>,
    G: Field<'de>,
> Fields<'de> for (A, B, C, D, E, F, G) {
    ghost size = { 7 };

    ghost reads = { λ names es x n.
        ⟦<(A, (B, (C, (D, (E, (F, (G, ()))))))) as Chain<'de>>⟧.reads
        names es (x.0, (x.1, (x.2, (x.3, (x.4, (x.5, (x.6, tt))))))) n };

    ghost counts = { ⟦<(A, (B, (C, (D, (E, (F, (G, ()))))))) as Chain<'de>>⟧.counts };

    ghost refuses = { ⟦<(A, (B, (C, (D, (E, (F, (G, ()))))))) as Chain<'de>>⟧.refuses };

    ghost counted = { λ names es x. counted_next A.counted (counted_next B.counted
        (counted_next C.counted (counted_next D.counted (counted_next E.counted (counted_next
        F.counted (counted_next G.counted counted_end))))))
        names es (x.0, (x.1, (x.2, (x.3, (x.4, (x.5, (x.6, tt))))))) };

    ghost one_count = { one_next A.one_count (one_next B.one_count (one_next C.one_count
        (one_next D.one_count (one_next E.one_count (one_next F.one_count (one_next G.one_count
        one_end)))))) };

    fn read_fields<'m>(
        alloc: Global,
        table: TableView<'de>,
        names: &[&str],
        walk: &mut Walk,
    ) -> Result<(A, B, C, D, E, F, G), ReadingError<'m>> {
        let (a, (b, (c, (d, (e, (f, (g, ()))))))) = <(A, (B, (C, (D, (E, (F, (G, ()))))))) as Chain<
            'de,
        >>::read_chain(alloc, table, names, walk)?;
        Ok((a, b, c, d, e, f, g))
    }
}

impl<
    'de,
    A: Field<'de>,
    B: Field<'de>,
    C: Field<'de>,
    D: Field<'de>,
    E: Field<'de>,
    F: Field<'de>,
    G: Field<'de>,
    H: Field<'de>,
> Fields<'de> for (A, B, C, D, E, F, G, H) {
    ghost size = { 8 };

    ghost reads = { λ names es x n.
        ⟦<(A, (B, (C, (D, (E, (F, (G, (H, ())))))))) as Chain<'de>>⟧.reads
        names es (x.0, (x.1, (x.2, (x.3, (x.4, (x.5, (x.6, (x.7, tt)))))))) n };

    ghost counts = { ⟦<(A, (B, (C, (D, (E, (F, (G, (H, ())))))))) as Chain<'de>>⟧.counts };

    ghost refuses = { ⟦<(A, (B, (C, (D, (E, (F, (G, (H, ())))))))) as Chain<'de>>⟧.refuses };

    ghost counted = { λ names es x. counted_next A.counted (counted_next B.counted
        (counted_next C.counted (counted_next D.counted (counted_next E.counted (counted_next
        F.counted (counted_next G.counted (counted_next H.counted counted_end)))))))
        names es (x.0, (x.1, (x.2, (x.3, (x.4, (x.5, (x.6, (x.7, tt)))))))) };

    ghost one_count = { one_next A.one_count (one_next B.one_count (one_next C.one_count
        (one_next D.one_count (one_next E.one_count (one_next F.one_count (one_next G.one_count
        (one_next H.one_count one_end))))))) };

    fn read_fields<'m>(
        alloc: Global,
        table: TableView<'de>,
        names: &[&str],
        walk: &mut Walk,
    ) -> Result<(A, B, C, D, E, F, G, H), ReadingError<'m>> {
        let (a, (b, (c, (d, (e, (f, (g, (h, ())))))))) = <(
            A,
            (B, (C, (D, (E, (F, (G, (H, ()))))))),
        ) as Chain<'de>>::read_chain(alloc, table, names, walk)?;
        Ok((a, b, c, d, e, f, g, h))
    }
}

impl<
    'de,
    A: Field<'de>,
    B: Field<'de>,
    C: Field<'de>,
    D: Field<'de>,
    E: Field<'de>,
    F: Field<'de>,
    G: Field<'de>,
    H: Field<'de>,
    I: Field<'de>,
> Fields<'de> for (A, B, C, D, E, F, G, H, I) {
    ghost size = { 9 };

    ghost reads = { λ names es x n.
        ⟦<(A, (B, (C, (D, (E, (F, (G, (H, (I, ()))))))))) as Chain<'de>>⟧.reads
        names es (x.0, (x.1, (x.2, (x.3, (x.4, (x.5, (x.6, (x.7, (x.8, tt))))))))) n };

    ghost counts = { ⟦<(A, (B, (C, (D, (E, (F, (G, (H, (I, ()))))))))) as Chain<'de>>⟧.counts };

    ghost refuses = { ⟦<(A, (B, (C, (D, (E, (F, (G, (H, (I, ()))))))))) as Chain<'de>>⟧.refuses };

    ghost counted = { λ names es x. counted_next A.counted (counted_next B.counted
        (counted_next C.counted (counted_next D.counted (counted_next E.counted (counted_next
        F.counted (counted_next G.counted (counted_next H.counted (counted_next I.counted
        counted_end))))))))
        names es (x.0, (x.1, (x.2, (x.3, (x.4, (x.5, (x.6, (x.7, (x.8, tt))))))))) };

    ghost one_count = { one_next A.one_count (one_next B.one_count (one_next C.one_count
        (one_next D.one_count (one_next E.one_count (one_next F.one_count (one_next G.one_count
        (one_next H.one_count (one_next I.one_count one_end)))))))) };

    fn read_fields<'m>(
        alloc: Global,
        table: TableView<'de>,
        names: &[&str],
        walk: &mut Walk,
    ) -> Result<(A, B, C, D, E, F, G, H, I), ReadingError<'m>> {
        let (a, (b, (c, (d, (e, (f, (g, (h, (i, ()))))))))) = <(
            A,
            (B, (C, (D, (E, (F, (G, (H, (I, ())))))))),
        ) as Chain<'de>>::read_chain(alloc, table, names, walk)?;
        Ok((a, b, c, d, e, f, g, h, i))
    }
}

impl<
    'de,
    A: Field<'de>,
    B: Field<'de>,
    C: Field<'de>,
    D: Field<'de>,
    E: Field<'de>,
    F: Field<'de>,
    G: Field<'de>,
    H: Field<'de>,
    I: Field<'de>,
    J: Field<'de>,
> Fields<'de> for (A, B, C, D, E, F, G, H, I, J) {
    ghost size = { 10 };

    ghost reads = { λ names es x n.
        ⟦<(A, (B, (C, (D, (E, (F, (G, (H, (I, (J, ())))))))))) as Chain<'de>>⟧.reads
        names es
        (x.0, (x.1, (x.2, (x.3, (x.4, (x.5, (x.6, (x.7, (x.8, (x.9, tt))))))))))
        n };

    ghost counts = { λ names.
        ⟦<(A, (B, (C, (D, (E, (F, (G, (H, (I, (J, ())))))))))) as Chain<'de>>⟧.counts
        names };

    ghost refuses = { λ names.
        ⟦<(A, (B, (C, (D, (E, (F, (G, (H, (I, (J, ())))))))))) as Chain<'de>>⟧.refuses
        names };

    ghost counted = { λ names es x. counted_next A.counted (counted_next B.counted
        (counted_next C.counted (counted_next D.counted (counted_next E.counted (counted_next
        F.counted (counted_next G.counted (counted_next H.counted (counted_next I.counted
        (counted_next J.counted counted_end)))))))))
        names es
        (x.0, (x.1, (x.2, (x.3, (x.4, (x.5, (x.6, (x.7, (x.8, (x.9, tt)))))))))) };

    ghost one_count = { one_next A.one_count (one_next B.one_count (one_next C.one_count
        (one_next D.one_count (one_next E.one_count (one_next F.one_count (one_next G.one_count
        (one_next H.one_count (one_next I.one_count (one_next J.one_count one_end))))))))) };

    fn read_fields<'m>(
        alloc: Global,
        table: TableView<'de>,
        names: &[&str],
        walk: &mut Walk,
    ) -> Result<(A, B, C, D, E, F, G, H, I, J), ReadingError<'m>> {
        let (a, (b, (c, (d, (e, (f, (g, (h, (i, (j, ())))))))))) = <(
            A,
            (B, (C, (D, (E, (F, (G, (H, (I, (J, ()))))))))),
        ) as Chain<'de>>::read_chain(alloc, table, names, walk)?;
        Ok((a, b, c, d, e, f, g, h, i, j))
    }
}

impl<
    'de,
    A: Field<'de>,
    B: Field<'de>,
    C: Field<'de>,
    D: Field<'de>,
    E: Field<'de>,
    F: Field<'de>,
    G: Field<'de>,
    H: Field<'de>,
    I: Field<'de>,
    J: Field<'de>,
    K: Field<'de>,
> Fields<'de> for (A, B, C, D, E, F, G, H, I, J, K) {
    ghost size = { 11 };

    ghost reads = { λ names es x n.
        ⟦<(A, (B, (C, (D, (E, (F, (G, (H, (I, (J, (K, ()))))))))))) as Chain<'de>>⟧.reads
        names es
        (x.0, (x.1, (x.2, (x.3, (x.4, (x.5, (x.6, (x.7, (x.8, (x.9, (x.10, tt)))))))))))
        n };

    ghost counts = { λ names.
        ⟦<(A, (B, (C, (D, (E, (F, (G, (H, (I, (J, (K, ()))))))))))) as Chain<'de>>⟧.counts
        names };

    ghost refuses = { λ names.
        ⟦<(A, (B, (C, (D, (E, (F, (G, (H, (I, (J, (K, ()))))))))))) as Chain<'de>>⟧.refuses
        names };

    ghost counted = { λ names es x. counted_next A.counted (counted_next B.counted
        (counted_next C.counted (counted_next D.counted (counted_next E.counted (counted_next
        F.counted (counted_next G.counted (counted_next H.counted (counted_next I.counted
        (counted_next J.counted (counted_next K.counted counted_end))))))))))
        names es
        (x.0, (x.1, (x.2, (x.3, (x.4, (x.5, (x.6, (x.7, (x.8, (x.9, (x.10, tt))))))))))) };

    ghost one_count = { one_next A.one_count (one_next B.one_count (one_next C.one_count
        (one_next D.one_count (one_next E.one_count (one_next F.one_count (one_next G.one_count
        (one_next H.one_count (one_next I.one_count (one_next J.one_count (one_next K.one_count
        one_end)))))))))) };

    fn read_fields<'m>(
        alloc: Global,
        table: TableView<'de>,
        names: &[&str],
        walk: &mut Walk,
    ) -> Result<(A, B, C, D, E, F, G, H, I, J, K), ReadingError<'m>> {
        let (a, (b, (c, (d, (e, (f, (g, (h, (i, (j, (k, ()))))))))))) = <(
            A,
            (B, (C, (D, (E, (F, (G, (H, (I, (J, (K, ())))))))))),
        ) as Chain<'de>>::read_chain(alloc, table, names, walk)?;
        Ok((a, b, c, d, e, f, g, h, i, j, k))
    }
}

impl<
    'de,
    A: Field<'de>,
    B: Field<'de>,
    C: Field<'de>,
    D: Field<'de>,
    E: Field<'de>,
    F: Field<'de>,
    G: Field<'de>,
    H: Field<'de>,
    I: Field<'de>,
    J: Field<'de>,
    K: Field<'de>,
    L: Field<'de>,
> Fields<'de> for (A, B, C, D, E, F, G, H, I, J, K, L) {
    ghost size = { 12 };

    ghost reads = { λ names es x n.
        ⟦<(A, (B, (C, (D, (E, (F, (G, (H, (I, (J, (K, (L, ())))))))))))) as Chain<'de>>⟧.reads
        names es
        (x.0, (x.1, (x.2, (x.3, (x.4, (x.5, (x.6, (x.7, (x.8, (x.9, (x.10, (x.11, tt))))))))))))
        n };

    ghost counts = { λ names.
        ⟦<(A, (B, (C, (D, (E, (F, (G, (H, (I, (J, (K, (L, ())))))))))))) as Chain<'de>>⟧.counts
        names };

    ghost refuses = { λ names.
        ⟦<(A, (B, (C, (D, (E, (F, (G, (H, (I, (J, (K, (L, ())))))))))))) as Chain<'de>>⟧.refuses
        names };

    ghost counted = { λ names es x. counted_next A.counted (counted_next B.counted
        (counted_next C.counted (counted_next D.counted (counted_next E.counted (counted_next
        F.counted (counted_next G.counted (counted_next H.counted (counted_next I.counted
        (counted_next J.counted (counted_next K.counted (counted_next L.counted
        counted_end)))))))))))
        names es
        (x.0, (x.1, (x.2, (x.3, (x.4, (x.5, (x.6, (x.7, (x.8, (x.9, (x.10, (x.11, tt)))))))))))) };

    ghost one_count = { one_next A.one_count (one_next B.one_count (one_next C.one_count
        (one_next D.one_count (one_next E.one_count (one_next F.one_count (one_next G.one_count
        (one_next H.one_count (one_next I.one_count (one_next J.one_count (one_next K.one_count
        (one_next L.one_count one_end))))))))))) };

    fn read_fields<'m>(
        alloc: Global,
        table: TableView<'de>,
        names: &[&str],
        walk: &mut Walk,
    ) -> Result<(A, B, C, D, E, F, G, H, I, J, K, L), ReadingError<'m>> {
        let (a, (b, (c, (d, (e, (f, (g, (h, (i, (j, (k, (l, ())))))))))))) = <(
            A,
            (B, (C, (D, (E, (F, (G, (H, (I, (J, (K, (L, ()))))))))))),
        ) as Chain<'de>>::read_chain(alloc, table, names, walk)?;
        Ok((a, b, c, d, e, f, g, h, i, j, k, l))
    }
}
