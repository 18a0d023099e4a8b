//! Tuples of fields, of 1 to 12. Each is to blame as the chain of its members, three by three as
//! long as there are so many. What is to blame in a chain is said in `fields`.
ghost use Rattle.resb_blame.specs.Pointing.{points_next, points_none, points_three};

use crate::blame::Blame;
use crate::fields::{BlamesChain, BlamesField};
use crate::records::BlamesFields;
use resb_read::{TableView, Walk};
use std::alloc::Global;

impl<'de, A: BlamesField<'de>> BlamesFields<'de> for (A,) {
    ghost blames = { ⟦<(A, ()) as BlamesChain<'de>>⟧.blames };

    ghost points = { points_next A.counts A.points points_none };

    fn blame_fields<'m>(
        alloc: Global,
        table: TableView<'de>,
        names: &[&'de str],
        walk: &mut Walk,
    ) -> Result<(), Blame<'de, 'm>> {
        <(A, ()) as BlamesChain<'de>>::blame_chain(alloc, table, names, walk)
    }
}

impl<'de, A: BlamesField<'de>, B: BlamesField<'de>> BlamesFields<'de> for (A, B) {
    ghost blames = { ⟦<(A, (B, ())) as BlamesChain<'de>>⟧.blames };

    ghost points = { points_next A.counts A.points (points_next B.counts B.points points_none) };

    fn blame_fields<'m>(
        alloc: Global,
        table: TableView<'de>,
        names: &[&'de str],
        walk: &mut Walk,
    ) -> Result<(), Blame<'de, 'm>> {
        <(A, (B, ())) as BlamesChain<'de>>::blame_chain(alloc, table, names, walk)
    }
}

impl<'de, A: BlamesField<'de>, B: BlamesField<'de>, C: BlamesField<'de>> BlamesFields<'de>
    for (A, B, C) {
    ghost blames = { ⟦<(A, B, C, ()) as BlamesChain<'de>>⟧.blames };

    ghost points = { points_three A.counts B.counts C.counts A.points B.points C.points
        points_none };

    fn blame_fields<'m>(
        alloc: Global,
        table: TableView<'de>,
        names: &[&'de str],
        walk: &mut Walk,
    ) -> Result<(), Blame<'de, 'm>> {
        <(A, B, C, ()) as BlamesChain<'de>>::blame_chain(alloc, table, names, walk)
    }
}

impl<
    'de,
    A: BlamesField<'de>,
    B: BlamesField<'de>,
    C: BlamesField<'de>,
    D: BlamesField<'de>,
> BlamesFields<'de> for (A, B, C, D) {
    ghost blames = { ⟦<(A, B, C, (D, ())) as BlamesChain<'de>>⟧.blames };

    ghost points = { points_three A.counts B.counts C.counts A.points B.points C.points
        (points_next D.counts D.points points_none) };

    fn blame_fields<'m>(
        alloc: Global,
        table: TableView<'de>,
        names: &[&'de str],
        walk: &mut Walk,
    ) -> Result<(), Blame<'de, 'm>> {
        <(A, B, C, (D, ())) as BlamesChain<'de>>::blame_chain(alloc, table, names, walk)
    }
}

impl<
    'de,
    A: BlamesField<'de>,
    B: BlamesField<'de>,
    C: BlamesField<'de>,
    D: BlamesField<'de>,
    E: BlamesField<'de>,
> BlamesFields<'de> for (A, B, C, D, E) {
    ghost blames = { ⟦<(A, B, C, (D, (E, ()))) as BlamesChain<'de>>⟧.blames };

    ghost points = { points_three A.counts B.counts C.counts A.points B.points C.points
        (points_next D.counts D.points
        (points_next E.counts E.points points_none)) };

    fn blame_fields<'m>(
        alloc: Global,
        table: TableView<'de>,
        names: &[&'de str],
        walk: &mut Walk,
    ) -> Result<(), Blame<'de, 'm>> {
        <(A, B, C, (D, (E, ()))) as BlamesChain<'de>>::blame_chain(alloc, table, names, walk)
    }
}

impl<
    'de,
    A: BlamesField<'de>,
    B: BlamesField<'de>,
    C: BlamesField<'de>,
    D: BlamesField<'de>,
    E: BlamesField<'de>,
    F: BlamesField<'de>,
> BlamesFields<'de> for (A, B, C, D, E, F) {
    ghost blames = { ⟦<(A, B, C, (D, E, F, ())) as BlamesChain<'de>>⟧.blames };

    ghost points = { points_three A.counts B.counts C.counts A.points B.points C.points
        (points_three D.counts E.counts F.counts D.points E.points F.points points_none) };

    fn blame_fields<'m>(
        alloc: Global,
        table: TableView<'de>,
        names: &[&'de str],
        walk: &mut Walk,
    ) -> Result<(), Blame<'de, 'm>> {
        <(A, B, C, (D, E, F, ())) as BlamesChain<'de>>::blame_chain(alloc, table, names, walk)
    }
}

impl<
    'de,
    A: BlamesField<'de>,
    B: BlamesField<'de>,
    C: BlamesField<'de>,
    D: BlamesField<'de>,
    E: BlamesField<'de>,
    F: BlamesField<'de>,
    G: BlamesField<'de>,
> BlamesFields<'de> for (A, B, C, D, E, F, G) {
    ghost blames = { ⟦<(A, B, C, (D, E, F, (G, ()))) as BlamesChain<'de>>⟧.blames };

    ghost points = { points_three A.counts B.counts C.counts A.points B.points C.points
        (points_three D.counts E.counts F.counts D.points E.points F.points
        (points_next G.counts G.points points_none)) };

    fn blame_fields<'m>(
        alloc: Global,
        table: TableView<'de>,
        names: &[&'de str],
        walk: &mut Walk,
    ) -> Result<(), Blame<'de, 'm>> {
        <(A, B, C, (D, E, F, (G, ()))) as BlamesChain<'de>>::blame_chain(alloc, table, names, walk)
    }
}

impl<
    'de,
    A: BlamesField<'de>,
    B: BlamesField<'de>,
    C: BlamesField<'de>,
    D: BlamesField<'de>,
    E: BlamesField<'de>,
    F: BlamesField<'de>,
    G: BlamesField<'de>,
    H: BlamesField<'de>,
> BlamesFields<'de> for (A, B, C, D, E, F, G, H) {
    ghost blames = { ⟦<(A, B, C, (D, E, F, (G, (H, ())))) as BlamesChain<'de>>⟧.blames };

    ghost points = { points_three A.counts B.counts C.counts A.points B.points C.points
        (points_three D.counts E.counts F.counts D.points E.points F.points
        (points_next G.counts G.points
        (points_next H.counts H.points points_none))) };

    fn blame_fields<'m>(
        alloc: Global,
        table: TableView<'de>,
        names: &[&'de str],
        walk: &mut Walk,
    ) -> Result<(), Blame<'de, 'm>> {
        <(A, B, C, (D, E, F, (G, (H, ())))) as BlamesChain<'de>>::blame_chain(
            alloc, table, names, walk,
        )
    }
}

impl<
    'de,
    A: BlamesField<'de>,
    B: BlamesField<'de>,
    C: BlamesField<'de>,
    D: BlamesField<'de>,
    E: BlamesField<'de>,
    F: BlamesField<'de>,
    G: BlamesField<'de>,
    H: BlamesField<'de>,
    I: BlamesField<'de>,
> BlamesFields<'de> for (A, B, C, D, E, F, G, H, I) {
    ghost blames = { ⟦<(A, B, C, (D, E, F, (G, H, I, ()))) as BlamesChain<'de>>⟧.blames };

    ghost points = { points_three A.counts B.counts C.counts A.points B.points C.points
        (points_three D.counts E.counts F.counts D.points E.points F.points
        (points_three G.counts H.counts I.counts G.points H.points I.points points_none)) };

    fn blame_fields<'m>(
        alloc: Global,
        table: TableView<'de>,
        names: &[&'de str],
        walk: &mut Walk,
    ) -> Result<(), Blame<'de, 'm>> {
        <(A, B, C, (D, E, F, (G, H, I, ()))) as BlamesChain<'de>>::blame_chain(
            alloc, table, names, walk,
        )
    }
}

impl<
    'de,
    A: BlamesField<'de>,
    B: BlamesField<'de>,
    C: BlamesField<'de>,
    D: BlamesField<'de>,
    E: BlamesField<'de>,
    F: BlamesField<'de>,
    G: BlamesField<'de>,
    H: BlamesField<'de>,
    I: BlamesField<'de>,
    J: BlamesField<'de>,
> BlamesFields<'de> for (A, B, C, D, E, F, G, H, I, J) {
    ghost blames = { ⟦<(A, B, C, (D, E, F, (G, H, I, (J, ())))) as BlamesChain<'de>>⟧.blames };

    ghost points = { points_three A.counts B.counts C.counts A.points B.points C.points
        (points_three D.counts E.counts F.counts D.points E.points F.points
        (points_three G.counts H.counts I.counts G.points H.points I.points
        (points_next J.counts J.points points_none))) };

    fn blame_fields<'m>(
        alloc: Global,
        table: TableView<'de>,
        names: &[&'de str],
        walk: &mut Walk,
    ) -> Result<(), Blame<'de, 'm>> {
        <(A, B, C, (D, E, F, (G, H, I, (J, ())))) as BlamesChain<'de>>::blame_chain(
            alloc, table, names, walk,
        )
    }
}

impl<
    'de,
    A: BlamesField<'de>,
    B: BlamesField<'de>,
    C: BlamesField<'de>,
    D: BlamesField<'de>,
    E: BlamesField<'de>,
    F: BlamesField<'de>,
    G: BlamesField<'de>,
    H: BlamesField<'de>,
    I: BlamesField<'de>,
    J: BlamesField<'de>,
    K: BlamesField<'de>,
> BlamesFields<'de> for (A, B, C, D, E, F, G, H, I, J, K) {
    ghost blames = { ⟦<(A, B, C, (D, E, F, (G, H, I, (J, (K, ()))))) as BlamesChain<'de>>⟧.blames };

    ghost points = { points_three A.counts B.counts C.counts A.points B.points C.points
        (points_three D.counts E.counts F.counts D.points E.points F.points
        (points_three G.counts H.counts I.counts G.points H.points I.points
        (points_next J.counts J.points
        (points_next K.counts K.points points_none)))) };

    fn blame_fields<'m>(
        alloc: Global,
        table: TableView<'de>,
        names: &[&'de str],
        walk: &mut Walk,
    ) -> Result<(), Blame<'de, 'm>> {
        <(A, B, C, (D, E, F, (G, H, I, (J, (K, ()))))) as BlamesChain<'de>>::blame_chain(
            alloc, table, names, walk,
        )
    }
}

impl<
    'de,
    A: BlamesField<'de>,
    B: BlamesField<'de>,
    C: BlamesField<'de>,
    D: BlamesField<'de>,
    E: BlamesField<'de>,
    F: BlamesField<'de>,
    G: BlamesField<'de>,
    H: BlamesField<'de>,
    I: BlamesField<'de>,
    J: BlamesField<'de>,
    K: BlamesField<'de>,
    L: BlamesField<'de>,
> BlamesFields<'de> for (A, B, C, D, E, F, G, H, I, J, K, L) {
    ghost blames = { ⟦<(A, B, C, (D, E, F, (G, H, I, (J, K, L, ())))) as BlamesChain<'de>>⟧.blames };

    ghost points = { points_three A.counts B.counts C.counts A.points B.points C.points
        (points_three D.counts E.counts F.counts D.points E.points F.points
        (points_three G.counts H.counts I.counts G.points H.points I.points
        (points_three J.counts K.counts L.counts J.points K.points L.points points_none))) };

    fn blame_fields<'m>(
        alloc: Global,
        table: TableView<'de>,
        names: &[&'de str],
        walk: &mut Walk,
    ) -> Result<(), Blame<'de, 'm>> {
        <(A, B, C, (D, E, F, (G, H, I, (J, K, L, ())))) as BlamesChain<'de>>::blame_chain(
            alloc, table, names, walk,
        )
    }
}
