//! Laws of trees, tables and integers, each the contract of a call that does nothing.
//! Their statements are in `specs/Laws.antt`.
ghost use Rattle.resb_tree.specs.Laws.{PutIsFound, PutKeepsOrder, MapsAreTheirAnswers};
ghost use Rattle.resb_tree.specs.Laws.{IntegersSurvive};
ghost use Rattle.resb_tree.specs.Maps.{IsMap};
ghost use Rattle.resb_tree.specs.View.{entries_view};

use crate::resource::Table;

/// A table is a finite map: what is put at a key is found there and nowhere else, and equal answers
/// are equal tables.
pub fn tables_are_finite_maps()
    ensures found { PutIsFound }
    ensures ordered { PutKeepsOrder }
    ensures equal { MapsAreTheirAnswers }
{}

/// Each table of a resource is such a map: its keys strictly ascend. Its length alone is looked at.
pub fn table_ascends(table: &Table<'_>)
    ensures { IsMap (entries_view table.now.entries) }
{
    let _length = table.len();
}

/// An integer of 28 bits is kept by its readings without and with a sign.
pub fn integers_survive()
    ensures { IntegersSurvive }
{}
