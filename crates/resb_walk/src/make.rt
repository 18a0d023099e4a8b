//! What a reader makes of the resources that it reads.
//! Trees are made in `tree`. Where only their number is wanted nothing is made: see `count`.
ghost use Rattle.std.specs.Prelude.{ℕ, List, [], ◌∷◌, ◌++◌, IfOk, OnOk};
ghost use Rattle.resb_tree.specs.Tree as tree;
ghost use Rattle.resb_tree.specs.Tree.{Tree};
ghost use Rattle.resb_walk.specs.Inner.Members.{leaf_tree};

use crate::members::Leaf;
use resb_tree::NoMemory;
use std::alloc::Global;

/// What can be made of resources: of a leaf, or of a collection, member by member.
pub trait Make<'de>: Sized + Drop {
    /// A list that is being made.
    type List: Drop;
    /// A table that is being made.
    type Table: Drop;

    /// The value stands for the tree.
    ghost is: { Self → Tree → Type 0 };

    /// The list has what stands for the trees so far.
    ghost lists: { Self.List → List Tree → Type 0 };

    /// The table has what stands for the entries so far.
    ghost tables: { Self.Table → List (List ℕ × Tree) → Type 0 };

    /// What has no members. A binary is borrowed from the file; a string's text is made, and so is
    /// an alias's path.
    fn leaf(alloc: Global, leaf: Leaf<'de>) -> Result<Self, NoMemory>
        ensures { IfOk result (λ x. is x (leaf_tree leaf.entry)) };

    /// An array without members yet, with room for so many.
    fn begin_list(alloc: Global, room: usize) -> Result<Self::List, NoMemory>
        ensures { IfOk result (λ l. lists l []) };

    /// Adds a member behind the others.
    fn add(list: &mut Self::List, item: Self) -> Result<(), NoMemory>
        ensures { OnOk result ((ts : List Tree) (t : Tree) → lists list.old ts → is item t
            → lists list.new (ts ++ t ∷ [])) };

    /// The array, once all its members are there.
    fn end_list(list: Self::List) -> Self
        ensures { (ts : List Tree) → lists list ts → is result (tree.array (tree.trees_of ts)) };

    /// A table without entries yet, of which so many will come.
    fn begin_table(alloc: Global, room: usize) -> Result<Self::Table, NoMemory>
        ensures { IfOk result (λ m. tables m []) };

    /// Adds an entry; the last one of a key stays.
    fn put(table: &mut Self::Table, key: &'de str, item: Self) -> Result<(), NoMemory>
        ensures { OnOk result ((es : List (List ℕ × Tree)) (t : Tree) → tables table.old es
            → is item t → tables table.new (es ++ (key.now, t) ∷ [])) };

    /// The table, once all its entries are there.
    fn end_table(alloc: Global, table: Self::Table) -> Result<Self, NoMemory>
        ensures { (es : List (List ℕ × Tree)) → tables table es
            → IfOk result (λ x. is x (tree.table (tree.map_of es))) };
}
