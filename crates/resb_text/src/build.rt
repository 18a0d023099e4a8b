//! What the reader makes of groups once they are closed.
//! The open groups stand in `frames`. Trees are made in `trees`, pieces of a draft in `drafts`.
ghost use Rattle.std.specs.Prelude.{◌≡◌, ◌+◌, ◌≤◌, Bool, true, map, length};
ghost use Rattle.std.specs.Prelude.{IfOk};
ghost use Rattle.resb_tree.specs.Tree.{Tree, string, array, table, trees_of, map_of};
ghost use Rattle.resb_tree.specs.View.{tree_of};
ghost use Rattle.resb_tree.specs.Borrowing.{all_true};
ghost use Rattle.resb_draft.specs.Drafts.{is_leaf};
ghost use Rattle.resb_text.specs.Borrowed.{borrows_strings};
ghost use Rattle.resb_text.specs.Inner.Build.{Adds};
ghost use Rattle.resb_text.specs.Inner.Shown.{shown_by, shown_tree, shown_pairs, shown_borrowed};

use crate::items::Item;
use crate::ticks::Ticks;
use resb_tree::{NoMemory, Resource};
use std::alloc::Global;

/// What can be made of groups, one after another, members first.
pub(crate) trait Build<'a>: Sized + Drop {
    /// What is made of a group.
    type Made: Drop;

    /// The tree for which it stands.
    ghost tree: { Self → Self.Made → Tree };

    /// Whether it was made here, and its strings are slices of the text.
    ghost held: { Self → Self.Made → Bool };

    /// A group without items, which is neither an array nor a table.
    fn leaf(&mut self, resource: Resource<'a>) -> Result<Self::Made, NoMemory>
        requires borrowed { borrows_strings resource ≡ true }
        requires leaf { is_leaf (tree_of resource) ≡ true }
        ensures { IfOk result
            (λ x. Adds tree held self.old self.new x (tree_of resource.entry)) };

    /// An untyped group of one string.
    fn string(&mut self, text: &'a str) -> Result<Self::Made, NoMemory>
        ensures { IfOk result (λ x. Adds tree held self.old self.new x (string text.now)) };

    /// The array of these items, whose list is left as room for others. Counts at most a turn for
    /// each.
    fn array(
        &mut self,
        alloc: Global,
        ticks: &mut Ticks,
        items: &mut Vec<Item<'a, Self::Made>>,
    ) -> Result<Self::Made, NoMemory>
        ensures made { let xs = map (shown_by (tree self.old) (held self.old)) items.old.items in
            all_true (map shown_borrowed xs) ≡ true → IfOk result
            (λ x. Adds tree held self.old self.new x (array (trees_of (map shown_tree xs)))) }
        ensures cost { ticks.new.count ≤ ticks.old.count + length items.old.items };

    /// The table of these items, which are a key, a group and so on. A later entry of an equal key
    /// replaces the earlier one. Their list is left as room for others. Counts at most a turn for
    /// each item.
    fn table(
        &mut self,
        alloc: Global,
        ticks: &mut Ticks,
        items: &mut Vec<Item<'a, Self::Made>>,
    ) -> Result<Self::Made, NoMemory>
        ensures made { let xs = map (shown_by (tree self.old) (held self.old)) items.old.items in
            all_true (map shown_borrowed xs) ≡ true → IfOk result
            (λ x. Adds tree held self.old self.new x (table (map_of (shown_pairs xs)))) }
        ensures cost { ticks.new.count ≤ ticks.old.count + length items.old.items };
}
