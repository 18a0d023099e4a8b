//! What the reader makes of groups once they are closed, and of strings among members.
//! What is open stands in `open`. Trees are made in `trees`, pieces of a draft in `drafts`.
ghost use Rattle.std.specs.Prelude.{◌≡◌, Bool, true, IfOk, IfSome, IfNone, map};
ghost use Rattle.resb_tree.specs.Tree.{Tree, array, table, trees_of, map_of};
ghost use Rattle.resb_tree.specs.View.{tree_of};
ghost use Rattle.resb_draft.specs.Drafts.{is_leaf};
ghost use Rattle.resb_icu_grammar.specs.Machine.{AreDistinct};
ghost use Rattle.resb_icu_text.specs.Borrowed.{passes};
ghost use Rattle.resb_icu_text.specs.Inner.Build.{Adds, pairs_by};
ghost use Rattle.resb_icu_text.specs.Inner.Kept.{Test, anything, members_pass, entries_pass};

use crate::steps::Entry;
use resb_tree::{NoMemory, Resource};
use std::alloc::Global;

/// What can be made of groups, one after another, members first.
pub(crate) trait Build<'a>: Sized + Drop {
    /// What is made of a group.
    type Made: Drop;

    /// The tree for which it stands.
    ghost tree: { Self → Self.Made → Tree };

    /// Whether it was made here, and the strings in it pass a test.
    ghost held: { Self → Self.Made → Test → Bool };

    /// A group without items, or a string among members.
    fn leaf(&mut self, resource: Resource<'a>) -> Result<Self::Made, NoMemory>
        requires leaf { is_leaf (tree_of resource) ≡ true }
        ensures { IfOk result (λ x. Adds tree held self.old self.new x (tree_of resource.entry)
            (λ t. passes t resource.entry)) };

    /// The array of these members, whose list may be taken.
    fn array(
        &mut self,
        alloc: Global,
        members: &mut Vec<Self::Made>,
    ) -> Result<Self::Made, NoMemory>
        requires held { members_pass members.old.items (held self.old) anything ≡ true }
        ensures { IfOk result (λ x. Adds tree held self.old self.new x
            (array (trees_of (map (tree self.old) members.old.items)))
            (members_pass members.old.items (held self.old))) };

    /// The table of these entries, if each key stands once among them. Their list may be taken.
    fn table(
        &mut self,
        alloc: Global,
        entries: &mut Vec<Entry<'a, Self::Made>>,
    ) -> Result<Option<Self::Made>, NoMemory>
        requires held { entries_pass entries.old.items (held self.old) anything ≡ true }
        ensures distinct { IfOk result (λ o. IfSome o (λ x.
            AreDistinct (pairs_by (tree self.old) entries.old.items))) }
        ensures made { IfOk result (λ o. IfSome o (λ x. Adds tree held self.old self.new x
            (table (map_of (pairs_by (tree self.old) entries.old.items)))
            (entries_pass entries.old.items (held self.old)))) }
        ensures none { IfOk result (λ o. IfNone o
            (AreDistinct (pairs_by (tree self.old) entries.old.items) → ⊥)) };
}
