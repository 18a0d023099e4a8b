//! The trait of what is shown: handles of resources, and ways through arrays and tables.
//! Trees have their instance in `resource`.
ghost use Rattle.std.specs.Prelude.{◌≡◌, ◌==◌, ◌++◌, ◌<◌, OnOk, OnErr, IfSome, MatchOption};
ghost use Rattle.std.specs.Prelude.{slice_get};
ghost use Rattle.std.specs.List.{list_any};
ghost use Rattle.std.specs.String.{string_bytes};
ghost use Rattle.resb_tree.specs.Tree.{Tree, Trees, no_trees, more_trees};
ghost use Rattle.resb_tree.specs.Tree.{Entries, no_entries, entry};
ghost use Rattle.resb_shown.specs.Shown.{IsNode, AddsFront, text_in, numbers_in};

use crate::node::Node;
use std::alloc::AllocError;

/// A handle of a resource, which stands for one tree. Nothing is made, and nothing fails but for
/// want of memory: where the handle is one of a file, the file was found right before.
pub trait Shown<'s>: Copy {
    /// A way through an array's members.
    type Members: Drop;

    /// A way through a table's entries.
    type Entries: Drop;

    /// The tree for which the handle stands.
    ghost tree: { Self → Tree };

    /// The members that are still to come.
    ghost members: { Self.Members → Trees };

    /// The entries that are still to come.
    ghost entries: { Self.Entries → Entries };

    /// What the resource is, with the ways through what is inside it.
    fn node(self) -> Node<'s, Self::Members, Self::Entries>
        ensures { IsNode members entries result (tree self) };

    /// A string's text or an alias's path, where it stands somewhere as it is; else, and of any
    /// other resource, none.
    fn text(self) -> Option<&'s str>
        ensures { IfSome result (λ text. text.now ≡ text_in (tree self)) };

    /// Puts a string's text, or an alias's path, behind what stands; of any other resource nothing.
    /// Where memory is missing, a front of that text stands there.
    fn push_text(self, text: &mut String) -> Result<(), AllocError>
        ensures all { OnOk result
            (string_bytes text.new ≡ string_bytes text.old ++ text_in (tree self)) }
        ensures front { OnErr result
            (AddsFront (string_bytes text.old) (string_bytes text.new) (text_in (tree self))) };

    /// Whether a string's text, or an alias's path, has this character of ASCII; no other resource
    /// has it. No text is made.
    fn has_ascii(self, character: u8) -> bool
        requires { character < 128 }
        ensures { result ≡ list_any (λ b. b == character) (text_in (tree self)) };

    /// The number that a vector has at this place, counted from 0, if it has one; of any other
    /// resource none. The last place of all has none.
    fn number(self, at: usize) -> Option<u32>
        ensures number { result ≡ slice_get (numbers_in (tree self)) at }
        ensures place { IfSome result (λ _. at < usize.MAX) };

    /// The next member, if one is still to come.
    fn next_member(ahead: &mut Self::Members) -> Option<Self>
        ensures { MatchOption result (members ahead.old ≡ no_trees)
            (λ next. members ahead.old ≡ more_trees (tree next) (members ahead.new)) };

    /// The next entry, if one is still to come: its key and its resource. Keys ascend.
    fn next_entry(ahead: &mut Self::Entries) -> Option<(&'s str, Self)>
        ensures { MatchOption result (entries ahead.old ≡ no_entries)
            (λ next. entries ahead.old ≡ entry next.0.now (tree next.1) (entries ahead.new)) };
}
