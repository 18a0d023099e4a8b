//! What stands at a handle, as the walk sees it.
//! What is told of it is said in `leaves` and `inside`.
ghost use Rattle.std.specs.Prelude.{◌≡◌, ℕ, List, Some, true};
ghost use Rattle.resb_tree.specs.Tree.{string};
ghost use Rattle.resb_format.specs.Parts.{parts_in};
ghost use Rattle.resb_walk.specs.Inner.Members.{member_of, content_of, IsWellSpelled};
ghost use Rattle.resb_walk.specs.Inner.MemberContent.{member_content};
ghost use Rattle.resb_opened.specs.Handles.{tree_at};
ghost use Rattle.resb_opened.specs.Inner.Holding.{Holds};

use crate::handle::Handle;
use resb_format::ResourceReprType;
use resb_walk::places::index_of;
use resb_walk::{Leaf, Member, Standing, standing_at, text_at};

impl<'a> Handle<'a> {
    /// What stands here.
    #[inline(always)]
    pub(crate) fn standing(self) -> Standing<'a>
        ensures content { member_content (parts_in self.entry.file.now.parts)
            (member_of self.entry.at) ≡ Some (content_of result) }
        ensures holds { Holds (parts_in self.entry.file.now.parts) (content_of result)
            (tree_at self.entry) }
        ensures form { IsWellSpelled result }
    {
        let parts = self.file.parts;
        match self.at {
            Member::Word(word) => match standing_at(parts, word) {
                Ok(standing) => standing,
                Err(_) => unreachable!(),
            },
            Member::Unit(unit) => match text_at(parts, index_of(parts, unit)) {
                Ok(text) => Standing::Leaf(Leaf::Text(text)),
                Err(_) => unreachable!(),
            },
        }
    }

    /// Whether the member's type alone tells that a string stands here: it is one of the 16-bit
    /// block. Nothing of the file is looked at.
    #[inline(always)]
    pub(crate) fn is_typed_string(self) -> bool
        ensures { result ≡ true → (s : List ℕ) × (tree_at self.entry ≡ string s) }
    {
        match self.at {
            Member::Word(word) => {
                word / (1 << 28) == u32::from(u16::from(ResourceReprType::StringV2))
            }
            Member::Unit(_) => true,
        }
    }
}
