//! Handles of what stands in an opened file.
//! What is seen by one is said in `leaves`, `inside` and `found`.
ghost use Rattle.std.specs.Prelude.{◌≡◌, true};
ghost use Rattle.resb_format.specs.Parts.{parts_in};
ghost use Rattle.resb_walk.specs.Inner.Members.{member_of};
ghost use Rattle.resb_opened.specs.Ordered.{Ordered};
ghost use Rattle.resb_opened.specs.FieldLaws.{StandsAt-prop};
ghost use Rattle.resb_opened.specs.Standing.{StandsAt};

use crate::opened::Opened;
use resb_walk::Member;

/// A resource of an opened file. A handle takes 16 bytes.
#[derive(Clone, Copy)]
pub struct Handle<'a> {
    pub(crate) file: &'a Opened<'a>,
    pub(crate) at: Member,
    pub ghost stands: { StandsAt file.now.parts at } by { StandsAt-prop file.now.parts at },
    pub ghost ordered: { file.now.ascends ≡ true
        → ∥ Ordered (parts_in file.now.parts) (member_of at) ∥₁ },
}

impl<'a> Handle<'a> {
    ghost use Rattle.resb_tree.specs.Tree.{Tree};
    ghost use Rattle.resb_opened.specs.Handles.{tree_at};
    ghost use Rattle.resb_opened.specs.Standing.{Denoted};

    /// The handle of a member of a file.
    #[inline(always)]
    #[tactic(auto, using(crate::specs::FieldLaws::one_denoted))]
    pub(crate) fn at(file: &'a Opened<'a>, member: Member) -> Handle<'a>
        requires stands { StandsAt file.now.parts member }
        requires ordered { file.now.ascends ≡ true
            → ∥ Ordered (parts_in file.now.parts) (member_of member) ∥₁ }
        ensures file { result.file.now.ascends ≡ file.entry.now.ascends }
        ensures tree { (t : Tree)
            → Denoted (parts_in file.entry.now.parts) (member_of member) t
            → tree_at result ≡ t }
    {
        Handle { file, at: member }
    }
}
