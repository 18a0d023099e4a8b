//! A file that was counted once, with what was learned of it.
//! How it is opened is said in `opening`, what stands in it in the other modules.
ghost use Rattle.std.specs.Prelude.{◌≡◌, true};
ghost use Rattle.resb_format.specs.Content.{word};
ghost use Rattle.resb_format.specs.Parts.{parts_in};
ghost use Rattle.resb_opened.specs.Ordered.{Ordered};
ghost use Rattle.resb_opened.specs.FieldLaws.{RootStands-prop};
ghost use Rattle.resb_opened.specs.Standing.{RootStands};

use resb_format::FileBlocks;
use resb_head::CheckedFile;

/// A file that was counted once. It has a tree, and each handle that it gives stands for a part of
/// that, so that no handle is ever refused. Nothing is copied: the file's bytes stay borrowed.
#[derive(Clone, Copy)]
pub struct Opened<'de> {
    pub(crate) parts: FileBlocks<'de>,
    pub(crate) root: u32,
    pub(crate) count: usize,
    pub(crate) ascends: bool,
    pub ghost stands: { RootStands parts root } by { RootStands-prop parts root },
    pub ghost ordered: { ascends ≡ true → ∥ Ordered (parts_in parts) (word root) ∥₁ },
}

impl<'de> Opened<'de> {
    ghost use Rattle.resb_tree.specs.Tree.{Tree};
    ghost use Rattle.resb_opened.specs.Handles.{tree_in};
    ghost use Rattle.resb_opened.specs.Standing.{Denoted};

    /// The file of these parts, of which so much was learned.
    #[tactic(auto, using(crate::specs::FieldLaws::one_denoted))]
    pub(crate) fn counted(parts: CheckedFile<'de>, count: usize, ascends: bool) -> Opened<'de>
        requires stands { RootStands parts.file parts.root }
        requires ordered { ascends ≡ true → ∥ Ordered (parts_in parts.file) (word parts.root) ∥₁ }
        ensures tree { (t : Tree)
            → Denoted (parts_in parts.entry.file) (word parts.entry.root) t → tree_in result ≡ t }
        ensures count { result.count ≡ count }
        ensures ascends { result.ascends ≡ ascends }
    {
        Opened {
            parts: parts.file,
            root: parts.root,
            count,
            ascends,
        }
    }
}
