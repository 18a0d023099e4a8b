//! The pieces of a draft that don't stand in laying order, by their numbers in it, and their keys.
//! What a piece is to the writer stands in `pieces`.
ghost use Rattle.std.specs.Prelude.{◌≡◌, true, map, IfOk};
ghost use Rattle.std.specs.List.{flat_map};
ghost use Rattle.resb_tree.specs.Borrowing.{all_true};
ghost use Rattle.resb_tree.specs.LayingOrder.{own_keys};
ghost use Rattle.resb_draft.specs.Drafts.{tree_at, is_whole};
ghost use Rattle.resb_write.specs.Inner.Numbered.{NumbersKeys};

use crate::nodes::{Node, Nodes};
use crate::numbered_keys::NumberedKeys;
use crate::pieces::piece_node;
use resb_draft::{Draft, Piece};
use std::alloc::{AllocError, Global};

/// Pieces of a draft, and the numbers of those that are laid, in laying order.
#[derive(Drop)]
pub(crate) struct NumberedPieces<'a> {
    pub(crate) pieces: Vec<Piece<'a>>,
    pub(crate) numbers: Vec<u32>,
}

impl<'a> Nodes for NumberedPieces<'a> {
    ghost use Rattle.resb_write.specs.Inner.Numbered.{TakesPieces};

    ghost fit = { λ s ts. TakesPieces s.pieces.items s.numbers.items ts };

    fn count(&self) -> usize {
        self.numbers.len()
    }

    fn node(&self, at: usize) -> Node<'_> {
        piece_node(&self.pieces[self.numbers[at] as usize])
    }
}

/// The keys of the tables among the pieces of these numbers, in their order.
pub(crate) fn draft_keys<'a>(
    alloc: Global,
    draft: &Draft<'a>,
    order: &[u32],
) -> Result<NumberedKeys<'a>, AllocError>
    requires { all_true (map (is_whole draft.now) order.now) ≡ true }
    ensures { IfOk result
        (λ keys. NumbersKeys keys (flat_map own_keys (map (tree_at draft.now) order.now))) }
{
    let mut keys = NumberedKeys::with_capacity(alloc, draft.keys.len())?;
    for at in 0..order.len() {
        keys.add_all(draft.own_keys(order[at]))?;
    }
    Ok(keys)
}
