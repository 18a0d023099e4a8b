//! The pieces of a draft that stand in laying order, as the writer sees them.
//! How a draft stands for a tree is said in `resb_draft`; pieces in another order are in `drafts`.
ghost use Rattle.std.specs.Prelude.{◌≡◌, true};
ghost use Rattle.resb_tree.specs.Tree.{Tree};
ghost use Rattle.resb_draft.specs.Pieces.{is_piece};
ghost use Rattle.resb_write.specs.Inner.Nodes.{IsNode};

use crate::nodes::{Node, Nodes, node_of};
use resb_draft::Piece;

/// A piece without what is inside it.
pub(crate) fn piece_node<'p>(piece: &'p Piece<'_>) -> Node<'p>
    ensures { (t : Tree) → is_piece piece.now t ≡ true → IsNode result t }
{
    match piece {
        Piece::String(text) => Node::String(text),
        Piece::Integer(number) => Node::Integer(u32::from(*number)),
        Piece::Leaf(resource) => node_of(resource),
        Piece::Array(part) => Node::Array(part.count as usize),
        Piece::Table(part, _) => Node::Table(part.count as usize),
    }
}

impl<'a> Nodes for Vec<Piece<'a>> {
    ghost use Rattle.std.specs.Prelude.{◌≡◌, true};
    ghost use Rattle.resb_draft.specs.Pieces.{are_pieces};

    ghost fit = { λ v ts. are_pieces v.items ts ≡ true };

    fn count(&self) -> usize {
        self.len()
    }

    fn node(&self, at: usize) -> Node<'_> {
        piece_node(&self[at])
    }
}
