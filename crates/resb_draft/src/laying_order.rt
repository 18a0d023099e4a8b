//! The pieces of a draft in the order in which they are laid: members before their collection.
//! What is laid for each is not said here. No function calls itself, so a draft may have any depth.
ghost use Rattle.std.specs.Prelude.{◌≡◌, ◌++◌, true, [], map, reverse, IfOk, OnOk, IsTrue};
ghost use Rattle.std.specs.Prelude.{IfSome};
ghost use Rattle.std.specs.Prelude.{◌+◌, ◌≤◌, length, slice_range};
ghost use Rattle.resb_tree.specs.Borrowing.{all_true};
ghost use Rattle.resb_tree.specs.LayingOrder.{laying_order, children, keys_of, own_keys};
ghost use Rattle.resb_draft.specs.Drafts.{tree_at, is_whole, draft_tree, is_ready, texts};
ghost use Rattle.resb_draft.specs.Pieces.{are_pieces};

use crate::draft::{Draft, Piece};
use std::alloc::{AllocError, Global};

impl<'a> Draft<'a> {
    /// The numbers of the pieces of the draft's tree in laying order.
    pub fn in_laying_order(&self, alloc: Global) -> Result<Vec<u32>, AllocError>
        requires { is_ready self.now ≡ true }
        ensures order { IfOk result
            (λ v. map (tree_at self.now) v.items ≡ laying_order (draft_tree self.now)) }
        ensures whole { IfOk result (λ v. all_true (map (is_whole self.now) v.items) ≡ true) }
    {
        let mut order = Vec::with_capacity(alloc, self.pieces.len())?;
        self.push_laid(alloc, &mut order)?;
        order.reverse();
        Ok(order)
    }

    /// Appends the numbers of the pieces of the draft's tree, each behind its collection's, to
    /// none.
    fn push_laid(&self, alloc: Global, order: &mut Vec<u32>) -> Result<(), AllocError>
        requires fresh { order.old.items ≡ [] }
        requires ready { is_ready self.now ≡ true }
        ensures order { OnOk result (reverse (map (tree_at self.now) order.new.items)
            ≡ laying_order (draft_tree self.now)) }
        ensures whole { OnOk result (all_true (map (is_whole self.now) order.new.items) ≡ true) }
    {
        let mut pending = Vec::new(alloc);
        pending.push(self.root)?;
        while let Some(number) = pending.pop() {
            order.push(number)?;
            self.push_children(&mut pending, number)?;
        }
        Ok(())
    }

    /// Appends the numbers of the pieces right inside a piece.
    #[inline(always)]
    fn push_children(&self, pending: &mut Vec<u32>, number: u32) -> Result<(), AllocError>
        requires { is_whole self.now number ≡ true }
        ensures trees { OnOk result (map (tree_at self.now) pending.new.items
            ≡ map (tree_at self.now) pending.old.items ++ children (tree_at self.now number)) }
        ensures whole { OnOk result (all_true (map (is_whole self.now) pending.old.items) ≡ true
            → all_true (map (is_whole self.now) pending.new.items) ≡ true) }
    {
        match &self.pieces[number as usize] {
            Piece::String(_) => Ok(()),
            Piece::Integer(_) => Ok(()),
            Piece::Leaf(_) => Ok(()),
            Piece::Array(part) => {
                pending.extend_from_slice(part_of(&self.members, part.from, part.count))
            }
            Piece::Table(part, _) => {
                pending.extend_from_slice(part_of(&self.members, part.from, part.count))
            }
        }
    }

    /// Whether the pieces are all of the draft's tree and stand in laying order, and the keys those
    /// of its tables in that order.
    pub fn stands_in_order(&self, alloc: Global) -> Result<bool, AllocError>
        requires { is_ready self.now ≡ true }
        ensures pieces { IfOk result (λ stands. IsTrue stands
            → are_pieces self.now.pieces.items (laying_order (draft_tree self.now)) ≡ true) }
        ensures keys { IfOk result (λ stands. IsTrue stands
            → texts self.now.keys.items ≡ keys_of (draft_tree self.now)) }
    {
        let mut pending = Vec::new(alloc);
        pending.push(self.root)?;
        let mut left = self.pieces.len();
        let mut keys = self.keys.len();
        while let Some(number) = pending.pop() {
            let place = number as usize;
            if place + 1 != left {
                return Ok(false);
            }
            let Some(start) = self.keys_start(number, keys) else {
                return Ok(false);
            };
            left = place;
            keys = start;
            self.push_children(&mut pending, number)?;
        }
        Ok(left == 0 && keys == 0)
    }

    /// Where the keys begin of the table that the piece of this number stands for, if they end at
    /// this place. The keys of any other piece begin where they end.
    fn keys_start(&self, number: u32, to: usize) -> Option<usize>
        requires whole { is_whole self.now number ≡ true }
        ensures order { IfSome result (λ from. from ≤ to) }
        ensures keys { IfSome result (λ from.
            slice_range (texts self.now.keys.items) from to ≡ own_keys (tree_at self.now number)) }
    {
        match &self.pieces[number as usize] {
            Piece::Table(part, first) => {
                let from = *first as usize;
                if from + part.count as usize == to {
                    Some(from)
                } else {
                    None
                }
            }
            Piece::String(_) => Some(to),
            Piece::Integer(_) => Some(to),
            Piece::Leaf(_) => Some(to),
            Piece::Array(_) => Some(to),
        }
    }

    /// The keys of the table that the piece of this number stands for; of any other piece none.
    pub fn own_keys(&self, number: u32) -> &[&'a str]
        requires { is_whole self.now number ≡ true }
        ensures { texts result.now ≡ own_keys (tree_at self.now number) }
    {
        match &self.pieces[number as usize] {
            Piece::Table(part, first) => part_of(&self.keys, *first, part.count),
            Piece::String(_) => &[],
            Piece::Integer(_) => &[],
            Piece::Leaf(_) => &[],
            Piece::Array(_) => &[],
        }
    }
}

/// The part of a list that begins at a place and has so many elements.
fn part_of<X>(list: &[X], from: u32, count: u32) -> &[X]
    requires { from + count ≤ length list.now }
    ensures { result.now ≡ slice_range list.now from (from + count) }
{
    let from = from as usize;
    &list[from..from + count as usize]
}
