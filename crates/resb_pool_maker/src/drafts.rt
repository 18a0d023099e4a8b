//! What a bundle whose root is a draft gives to a pool.
//! What one whose root is a tree gives is found in `gathering`.
ghost use Rattle.std.specs.Prelude.{◌≡◌, ◌++◌, true, IfOk, IfErr, OnOk, map, fold};
ghost use Rattle.std.specs.List.{flat_map};
ghost use Rattle.resb_draft.specs.Drafts.{draft_tree, is_ready, is_whole, texts, tree_at};
ghost use Rattle.resb_draft.specs.Pieces.{is_piece};
ghost use Rattle.resb_layout.specs.KeyBlock.{used};
ghost use Rattle.resb_pool.specs.Plan.{nows, NotPlanned};
ghost use Rattle.resb_pool.specs.Shared.{ArePlanned, InPoolOrder};
ghost use Rattle.resb_pool.specs.declared.packing.Packing.TheVariants.{Plain};
ghost use Rattle.resb_tree.specs.Borrowing.{all_true};
ghost use Rattle.resb_tree.specs.LayingOrder.{own_keys, text_in, texts_of, keys_of};
ghost use Rattle.resb_tree.specs.Tree.{Tree};
ghost use Rattle.resb_pool_maker.specs.Holding.{bytes_each};
ghost use Rattle.resb_pool_maker.specs.PoolOf.{each_once, join_key};

use crate::gathering::{Gift, KeySet, add_text, join, keys_among, records_of};
use indexmap::IndexSet;
use resb_draft::{Draft, Piece};
use resb_pool::PlanError;
use resb_tree::Key;
use std::alloc::{AllocError, Global};

/// Joins keys.
pub(crate) fn join_all<'k>(set: &mut KeySet<'k>, keys: &[&'k str]) -> Result<(), AllocError>
    ensures { OnOk result (nows set.new.keys
        ≡ fold join_key (nows set.old.keys) (texts keys.now)) }
{
    for key in keys {
        join(set, key)?;
    }
    Ok(())
}

/// The keys of the tables among pieces of these numbers.
fn keys_in<'d>(alloc: Global, draft: &Draft<'d>, order: &[u32]) -> Result<KeySet<'d>, AllocError>
    requires { all_true (map (is_whole draft.now) order.now) ≡ true }
    ensures { IfOk result (λ set.
        nows set.keys ≡ each_once (flat_map own_keys (map (tree_at draft.now) order.now))) }
{
    let mut set = IndexSet::new(alloc);
    for at in 0..order.len() {
        join_all(&mut set, draft.own_keys(order[at]))?;
    }
    Ok(set)
}

/// Adds the text of a piece, if it is a string.
fn add_piece_text<'t>(texts: &mut Vec<&'t str>, piece: &'t Piece<'_>) -> Result<(), AllocError>
    ensures { OnOk result ((t : Tree) → is_piece piece.now t ≡ true
        → nows texts.new.items ≡ nows texts.old.items ++ text_in t) }
{
    match piece {
        Piece::String(text) => {
            texts.push(text)?;
            Ok(())
        }
        Piece::Leaf(resource) => add_text(texts, resource),
        Piece::Integer(_) => Ok(()),
        Piece::Array(_) => Ok(()),
        Piece::Table(_, _) => Ok(()),
    }
}

/// The texts of the strings among pieces of these numbers, as often as each stands there.
fn texts_in<'t>(
    alloc: Global,
    draft: &'t Draft<'_>,
    order: &[u32],
) -> Result<Vec<&'t str>, AllocError>
    requires { all_true (map (is_whole draft.now) order.now) ≡ true }
    ensures { IfOk result (λ v.
        nows v.items ≡ flat_map text_in (map (tree_at draft.now) order.now)) }
{
    let mut texts = Vec::new(alloc);
    for at in 0..order.len() {
        add_piece_text(&mut texts, &draft.pieces[order[at] as usize])?;
    }
    Ok(texts)
}

/// The listed keys that the tables among pieces of these numbers have.
fn used_keys(
    alloc: Global,
    draft: &Draft<'_>,
    order: &[u32],
    list: &[Key<'_>],
) -> Result<Vec<String>, AllocError>
    requires { all_true (map (is_whole draft.now) order.now) ≡ true }
    ensures { IfOk result (λ v. bytes_each v.items
        ≡ used (flat_map own_keys (map (tree_at draft.now) order.now)) list.now) }
{
    let set = keys_in(alloc, draft, order)?;
    keys_among(alloc, &set, list)
}

/// The texts that get a record among the strings of pieces of these numbers.
fn own_records(alloc: Global, draft: &Draft<'_>, order: &[u32]) -> Result<Vec<String>, PlanError>
    requires { all_true (map (is_whole draft.now) order.now) ≡ true }
    ensures ok { IfOk result (λ v. InPoolOrder Plain
        (flat_map text_in (map (tree_at draft.now) order.now)) (bytes_each v.items)) }
    ensures planned { OnOk result
        (ArePlanned (flat_map text_in (map (tree_at draft.now) order.now))) }
    ensures err { IfErr result
        (NotPlanned (flat_map text_in (map (tree_at draft.now) order.now))) }
{
    let texts = texts_in(alloc, draft, order)?;
    records_of(alloc, &texts)
}

/// What the bundle of a draft and a list of its keys gives.
pub(crate) fn draft_gift_of(
    alloc: Global,
    root: &Draft<'_>,
    list: &[Key<'_>],
) -> Result<Gift, PlanError>
    requires { is_ready root.now ≡ true }
    ensures keys { IfOk result (λ g.
        bytes_each g.keys.items ≡ used (keys_of (draft_tree root.now)) list.now) }
    ensures records { IfOk result (λ g.
        InPoolOrder Plain (texts_of (draft_tree root.now)) (bytes_each g.records.items)) }
    ensures planned { OnOk result (ArePlanned (texts_of (draft_tree root.now))) }
    ensures err { IfErr result (NotPlanned (texts_of (draft_tree root.now))) }
{
    let order = root.in_laying_order(alloc)?;
    let keys = used_keys(alloc, root, &order, list)?;
    let records = own_records(alloc, root, &order)?;
    Ok(Gift { keys, records })
}
