//! Lays a whole tree, its resources in laying order over a stack of words.
//! What is laid for one resource is said in `body_steps`. No function calls itself.
ghost use Rattle.std.specs.Prelude.{◌≡◌, ◌+◌, ◌%◌, ◌≤◌, [], ◌∷◌, List, length, IfOk, OnOk};
ghost use Rattle.resb_tree.specs.Tree.{Tree};
ghost use Rattle.resb_layout.specs.Laid.{Given, LaysBy};
ghost use Rattle.resb_tree.specs.LayingOrder.{laying_order, children};
ghost use Rattle.resb_write.specs.Inner.StackSteps.{LaysNext, LaysRow};
ghost use Rattle.resb_write.specs.Inner.Room.{laid_of, own_size, GivesInTurn};
ghost use Rattle.resb_write.specs.Inner.Room.{HasRoomFor, HasRoomBehind, tail_base};
ghost use Rattle.resb_write.specs.Inner.Seen.{Anywhere, HasRoom, TakesNoMore, CanLay};
ghost use Rattle.resb_write.specs.Inner.Nodes.{IsNode};
ghost use Rattle.resb_write.specs.Inner.Lending.{lent_of};

use crate::body_steps::{
    step_array, step_bytes, step_integer, step_numbers, step_path, step_string, step_table,
};
use crate::nodes::{Node, Nodes};
use crate::sites::{Bodies, Coming, Ground, Sites};
use crate::unit_count::count_units;
use std::alloc::{AllocError, Global};

/// Lays a resource behind its members, whose words it takes off the stack, and puts its own. Where
/// its keys or its string stand is what comes next.
#[inline(always)]
fn step(
    ground: &Ground,
    coming: &mut Coming<'_>,
    bodies: &mut Bodies,
    words: &mut Vec<u32>,
    node: Node<'_>,
) -> Result<(), AllocError>
    requires { (t : Tree) × IsNode node t × HasRoom ground.now.base bodies.old (own_size t)
        × (length (children t) ≤ length words.old.items) × (g : Given) × (rest : List Tree)
        × GivesInTurn g coming.old.positions.now coming.old.offsets.now (t ∷ rest) }
    ensures step { OnOk result (Anywhere ground.now.base (λ g. (t : Tree) (rest : List Tree)
        → g.packing ≡ ground.now.packing → IsNode node.entry t
        → GivesInTurn g coming.old.positions.now coming.old.offsets.now (t ∷ rest)
        → LaysNext (lent_of ground.now.lent) g (laid_of bodies.old) words.old.items t
        (laid_of bodies.new)
        words.new.items)) }
    ensures left { OnOk result ((g : Given) (t : Tree) (rest : List Tree) → IsNode node.entry t
        → GivesInTurn g coming.old.positions.now coming.old.offsets.now (t ∷ rest)
        → GivesInTurn g coming.new.positions.now coming.new.offsets.now rest) }
    ensures takes { OnOk result ((t : Tree) → IsNode node.entry t
        → TakesNoMore ground.now.base bodies.old bodies.new (own_size t)) }
{
    match node {
        Node::String(_) => step_string(ground.packing, words, coming.take_offset()),
        Node::Alias(path) => step_path(ground, bodies, words, path),
        Node::Array(count) => step_array(ground, bodies, words, count),
        Node::Table(count) => {
            let positions = coming.take_positions(count);
            step_table(ground, bodies, words, positions)
        }
        Node::Binary(bytes) => step_bytes(ground, bodies, words, bytes),
        Node::Integer(number) => step_integer(words, number),
        Node::IntVector(numbers) => step_numbers(ground, bodies, words, numbers),
    }
}

/// Lays resources in a row.
fn steps<N: Nodes>(
    ground: &Ground,
    sites: &Sites<'_>,
    bodies: &mut Bodies,
    words: &mut Vec<u32>,
    order: &N,
) -> Result<(), AllocError>
    requires { (ts : List Tree) × N.fit order.now ts
        × CanLay ground.now.base bodies.old (length words.old.items) ts
        × (g : Given) × GivesInTurn g sites.now.positions.now sites.now.offsets.now ts }
    ensures lays { OnOk result (Anywhere ground.now.base (λ g. (ts : List Tree)
        → g.packing ≡ ground.now.packing → N.fit order.now ts
        → GivesInTurn g sites.now.positions.now sites.now.offsets.now ts
        → LaysRow (lent_of ground.now.lent) g (laid_of bodies.old) words.old.items ts
        (laid_of bodies.new)
        words.new.items)) }
    ensures fits { OnOk result (HasRoomFor ground.now.base (laid_of bodies.new) []) }
{
    let mut coming = sites.coming();
    for at in 0..order.count() {
        step(ground, &mut coming, bodies, words, order.node(at))?;
    }
    Ok(())
}

/// Lays a tree, whose resources are given in laying order, behind the pool of its strings, and
/// gives its word. There is room for the bodies of its resources. `Err` is for want of memory
/// alone; what stands then is of no use.
fn lay_order<N: Nodes>(
    alloc: Global,
    ground: &Ground,
    sites: &Sites<'_>,
    bodies: &mut Bodies,
    order: &N,
) -> Result<u32, AllocError>
    requires { (t : Tree) × N.fit order.now (laying_order t)
        × HasRoomFor ground.now.base (laid_of bodies.old) (laying_order t)
        × (g : Given) × GivesInTurn g sites.now.positions.now sites.now.offsets.now
        (laying_order t) }
    ensures lays { IfOk result (λ word. Anywhere ground.now.base (λ g. (t : Tree)
        → g.packing ≡ ground.now.packing → N.fit order.now (laying_order t)
        → GivesInTurn g sites.now.positions.now sites.now.offsets.now (laying_order t)
        → LaysBy (lent_of ground.now.lent) g (laid_of bodies.old) t (laid_of bodies.new) word)) }
    ensures fits { OnOk result (HasRoomFor ground.now.base (laid_of bodies.new) []) }
{
    let mut words = Vec::new(alloc);
    steps(ground, sites, bodies, &mut words, order)?;
    let Some(word) = words.pop() else {
        unreachable!()
    };
    Ok(word)
}

/// Lays a tree, whose resources are given in laying order, behind the pool of its strings, where
/// the key block ends at a byte of the body. Gives what is laid, and the tree's word. The tail
/// begins behind the 16-bit block, at a multiple of 4. `Err` is for want of memory alone.
pub(crate) fn lay_bodies<N: Nodes>(
    alloc: Global,
    sites: &Sites<'_>,
    pool: Vec<u16>,
    keys_end: usize,
    order: &N,
) -> Result<(Bodies, u32), AllocError>
    requires aligned { keys_end % 4 ≡ 0 }
    requires tree { (t : Tree) × N.fit order.now (laying_order t)
        × HasRoomBehind keys_end pool.items (laying_order t)
        × (g : Given) × GivesInTurn g sites.now.positions.now sites.now.offsets.now
        (laying_order t) }
    ensures lays { IfOk result (λ laid. (g : Given) (t : Tree)
        → N.fit order.now (laying_order t)
        → GivesInTurn g sites.now.positions.now sites.now.offsets.now (laying_order t)
        → g.base ≡ tail_base keys_end laid.0 → g.packing ≡ sites.now.packing
        → LaysBy (lent_of sites.now.lent) g (record { units = pool.items; tail = [] }) t
        (laid_of laid.0) laid.1) }
    ensures fits { IfOk result (λ laid. HasRoomFor (tail_base keys_end laid.0)
        (laid_of laid.0) []) }
{
    let count = count_units(alloc, sites, pool.len(), order)?;
    let ground = Ground {
        base: keys_end + 2 * (count + count % 2),
        lent: sites.lent,
        packing: sites.packing,
    };
    let mut bodies = Bodies {
        units: pool,
        tail: Vec::new(alloc),
    };
    let word = lay_order(alloc, &ground, sites, &mut bodies, order)?;
    Ok((bodies, word))
}
