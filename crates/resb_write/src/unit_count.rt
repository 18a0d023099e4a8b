//! How many units of the 16-bit block the bodies of a tree take, found before any is laid.
//! The bodies themselves are laid in `tree_bodies`. No function calls itself.
ghost use Rattle.std.specs.Prelude.{ℕ, ◌≡◌, ◌+◌, ◌-◌, ◌<◌, ◌≤◌, ◌^◌, ◌++◌, ◌∷◌, ◌&&◌, [], List};
ghost use Rattle.std.specs.Prelude.{length, map, take, nat_le, true, false, IfOk};
ghost use Rattle.std.specs.List.{sum_by, list_all};
ghost use Rattle.resb_tree.specs.Tree.{Tree};
ghost use Rattle.resb_tree.specs.LayingOrder.{laying_order, children};
ghost use Rattle.resb_layout.specs.Laid.{Given, are_near, nears_by, short_by};
ghost use Rattle.resb_write.specs.Inner.Room.{most_units, GivesInTurn};
ghost use Rattle.resb_write.specs.Inner.Counted.{is_near, own_units, short_units};
ghost use Rattle.resb_write.specs.Inner.Counted.{are_set_behind, CountsOne};
ghost use Rattle.resb_write.specs.Inner.Nodes.{IsNode};
ghost use Rattle.resb_write.specs.Inner.Lending.{lent_of};

use crate::lends::{Lends, short};
use crate::nodes::{Node, Nodes};
use crate::resource_bodies::{UNIT_MAX, are_near_positions};
use crate::sites::{Coming, Sites};
use std::alloc::{AllocError, Global};

/// The units of a collection of so many members, each of which takes some.
fn collection_units(is_short: bool, count: usize, each: usize) -> usize
    requires counted { is_short ≡ true → count ≤ 65535 }
    requires small { each ≤ 2 }
    ensures { result ≡ short_units is_short count each }
{
    if is_short && count > 0 {
        each * count + 1
    } else {
        0
    }
}

/// Whether all marks are set.
fn are_set(marks: &[bool]) -> bool
    ensures { result ≡ list_all (λ mark. mark) marks.now }
{
    for mark in marks {
        if !*mark {
            return false;
        }
    }
    true
}

/// Takes the last marks off a stack: whether all are set, and a unit can count them.
fn take_marks(marks: &mut Vec<bool>, count: usize) -> bool
    requires { count ≤ length marks.old.items }
    ensures all { result ≡ are_set_behind count marks.old.items }
    ensures left { marks.new.items ≡ take (length marks.old.items - count) marks.old.items }
{
    let from = marks.len() - count;
    let (_, taken) = marks.split_at(from);
    let all = count <= UNIT_MAX && are_set(taken);
    marks.truncate(from);
    all
}

/// The units of a string's body: none. Its mark is put.
fn count_string(
    lent: Option<Lends>,
    coming: &mut Coming<'_>,
    marks: &mut Vec<bool>,
) -> Result<usize, AllocError>
    requires { 0 < length coming.old.offsets.now }
    ensures counts { IfOk result (λ n. (n ≡ 0)
        × ((k : ℕ) (ks : List ℕ) → coming.old.offsets.now ≡ k ∷ ks
        → (marks.new.items ≡ marks.old.items
        ++ nat_le (short_by (lent_of lent) k) 65535 ∷ [])
        × (coming.new.offsets.now ≡ ks))) }
    ensures keeps { coming.new.positions.now ≡ coming.old.positions.now }
{
    marks.push(short(lent, coming.take_offset()) <= 0xffff)?;
    Ok(0)
}

/// The units of an array's body, whose members' marks are taken off the stack.
#[inline(never)]
fn count_array(marks: &mut Vec<bool>, count: usize) -> Result<usize, AllocError>
    requires { count ≤ length marks.old.items }
    ensures { IfOk result (λ n.
        (n ≡ short_units (are_set_behind count marks.old.items) count 1)
        × (marks.new.items
        ≡ take (length marks.old.items - count) marks.old.items ++ false ∷ [])) }
{
    let is_short = take_marks(marks, count);
    marks.push(false)?;
    Ok(collection_units(is_short, count, 1))
}

/// The units of a table's body, whose keys have these positions, and whose values' marks are taken
/// off the stack.
#[inline(never)]
fn count_table(
    lent: Option<Lends>,
    marks: &mut Vec<bool>,
    positions: &[u32],
) -> Result<usize, AllocError>
    requires { length positions.now ≤ length marks.old.items }
    ensures { IfOk result (λ n. (n ≡ short_units
        (are_set_behind (length positions.now) marks.old.items
        && are_near (nears_by (lent_of lent) positions.now))
        (length positions.now) 2)
        × (marks.new.items ≡ take (length marks.old.items - length positions.now) marks.old.items
        ++ false ∷ [])) }
{
    let is_short = take_marks(marks, positions.len()) && are_near_positions(lent, positions);
    marks.push(false)?;
    Ok(collection_units(is_short, positions.len(), 2))
}

/// The units of any other body: none. Its mark is put.
fn count_other(marks: &mut Vec<bool>) -> Result<usize, AllocError>
    ensures { IfOk result (λ n. (n ≡ 0) × (marks.new.items ≡ marks.old.items ++ false ∷ [])) }
{
    marks.push(false)?;
    Ok(0)
}

/// The units that a resource's own body takes. The marks of its members, the last of a stack, say
/// of each whether it is a string at an offset that a unit can tell; its own mark takes their
/// place. Where its keys or its string stand is what comes next.
#[inline(always)]
fn count_own(
    lent: Option<Lends>,
    coming: &mut Coming<'_>,
    marks: &mut Vec<bool>,
    node: Node<'_>,
) -> Result<usize, AllocError>
    requires { (t : Tree) × IsNode node t × (length (children t) ≤ length marks.old.items)
        × (g : Given) × (rest : List Tree)
        × GivesInTurn g coming.old.positions.now coming.old.offsets.now (t ∷ rest) }
    ensures counts { IfOk result (λ n. (g : Given) (t : Tree) (rest below : List Tree)
        → IsNode node.entry t
        → GivesInTurn g coming.old.positions.now coming.old.offsets.now (t ∷ rest)
        → marks.old.items ≡ map (is_near (lent_of lent) g) (below ++ children t)
        → CountsOne (lent_of lent) g t rest below n coming.new marks.new.items) }
{
    match node {
        Node::String(_) => count_string(lent, coming, marks),
        Node::Alias(_) => count_other(marks),
        Node::Array(count) => count_array(marks, count),
        Node::Table(count) => count_table(lent, marks, coming.take_positions(count)),
        Node::Binary(_) => count_other(marks),
        Node::Integer(_) => count_other(marks),
        Node::IntVector(_) => count_other(marks),
    }
}

/// The number of units of the 16-bit block: those of the pool of the strings, and what the bodies
/// of a tree add, whose resources are given in laying order. It is the same wherever the tail
/// begins.
pub(crate) fn count_units<N: Nodes>(
    alloc: Global,
    sites: &Sites<'_>,
    pool: usize,
    order: &N,
) -> Result<usize, AllocError>
    requires { (t : Tree) × N.fit order.now (laying_order t)
        × (pool + sum_by most_units (laying_order t) < 2 ^ 28)
        × (g : Given) × GivesInTurn g sites.now.positions.now sites.now.offsets.now
        (laying_order t) }
    ensures counts { IfOk result (λ count. (g : Given) (t : Tree)
        → N.fit order.now (laying_order t)
        → GivesInTurn g sites.now.positions.now sites.now.offsets.now (laying_order t)
        → count ≡ pool + sum_by (own_units (lent_of sites.now.lent) g) (laying_order t)) }
    ensures few { IfOk result (λ count. (t : Tree) → N.fit order.now (laying_order t)
        → (g : Given)
        → GivesInTurn g sites.now.positions.now sites.now.offsets.now (laying_order t)
        → count ≤ pool + sum_by most_units (laying_order t)) }
{
    let mut coming = sites.coming();
    let mut marks = Vec::new(alloc);
    let mut count = pool;
    for at in 0..order.count() {
        count += count_own(sites.lent, &mut coming, &mut marks, order.node(at))?;
    }
    Ok(count)
}
