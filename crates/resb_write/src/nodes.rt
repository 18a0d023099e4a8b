//! What the writer needs of resources in laying order: what each is without what is inside it. So
//! the writer is generic over what is laid. The nodes of a tree's resources are found here, those
//! of a draft's pieces in `pieces` and `drafts`.
//! What is gathered from resources and laid for them is not said here.
ghost use Rattle.std.specs.Prelude.{◌≡◌, ◌++◌, ◌<◌, ℕ, List, length, get_or, IfOk, OnOk};
ghost use Rattle.std.specs.List.{flat_map};
ghost use Rattle.resb_tree.specs.Tree.{Tree};
ghost use Rattle.resb_tree.specs.View.{tree_of, entries_view};
ghost use Rattle.resb_tree.specs.LayingOrder.{entry_keys, own_keys, trees_in};
ghost use Rattle.resb_write.specs.Inner.Nodes.{AreNodes, IsNode, no_tree};
ghost use Rattle.resb_write.specs.Inner.Numbered.{NumbersKeys};

use crate::numbered_keys::NumberedKeys;
use resb_tree::{Resource, Table};
use std::alloc::{AllocError, Global};

/// A resource without what is inside it.
#[derive(Clone, Copy)]
pub(crate) enum Node<'t> {
    /// A text.
    String(&'t str),
    /// An alias's path.
    Alias(&'t str),
    /// An array of so many members.
    Array(usize),
    /// A table of so many entries.
    Table(usize),
    /// Bytes.
    Binary(&'t [u8]),
    /// A number of 28 bits.
    Integer(u32),
    /// Numbers of 32 bits.
    IntVector(&'t [u32]),
}

/// Resources in laying order, as the writer sees them.
pub(crate) trait Nodes {
    /// Whether they can stand for these trees, each for one, of which they may say the roots alone.
    ghost fit: { Self → List Tree → Type 0 };

    /// How many they are.
    fn count(&self) -> usize
        ensures { (ts : List Tree) → fit self.now ts → length ts ≡ result };

    /// The one at a place, without what is inside it.
    fn node(&self, at: usize) -> Node<'_>
        requires { (ts : List Tree) × fit self.now ts × (at < length ts) }
        ensures { (ts : List Tree) → fit self.now ts → at < length ts
            → IsNode result (get_or ts at no_tree) };
}

impl<'t> Nodes for Vec<Node<'t>> {
    ghost use Rattle.resb_write.specs.Inner.Nodes.{AreNodes};

    ghost fit = { λ v ts. AreNodes v.items ts };

    fn count(&self) -> usize {
        self.len()
    }

    fn node(&self, at: usize) -> Node<'_> {
        self[at]
    }
}

/// Resources without what is inside them.
pub(crate) fn nodes_of<'t>(
    alloc: Global,
    order: &Vec<&'t Resource<'_>>,
) -> Result<Vec<Node<'t>>, AllocError>
    ensures { IfOk result (λ v. AreNodes v.items (trees_in order.now.items)) }
{
    let mut nodes = Vec::with_capacity(alloc, order.len())?;
    for at in 0..order.len() {
        nodes.push(node_of(&*order[at]))?;
    }
    Ok(nodes)
}

/// A resource without what is inside it.
pub(crate) fn node_of<'t>(resource: &'t Resource<'_>) -> Node<'t>
    ensures { IsNode result (tree_of resource.now) }
{
    match resource {
        Resource::String(text) => Node::String(text.as_str()),
        Resource::Alias(path) => Node::Alias(path.as_str()),
        Resource::Array(items) => Node::Array(items.len()),
        Resource::Table(table) => Node::Table(table.len()),
        Resource::Binary(bytes) => Node::Binary(bytes.as_slice()),
        Resource::Integer(number) => Node::Integer(u32::from(*number)),
        Resource::IntVector(numbers) => Node::IntVector(numbers),
    }
}

/// The keys of the tables among resources, in their order.
pub(crate) fn table_keys<'t>(
    alloc: Global,
    order: &Vec<&'t Resource<'_>>,
) -> Result<NumberedKeys<'t>, AllocError>
    ensures { IfOk result
        (λ keys. NumbersKeys keys (flat_map own_keys (trees_in order.now.items))) }
{
    let mut keys = NumberedKeys::with_capacity(alloc, order.len())?;
    for at in 0..order.len() {
        add_keys(&mut keys, &*order[at])?;
    }
    Ok(keys)
}

/// Adds the keys of a table, in their order; of any other resource none.
fn add_keys<'t>(keys: &mut NumberedKeys<'t>, resource: &'t Resource<'_>) -> Result<(), AllocError>
    ensures { OnOk result ((ks : List (List ℕ)) → NumbersKeys keys.old ks
        → NumbersKeys keys.new (ks ++ own_keys (tree_of resource.now))) }
{
    match resource {
        Resource::Table(table) => add_table_keys(keys, table),
        Resource::String(_)
        | Resource::Alias(_)
        | Resource::Array(_)
        | Resource::Binary(_)
        | Resource::Integer(_)
        | Resource::IntVector(_) => Ok(()),
    }
}

/// Adds a table's keys.
fn add_table_keys<'t>(keys: &mut NumberedKeys<'t>, table: &'t Table<'_>) -> Result<(), AllocError>
    ensures { OnOk result ((ks : List (List ℕ)) → NumbersKeys keys.old ks
        → NumbersKeys keys.new (ks ++ entry_keys (entries_view table.now.entries))) }
{
    for key in table.keys() {
        keys.add(key.as_str())?;
    }
    Ok(())
}
