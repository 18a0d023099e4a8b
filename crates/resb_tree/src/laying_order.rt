//! The resources of a tree in the order in which they are laid: members before their collection.
//! What is laid for each is not said here. No function calls itself, so that a tree may be of any
//! depth.
ghost use Rattle.std.specs.Prelude.{◌≡◌, ◌++◌, [], reverse, IfOk, OnOk};
ghost use Rattle.resb_tree.specs.View.{tree_of};
ghost use Rattle.resb_tree.specs.LayingOrder.{laying_order, children, trees_in};

use crate::resource::Resource;
use std::alloc::{AllocError, Global};

/// The resources of a tree in laying order: members before their collection.
pub type LayingOrder<'t, 'a> = Vec<&'t Resource<'a>>;

/// The resources of a tree in laying order.
pub fn in_laying_order<'t, 'a>(
    alloc: Global,
    root: &'t Resource<'a>,
) -> Result<LayingOrder<'t, 'a>, AllocError>
    ensures { IfOk result (λ v. trees_in v.items ≡ laying_order (tree_of root.now)) }
{
    let mut order = Vec::new(alloc);
    push_laid(alloc, &mut order, root)?;
    order.reverse();
    Ok(order)
}

/// Appends the resources of a tree, each behind its collection, to none.
fn push_laid<'t, 'a>(
    alloc: Global,
    order: &mut LayingOrder<'t, 'a>,
    root: &'t Resource<'a>,
) -> Result<(), AllocError>
    requires { order.old.items ≡ [] }
    ensures { OnOk result (reverse (trees_in order.new.items) ≡ laying_order (tree_of root.now)) }
{
    let mut pending = Vec::new(alloc);
    pending.push(root)?;
    while let Some(resource) = pending.pop() {
        order.push(resource)?;
        push_children(&mut pending, resource)?;
    }
    Ok(())
}

/// Appends the resources right inside a resource.
fn push_children<'t, 'a>(
    pending: &mut Vec<&'t Resource<'a>>,
    resource: &'t Resource<'a>,
) -> Result<(), AllocError>
    ensures { OnOk result (trees_in pending.new.items
        ≡ trees_in pending.old.items ++ children (tree_of resource.now)) }
{
    match resource {
        Resource::Array(items) => pending.extend(items.iter()),
        Resource::Table(table) => pending.extend(table.values()),
        Resource::String(_)
        | Resource::Alias(_)
        | Resource::Binary(_)
        | Resource::Integer(_)
        | Resource::IntVector(_) => Ok(()),
    }
}
