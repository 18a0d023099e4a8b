//! Closed groups as trees.
//! What a tree is stands in `resb_tree`; drafts are made in `drafts`.
ghost use Rattle.std.specs.Prelude.{◌≡◌, map, IfOk};

use crate::build::Build;
use crate::steps::Entry;
use resb_tree::{Key, NoMemory, Resource, table_at_once};
use std::alloc::Global;
use std::mem;

/// Groups become resources, and nothing else is kept.
#[derive(Drop)]
pub(crate) struct Trees {}

impl<'a> Build<'a> for Trees {
    ghost use Rattle.resb_tree.specs.View.{tree_of};
    ghost use Rattle.resb_icu_text.specs.Borrowed.{passes};

    type Made = Resource<'a>;

    ghost tree = { λ b r. tree_of r };

    ghost held = { λ b r t. passes t r };

    fn leaf(&mut self, resource: Resource<'a>) -> Result<Resource<'a>, NoMemory> {
        Ok(resource)
    }

    fn array(
        &mut self,
        alloc: Global,
        members: &mut Vec<Resource<'a>>,
    ) -> Result<Resource<'a>, NoMemory> {
        Ok(Resource::Array(mem::replace(members, Vec::new(alloc))))
    }

    fn table(
        &mut self,
        alloc: Global,
        entries: &mut Vec<Entry<'a, Resource<'a>>>,
    ) -> Result<Option<Resource<'a>>, NoMemory> {
        let entries = mem::replace(entries, Vec::new(alloc));
        let count = entries.len();
        let table = table_at_once(alloc, with_keys(alloc, entries)?)?;
        if table.len() == count {
            Ok(Some(Resource::Table(table)))
        } else {
            Ok(None)
        }
    }
}

/// The entries, with their keys as a table has them.
fn with_keys<'a>(
    alloc: Global,
    entries: Vec<Entry<'a, Resource<'a>>>,
) -> Result<Vec<(Key<'a>, Resource<'a>)>, NoMemory>
    ensures { IfOk result (λ v. v.items ≡ map (λ e. (e.0.now, e.1)) entries.entry.items) }
{
    let mut keyed = Vec::with_capacity(alloc, entries.len())?;
    for entry in entries {
        keyed.push((Key::from(entry.0), entry.1))?;
    }
    Ok(keyed)
}
