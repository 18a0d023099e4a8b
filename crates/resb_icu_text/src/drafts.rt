//! Closed groups as pieces of a draft, members first.
//! What a draft stands for is said in `resb_draft`, which makes it; trees are made in `trees`.
ghost use Rattle.std.specs.Prelude.{◌≡◌, ◌++◌, OnOk};
ghost use Rattle.resb_draft.specs.Drafts.{Keeps};
ghost use Rattle.resb_icu_text.specs.Inner.Build.{PutsBehind};

use crate::build::Build;
use crate::steps::Entry;
use resb_draft::{Draft, Piece};
use resb_tree::{NoMemory, Resource};
use std::alloc::Global;
use std::borrow::CowStr;
use std::mem;

impl<'a> Build<'a> for Draft<'a> {
    ghost use Rattle.resb_draft.specs.Drafts.{tree_at, is_whole};

    type Made = u32;

    ghost tree = { tree_at };

    ghost held = { λ d n t. is_whole d n };

    #[inline(always)]
    fn leaf(&mut self, resource: Resource<'a>) -> Result<u32, NoMemory> {
        if let Resource::String(CowStr::Borrowed(text)) = &resource {
            let text = *text;
            mem::forget(resource);
            return self.push_string(text);
        }
        self.push_leaf(resource)
    }

    fn array(&mut self, alloc: Global, members: &mut Vec<u32>) -> Result<u32, NoMemory> {
        let first_member = self.members.len();
        push_members(self, members)?;
        self.end_array(first_member)
    }

    fn table(
        &mut self,
        alloc: Global,
        entries: &mut Vec<Entry<'a, u32>>,
    ) -> Result<Option<u32>, NoMemory> {
        let first_member = self.members.len();
        let first_key = self.keys.len();
        push_entries(self, entries)?;
        let number = self.end_table(alloc, first_member, first_key)?;
        if self.own_keys(number).len() == entries.len() {
            Ok(Some(number))
        } else {
            Ok(None)
        }
    }
}

/// Puts these numbers behind the draft's members.
fn push_members<'a>(draft: &mut Draft<'a>, members: &[u32]) -> Result<(), NoMemory>
    ensures members { OnOk result
        (draft.new.members.items ≡ draft.old.members.items ++ members.now) }
    ensures keeps { OnOk result (Keeps draft.old draft.new) }
{
    draft.members.extend_from_slice(members)?;
    Ok(())
}

/// Puts the keys of these entries and the numbers of their values behind the draft's keys and
/// members.
fn push_entries<'a>(draft: &mut Draft<'a>, entries: &[Entry<'a, u32>]) -> Result<(), NoMemory>
    ensures { OnOk result (PutsBehind draft.old entries.now draft.new) }
{
    for entry in entries {
        draft.push_entry(entry.0, entry.1)?;
    }
    Ok(())
}
