//! The keys of a draft in the order in which ICU's compiler lists them: each where the text has it
//! first, among the entries that are left in the draft.
//! How a draft's keys are laid out is in `resb_write`, and what rules leave of it in `filter`.
use crate::entries::{entries_at, members_at, text_at, value_at};
use resb_draft::Draft;
use resb_grammar::KeyList;
use resb_tree::{Key, NoMemory};
use std::alloc::{AllocError, Global};

/// The key at which a root has the names of the files that it depends on. ICU's compiler lists it
/// right before the key of the first of them; here that is the first string of its name.
const DEPENDENCIES: &str = "%%DEPENDENCY";

/// A value of a draft.
#[derive(Clone, Copy)]
struct Value<'a> {
    /// Its key, if it stands in a table.
    key: Option<&'a str>,
    /// The number of its piece as it was read: a reader numbers pieces in the order of the text. Of
    /// a value that wasn't read, the greatest number.
    read: u32,
    /// The number of the piece that stands there now, if the value is left.
    now: Option<u32>,
}

/// What is listed of a draft, and what isn't looked at yet.
#[derive(Drop)]
struct Listing<'a> {
    keys: KeyList<'a>,
    /// The last one comes first in the text.
    pending: Vec<Value<'a>>,
}

/// What a reader said of the draft that it made.
#[derive(Drop)]
pub(crate) struct ReadKeys<'a> {
    /// The keys, each once, in the order of the text.
    pub(crate) keys: Vec<Key<'a>>,
    /// The number of the root.
    pub(crate) root: u32,
    /// Whether the text depends on files.
    pub(crate) has_dependencies: bool,
}

impl<'a> ReadKeys<'a> {
    /// Lists a key, if it isn't listed.
    pub(crate) fn list(&mut self, key: &'a str) -> Result<(), AllocError> {
        if self.keys.iter().any(|known| known.as_str() == key) {
            return Ok(());
        }
        self.keys.push(Key::from(key))?;
        Ok(())
    }
}

/// The keys of a draft in the order in which they are laid. Where a compact file is asked for, and
/// the draft isn't as it was read or depends on files, they are listed as ICU's compiler does.
pub(crate) fn laid_keys<'a>(
    alloc: Global,
    draft: &Draft<'a>,
    read: ReadKeys<'a>,
    is_compact: bool,
) -> Result<Vec<Key<'a>>, NoMemory> {
    let ReadKeys {
        keys,
        root,
        has_dependencies,
    } = read;
    if !is_compact || (draft.root == root && !has_dependencies) {
        return Ok(keys);
    }
    let dependency = if has_dependencies {
        first_dependency(draft)
    } else {
        None
    };
    listed_keys(alloc, draft, dependency, root)
}

/// The name of the first file that a draft depends on.
fn first_dependency<'d>(draft: &'d Draft<'_>) -> Option<&'d str> {
    let names = value_at(draft, draft.root, DEPENDENCIES)?;
    let first = members_at(draft, names)?.first()?;
    text_at(draft, *first)
}

/// The keys of a draft, whose root had this number when it was read.
fn listed_keys<'a>(
    alloc: Global,
    draft: &Draft<'a>,
    dependency: Option<&str>,
    read_root: u32,
) -> Result<Vec<Key<'a>>, NoMemory> {
    let mut listing = Listing {
        keys: KeyList::new(alloc),
        pending: Vec::new(alloc),
    };
    listing.pending.push(Value {
        key: None,
        read: read_root,
        now: Some(draft.root),
    })?;
    for _ in 0..u64::MAX {
        let Some(value) = listing.pending.pop() else {
            break;
        };
        listing.list(draft, dependency, value)?;
        listing.push_inner(draft, value)?;
    }
    let Listing { keys, pending: _ } = listing;
    keys.into_keys(alloc)
}

impl<'a> Listing<'a> {
    /// Lists the key of a value, if it is left.
    fn list(
        &mut self,
        draft: &Draft<'a>,
        dependency: Option<&str>,
        value: Value<'a>,
    ) -> Result<(), NoMemory> {
        let Some(key) = value.key else {
            return Ok(());
        };
        if dependency.is_some() && text_at(draft, value.read) == dependency {
            self.keys.list(DEPENDENCIES)?;
        }
        if value.now.is_some() {
            self.keys.list(key)?;
        }
        Ok(())
    }

    /// Has the values right inside a value wait, the first one of the text as the last.
    fn push_inner(&mut self, draft: &Draft<'a>, value: Value<'a>) -> Result<(), NoMemory> {
        let first = self.pending.len();
        self.push_members(draft, value)?;
        self.push_entries(draft, value)?;
        self.push_others(draft, value)?;
        if let Some((_, inner)) = self.pending.split_at_mut_checked(first) {
            inner.sort_unstable_by_key(|value| u32::MAX - value.read);
        }
        Ok(())
    }

    /// Has the members of an array wait: they are left where it is.
    fn push_members(&mut self, draft: &Draft<'a>, array: Value<'a>) -> Result<(), NoMemory> {
        let Some(members) = members_at(draft, array.read) else {
            return Ok(());
        };
        for read in members.iter().copied() {
            let now = if array.now.is_some() {
                Some(read)
            } else {
                None
            };
            self.pending.push(Value {
                key: None,
                read,
                now,
            })?;
        }
        Ok(())
    }

    /// Has the values of a table wait that it had when it was read.
    fn push_entries(&mut self, draft: &Draft<'a>, table: Value<'a>) -> Result<(), NoMemory> {
        let Some((keys, values)) = entries_at(draft, table.read) else {
            return Ok(());
        };
        for (key, read) in keys.iter().copied().zip(values.iter().copied()) {
            let now = number_now(draft, table, key, read);
            self.pending.push(Value {
                key: Some(key),
                read,
                now,
            })?;
        }
        Ok(())
    }

    /// Has the values of a table wait that weren't read.
    fn push_others(&mut self, draft: &Draft<'a>, table: Value<'a>) -> Result<(), NoMemory> {
        let Some(now) = table.now else {
            return Ok(());
        };
        if now == table.read {
            return Ok(());
        }
        let Some((keys, values)) = entries_at(draft, now) else {
            return Ok(());
        };
        for (key, number) in keys.iter().copied().zip(values.iter().copied()) {
            if value_at(draft, table.read, key).is_none() {
                self.pending.push(Value {
                    key: Some(key),
                    read: u32::MAX,
                    now: Some(number),
                })?;
            }
        }
        Ok(())
    }
}

/// The number of what became of the value of a table's entry, if it is left.
fn number_now(draft: &Draft<'_>, table: Value<'_>, key: &str, read: u32) -> Option<u32> {
    let now = table.now?;
    if now == table.read {
        return Some(read);
    }
    value_at(draft, now, key)
}
