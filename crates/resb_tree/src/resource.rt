//! Resources and tables, which stand for trees.
//! How a text or a file spells them is not said here.
ghost use Rattle.std.specs.Prelude.{◌≡◌, ◌≤◌, IsTrue, IfOk};
ghost use Rattle.std.specs.BTreeMap.{IsFromIterResult, values};
ghost use Rattle.std.specs.Cmp.Lexicographic.{slice_cmp};
ghost use Rattle.std.specs.Ordering.{nat_cmp};
ghost use Rattle.resb_tree.specs.Inner.Dropping.{depth_of};

use crate::dropping::{drop_all, list_beside, move_values};
use crate::equality::same;
use crate::int28::Int28;
use crate::key::Key;
use crate::no_memory::NoMemory;
use std::alloc::Global;
use std::borrow::{CowSlice, CowStr};
use std::collections::BTreeMap;

/// A resource. It stands for one tree, whether its parts are borrowed or owned.
/// Its drop takes no stack for its depth, as `dropping` says.
pub enum Resource<'a> {
    /// A text.
    String(CowStr<'a>),
    /// The path of another resource, of this bundle or another, whose value stands here.
    Alias(CowStr<'a>),
    /// Resources in order.
    Array(Vec<Resource<'a>>),
    /// Resources by key.
    Table(Table<'a>),
    /// Bytes.
    Binary(CowSlice<'a, u8>),
    /// A number of 28 bits.
    Integer(Int28),
    /// Numbers of 32 bits.
    IntVector(Vec<u32>),
}

/// Resources by key, in the order of the keys' UTF-8 bytes.
pub type Table<'a> = BTreeMap<Key<'a>, Resource<'a>>;

/// Up to so many entries are put into a table one by one. To list more of them, for
/// `table_at_once`, takes less time where their keys ascend, as they do in most texts and files.
pub const FEW_ENTRIES: usize = 8;

/// The table of these entries, made at once. A later one of an equal key replaces the earlier one.
/// Its sort stays out of a reader's loop.
#[inline(never)]
pub fn table_at_once<'a>(
    alloc: Global,
    entries: Vec<(Key<'a>, Resource<'a>)>,
) -> Result<Table<'a>, NoMemory>
    ensures { IfOk result (IsFromIterResult (slice_cmp nat_cmp) entries.entry.items) }
{
    let table = entries.into_iter().collect(alloc)?;
    Ok(table)
}

impl<'a> Resource<'a> {
    ghost use Rattle.std.specs.Prelude.{◌≡◌, IsTrue, ◌↔◌};
    ghost use Rattle.resb_tree.specs.View.{tree_of};

    /// Whether the two stand for one tree, also where they borrow for two lifetimes.
    #[tactic(auto, using(crate::specs::Inner::EqualityLemmas::tree_eq_decides))]
    pub fn equals(&self, other: &Resource<'_>) -> bool
        ensures { IsTrue result ↔ (tree_of self.now ≡ tree_of other.now) }
    {
        same(self, other)
    }
}

impl Drop for Resource<'_> {
    #[tactic(auto, using(crate::proofs::DroppingLemmas::drop_steps))]
    #[cycle(dropping)]
    fn drop(self) {
        match self {
            Resource::Array(items) => drop_all(items),
            Resource::Table(table) if has_leaves_alone(&table) => drop(table),
            Resource::Table(mut table) => {
                'entries: while let Some((key, last)) = table.pop_last() {
                    match list_beside(&mut table, key, last) {
                        Ok(mut pending) => {
                            'values: while let Some(refused) = move_values(
                                &mut table,
                                &mut pending,
                            ) {
                                drop(refused);
                            }
                            drop_all(pending);
                        }
                        Err(last) => drop(last),
                    }
                }
                table.destroy_empty();
            }
            Resource::String(_)
            | Resource::Alias(_)
            | Resource::Binary(_)
            | Resource::Integer(_)
            | Resource::IntVector(_) => {}
        }
    }
}

impl<'a> Resource<'a> {
    ghost use Rattle.std.specs.Prelude.{◌≡◌, ◌≤◌, [], IfOk, MatchResult};
    ghost use Rattle.std.specs.BTreeMap.{values};
    ghost use Rattle.resb_tree.specs.Tree.{no_trees, array};
    ghost use Rattle.resb_tree.specs.View.{tree_of};
    ghost use Rattle.resb_tree.specs.Inner.Dropping.{count, depth_of};
    ghost use Rattle.resb_tree.specs.declared.resource.Resource.{Table};

    /// Drops a resource that has no others inside.
    #[tactic(auto, using(crate::proofs::DroppingLemmas::drop_steps))]
    pub(crate) fn drop_empty(self)
        requires { count self ≡ 1 }
    {
        match self {
            Resource::Array(items) => items.destroy_empty(),
            Resource::Table(table) => table.destroy_empty(),
            Resource::String(_)
            | Resource::Alias(_)
            | Resource::Binary(_)
            | Resource::Integer(_)
            | Resource::IntVector(_) => {}
        }
    }

    /// The table, if no value of it is an array or a table, so that it can be dropped as a whole.
    /// Any other resource is handed back.
    pub(crate) fn into_table_of_leaves(self) -> Result<Table<'a>, Resource<'a>>
        ensures kind { MatchResult result (λ m. self.entry ≡ Table m) (λ r. r ≡ self.entry) }
        ensures flat { IfOk result (λ m. depth_of (values m) ≤ 1) }
    {
        match self {
            Resource::Table(table) if has_leaves_alone(&table) => Ok(table),
            resource => Err(resource),
        }
    }

    /// The list of an empty array.
    pub(crate) fn into_items(self) -> Vec<Resource<'a>>
        requires { tree_of self ≡ array no_trees }
        ensures { result.items ≡ [] }
    {
        match self {
            Resource::Array(items) => items,
            _ => unreachable!(),
        }
    }
}

/// Whether no value of the table is an array or a table.
#[tactic(auto, using(crate::proofs::DroppingLemmas::drop_steps))]
fn has_leaves_alone(table: &Table<'_>) -> bool
    ensures { IsTrue result → depth_of (values table.now) ≤ 1 }
{
    for value in table.values() {
        if matches!(value, Resource::Array(_) | Resource::Table(_)) {
            return false;
        }
    }
    true
}

/// Equality of trees. It takes no stack for their depth, as `equality` says.
#[tactic(auto, using(crate::specs::Inner::EqualityLemmas::tree_eq_decides))]
impl<'a> PartialEq for Resource<'a> {
    ghost use Rattle.resb_tree.specs.Equality.{tree_eq};
    ghost use Rattle.resb_tree.specs.Inner.EqualityLemmas.{tree_eq_per};
    ghost use Rattle.resb_tree.specs.View.{tree_of};
    ghost use Rattle.std.specs.Cmp.{on_per};
    ghost use Rattle.std.specs.Prelude.{◌≡◌, IsTrue, ◌↔◌};

    ghost eq = { λ x y. tree_eq (tree_of x) (tree_of y) };

    ghost laws = { on_per tree_of tree_eq_per };

    fn eq(&self, other: &Resource<'a>) -> bool
        ensures value { result ≡ tree_eq (tree_of self.now) (tree_of other.now) }
        ensures equal_trees { IsTrue result ↔ (tree_of self.now ≡ tree_of other.now) }
    {
        self.equals(other)
    }
}
