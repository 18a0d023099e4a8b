//! What a bundle gives to a pool, found in the laying order of its resources: the keys of its
//! tables, and the texts of its strings that get a record.
//! What a pool makes of them is said in `maker`, and what a draft gives is found in `drafts`.
ghost use Rattle.std.specs.Prelude.{◌≡◌, ◌++◌, IfOk, IfErr, OnOk, filter, fold};
ghost use Rattle.std.specs.List.{flat_map, list_any};
ghost use Rattle.std.specs.String.{string_bytes};
ghost use Rattle.resb_layout.specs.KeyBlock.{is_among, used};
ghost use Rattle.resb_layout.specs.TreeFaults.{has_nul};
ghost use Rattle.resb_pool.specs.Plan.{nows, NotPlanned};
ghost use Rattle.resb_pool.specs.Shared.{ArePlanned, InPoolOrder};
ghost use Rattle.resb_pool.specs.declared.packing.Packing.TheVariants.{Plain};
ghost use Rattle.resb_tree.specs.LayingOrder.{entry_keys, own_keys, text_in, trees_in};
ghost use Rattle.resb_tree.specs.LayingOrder.{texts_of, keys_of};
ghost use Rattle.resb_tree.specs.View.{tree_of, entries_view};
ghost use Rattle.resb_pool_maker.specs.Holding.{bytes_each};
ghost use Rattle.resb_pool_maker.specs.PoolOf.{each_once, join_key};

use indexmap::IndexSet;
use resb_pool::{PlanError, shared_pool};
use resb_tree::{Key, LayingOrder, Resource, Table, in_laying_order};
use std::alloc::{AllocError, Global};

/// What a bundle gives to a pool.
#[derive(Drop)]
pub(crate) struct Gift {
    /// The listed keys that its tables have, in the list's order.
    pub(crate) keys: Vec<String>,
    /// The texts that get a record among its own strings, in their order in a plain file.
    pub(crate) records: Vec<String>,
}

/// Keys joined, each once, in the order in which they first come.
pub(crate) type KeySet<'k> = IndexSet<&'k str>;

/// Joins a key to those that came before, unless it is one of them.
pub(crate) fn join<'k>(set: &mut KeySet<'k>, key: &'k str) -> Result<(), AllocError>
    ensures { OnOk result (nows set.new.keys ≡ join_key (nows set.old.keys) key.now) }
{
    let _is_new = set.insert(key)?;
    Ok(())
}

/// Joins a table's keys.
fn join_table<'t>(set: &mut KeySet<'t>, table: &'t Table<'_>) -> Result<(), AllocError>
    ensures { OnOk result (nows set.new.keys
        ≡ fold join_key (nows set.old.keys) (entry_keys (entries_view table.now.entries))) }
{
    for key in table.keys() {
        join(set, key.as_str())?;
    }
    Ok(())
}

/// Joins the keys of a resource, if it is a table.
fn join_own<'t>(set: &mut KeySet<'t>, resource: &'t Resource<'_>) -> Result<(), AllocError>
    ensures { OnOk result (nows set.new.keys
        ≡ fold join_key (nows set.old.keys) (own_keys (tree_of resource.now))) }
{
    match resource {
        Resource::Table(table) => join_table(set, table),
        Resource::String(_)
        | Resource::Alias(_)
        | Resource::Array(_)
        | Resource::Binary(_)
        | Resource::Integer(_)
        | Resource::IntVector(_) => Ok(()),
    }
}

/// The keys of the tables among resources.
fn keys_in<'t>(alloc: Global, order: &LayingOrder<'t, '_>) -> Result<KeySet<'t>, AllocError>
    ensures { IfOk result (λ set.
        nows set.keys ≡ each_once (flat_map own_keys (trees_in order.now.items))) }
{
    let mut set = IndexSet::new(alloc);
    for at in 0..order.len() {
        join_own(&mut set, &*order[at])?;
    }
    Ok(set)
}

/// Whether a key is among others.
fn is_in(set: &KeySet<'_>, key: &str) -> bool
    ensures { result ≡ is_among (nows set.now.keys) key.now }
{
    set.contains(key)
}

/// The keys of a list that are among others, in the list's order.
pub(crate) fn keys_among(
    alloc: Global,
    set: &KeySet<'_>,
    list: &[Key<'_>],
) -> Result<Vec<String>, AllocError>
    ensures { IfOk result (λ v.
        bytes_each v.items ≡ filter (is_among (nows set.now.keys)) list.now) }
{
    let mut found = Vec::new(alloc);
    for key in list {
        let text = key.as_str();
        if is_in(set, text) {
            let copy = String::from_str(alloc, text)?;
            found.push(copy)?;
        }
    }
    Ok(found)
}

/// Adds the text of a resource, if it is a string.
pub(crate) fn add_text<'t>(
    texts: &mut Vec<&'t str>,
    resource: &'t Resource<'_>,
) -> Result<(), AllocError>
    ensures { OnOk result (nows texts.new.items
        ≡ nows texts.old.items ++ text_in (tree_of resource.now)) }
{
    match resource {
        Resource::String(text) => {
            texts.push(text.as_str())?;
            Ok(())
        }
        Resource::Alias(_)
        | Resource::Array(_)
        | Resource::Table(_)
        | Resource::Binary(_)
        | Resource::Integer(_)
        | Resource::IntVector(_) => Ok(()),
    }
}

/// The texts of the strings among resources, as often as each stands there.
fn texts_in<'t>(alloc: Global, order: &LayingOrder<'t, '_>) -> Result<Vec<&'t str>, AllocError>
    ensures { IfOk result (λ v.
        nows v.items ≡ flat_map text_in (trees_in order.now.items)) }
{
    let mut texts = Vec::new(alloc);
    for at in 0..order.len() {
        add_text(&mut texts, &*order[at])?;
    }
    Ok(texts)
}

/// Texts of one's own.
fn owned(alloc: Global, texts: &[&str]) -> Result<Vec<String>, AllocError>
    ensures { IfOk result (λ v. bytes_each v.items ≡ nows texts.now) }
{
    let mut strings = Vec::with_capacity(alloc, texts.len())?;
    for text in texts {
        strings.push(String::from_str(alloc, text)?)?;
    }
    Ok(strings)
}

/// The listed keys that the tables among resources have.
fn used_keys(
    alloc: Global,
    order: &LayingOrder<'_, '_>,
    list: &[Key<'_>],
) -> Result<Vec<String>, AllocError>
    ensures { IfOk result (λ v.
        bytes_each v.items ≡ used (flat_map own_keys (trees_in order.now.items)) list.now) }
{
    let set = keys_in(alloc, order)?;
    keys_among(alloc, &set, list)
}

/// Whether some key holds U+0000.
pub(crate) fn has_nul_key(keys: &[String]) -> bool
    ensures { result ≡ list_any (λ k. has_nul (string_bytes k)) keys.now }
{
    keys.iter().any(|key| key.as_bytes().contains(&0))
}

/// Those of texts that get a record among them, in their order in a plain file.
pub(crate) fn records_of(alloc: Global, texts: &[&str]) -> Result<Vec<String>, PlanError>
    ensures ok { IfOk result (λ v. InPoolOrder Plain (nows texts.now) (bytes_each v.items)) }
    ensures planned { OnOk result (ArePlanned (nows texts.now)) }
    ensures err { IfErr result (NotPlanned (nows texts.now)) }
{
    let records = shared_pool::records(alloc, texts)?;
    Ok(owned(alloc, &records)?)
}

/// The texts that get a record among the strings of resources.
fn own_records(alloc: Global, order: &LayingOrder<'_, '_>) -> Result<Vec<String>, PlanError>
    ensures ok { IfOk result (λ v. InPoolOrder Plain (flat_map text_in (trees_in order.now.items))
        (bytes_each v.items)) }
    ensures planned { OnOk result (ArePlanned (flat_map text_in (trees_in order.now.items))) }
    ensures err { IfErr result (NotPlanned (flat_map text_in (trees_in order.now.items))) }
{
    let texts = texts_in(alloc, order)?;
    records_of(alloc, &texts)
}

/// What the bundle of a tree and a list of its keys gives.
pub(crate) fn gift_of(
    alloc: Global,
    root: &Resource<'_>,
    list: &[Key<'_>],
) -> Result<Gift, PlanError>
    ensures keys { IfOk result (λ g.
        bytes_each g.keys.items ≡ used (keys_of (tree_of root.now)) list.now) }
    ensures records { IfOk result (λ g.
        InPoolOrder Plain (texts_of (tree_of root.now)) (bytes_each g.records.items)) }
    ensures planned { OnOk result (ArePlanned (texts_of (tree_of root.now))) }
    ensures err { IfErr result (NotPlanned (texts_of (tree_of root.now))) }
{
    let order = in_laying_order(alloc, root)?;
    let keys = used_keys(alloc, &order, list)?;
    let records = own_records(alloc, &order)?;
    Ok(Gift { keys, records })
}
