//! In whose record each of some strings lies, for one who has other records beside them.
//! How containers are found is said in `containers`.
ghost use Rattle.std.specs.Prelude.{◌≡◌, ℕ, ◌<◌, ◌^◌, ◌∷◌, ◌++◌, [], List, length, map};
ghost use Rattle.std.specs.Prelude.{slice_index, IfOk, OnOk, All, IsTrue};
ghost use Rattle.std.specs.Str.{IsUtf8};
ghost use Rattle.resb_pool.specs.Holders.{AreHolders};
ghost use Rattle.resb_pool.specs.Plan.{nows};
ghost use Rattle.resb_pool.specs.Inner.Placing.{indexed_text};
ghost use Rattle.resb_pool.specs.Inner.ToldApart.{AreTold};

use crate::containers::{Containers, find_containers};
use crate::packing::Packing;
use crate::texts::indexed_text;
use indexmap::IndexSet;
use std::alloc::{AllocError, Global};

/// The distinct texts of strings, and the index of each string's text.
#[derive(Drop)]
struct Told<'a> {
    distinct: IndexSet<&'a str>,
    order: Vec<u32>,
    /// The index of the empty text, once it was given.
    empty: u32,
}

/// Whether a text stands at that index of the set.
fn is_at(distinct: &IndexSet<&str>, index: u32, text: &str) -> bool
    ensures { IsTrue result → (index < length (nows distinct.now.keys))
        × (indexed_text (nows distinct.now.keys) index ≡ text.now) }
{
    match distinct.get_index(index as usize) {
        Some(found) => *found == text,
        None => false,
    }
}

/// Adds a string. The empty one, which may be given often, is looked up once.
fn add_string<'a>(told: &mut Told<'a>, text: &'a str) -> Result<(), AllocError>
    requires few { length told.old.order.items < 2 ^ 32 }
    requires given { (done : List (List ℕ))
        × AreTold done (nows told.old.distinct.keys) told.old.order.items }
    ensures { OnOk result ((done : List (List ℕ))
        → AreTold done (nows told.old.distinct.keys) told.old.order.items
        → AreTold (done ++ text.now ∷ []) (nows told.new.distinct.keys) told.new.order.items) }
{
    if text.is_empty() && is_at(&told.distinct, told.empty, text) {
        told.order.push(told.empty)?;
        return Ok(());
    }
    let (index, _is_new) = told.distinct.insert_full(text)?;
    told.order.push(index as u32)?;
    if text.is_empty() {
        told.empty = index as u32;
    }
    Ok(())
}

/// Tells strings apart.
fn tell<'a>(alloc: Global, strings: &[&'a str]) -> Result<Told<'a>, AllocError>
    requires few { length strings.now < 2 ^ 32 }
    ensures { IfOk result (λ t. AreTold (nows strings.now) (nows t.distinct.keys) t.order.items) }
{
    let mut told = Told {
        distinct: IndexSet::with_capacity(alloc, strings.len())?,
        order: Vec::with_capacity(alloc, strings.len())?,
        empty: 0,
    };
    for text in strings {
        add_string(&mut told, text)?;
    }
    Ok(told)
}

/// Of each of these indexes of texts, the text of the index that it has in a list.
fn texts_of<'a>(
    alloc: Global,
    texts: &[&'a str],
    of: &[u32],
    indexes: &[u32],
) -> Result<Vec<&'a str>, AllocError>
    ensures { IfOk result (λ v. nows v.items
        ≡ map (λ i. indexed_text (nows texts.now) (slice_index of.now i)) indexes.now) }
{
    let mut found = Vec::with_capacity(alloc, indexes.len())?;
    for index in indexes {
        let container = of.get(*index as usize).copied().unwrap_or(0);
        found.push(indexed_text(texts, container))?;
    }
    Ok(found)
}

/// The text in whose record each string lies among all of them, in a file that is packed this way.
/// Strings may be given more than once. 2^32 strings and more are refused as want of memory.
pub fn holders<'a>(
    alloc: Global,
    packing: Packing,
    strings: &[&'a str],
) -> Result<Vec<&'a str>, AllocError>
    ensures holders { IfOk result (λ v. AreHolders packing (nows strings.now) (nows v.items)) }
    ensures utf8 { OnOk result (All IsUtf8 (nows strings.now)) }
{
    if strings.len() > u32::MAX as usize {
        return Err(AllocError);
    }
    let told = tell(alloc, strings)?;
    let texts = told.distinct.as_slice();
    let Containers { of, hidden } = find_containers(alloc, packing, texts)?;
    drop(hidden);
    texts_of(alloc, texts, &of, &told.order)
}
