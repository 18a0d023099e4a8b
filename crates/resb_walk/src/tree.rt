//! Resources, made by the reader. Texts and numbers are copied, bytes and keys are borrowed.
//! Which bytes they are made of is found in `standing`.
ghost use Rattle.std.specs.Prelude.{◌≡◌, List, IfOk};
ghost use Rattle.resb_format.specs.Bytes.{words_of};

use crate::filling::Filling;
use crate::make::Make;
use crate::members::Leaf;
use crate::units::text_of_units;
use resb_format::bytes::first_word;
use resb_tree::{Int28, NoMemory, Resource};
use std::alloc::Global;
use std::borrow::{CowSlice, CowStr};

/// The numbers of some bytes.
fn numbers(alloc: Global, bytes: &[u8]) -> Result<Vec<u32>, NoMemory>
    ensures { IfOk result (λ v. v.items ≡ words_of bytes.now) }
{
    let mut numbers = Vec::with_capacity(alloc, bytes.len() / 4)?;
    let mut rest = bytes;
    'numbers: while let Some((number, later)) = first_word(rest) {
        numbers.push(number)?;
        rest = later;
    }
    Ok(numbers)
}

impl<'de> Make<'de> for Resource<'de> {
    ghost use Rattle.std.specs.Prelude.{◌≡◌, map, true};
    ghost use Rattle.resb_tree.specs.View.{tree_of};
    ghost use Rattle.resb_walk.specs.Borrows.{Borrows, all_borrow};
    ghost use Rattle.resb_walk.specs.Inner.Filling.{Gathers};

    type List = Vec<Resource<'de>>;

    type Table = Filling<'de>;

    ghost is = { λ r t. (tree_of r ≡ t) × Borrows r };

    ghost lists = { λ v ts. (map tree_of v.items ≡ ts) × (all_borrow v.items ≡ true) };

    ghost tables = { Gathers };

    #[inline(always)]
    fn leaf(alloc: Global, leaf: Leaf<'de>) -> Result<Resource<'de>, NoMemory> {
        Ok(match leaf {
            Leaf::Text(bytes) => Resource::String(CowStr::Owned(text_of_units(alloc, bytes)?)),
            Leaf::Empty => Resource::String(CowStr::Borrowed("")),
            Leaf::Alias(bytes) => Resource::Alias(CowStr::Owned(text_of_units(alloc, bytes)?)),
            Leaf::Binary(bytes) => Resource::Binary(CowSlice::Borrowed(bytes)),
            Leaf::Integer(number) => Resource::Integer(Int28::from(number)),
            Leaf::Numbers(bytes) => Resource::IntVector(numbers(alloc, bytes)?),
        })
    }

    fn begin_list(alloc: Global, room: usize) -> Result<Vec<Resource<'de>>, NoMemory> {
        Ok(Vec::with_capacity(alloc, room)?)
    }

    #[tactic(auto, using(std::proofs::lemmas::List::map_push, crate::proofs::Made::borrow_snoc))]
    fn add(list: &mut Vec<Resource<'de>>, item: Resource<'de>) -> Result<(), NoMemory> {
        list.push(item)?;
        Ok(())
    }

    fn end_list(list: Vec<Resource<'de>>) -> Resource<'de> {
        Resource::Array(list)
    }

    fn begin_table(alloc: Global, room: usize) -> Result<Filling<'de>, NoMemory> {
        Filling::new(alloc, room)
    }

    fn put(table: &mut Filling<'de>, key: &'de str, item: Resource<'de>) -> Result<(), NoMemory> {
        table.put(key, item)
    }

    fn end_table(alloc: Global, table: Filling<'de>) -> Result<Resource<'de>, NoMemory> {
        Ok(Resource::Table(table.end(alloc)?))
    }
}
