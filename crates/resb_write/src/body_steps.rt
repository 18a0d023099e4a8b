//! Lays one resource over a stack of words, which holds those of its members.
//! What is laid for a body is said in `resource_bodies`.
ghost use Rattle.std.specs.Prelude.{◌≡◌, ◌++◌, ◌∷◌, ◌+◌, ◌-◌, ◌/◌, ◌^◌, ◌<◌, ◌≤◌};
ghost use Rattle.std.specs.Prelude.{ℕ, List, Option, Some, [], length, take, OnOk};
ghost use Rattle.resb_tree.specs.Tree.{Entries, Trees, alias, array, binary, int_vector, integer};
ghost use Rattle.resb_tree.specs.Tree.{string, table};
ghost use Rattle.resb_format.specs.Units.{units};
ghost use Rattle.resb_layout.specs.Laid.{Given, Lends, Laid, ArePlaced};
ghost use Rattle.resb_tree.specs.LayingOrder.{array_members, entry_keys, values_of};
ghost use Rattle.resb_write.specs.Inner.StackSteps.{LaysNext};
ghost use Rattle.resb_write.specs.Inner.Room.{laid_of};
ghost use Rattle.resb_write.specs.Inner.Seen.{Anywhere, HasRoom, TakesNoMore};
ghost use Rattle.resb_write.specs.Inner.Lending.{lent_of};

use crate::resource_bodies::{
    close_array, close_table, lay_bytes, lay_numbers, lay_path, string_word, word,
};
use crate::sites::{Bodies, Ground};
use resb_format::ResourceReprType;
use resb_layout::Packing;
use std::alloc::AllocError;

/// Puts a word in the place of the last words of a stack.
fn replace(words: &mut Vec<u32>, count: usize, word: u32) -> Result<(), AllocError>
    requires { count ≤ length words.old.items }
    ensures { OnOk result (words.new.items
        ≡ take (length words.old.items - count) words.old.items ++ word ∷ []) }
{
    words.truncate(words.len() - count);
    words.push(word)?;
    Ok(())
}

/// Lays an array of so many members behind them, and takes their words off the stack.
#[inline(never)]
pub(crate) fn step_array(
    ground: &Ground,
    bodies: &mut Bodies,
    words: &mut Vec<u32>,
    count: usize,
) -> Result<(), AllocError>
    requires room { HasRoom ground.now.base bodies.old count }
    requires enough { count ≤ length words.old.items }
    ensures step { OnOk result (Anywhere ground.now.base (λ g. (members : Trees)
        → length (array_members members) ≡ count
        → LaysNext (lent_of ground.now.lent) g (laid_of bodies.old) words.old.items (array members)
        (laid_of bodies.new)
        words.new.items)) }
    ensures takes { OnOk result (TakesNoMore ground.now.base bodies.old bodies.new count) }
{
    if count == 0 {
        return replace(words, 0, word(ResourceReprType::Array, 0));
    }
    let (_, members) = words.split_at(words.len() - count);
    let word = close_array(ground, bodies, members)?;
    replace(words, count, word)
}

/// Lays a table that isn't empty, whose keys have these positions, behind its values.
fn step_full_table(
    ground: &Ground,
    bodies: &mut Bodies,
    words: &mut Vec<u32>,
    positions: &[u32],
) -> Result<(), AllocError>
    requires room { HasRoom ground.now.base bodies.old (length positions.now) }
    requires enough { length positions.now ≤ length words.old.items }
    requires full { 0 < length positions.now }
    ensures step { OnOk result (Anywhere ground.now.base (λ g. (entries : Entries)
        → length (values_of entries) ≡ length positions.now
        → ArePlaced g (entry_keys entries) positions.now
        → LaysNext (lent_of ground.now.lent) g (laid_of bodies.old) words.old.items
        (table entries) (laid_of bodies.new) words.new.items)) }
    ensures takes { OnOk result (TakesNoMore ground.now.base bodies.old bodies.new
        (length positions.now)) }
{
    let (_, members) = words.split_at(words.len() - positions.len());
    let word = close_table(ground, bodies, positions, members)?;
    replace(words, positions.len(), word)
}

/// Lays a table, whose keys have these positions, behind its values, and takes their words off the
/// stack.
#[inline(never)]
pub(crate) fn step_table(
    ground: &Ground,
    bodies: &mut Bodies,
    words: &mut Vec<u32>,
    positions: &[u32],
) -> Result<(), AllocError>
    requires room { HasRoom ground.now.base bodies.old (length positions.now) }
    requires enough { length positions.now ≤ length words.old.items }
    ensures step { OnOk result (Anywhere ground.now.base (λ g. (entries : Entries)
        → length (values_of entries) ≡ length positions.now
        → ArePlaced g (entry_keys entries) positions.now
        → LaysNext (lent_of ground.now.lent) g (laid_of bodies.old) words.old.items
        (table entries) (laid_of bodies.new) words.new.items)) }
    ensures takes { OnOk result (TakesNoMore ground.now.base bodies.old bodies.new
        (length positions.now)) }
{
    if positions.is_empty() {
        return replace(words, 0, word(ResourceReprType::Table, 0));
    }
    step_full_table(ground, bodies, words, positions)
}

/// Puts the word of a number of 28 bits, which has no body.
pub(crate) fn step_integer(words: &mut Vec<u32>, number: u32) -> Result<(), AllocError>
    requires { number < 2 ^ 28 }
    ensures { OnOk result ((lent : Option Lends) (g : Given) (s : Laid)
        → LaysNext lent g s words.old.items (integer number) s words.new.items) }
{
    words.push(word(ResourceReprType::Int, number))?;
    Ok(())
}

/// Lays bytes, and puts their word.
#[inline(never)]
pub(crate) fn step_bytes(
    ground: &Ground,
    bodies: &mut Bodies,
    words: &mut Vec<u32>,
    bytes: &[u8],
) -> Result<(), AllocError>
    requires { HasRoom ground.now.base bodies.old ((length bytes.now + 7) / 8) }
    ensures step { OnOk result (Anywhere ground.now.base (λ g. LaysNext (lent_of ground.now.lent) g
        (laid_of bodies.old)
        words.old.items (binary bytes.now) (laid_of bodies.new) words.new.items)) }
    ensures takes { OnOk result (TakesNoMore ground.now.base bodies.old bodies.new
        ((length bytes.now + 7) / 8)) }
{
    let word = lay_bytes(ground, bodies, bytes)?;
    words.push(word)?;
    Ok(())
}

/// Lays numbers, and puts their word.
#[inline(never)]
pub(crate) fn step_numbers(
    ground: &Ground,
    bodies: &mut Bodies,
    words: &mut Vec<u32>,
    numbers: &[u32],
) -> Result<(), AllocError>
    requires { HasRoom ground.now.base bodies.old ((length numbers.now + 1) / 2) }
    ensures step { OnOk result (Anywhere ground.now.base (λ g. LaysNext (lent_of ground.now.lent) g
        (laid_of bodies.old)
        words.old.items (int_vector numbers.now) (laid_of bodies.new) words.new.items)) }
    ensures takes { OnOk result (TakesNoMore ground.now.base bodies.old bodies.new
        ((length numbers.now + 1) / 2)) }
{
    let word = lay_numbers(ground, bodies, numbers)?;
    words.push(word)?;
    Ok(())
}

/// Puts the word of a string at an offset, which has no body of its own.
pub(crate) fn step_string(
    packing: Packing,
    words: &mut Vec<u32>,
    offset: u32,
) -> Result<(), AllocError>
    requires { offset < 2 ^ 28 }
    ensures { OnOk result ((lent : Option Lends) (g : Given) (s : Laid) (text : List ℕ)
        → g.packing ≡ packing → g.offset text ≡ Some offset → LaysNext lent g s words.old.items
        (string text) s words.new.items) }
{
    words.push(string_word(packing, offset))?;
    Ok(())
}

/// Lays an alias's path, and puts the alias's word.
#[inline(never)]
pub(crate) fn step_path(
    ground: &Ground,
    bodies: &mut Bodies,
    words: &mut Vec<u32>,
    path: &str,
) -> Result<(), AllocError>
    requires { HasRoom ground.now.base bodies.old ((length (units path.now) + 3) / 4) }
    ensures step { OnOk result (Anywhere ground.now.base (λ g. LaysNext (lent_of ground.now.lent) g
        (laid_of bodies.old)
        words.old.items (alias path.now) (laid_of bodies.new) words.new.items)) }
    ensures takes { OnOk result (TakesNoMore ground.now.base bodies.old bodies.new
        ((length (units path.now) + 3) / 4)) }
{
    let word = lay_path(ground, bodies, path)?;
    words.push(word)?;
    Ok(())
}
