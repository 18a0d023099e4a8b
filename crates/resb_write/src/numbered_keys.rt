//! The keys of a tree's tables by numbers: each key once, and the index of each occurrence there.
//! Where keys stand in a file is found out in `key_block`.
ghost use Rattle.std.specs.Prelude.{◌≡◌, ◌++◌, ◌<◌, ℕ, List, [], ◌∷◌, IsTrue, IfOk, OnOk, true};
ghost use Rattle.std.specs.Prelude.{length, get_or};
ghost use Rattle.std.specs.Map.{keys_of};
ghost use Rattle.std.specs.Option.{is_some};
ghost use Rattle.resb_pool.specs.Plan.{nows, at_text};
ghost use Rattle.resb_write.specs.Inner.Numbered.{AreNumberedKeys, NumbersKeys};

use indexmap::IndexMap;
use std::alloc::{AllocError, Global};

/// The keys of a tree's tables, in laying order. Keys often follow one another as they did before,
/// since tables of one kind have the same keys: that saves most look-ups.
#[derive(Drop)]
pub(crate) struct NumberedKeys<'k> {
    /// Each key once.
    distinct: IndexMap<&'k str, ()>,
    /// The index there of each of the keys.
    numbers: Vec<u32>,
    /// The index of the key that came last behind the key of an index.
    followers: Vec<u32>,
    /// The index of the last key.
    last: u32,
}

impl<'k> NumberedKeys<'k> {
    /// No keys, and room for the numbers of so many.
    pub(crate) fn with_capacity(alloc: Global, count: usize) -> Result<NumberedKeys<'k>, AllocError>
        ensures { IfOk result (λ keys. NumbersKeys keys []) }
    {
        Ok(NumberedKeys {
            distinct: IndexMap::new(alloc),
            numbers: Vec::with_capacity(alloc, count)?,
            followers: Vec::new(alloc),
            last: 0,
        })
    }

    /// The keys of a list.
    pub(crate) fn of_list(alloc: Global, list: &[&'k str]) -> Result<NumberedKeys<'k>, AllocError>
        ensures { IfOk result (λ keys. NumbersKeys keys (nows list.now)) }
    {
        let mut keys = NumberedKeys::with_capacity(alloc, list.len())?;
        keys.add_all(list)?;
        Ok(keys)
    }

    /// Adds keys in their order.
    #[inline(always)]
    pub(crate) fn add_all(&mut self, list: &[&'k str]) -> Result<(), AllocError>
        ensures { OnOk result ((ks : List (List ℕ)) → NumbersKeys self.old ks
            → NumbersKeys self.new (ks ++ nows list.now)) }
    {
        for key in list {
            self.add(*key)?;
        }
        Ok(())
    }

    /// Adds a key.
    #[inline(always)]
    pub(crate) fn add(&mut self, key: &'k str) -> Result<(), AllocError>
        ensures { OnOk result ((ks : List (List ℕ)) → NumbersKeys self.old ks
            → NumbersKeys self.new (ks ++ key.now ∷ [])) }
    {
        let guess = self.followers.get(self.last as usize).copied().unwrap_or(0);
        let number = join(&mut self.distinct, guess, key)?;
        note(&mut self.followers, self.last as usize, number)?;
        self.numbers.push(number)?;
        self.last = number;
        Ok(())
    }

    /// Each key once, and the index there of each of the keys.
    pub(crate) fn into_parts(self) -> (IndexMap<&'k str, ()>, Vec<u32>)
        ensures { (ks : List (List ℕ)) → NumbersKeys self.entry ks
            → AreNumberedKeys result.0 result.1.items ks }
    {
        (self.distinct, self.numbers)
    }
}

/// Whether the key stands at that index of the set.
fn is_at(distinct: &IndexMap<&str, ()>, index: usize, key: &str) -> bool
    ensures among { IsTrue result → is_some (at_text distinct.now key.now) ≡ true }
    ensures there { IsTrue result → let ts = nows (keys_of distinct.now.entries) in
        (index < length ts) × (get_or ts index [] ≡ key.now) }
{
    match distinct.get_index(index) {
        Some((found, _)) => *found == key,
        None => false,
    }
}

/// The index of a key in the set, which it joins if it isn't there. A guess is tried first.
#[inline(always)]
fn join<'k>(
    distinct: &mut IndexMap<&'k str, ()>,
    guess: u32,
    key: &'k str,
) -> Result<u32, AllocError>
    ensures { IfOk result (λ n. (ns : List ℕ) (ks : List (List ℕ))
        → AreNumberedKeys distinct.old ns ks
        → AreNumberedKeys distinct.new (ns ++ n ∷ []) (ks ++ key.now ∷ [])) }
{
    if is_at(distinct, guess as usize, key) {
        return Ok(guess);
    }
    look_up(distinct, key)
}

/// The index of a key in the set, which it joins if it isn't there. An index that 32 bits don't
/// hold is told as want of memory.
#[inline(never)]
fn look_up<'k>(distinct: &mut IndexMap<&'k str, ()>, key: &'k str) -> Result<u32, AllocError>
    ensures { IfOk result (λ n. (ns : List ℕ) (ks : List (List ℕ))
        → AreNumberedKeys distinct.old ns ks
        → AreNumberedKeys distinct.new (ns ++ n ∷ []) (ks ++ key.now ∷ [])) }
{
    let (number, _) = distinct.insert_full(key, ())?;
    if number > 0xffff_ffff {
        return Err(AllocError);
    }
    Ok(number as u32)
}

/// Notes that a number followed another one. How fast keys are found hangs on it, and nothing
/// else.
fn note(followers: &mut Vec<u32>, last: usize, number: u32) -> Result<(), AllocError> {
    if number as usize >= followers.len() {
        followers.push(0)?;
    }
    if last < followers.len() {
        followers[last] = number;
    }
    Ok(())
}
