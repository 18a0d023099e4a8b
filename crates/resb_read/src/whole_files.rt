//! Whole files: any type at the root, its count, and the file's tree.
//! How a file is opened is in `file`; places below the root are reached by a cursor.
ghost use Rattle.std.specs.Prelude.{◌≡◌, ◌≤◌, ℕ, Some, IfOk, IfErr};
ghost use Rattle.resb_format.specs.Error as reading;
ghost use Rattle.resb_format.specs.Error.{refusal_of};
ghost use Rattle.resb_head.specs.File.{budget};
ghost use Rattle.resb_head.specs.HeadChecks.{file_refusal};
ghost use Rattle.resb_read.specs.Inner.AtRoot.{TreeHere, CountHere};
ghost use Rattle.resb_read.specs.Files.{whole_in};
ghost use Rattle.resb_read.specs.Measuring.{LimitedTreeOf};
ghost use Rattle.resb_read.specs.Places.{place_of};
ghost use Rattle.resb_read.specs.Reading.{LacksOrMemory};
ghost use Rattle.resb_read.specs.Roots.{HoldsAt, RefusesAt, AnswersCountOf, alone};

use crate::cursor::Cursor;
use crate::deserialize::Deserialize;
use crate::file::File;
use crate::measuring::read_root_within;
use resb_format::{BinaryDeserializerError, ReadingError, Resource};
use resb_walk::Walk;
use std::alloc::Global;

impl<'de> File<'de> {
    /// Reads a value at the root, with the whole budget of the file. Keys and bytes that the value
    /// borrows are slices of the file, or of the pool bundle that it uses.
    pub fn read<'m, T: Deserialize<'de>>(&self, alloc: Global) -> Result<T, ReadingError<'m>>
        ensures read { let file = whole_in self.now in
            IfOk result (λ x. (n : ℕ) × HoldsAt (λ p. T.reads p x n) file × (n ≤ file.budget)) }
        ensures refused { let file = whole_in self.now in
            IfErr result (LacksOrMemory (λ n. HoldsAt (λ p. T.counts p n) file) file.budget) }
        ensures says { IfErr result (RefusesAt T.refuses (whole_in self.now)) }
    {
        let (value, _) = self.read_counted::<T>(alloc)?;
        Ok(value)
    }

    /// Reads a value as `File::read` does, with the number of resources that it took.
    pub fn read_counted<'m, T: Deserialize<'de>>(
        &self,
        alloc: Global,
    ) -> Result<(T, usize), ReadingError<'m>>
        ensures read { let file = whole_in self.now in
            IfOk result (λ r. HoldsAt (λ p. T.reads p r.0 r.1) file × (r.1 ≤ file.budget)) }
        ensures refused { let file = whole_in self.now in
            IfErr result (LacksOrMemory (λ n. HoldsAt (λ p. T.counts p n) file) file.budget) }
        ensures says { IfErr result (RefusesAt T.refuses (whole_in self.now)) }
    {
        let (root, walk) = self.root();
        read_root::<T>(alloc, root, walk)
    }

    /// Reads the tree. It is `Ok` exactly where the bytes denote a tree of at most as many
    /// resources as the budget, memory aside.
    ///
    /// Where there is a limit, neither the tree may take more bytes than that, as
    /// `Measured::tree_bytes` counts them, nor the keys of its entries, be they shared or not: each
    /// may be compared. It is refused before any of the tree is made, for the tree where both are
    /// larger.
    pub fn tree(
        &self,
        alloc: Global,
        limit: Option<u64>,
    ) -> Result<Resource<'de>, BinaryDeserializerError>
        ensures { LimitedTreeOf (whole_in self.now) limit result }
    {
        let (root, walk) = self.root();
        match limit {
            Some(limit) => read_root_within(alloc, root, walk, limit),
            None => read_root_tree(alloc, root, walk),
        }
    }

    /// Counts the resources of the tree, and makes none of it: the number that `read_counted` gives
    /// with the tree, or its refusal.
    pub fn count(&self, alloc: Global) -> Result<usize, BinaryDeserializerError>
        ensures { AnswersCountOf (whole_in self.now) result }
    {
        let (root, walk) = self.root();
        count_root(alloc, root, walk)
    }
}

/// Reads a value from a file, with the whole budget of the file.
///
/// The file is read as one that uses no pool bundle, whatever its head says of that: keys of one
/// that does are refused, or read as other bytes of the file. Read files of others by
/// `File::open` with `None`, which refuses a file that uses a pool bundle.
pub fn from_bytes<'a, 'm, T: Deserialize<'a>>(
    alloc: Global,
    bytes: &'a [u8],
) -> Result<T, ReadingError<'m>>
    ensures read { IfOk result
        (λ x. (n : ℕ) × HoldsAt (λ p. T.reads p x n) (alone bytes.entry.now)
        × (n ≤ budget bytes.entry.now)) }
    ensures refused { IfErr result (λ e. LacksOrMemory
        (λ n. HoldsAt (λ p. T.counts p n) (alone bytes.entry.now)) (budget bytes.entry.now) e) }
    ensures head { IfErr result
        (λ e. (f : reading.Refusal) → file_refusal bytes.entry.now ≡ Some f → refusal_of e ≡ f) }
    ensures says { IfErr result (RefusesAt T.refuses (alone bytes.entry.now)) }
{
    let (value, _) = from_bytes_counted::<T>(alloc, bytes)?;
    Ok(value)
}

/// Reads a value from a file as `from_bytes` does, with the number of resources that it took.
pub fn from_bytes_counted<'a, 'm, T: Deserialize<'a>>(
    alloc: Global,
    bytes: &'a [u8],
) -> Result<(T, usize), ReadingError<'m>>
    ensures read { IfOk result
        (λ r. HoldsAt (λ p. T.reads p r.0 r.1) (alone bytes.entry.now)
        × (r.1 ≤ budget bytes.entry.now)) }
    ensures refused { IfErr result (λ e. LacksOrMemory
        (λ n. HoldsAt (λ p. T.counts p n) (alone bytes.entry.now)) (budget bytes.entry.now) e) }
    ensures head { IfErr result
        (λ e. (f : reading.Refusal) → file_refusal bytes.entry.now ≡ Some f → refusal_of e ≡ f) }
    ensures says { IfErr result (RefusesAt T.refuses (alone bytes.entry.now)) }
{
    let file = File::alone(bytes)?;
    file.read_counted::<T>(alloc)
}

/// Reads a value at a root, with the number of resources that it takes from what is left.
pub(crate) fn read_root<'a, 'm, T: Deserialize<'a>>(
    alloc: Global,
    root: Cursor<'a>,
    mut walk: Walk,
) -> Result<(T, usize), ReadingError<'m>>
    ensures read { IfOk result (λ r. T.reads (place_of root.entry) r.0 r.1 × (r.1 ≤ walk)) }
    ensures refused { IfErr result (LacksOrMemory (T.counts (place_of root.entry)) walk) }
    ensures says { IfErr result (λ e. (left : ℕ) × T.refuses (place_of root.entry) walk left e) }
{
    let before = walk.left();
    let value = T::deserialize(alloc, root, &mut walk)?;
    Ok((value, before - walk.left()))
}

/// Reads the tree at a root, from what is left.
pub(crate) fn read_root_tree(
    alloc: Global,
    root: Cursor<'_>,
    mut walk: Walk,
) -> Result<Resource<'_>, BinaryDeserializerError>
    ensures { TreeHere (place_of root.entry) walk result }
{
    root.read_resource(alloc, &mut walk)
}

/// Counts the resources of the tree at a root, from what is left.
pub(crate) fn count_root(
    alloc: Global,
    root: Cursor<'_>,
    mut walk: Walk,
) -> Result<usize, BinaryDeserializerError>
    ensures { CountHere (place_of root.entry) walk result }
{
    let before = walk.left();
    root.count_resource(alloc, &mut walk)?;
    Ok(before - walk.left())
}
