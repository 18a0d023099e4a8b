//! What a file's tree adds up to before any of it is made, and a tree within a limit of bytes.
//! The sums themselves are found in `resb_walk`.
ghost use Rattle.std.specs.Prelude.{◌≡◌, ◌≤◌, ℕ, List, IfOk, IsTrue, ◌↔◌};
ghost use Rattle.resb_walk.specs.Pieces.{Piece};
ghost use Rattle.resb_walk.specs.Sums.{AddsUp, count_of, fitting};
ghost use Rattle.resb_walk.specs.TreeBytes.{tree_bytes};
ghost use Rattle.resb_read.specs.Inner.AtRoot.{IsRoot, MeasureHere, TreeWithinHere};
ghost use Rattle.resb_read.specs.Files.{whole_in};
ghost use Rattle.resb_read.specs.Measuring.{IsMeasured, AnswersMeasureOf};
ghost use Rattle.resb_read.specs.Measuring.{IsLarger, HasLargerKeys, key_bytes};
ghost use Rattle.resb_read.specs.Places.{place_of};
ghost use Rattle.resb_read.specs.Resources.{HoldsPlace};

use crate::cursor::{Cursor, Spot};
use crate::file::File;
use crate::whole_files::{count_root, read_root_tree};
use resb_format::{BinaryDeserializerError, Resource};
use resb_tree::{NoMemory, weights};
use resb_walk::{Sums, Walk, weigh_word};
use std::alloc::Global;

/// What a file's tree has; entries that are replaced count too.
#[derive(Clone, Copy, Debug, PartialEq, Eq, Drop)]
pub struct Measured {
    /// The resources: each but the root is a member of another.
    pub resources: usize,
    /// What they add up to.
    pub sums: Sums,
}

/// Whether a sum, which is none where it doesn't fit in 64 bits, is no more than the limit.
fn is_at_most(sum: Option<u64>, limit: u64) -> bool
    ensures { (n : ℕ) → sum ≡ fitting n → (IsTrue result ↔ (n ≤ limit)) }
{
    match sum {
        Some(bytes) => bytes <= limit,
        None => false,
    }
}

impl Measured {
    /// How many bytes the tree takes in memory, or none where that doesn't fit in 64 bits: 72 for
    /// each resource, 3 more for each byte of a string or of an alias's path, 4 for each number of
    /// a vector, 1024 for each table that has entries, and 192 for each entry. Binaries and keys
    /// are slices of the file or of its pool.
    pub fn tree_bytes(self) -> Option<u64>
        ensures { (xs : List Piece) → IsMeasured self xs → result ≡ fitting (tree_bytes xs) }
    {
        let tables = u128::from(self.sums.tables?);
        let entries = u128::from(self.sums.entries?);
        let texts = u128::from(self.sums.text_bytes?);
        let numbers = u128::from(self.sums.numbers?);
        let resources = self.resources as u128;
        let bytes = weights::RESOURCE * resources
            + weights::TABLE * tables
            + weights::ENTRY * entries
            + weights::TEXT_BYTE * texts
            + weights::NUMBER * numbers;
        if bytes >= 1 << 64 {
            return None;
        }
        Some(bytes as u64)
    }

    /// Whether the tree takes no more bytes than the limit.
    pub fn is_within(self, limit: u64) -> bool
        ensures { (xs : List Piece) → IsMeasured self xs
            → (IsTrue result ↔ (tree_bytes xs ≤ limit)) }
    {
        is_at_most(self.tree_bytes(), limit)
    }

    /// Whether the keys of all entries, be they shared or not, have no more bytes than the limit:
    /// each of them may be compared where the tree is made.
    pub fn keys_are_within(self, limit: u64) -> bool
        ensures { (xs : List Piece) → IsMeasured self xs
            → (IsTrue result ↔ (key_bytes xs ≤ limit)) }
    {
        is_at_most(self.sums.key_bytes, limit)
    }
}

/// The tree would take more bytes than it may.
fn larger() -> BinaryDeserializerError
    ensures { IsLarger result }
{
    BinaryDeserializerError::invalid_data("tree larger than the limit")
}

/// The keys of the tree's entries would have more bytes than they may.
fn larger_keys() -> BinaryDeserializerError
    ensures { HasLargerKeys result }
{
    BinaryDeserializerError::invalid_data("keys larger than the limit")
}

impl<'de> Cursor<'de> {
    /// The sums of the tree that stands at a descriptor, which has so many resources.
    fn sums(self, alloc: Global, resources: usize) -> Result<Sums, NoMemory>
        requires { (xs : List Piece) × HoldsPlace (place_of self) xs × (count_of xs ≡ resources) }
        ensures { IfOk result
            (λ s. (xs : List Piece) × HoldsPlace (place_of self.entry) xs × AddsUp s xs) }
    {
        match self.at {
            Spot::Descriptor(word) => weigh_word(alloc, self.file, word, resources),
            Spot::Unit(_) | Spot::Word(_) | Spot::Key(_) => unreachable!(),
        }
    }
}

impl<'de> File<'de> {
    /// Counts the resources of the tree, sums what they hold, and makes none of it. It is refused
    /// as `count` is. No key and no string, but short ones, is looked at again and again as a
    /// whole.
    pub fn measure(&self, alloc: Global) -> Result<Measured, BinaryDeserializerError>
        ensures { AnswersMeasureOf (whole_in self.now) result }
    {
        let (root, walk) = self.root();
        measure_root(alloc, root, walk)
    }
}

/// Counts the resources of the tree at a root, from what is left, and sums what they hold.
pub(crate) fn measure_root(
    alloc: Global,
    root: Cursor<'_>,
    walk: Walk,
) -> Result<Measured, BinaryDeserializerError>
    requires { IsRoot (place_of root) }
    ensures { MeasureHere (place_of root.entry) walk result }
{
    let resources = count_root(alloc, root, walk)?;
    let sums = root.sums(alloc, resources)?;
    Ok(Measured { resources, sums })
}

/// Reads the tree at a root, from what is left, where neither it nor the keys of its entries take
/// more bytes than the limit.
pub(crate) fn read_root_within(
    alloc: Global,
    root: Cursor<'_>,
    walk: Walk,
    limit: u64,
) -> Result<Resource<'_>, BinaryDeserializerError>
    requires { IsRoot (place_of root) }
    ensures { TreeWithinHere (place_of root.entry) walk limit result }
{
    let measured = measure_root(alloc, root, Walk::new(walk.left()))?;
    if !measured.is_within(limit) {
        return Err(larger());
    }
    if !measured.keys_are_within(limit) {
        return Err(larger_keys());
    }
    read_root_tree(alloc, root, walk)
}
