//! What the pieces of a tree add up to, sum by sum. Which pieces a file's tree has is found in
//! `weigh`, and how many bytes a tree of them takes in the crate above.
ghost use Rattle.std.specs.Prelude.{◌≡◌, ℕ, ◌+◌};
ghost use Rattle.resb_walk.specs.Sums.{fitting};

use crate::members::Leaf;
use crate::units::text_len;

/// What stands in a file's tree, summed; entries that are replaced count too. A sum is none where
/// it doesn't fit in 64 bits.
#[derive(Clone, Copy, Debug, PartialEq, Eq, Drop)]
pub struct Sums {
    /// The tables that have entries.
    pub tables: Option<u64>,
    /// The entries of all tables.
    pub entries: Option<u64>,
    /// The bytes of the entries' keys.
    pub key_bytes: Option<u64>,
    /// The UTF-8 bytes of the strings, and of the aliases' paths.
    pub text_bytes: Option<u64>,
    /// The bytes of the binaries.
    pub binary_bytes: Option<u64>,
    /// The numbers of the vectors.
    pub numbers: Option<u64>,
}

/// A sum and one summand more.
fn plus(sum: Option<u64>, more: usize) -> Option<u64>
    ensures { (before : ℕ) → sum ≡ fitting before → result ≡ fitting (before + more) }
{
    sum?.checked_add(more as u64)
}

impl Sums {
    ghost use Rattle.std.specs.Prelude.{◌≡◌, ℕ, ◌+◌, ◌<◌, List, [], ◌∷◌, ◌++◌, length};
    ghost use Rattle.resb_tree.specs.Tree.{Tree, string, alias};
    ghost use Rattle.resb_format.specs.Content as at;
    ghost use Rattle.resb_walk.specs.Pieces.{Piece, leaf_piece, table_piece, key_piece};
    ghost use Rattle.resb_walk.specs.Sums.{AddsUp};
    ghost use Rattle.resb_walk.specs.Inner.Members.{leaf_tree};

    /// The sums of nothing.
    pub fn none() -> Sums
        ensures { AddsUp result [] }
    {
        Sums {
            tables: Some(0),
            entries: Some(0),
            key_bytes: Some(0),
            text_bytes: Some(0),
            binary_bytes: Some(0),
            numbers: Some(0),
        }
    }

    /// With a string, or an alias's path, of so many bytes.
    pub fn with_text(self, len: usize) -> Sums
        ensures a_string { (xs : List Piece) (s : List ℕ) → AddsUp self xs → length s ≡ len
            → AddsUp result (xs ++ leaf_piece (string s) ∷ []) }
        ensures an_alias { (xs : List Piece) (s : List ℕ) → AddsUp self xs → length s ≡ len
            → AddsUp result (xs ++ leaf_piece (alias s) ∷ []) }
    {
        Sums {
            text_bytes: plus(self.text_bytes, len),
            ..self
        }
    }

    /// With a resource that has no members.
    pub fn with_leaf(self, leaf: Leaf<'_>) -> Sums
        ensures { (xs : List Piece) → AddsUp self xs
            → AddsUp result (xs ++ leaf_piece (leaf_tree leaf.entry) ∷ []) }
    {
        match leaf {
            Leaf::Text(units) => self.with_text(text_len(units)),
            Leaf::Alias(path) => self.with_text(text_len(path)),
            Leaf::Empty | Leaf::Integer(_) => self,
            Leaf::Binary(bytes) => Sums {
                binary_bytes: plus(self.binary_bytes, bytes.len()),
                ..self
            },
            Leaf::Numbers(bytes) => Sums {
                numbers: plus(self.numbers, bytes.len() / 4),
                ..self
            },
        }
    }

    /// With a table of so many entries, which are still to come.
    pub fn with_table(self, len: usize) -> Sums
        ensures { (xs : List Piece) (es : List (ℕ × at.Member)) → AddsUp self xs → length es ≡ len
            → AddsUp result (xs ++ table_piece es ∷ []) }
    {
        if len == 0 {
            return self;
        }
        Sums {
            tables: plus(self.tables, 1),
            ..self
        }
    }

    /// With the key of an entry, of so many bytes.
    pub fn with_key(self, len: usize) -> Sums
        ensures { (xs : List Piece) (k : List ℕ) → AddsUp self xs → length k ≡ len
            → AddsUp result (xs ++ key_piece k ∷ []) }
    {
        Sums {
            entries: plus(self.entries, 1),
            key_bytes: plus(self.key_bytes, len),
            ..self
        }
    }
}
