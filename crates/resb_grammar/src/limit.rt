//! How many bytes of memory the reading of a text may make, and what each thing that it makes is
//! counted as. What a token adds is said in the definitions.
ghost use Rattle.std.specs.Prelude.{◌≡◌};
ghost use Rattle.resb_grammar.specs.Limit.{tree_limit, draft_limit};

use resb_tree::weights;

/// What is counted for each thing that is made, in bytes.
#[derive(Clone, Copy)]
pub struct Weights {
    /// A group.
    pub group: u32,
    /// A key, or a string that may turn out to be one.
    pub entry: u32,
    /// A table that has entries, beside these.
    pub table: u32,
}

/// How many bytes may be made, and how they are counted.
#[derive(Clone, Copy)]
pub struct Limit {
    /// The most that may be made.
    pub bytes: u64,
    /// What is counted for each thing.
    pub weights: Weights,
}

impl Limit {
    /// So many bytes where a tree is made.
    pub fn of_trees(bytes: u64) -> Limit
        ensures { result ≡ tree_limit bytes }
    {
        let weights = Weights {
            group: weights::RESOURCE as u32,
            entry: weights::ENTRY as u32,
            table: weights::TABLE as u32,
        };
        Limit { bytes, weights }
    }

    /// So many bytes where a draft is made.
    pub fn of_drafts(bytes: u64) -> Limit
        ensures { result ≡ draft_limit bytes }
    {
        let weights = Weights {
            group: 88,
            entry: 112,
            table: 64,
        };
        Limit { bytes, weights }
    }
}
