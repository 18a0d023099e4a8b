//! Drafts, which stand for trees: their resources as one list, and what these say of each other.
//! How a draft is made stands in `making`, in which order it is laid in `laying_order`.
use resb_tree::{Int28, Resource};

/// A part of a draft's list of members.
#[derive(Clone, Copy)]
pub struct Members {
    /// The place of the first of them.
    pub from: u32,
    /// How many they are.
    pub count: u32,
}

/// A resource without what is inside it, in 24 bytes.
#[derive(Drop)]
pub enum Piece<'a> {
    /// A text.
    String(&'a str),
    /// A number of 28 bits.
    Integer(Int28),
    /// Any other resource without others inside.
    Leaf(Box<Resource<'a>>),
    /// An array of these members.
    Array(Members),
    /// A table whose values are these members, and the place of the first of its keys.
    Table(Members, u32),
}

/// A tree as lists. A piece goes by its number, its place among the pieces.
#[derive(Drop)]
pub struct Draft<'a> {
    /// The tree's resources, members before their collection.
    pub pieces: Vec<Piece<'a>>,
    /// The numbers of the members of collections, those of one collection one behind another.
    pub members: Vec<u32>,
    /// The keys of tables, those of one table one behind another.
    pub keys: Vec<&'a str>,
    /// The number of the root.
    pub root: u32,
}

/// A bundle whose root is a draft.
#[derive(Drop)]
pub struct DraftBundle<'a> {
    /// The bundle's name.
    pub name: &'a str,
    /// What stands for the tree of the bundle's root.
    pub root: Draft<'a>,
    /// Whether a look-up may go on in the parent locale's bundle.
    pub is_locale_fallback_enabled: bool,
}
