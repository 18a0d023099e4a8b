//! What stands at a place: what has no members, and the members that are still to come.
//! Where they stand is found in `standing`.
ghost use Rattle.std.specs.Prelude.{◌≡◌, ◌≤◌, [], ◌∷◌, MatchOption, length, drop};
ghost use Rattle.resb_walk.specs.Inner.Members.{rest_length};
ghost use Rattle.resb_walk.specs.Inner.Members.{member_of, members_of, positions_of, keyed_members};

use resb_format::bytes::{first_unit, first_word};

/// A resource that has no members.
#[derive(Clone, Copy)]
pub enum Leaf<'a> {
    /// Well-formed UTF-16, two bytes for each unit.
    Text(&'a [u8]),
    /// The empty text.
    Empty,
    /// An alias's path: well-formed UTF-16, two bytes for each unit.
    Alias(&'a [u8]),
    /// Bytes.
    Binary(&'a [u8]),
    /// A word whose lower 28 bits are the number.
    Integer(u32),
    /// Four bytes for each number.
    Numbers(&'a [u8]),
}

/// A member of a collection: a resource's word, or a string's unit.
#[derive(Clone, Copy)]
pub enum Member {
    /// A descriptor's word.
    Word(u32),
    /// A unit of the 16-bit block.
    Unit(u16),
}

/// Members that are still to come.
#[derive(Clone, Copy)]
pub enum Members<'a> {
    /// Four bytes for each descriptor.
    Words(&'a [u8]),
    /// Two bytes for each string's offset.
    Units(&'a [u8]),
}

/// What a position of 32 bits is more in an entry, so that it isn't taken for one of 16 bits.
pub const WIDE: usize = 0x1_0000;

/// Positions of keys that are still to come.
#[derive(Clone, Copy)]
pub enum Positions<'a> {
    /// Two bytes for each.
    Halves(&'a [u8]),
    /// Four bytes for each.
    Wholes(&'a [u8]),
}

/// Entries that are still to come.
#[derive(Clone, Copy)]
pub struct TableParts<'a> {
    pub keys: Positions<'a>,
    pub members: Members<'a>,
}

/// What is still to come of a collection.
#[derive(Clone, Copy)]
pub enum Rest<'a> {
    /// Members of an array.
    List(Members<'a>),
    /// Entries of a table.
    Table(TableParts<'a>),
}

/// What stands at a word.
#[derive(Clone, Copy)]
pub enum Standing<'a> {
    /// A resource without members.
    Leaf(Leaf<'a>),
    /// An array.
    List(Members<'a>),
    /// A table.
    Table(TableParts<'a>),
}

impl<'a> Members<'a> {
    /// How many members are still to come.
    #[tactic(auto, using(crate::proofs::Placed::lengths))]
    pub fn len(self) -> usize
        ensures { result ≡ length (members_of self.entry) }
    {
        match self {
            Members::Words(bytes) => bytes.len() / 4,
            Members::Units(bytes) => bytes.len() / 2,
        }
    }

    /// The members behind so many.
    #[tactic(auto, using(crate::proofs::Placed::lengths, crate::proofs::Placed::numbers_behind))]
    pub fn behind(self, count: usize) -> Members<'a>
        requires { count ≤ length (members_of self) }
        ensures { members_of result ≡ drop count (members_of self.entry) }
    {
        match self {
            Members::Words(bytes) => {
                let (_, rest) = bytes.split_at(4 * count);
                Members::Words(rest)
            }
            Members::Units(bytes) => {
                let (_, rest) = bytes.split_at(2 * count);
                Members::Units(rest)
            }
        }
    }

    /// The first member, and those after it.
    pub fn split(self) -> Option<(Member, Members<'a>)>
        ensures { MatchOption result (members_of self.entry ≡ [])
            (λ r. members_of self.entry ≡ member_of r.0 ∷ members_of r.1) }
    {
        match self {
            Members::Words(bytes) => {
                let (word, rest) = first_word(bytes)?;
                Some((Member::Word(word), Members::Words(rest)))
            }
            Members::Units(bytes) => {
                let (unit, rest) = first_unit(bytes)?;
                Some((Member::Unit(unit), Members::Units(rest)))
            }
        }
    }
}

impl<'a> Positions<'a> {
    /// How many positions are still to come.
    #[tactic(auto, using(crate::proofs::Placed::lengths))]
    pub fn len(self) -> usize
        ensures { result ≡ length (positions_of self.entry) }
    {
        match self {
            Positions::Halves(bytes) => bytes.len() / 2,
            Positions::Wholes(bytes) => bytes.len() / 4,
        }
    }

    /// The positions behind so many.
    #[tactic(auto, using(crate::proofs::Placed::lengths, crate::proofs::Placed::numbers_behind))]
    pub fn behind(self, count: usize) -> Positions<'a>
        requires { count ≤ length (positions_of self) }
        ensures { positions_of result ≡ drop count (positions_of self.entry) }
    {
        match self {
            Positions::Halves(bytes) => {
                let (_, rest) = bytes.split_at(2 * count);
                Positions::Halves(rest)
            }
            Positions::Wholes(bytes) => {
                let (_, rest) = bytes.split_at(4 * count);
                Positions::Wholes(rest)
            }
        }
    }

    /// The first position, as an entry has it, and those after it.
    pub fn split(self) -> Option<(usize, Positions<'a>)>
        ensures { MatchOption result (positions_of self.entry ≡ [])
            (λ r. positions_of self.entry ≡ r.0 ∷ positions_of r.1) }
    {
        match self {
            Positions::Halves(bytes) => {
                let (unit, rest) = first_unit(bytes)?;
                Some((usize::from(unit), Positions::Halves(rest)))
            }
            Positions::Wholes(bytes) => {
                let (word, rest) = first_word(bytes)?;
                Some((WIDE + word as usize, Positions::Wholes(rest)))
            }
        }
    }
}

impl<'a> TableParts<'a> {
    /// How many entries are still to come.
    #[tactic(auto, using(crate::proofs::Lists::zip_lengths))]
    pub fn len(self) -> usize
        ensures { result ≡ length (keyed_members self.entry) }
    {
        self.keys.len().min(self.members.len())
    }

    /// The entries behind so many.
    #[tactic(auto, using(crate::proofs::Lists::zip_lengths))]
    pub fn behind(self, count: usize) -> TableParts<'a>
        requires { count ≤ length (keyed_members self) }
        ensures { keyed_members result ≡ drop count (keyed_members self.entry) }
    {
        TableParts {
            keys: self.keys.behind(count),
            members: self.members.behind(count),
        }
    }

    /// The first entry, and those after it.
    pub fn split(self) -> Option<(usize, Member, TableParts<'a>)>
        ensures { MatchOption result (keyed_members self.entry ≡ [])
            (λ r. keyed_members self.entry ≡ (r.0, member_of r.1) ∷ keyed_members r.2) }
    {
        let (position, keys) = self.keys.split()?;
        let (member, members) = self.members.split()?;
        Some((position, member, TableParts { keys, members }))
    }
}

impl<'a> Rest<'a> {
    /// How many members are still to come.
    pub fn len(self) -> usize
        ensures { result ≡ rest_length self.entry }
    {
        match self {
            Rest::List(members) => members.len(),
            Rest::Table(entries) => entries.len(),
        }
    }
}
