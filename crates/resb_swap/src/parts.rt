//! The parts of a collation's data: where they end, and the roles of their words.
//! How they are read is in `collation`.
ghost use Rattle.std.specs.Prelude.{◌≡◌, ◌≤◌};
ghost use Rattle.resb_swap.specs.Collation.{part_role, late_role, half_role};
ghost use Rattle.resb_swap.specs.Inner.Claims.{fill_role};

use crate::role::Role;

/// Where the parts of a collation's data end, in words from the data's first one.
#[derive(Clone, Copy)]
pub struct Parts {
    /// The header.
    pub header: usize,
    /// The indexes.
    pub indexes: usize,
    /// What stands between the indexes and the first part.
    pub gap: usize,
    /// The codes of scripts: numbers of 32 bits.
    pub codes: usize,
    /// The table of their order: bytes.
    pub table: usize,
    /// The trie's first word.
    pub signature: usize,
    /// The trie's header and index, and its values, if these have 16 bits.
    pub units: usize,
    /// The trie's values.
    pub values: usize,
    /// What fills up the part of the trie.
    pub fill: usize,
    /// The weights: numbers of 64 bits.
    pub weights: usize,
    /// Two parts of numbers of 32 bits.
    pub words: usize,
    /// Four parts of units, as far as they fill words.
    pub texts: usize,
    /// Their last unit, if it has a word to itself.
    pub last: usize,
}

impl Parts {
    /// The role of the word with this number.
    pub(crate) fn role(self, number: usize) -> Role
        ensures { result ≡ part_role self number }
    {
        if number < 1 {
            Role::OneUnit
        } else if number < 2 {
            Role::Units
        } else if number < 3 {
            Role::Order
        } else if number < self.header {
            Role::Bytes
        } else if number < self.indexes {
            Role::Words
        } else if number < self.gap {
            Role::Bytes
        } else if number < self.codes {
            Role::Words
        } else if number < self.table {
            Role::Bytes
        } else {
            self.late_role(number)
        }
    }

    /// The role of a word in the trie or behind it.
    fn late_role(self, number: usize) -> Role
        ensures { result ≡ late_role self number }
    {
        if number < self.signature {
            Role::Words
        } else if number < self.units {
            Role::Units
        } else if number < self.values {
            Role::Words
        } else if number < self.fill {
            Role::Bytes
        } else if number < self.weights {
            self.half_role(number)
        } else if number < self.words {
            Role::Words
        } else if number < self.texts {
            Role::Units
        } else if number < self.last {
            Role::OneUnit
        } else {
            Role::Bytes
        }
    }

    /// The role of a word of the weights.
    fn half_role(self, number: usize) -> Role
        requires { self.fill ≤ number }
        ensures { result ≡ half_role self number }
    {
        if (number - self.fill) % 2 == 0 {
            Role::First
        } else {
            Role::Second
        }
    }
}

/// The roles of the words of a body behind its first one.
#[derive(Clone, Copy)]
pub(crate) enum Fill {
    /// This one.
    All(Role),
    /// Those of a collation's data.
    Collation(Parts),
}

impl Fill {
    /// The role of the word with this number, from the one behind the first.
    pub(crate) fn role(self, number: usize) -> Role
        ensures { result ≡ fill_role self number }
    {
        match self {
            Fill::All(role) => role,
            Fill::Collation(parts) => parts.role(number),
        }
    }
}
