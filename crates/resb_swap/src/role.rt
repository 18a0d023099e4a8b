//! The role of a word of a file's body, and the parts that a body of each kind has.
//! Where bodies stand is found in `walk`.
ghost use Rattle.std.specs.Prelude.{◌≡◌, ◌<◌, ◌^◌, IsTrue, ◌↔◌};
ghost use Rattle.resb_swap.specs.Bodies.{body_role, type_in, is_type, middle_role, middle_of};
ghost use Rattle.resb_swap.specs.Bodies.{members_of, place_in};
ghost use Rattle.resb_swap.specs.Swapped.{turned, partner, is_order};

/// What a word of a file's body is.
#[derive(Clone, Copy, Debug, PartialEq, Eq)]
pub enum Role {
    /// Nothing that is reached: its bytes stay as they are.
    Free,
    /// Four bytes.
    Bytes,
    /// Two units of 16 bits.
    Units,
    /// A number of 32 bits.
    Words,
    /// A unit of 16 bits, and two bytes.
    OneUnit,
    /// Four bytes, of which the first one names an order of bytes.
    Order,
    /// The first half of a number of 64 bits.
    First,
    /// Its second half.
    Second,
    /// The first word of a string of the older form, or of an alias: a number of 32 bits.
    Text,
    /// The first word of a binary: a number of 32 bits.
    Binary,
    /// The first word of a table with 16-bit key positions: two units.
    Table,
    /// The first word of a table with 32-bit key positions: a number of 32 bits.
    Table32,
    /// The first word of an array: a number of 32 bits.
    Array,
    /// The first word of a vector of numbers: a number of 32 bits.
    Vector,
}

/// Whether a word names a type of resources.
pub(crate) fn has_type(word: u32) -> bool
    ensures { result ≡ is_type (type_in word) }
{
    let kind = word >> 28;
    kind <= 9 || kind == 14
}

/// The value of a word.
pub(crate) fn place_of(word: u32) -> usize
    ensures { result ≡ place_in word }
{
    (word & 0xfff_ffff) as usize
}

impl Role {
    /// Whether a word has no role.
    pub(crate) fn is_free(self) -> bool
        ensures { IsTrue result ↔ (self ≡ Role.Free) }
    {
        self == Role::Free
    }

    /// Whether a word is the first one of a binary.
    pub(crate) fn is_binary(self) -> bool
        ensures { IsTrue result ↔ (self ≡ Role.Binary) }
    {
        self == Role::Binary
    }

    /// The kind of the body that a word leads to: free, where it leads to none.
    #[tactic(auto, unfolding(crate::specs::Bodies::body_role))]
    pub(crate) fn of_word(word: u32) -> Role
        ensures { result ≡ body_role word }
    {
        if place_of(word) == 0 {
            return Role::Free;
        }
        match word >> 28 {
            0 | 3 => Role::Text,
            1 => Role::Binary,
            2 => Role::Table,
            4 => Role::Table32,
            8 => Role::Array,
            14 => Role::Vector,
            _ => Role::Free,
        }
    }

    /// The role of a body's words between its first one and its members.
    pub(crate) fn middle(self) -> Role
        ensures { result ≡ middle_role self }
    {
        match self {
            Role::Text | Role::Table => Role::Units,
            Role::Binary => Role::Bytes,
            _ => Role::Words,
        }
    }

    /// How many these are in a body that begins with this number.
    pub(crate) fn middle_len(self, count: u32) -> usize
        ensures { result ≡ middle_of self count }
    {
        let count = count as usize;
        match self {
            Role::Text => count.div_ceil(2),
            Role::Binary => count.div_ceil(4),
            Role::Table => count / 2,
            Role::Table32 | Role::Vector => count,
            _ => 0,
        }
    }

    /// How many members a body has that begins with this number.
    pub(crate) fn members(self, count: u32) -> usize
        ensures { result ≡ members_of self count }
    {
        match self {
            Role::Table | Role::Table32 | Role::Array => count as usize,
            _ => 0,
        }
    }

    /// The word whose bytes go to the word with this number.
    pub(crate) fn partner(self, number: usize) -> usize
        requires { number < 2 ^ 62 }
        ensures { result ≡ partner self number }
    {
        match self {
            Role::First => number + 1,
            Role::Second => number.saturating_sub(1),
            _ => number,
        }
    }

    /// Whether the first byte of a word names an order of bytes.
    pub(crate) fn is_order(self) -> bool
        ensures { result ≡ is_order self }
    {
        self == Role::Order
    }

    /// Which byte of a word goes to its byte with this number.
    #[tactic(auto, unfolding(crate::specs::Swapped::turned))]
    pub(crate) fn turn(self, byte: usize) -> usize
        requires { byte < 4 }
        ensures { result ≡ turned self byte }
    {
        match self {
            Role::Free | Role::Bytes | Role::Order => byte,
            Role::OneUnit => match byte {
                0 => 1,
                1 => 0,
                _ => byte,
            },
            Role::Units | Role::Table => { if byte % 2 == 0 { byte + 1 } else { byte - 1 } }
            _ => 3 - byte,
        }
    }
}
