//! What a reading of ICU's text form expects at the place where it gets stuck.
//! In which state of a reading each is expected is said in `specs/Stuck`; no text is read here.
ghost use Rattle.std.specs.Prelude.{◌≡◌, Some};
ghost use Rattle.resb_icu_grammar.specs.Expected.{item_of, instead_of};

use std::fmt;

/// What was expected at the place where a text of ICU's form is refused.
#[derive(Clone, Copy, Debug, PartialEq, Eq)]
pub enum IcuExpected {
    /// The name of the bundle: a word, quoted or not.
    Name,
    /// `:table` or `:table(nofallback)`, the types that a root may have.
    RootType,
    /// A type that this form has.
    GroupType,
    /// A type that makes a tree, and not `:import`.
    NoImport,
    /// A type that makes a tree, and not `:include`.
    NoInclude,
    /// A type that makes a tree, and not `:process(..)`.
    NoProcess,
    /// The `{` of a group or of the bundle.
    LeftBrace,
    /// The `}` of a group with a type, behind the one string or number that it holds.
    RightBrace,
    /// A comma behind a number of a vector, or the `}` of the vector.
    CommaOrRightBrace,
    /// A group, which begins with `{` or with a type.
    Group,
    /// A string.
    String,
    /// An escape that this form has.
    Escape,
    /// Both halves of a surrogate pair: a string is text, which has no half of one alone.
    WholePair,
    /// A quote that closes the string that begins here.
    ClosingQuote,
    /// A string that may be a key.
    Key,
    /// A string of whole pairs of hex digits.
    HexPairs,
    /// A number of 32 bits, as C reads it: decimal, octal or hexadecimal.
    Number,
    /// A number of a vector, or its `}`.
    NumberOrRightBrace,
    /// A member of an array, or its `}`; or what begins a group without a type.
    Member,
    /// A comma behind a member of an array, another member, or the `}`.
    CommaOrMember,
    /// A key, or the `}` of the table.
    Entry,
    /// A comma between two strings of an array.
    Comma,
    /// What may stand behind the first string of a group without a type.
    AfterString,
    /// A table that has each of its keys once, which the one that ends here hasn't.
    KeysOnce,
    /// The end of the text.
    EndOfText,
    /// Memory. The text may be well formed.
    Memory,
}

impl fmt::Display for IcuExpected {
    ghost output = { λ x. Some (item_of x) };

    fn fmt<W: fmt::Write>(&self, f: &mut fmt::Formatter<W>) -> fmt::Result {
        let item = match self {
            IcuExpected::Name => "the name of the bundle",
            IcuExpected::RootType => "'table' or 'table(nofallback)'",
            IcuExpected::GroupType => "a type",
            IcuExpected::NoImport => "a type of a tree, and 'import' is none",
            IcuExpected::NoInclude => "a type of a tree, and 'include' is none",
            IcuExpected::NoProcess => "a type of a tree, and 'process' is none",
            IcuExpected::LeftBrace => "'{'",
            IcuExpected::RightBrace => "'}'",
            IcuExpected::CommaOrRightBrace => "a comma or '}'",
            IcuExpected::Group => "'{' or a type",
            IcuExpected::String => "a string",
            IcuExpected::Escape => "a known escape",
            IcuExpected::WholePair => "both halves of a surrogate pair, since a string is text",
            IcuExpected::ClosingQuote => "a quote that closes this string",
            IcuExpected::Key => "a string that may be a key",
            IcuExpected::HexPairs => "pairs of hex digits",
            IcuExpected::Number => "a number",
            IcuExpected::NumberOrRightBrace => "a number or '}'",
            IcuExpected::Member => "a resource or '}'",
            IcuExpected::CommaOrMember => "a comma, a resource or '}'",
            IcuExpected::Entry => "a key or '}'",
            IcuExpected::Comma => "a comma between two strings",
            IcuExpected::AfterString => "'}', a comma, '{' or a type",
            IcuExpected::KeysOnce => "each key once in the table that ends here",
            IcuExpected::EndOfText => "the end of the text",
            IcuExpected::Memory => "memory",
        };
        write!(f, "{item}")
    }
}

/// What was expected in place of a type of this name, which no tree has.
pub fn instead_of(name: &str) -> IcuExpected
    ensures { result ≡ instead_of name.now }
{
    if name == "import" {
        IcuExpected::NoImport
    } else if name == "include" {
        IcuExpected::NoInclude
    } else if name == "process" {
        IcuExpected::NoProcess
    } else {
        IcuExpected::GroupType
    }
}
