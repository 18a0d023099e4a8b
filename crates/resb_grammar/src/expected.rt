//! What a reading expects at the place where it gets stuck.
//! Which state expects what is said in the definition of stuck readings, not here.
ghost use Rattle.std.specs.Prelude.{Some};
ghost use Rattle.resb_grammar.specs.Expected.{item_of};

use std::fmt;

/// What was expected at the place where a text is refused.
#[derive(Clone, Copy, Debug, PartialEq, Eq)]
pub enum Expected {
    /// A string: quoted, or a run of word characters.
    Text,
    /// The `{` of a group or of the bundle.
    LeftBrace,
    /// The `}` of a group or of the bundle.
    RightBrace,
    /// A type that may stand there.
    TypeName,
    /// A decimal number of 32 bits.
    Number,
    /// A string of whole pairs of hex digits.
    HexPairs,
    /// A string or a group.
    Item,
    /// The end of the text.
    EndOfText,
    /// Memory. The text may be well formed.
    Memory,
}

impl fmt::Display for Expected {
    ghost output = { λ x. Some (item_of x) };

    fn fmt<W: fmt::Write>(&self, f: &mut fmt::Formatter<W>) -> fmt::Result {
        let item = match self {
            Expected::Text => "a string",
            Expected::LeftBrace => "'{'",
            Expected::RightBrace => "'}'",
            Expected::TypeName => "a type",
            Expected::Number => "a number",
            Expected::HexPairs => "pairs of hex digits",
            Expected::Item => "a resource",
            Expected::EndOfText => "the end of the text",
            Expected::Memory => "memory",
        };
        write!(f, "{item}")
    }
}
