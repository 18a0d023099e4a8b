//! The mistakes that a person makes in a text, and what is said of each.
//! Where one is found is told by `mistaken` and the modules beside it; what is said as well stands
//! in `hints`.
use crate::shown::{Shown, ShownCharacter};
use resb_diagnostics::Location;
use std::fmt;

/// A place of a text, and what stands on both sides of it.
#[derive(Clone, Copy)]
pub(crate) struct Spot<'s> {
    /// The whole text.
    pub(crate) source: &'s [u8],
    pub(crate) before: &'s [u8],
    pub(crate) behind: &'s [u8],
}

/// A mistake in a text that is refused.
#[derive(Clone, Copy)]
pub(crate) struct Mistake<'s> {
    /// Where it stands, in bytes from the text's start.
    pub(crate) place: usize,
    pub(crate) what: What<'s>,
}

/// What a mistake is.
#[derive(Clone, Copy)]
pub(crate) enum What<'s> {
    /// The key stands in its table before.
    Repeated(Repeated<'s>),
    OpenComment,
    /// ICU's form reads `/**/` as the start of a comment.
    EmptyComment,
    NoComment,
    Slash,
    Comma,
    Semicolon,
    NoKey,
    NoName,
    KeyCharacter(char),
    NameCharacter(char),
    /// A character that stands in quotes alone.
    QuotedCharacter(char),
    KeyOfWords,
    NameOfWords,
    KeyOfPieces,
    TypeFirst,
    /// No `{` stands behind this word.
    NoBrace(&'s str),
    BlankBehindColon,
    ValueBehindColon,
    /// There is no type of this name, and this one is nearest to it.
    UnknownType(&'s str, Option<&'static str>),
    RootType,
    NotDecimal,
    LeadingZero,
    IntegerRange,
    VectorRange,
    Fraction,
    QuotedNumber,
    NoQuotedNumber,
    NoNumberComma,
    SeveralValues,
    /// So many hex digits, one of which has no other.
    OddDigits(usize),
    NoDigit(char),
    BraceTooMany,
    EarlyEnd,
    TextBehind,
    NoBraceBefore,
    NoBraceOpen,
    TwoCommas,
    QuoteInside,
    NoOpeningQuote,
    NoClosingQuote,
    LongString,
}

/// A key that stands a second time, as it is said.
#[derive(Clone, Copy)]
pub(crate) struct Repeated<'k> {
    /// How it is spelled.
    pub(crate) key: &'k str,
    /// Where it stands first.
    pub(crate) first: Location,
    /// The line where it stands again.
    pub(crate) line: usize,
}

impl<'s> Spot<'s> {
    /// A place of a text, if the text is that long.
    pub(crate) fn new(source: &'s [u8], place: usize) -> Option<Spot<'s>> {
        match source.split_at_checked(place) {
            Some((before, behind)) => Some(Spot {
                source,
                before,
                behind,
            }),
            None => None,
        }
    }

    /// A mistake at the place.
    pub(crate) fn here(&self, what: What<'s>) -> Option<Mistake<'s>> {
        self.on(0, what)
    }

    /// A mistake that stands so many bytes behind the place.
    pub(crate) fn on(&self, bytes: usize, what: What<'s>) -> Option<Mistake<'s>> {
        let place = self.before.len().saturating_add(bytes);
        Some(Mistake { place, what })
    }
}

impl fmt::Display for Repeated<'_> {
    fn fmt<W: fmt::Write>(&self, f: &mut fmt::Formatter<W>) -> fmt::Result {
        let (key, line, column) = (Shown(self.key), self.first.line, self.first.column);
        if line == self.line {
            write!(f, "duplicate key '{key}', first at column {column}")
        } else {
            write!(f, "duplicate key '{key}', first at line {line}")
        }
    }
}

impl fmt::Display for What<'_> {
    fn fmt<W: fmt::Write>(&self, f: &mut fmt::Formatter<W>) -> fmt::Result {
        match self {
            What::Repeated(repeated) => write!(f, "{repeated}"),
            What::KeyCharacter(c) => write_of(f, *c, "can't stand in a key"),
            What::NameCharacter(c) => write_of(f, *c, "can't stand in the bundle's name"),
            What::QuotedCharacter(c) => write_of(f, *c, "needs quotes round its string"),
            What::NoDigit(c) => write_of(f, *c, "is no hex digit"),
            What::OddDigits(count) => write!(
                f,
                "an odd number of hex digits ({count}): each byte has two"
            ),
            What::NoBrace(word) => {
                let word = Shown(word);
                write!(f, "there is no '{{' behind '{word}'")
            }
            What::UnknownType(word, nearest) => {
                let word = Shown(word);
                write!(f, "there is no type '{word}'")?;
                match nearest {
                    Some(name) => write!(f, "; is {name} meant?"),
                    None => Ok(()),
                }
            }
            other => f.write_str(other.words()),
        }
    }
}

/// Writes what is said of a character.
fn write_of<W: fmt::Write>(f: &mut fmt::Formatter<W>, c: char, said: &str) -> fmt::Result {
    let c = ShownCharacter(c);
    write!(f, "'{c}' {said}")
}

impl What<'_> {
    /// What is said of a mistake by words alone; of others, nothing.
    fn words(&self) -> &'static str {
        match self {
            What::OpenComment => "this comment has no end: a '*/' is missing",
            What::EmptyComment => "for ICU '/**/' is a comment without an end: write '/* */'",
            What::NoComment => "a comment begins with '//' or '/*'",
            What::Slash => "a string that begins with '/' needs quotes",
            What::Comma =>
                "commas stand between members of an array, not between entries of a table",
            What::Semicolon => "entries of a table have no semicolons",
            What::NoKey => "this value has no key",
            What::NoName => "the bundle has no name",
            What::KeyOfWords => "a key of several words needs quotes",
            What::NameOfWords => "the bundle's name is one word",
            What::KeyOfPieces => "a key is one string, and this is a second one",
            What::TypeFirst => "a type stands behind its key, with a ':' before it",
            What::BlankBehindColon => "there is no blank between ':' and a type",
            What::ValueBehindColon => "a value stands in braces, and a type behind ':'",
            What::RootType => "the root is a table: its type is table, if it has one",
            What::BraceTooMany => "this '}' is one too many",
            What::EarlyEnd => "the bundle ends with this '}', and text stands behind it",
            What::TextBehind => "the bundle ends before this, and a text has only one",
            What::NoBraceBefore => "a '}' is missing before this entry",
            What::NoBraceOpen => "this value has no '{' before it",
            other => other.words_of_value(),
        }
    }

    /// What is said of a mistake in a number or a string.
    fn words_of_value(&self) -> &'static str {
        match self {
            What::NotDecimal => "a number is decimal",
            What::LeadingZero =>
                "behind a first 0 stand octal digits, 0 to 7, or an x and hex digits",
            What::IntegerRange => { "an integer has 28 bits: -134217728 to 268435455" }
            What::VectorRange => { "a vector's numbers have 32 bits: -2147483648 to 4294967295" }
            What::Fraction => "numbers are whole",
            What::QuotedNumber => "a number has no quotes",
            What::NoQuotedNumber => "these quotes hold no number, or one of more than 32 bits",
            What::NoNumberComma => "a comma is missing before this number",
            What::SeveralValues => "a group of this type has one value",
            What::TwoCommas => "two commas in a row",
            What::QuoteInside => "a quote inside a string needs a backslash before it",
            What::NoOpeningQuote => "a quote is missing where this string begins",
            What::NoClosingQuote => "nothing closes this quote",
            What::LongString => "the quote that closes this string may be missing in its line",
            _ => "",
        }
    }
}
