//! The tokens of a text of ICU's form, as far as warnings and keys ask for them, and the last of
//! them.
//! Where each stands is found in `icu_steps`; what is told of them is in `icu_warning` and
//! `icu_keys`.
ghost use Rattle.std.specs.Prelude.{◌≡◌, ◌≤◌, ◌<◌, length};
ghost use Rattle.resb_diagnostics.specs.IcuWarnings as spec;
ghost use Rattle.resb_diagnostics.specs.Inner.IcuTokens.{Fits, IsBefore, IsBeforeToken};

use crate::icu_runs::Before;
use crate::named::{Named, named_by};

/// A token. Places are in bytes from the text's start.
#[derive(Clone, Copy, Debug, PartialEq, Eq)]
pub(crate) enum IcuToken {
    /// A piece in quotes that begins at this place.
    Piece(usize),
    /// A word from one place up to another: an unquoted string, a number or a type.
    Word(usize, usize),
    /// A `{` at this place.
    Open(usize),
    /// A `}`.
    Close,
    /// A `,`.
    Comma,
}

/// The last token before a place.
#[derive(Clone, Copy, Debug, PartialEq, Eq)]
pub(crate) enum IcuLast {
    /// None, or one before the root's `{`.
    Start,
    /// Any other one.
    Other,
    /// The type `:int` or `:integer`.
    IntegerType,
    /// The type `:array`.
    ArrayType,
    /// Another type.
    OtherType,
    /// The `{` behind the type of integers.
    Integer,
    /// The `{` behind the type of arrays.
    Array,
    /// The `{` behind another type.
    Typed,
    /// Another `{`, but the root's.
    Open,
    /// A word that is first in a group without a type, and not the root.
    Key,
    /// A `{` at this place, right behind such a word.
    Value(usize),
    /// One digit right behind such a `{`, which stands at this place.
    ValueDigit(usize),
    /// The `}` right behind such a digit, whose `{` stands at this place.
    Valued(usize),
    /// A `{` at this place, right behind another one of a group that is not `:array`.
    Inner(usize),
    /// One digit right behind such a `{`, which stands at this place.
    Digit(usize),
    /// A piece of the string that is first in a group that is not `:array`, or a word of it that
    /// isn't the first one, and the first of them that stands behind a line's end, if one does.
    First(Option<usize>),
    /// A piece or a word of another string, and the same.
    Member(Option<usize>),
}

/// Whether this is one decimal digit.
#[inline(always)]
fn is_digit(word: &[u8]) -> bool
    ensures { result ≡ spec.is_digit word.now }
{
    match word {
        [byte] => byte.is_ascii_digit(),
        _ => false,
    }
}

impl IcuLast {
    /// The last token behind a word that stands between two places, before which this stands.
    #[inline(always)]
    fn behind_word(self, text: &[u8], from: usize, to: usize, before: Before) -> IcuLast
        requires order { from < to }
        requires fits { to ≤ length text.now }
        requires before { IsBefore text.now from before }
        ensures { result ≡ spec.behind_icu_word text.now from to self }
    {
        let word = &text[from..to];
        if before.has_colon {
            return self.behind_type(named_by(word));
        }
        self.behind_plain_word(from, before.has_ended, is_digit(word))
    }

    /// The last token behind a type of this name.
    fn behind_type(self, named: Named) -> IcuLast
        ensures { result ≡ spec.last_named named self }
    {
        match (self, named) {
            (IcuLast::Start, _) => IcuLast::Start,
            (_, Named::Integer) => IcuLast::IntegerType,
            (_, Named::Array) => IcuLast::ArrayType,
            _ => IcuLast::OtherType,
        }
    }

    /// The last token behind a word at a place, which is no type, and one digit or not. A line
    /// ended before it or not.
    #[inline(always)]
    fn behind_plain_word(self, place: usize, has_ended: bool, is_digit: bool) -> IcuLast
        ensures { result ≡ spec.behind_plain_word place has_ended is_digit self }
    {
        match self {
            IcuLast::Inner(open) if is_digit => IcuLast::Digit(open),
            IcuLast::Value(open) if is_digit => IcuLast::ValueDigit(open),
            IcuLast::Inner(_) | IcuLast::Value(_) | IcuLast::Open => IcuLast::Key,
            _ => self.behind_string(place, has_ended),
        }
    }

    /// The last token behind a `{` at a place.
    #[inline(always)]
    fn behind_open(self, place: usize) -> IcuLast
        ensures { result ≡ spec.behind_open place self }
    {
        match self {
            IcuLast::Start => IcuLast::Other,
            IcuLast::IntegerType => IcuLast::Integer,
            IcuLast::ArrayType => IcuLast::Array,
            IcuLast::OtherType => IcuLast::Typed,
            IcuLast::Open | IcuLast::Typed | IcuLast::Inner(_) | IcuLast::Value(_) => {
                IcuLast::Inner(place)
            }
            IcuLast::Key => IcuLast::Value(place),
            _ => IcuLast::Open,
        }
    }

    /// The last token behind a `}`.
    #[inline(always)]
    fn behind_close(self) -> IcuLast
        ensures { result ≡ spec.behind_close self }
    {
        match self {
            IcuLast::ValueDigit(place) => IcuLast::Valued(place),
            _ => IcuLast::Other,
        }
    }

    /// The last token behind a piece or a word at a place, where a line ended before it or not.
    #[inline(always)]
    fn behind_string(self, place: usize, has_ended: bool) -> IcuLast
        ensures { result ≡ spec.behind_string place has_ended self }
    {
        match self {
            IcuLast::Start => IcuLast::Start,
            IcuLast::First(joined) => IcuLast::First(first_joined(joined, has_ended, place)),
            IcuLast::Member(joined) => IcuLast::Member(first_joined(joined, has_ended, place)),
            IcuLast::Key | IcuLast::Digit(_) | IcuLast::ValueDigit(_) => {
                IcuLast::First(first_joined(None, has_ended, place))
            }
            IcuLast::Open | IcuLast::Typed | IcuLast::Inner(_) | IcuLast::Value(_) => {
                IcuLast::First(None)
            }
            _ => IcuLast::Member(None),
        }
    }

    /// The last token behind one more, before which this stands.
    #[inline(always)]
    pub(crate) fn behind(self, text: &[u8], token: IcuToken, before: Before) -> IcuLast
        requires inside { Fits text.now token }
        requires before { IsBeforeToken text.now token before }
        ensures { result ≡ spec.behind_icu_token text.now token self }
    {
        match token {
            IcuToken::Piece(place) => self.behind_string(place, before.has_ended),
            IcuToken::Word(from, to) => self.behind_word(text, from, to, before),
            IcuToken::Open(place) => self.behind_open(place),
            IcuToken::Close => self.behind_close(),
            IcuToken::Comma => IcuLast::Other,
        }
    }
}

/// The first piece or word of a string that stands behind a line's end.
#[inline(always)]
fn first_joined(joined: Option<usize>, has_ended: bool, place: usize) -> Option<usize>
    ensures { result ≡ spec.first_joined joined has_ended place }
{
    match joined {
        Some(first) => Some(first),
        None if has_ended => Some(place),
        None => None,
    }
}
