//! What a person may not have meant in a text that is a bundle: most of it is taken otherwise by
//! another reader, ICU's `genrb`.
//! A warning changes nothing about what is made. Why a text is refused isn't found here.
ghost use Rattle.std.specs.Prelude.{◌≡◌, ◌++◌, ◌<◌, ◌≤◌, [], Some, None, length, option_map};
ghost use Rattle.std.specs.Prelude.{IfOk, OnOk, slice_index};
ghost use Rattle.std.specs.Prelude.{IsPermutation};
ghost use Rattle.std.specs.List.Sorted.{IsSortedByKey};
ghost use Rattle.std.specs.Ordering.{nat_cmp};
ghost use Rattle.resb_diagnostics.specs.Groups as spec;
ghost use Rattle.resb_diagnostics.specs.Groups.{groups_behind};
ghost use Rattle.resb_diagnostics.specs.Warnings.{warned, of_end};
ghost use Rattle.resb_diagnostics.specs.Inner.Looks.{text_piece_of, ShowsNesting};
ghost use Rattle.resb_diagnostics.specs.Inner.Tokens.{of_some_backslash, one_byte_piece};
ghost use Rattle.resb_diagnostics.specs.Inner.Tokens.{HasScanned, IsBetween, IsToken, Passes};

use crate::groups::Groups;
use crate::text_pieces::{Piece, Token, token_at};
use resb_grammar::blanks_end;
use std::alloc::{AllocError, Global};

/// What a person may not have meant. Places are in bytes from the text's start.
#[derive(Clone, Copy, Debug, PartialEq, Eq, PartialOrd, Ord)]
pub struct Warning {
    /// Where it stands: at the first byte of a string, its quote included, or of a number, or at a
    /// backslash, a comma or a brace.
    pub place: usize,
    /// What it is.
    pub reason: Reason,
}

/// Why a warning is given.
#[derive(Clone, Copy, Debug, PartialEq, Eq, PartialOrd, Ord)]
pub enum Reason {
    /// The key stands in its table before, for the first time at this place; `genrb` refuses such a
    /// text.
    RepeatedKey(usize),
    /// A backslash in a string begins an escape for `genrb`, and is a character here.
    Backslash,
    /// The string follows another one without a comma; `genrb` makes one string of both.
    StringsInRow,
    /// The comma follows pairs of a string and a group: the group is an Array of all of them, and
    /// `genrb` refuses it.
    CommaBehindPairs,
    /// The string is the last thing behind pairs of a string and a group: the group is an Array of
    /// all of them, and `genrb` refuses it.
    LoneString,
    /// The group is empty and has no type: it is a Table, and an Array for `genrb`.
    EmptyGroup,
    /// The number begins with a 0, and is more than 7: it is decimal here, and octal for `genrb`.
    LeadingZero,
    /// The integer has more than 28 bits: these are kept, the highest one as the sign.
    CutNumber(i32),
    /// A member of an array goes on with this piece, the first of its pieces before which a line
    /// ended, in a text of ICU's form: a comma may be missing.
    JoinedOverLine,
    /// A group begins with a group of one digit without quotes, in a text of ICU's form; or a word
    /// without quotes and such a group are all of one that has no type and isn't the root.
    UnquotedGroup,
    /// The integer begins with a 0 in a text of ICU's form, and is more than 7: it is octal.
    OctalNumber,
    /// The backslash stands before a letter or a digit, with which no escape of ICU's form begins:
    /// it stands for that character.
    UnknownEscape,
    /// Behind the root of a text in ICU's form stands more than blanks, the first of it here:
    /// nothing of it is read. In a comment that U+2029 ends it stands at that character.
    TextBehind,
    /// The unquoted string goes on with the one in quotes before it, in a text of ICU's form: a
    /// blank stands between them, and a comma or a quote may be missing.
    MixedQuotes,
}

/// The warnings of a text, in order of place. They are right for a text that is a bundle; for any
/// other one they say little.
pub fn warnings(alloc: Global, text: &str) -> Result<Vec<Warning>, AllocError>
    ensures exact { IfOk result
        (λ found. IsPermutation (warned text.now (length text.now)) found.items) }
    ensures order { IfOk result (λ found. IsSortedByKey (λ w. w.place) nat_cmp found.items) }
{
    let mut scan = Scan::new(alloc, text.as_bytes());
    'tokens: while scan.at < text.len() {
        scan.advance()?;
    }
    let mut found = scan.found;
    found.sort_unstable();
    Ok(found)
}

/// How far a text was looked at, and what was found.
#[derive(Drop)]
struct Scan<'a> {
    text: &'a [u8],
    /// A place between two pieces, or the text's end.
    at: usize,
    groups: Groups<'a>,
    found: Vec<Warning>,
}

impl<'a> Scan<'a> {
    /// Nothing was looked at.
    fn new(alloc: Global, text: &'a [u8]) -> Scan<'a>
        ensures { HasScanned result text.now }
    {
        Scan {
            text,
            at: 0,
            groups: Groups::new(alloc),
            found: Vec::new(alloc),
        }
    }

    /// Goes on behind the next piece, or to the text's end.
    fn advance(&mut self) -> Result<(), AllocError>
        requires more { self.old.at < length self.old.text.now }
        requires reads { HasScanned self.old self.old.text.now }
        ensures { OnOk result
            (HasScanned self.new self.old.text.now × (self.old.at < self.new.at)) }
    {
        let text = self.text;
        let at = self.behind_blanks();
        if at == text.len() {
            return self.pass(Token {
                piece: None,
                backslash: None,
                end: at,
            });
        }
        match text[at] {
            b'{' => self.pass_byte(at, Piece::Open),
            b'}' => self.pass_byte(at, Piece::Close(at)),
            b',' => self.pass_byte(at, Piece::Comma(at)),
            _ => self.pass(token_at(text, at)),
        }
    }

    /// Where the blanks at the place end.
    fn behind_blanks(&self) -> usize
        requires more { self.now.at < length self.now.text.now }
        requires reads { HasScanned self.now self.now.text.now }
        ensures fits { result ≤ length self.now.text.now }
        ensures between { IsBetween self.now.text.now result }
        ensures passes { Passes self.now.text.now self.now.at result [] None }
    {
        blanks_end(self.text, self.at)
    }

    /// Goes on behind the byte at a place behind blanks, which is a piece.
    #[inline(always)]
    fn pass_byte(&mut self, at: usize, piece: Piece<'a>) -> Result<(), AllocError>
        requires reads { HasScanned self.old self.old.text.now }
        requires fits { at < length self.old.text.now }
        requires between { IsBetween self.old.text.now at }
        requires passes { Passes self.old.text.now self.old.at at [] None }
        requires is_piece { Some (text_piece_of piece)
            ≡ one_byte_piece at (slice_index self.old.text.now at) }
        ensures { OnOk result
            (HasScanned self.new self.old.text.now × (self.old.at < self.new.at)) }
    {
        self.pass(Token {
            piece: Some(piece),
            backslash: None,
            end: at + 1,
        })
    }

    /// Goes on behind a token, and adds its warnings.
    #[inline(always)]
    fn pass(&mut self, token: Token<'a>) -> Result<(), AllocError>
        requires reads { HasScanned self.old self.old.text.now }
        requires token { IsToken self.old.text.now self.old.at token }
        ensures { OnOk result
            (HasScanned self.new self.old.text.now × (self.old.at < self.new.at)) }
    {
        self.tell_backslash(token.backslash)?;
        self.take(token.piece)?;
        self.at = token.end;
        Ok(())
    }

    /// Adds a warning of a first backslash, if one stands in a string.
    fn tell_backslash(&mut self, backslash: Option<usize>) -> Result<(), AllocError>
        ensures text { self.new.text ≡ self.old.text }
        ensures at { self.new.at ≡ self.old.at }
        ensures groups { self.new.groups ≡ self.old.groups }
        ensures found { OnOk result (self.new.found.items
            ≡ self.old.found.items ++ of_some_backslash backslash) }
    {
        if let Some(place) = backslash {
            self.found.push(Warning {
                place,
                reason: Reason::Backslash,
            })?;
        }
        Ok(())
    }

    /// Adds the warnings of a piece, if one comes, and goes on behind it.
    #[inline(always)]
    fn take(&mut self, piece: Option<Piece<'a>>) -> Result<(), AllocError>
        ensures text { self.new.text ≡ self.old.text }
        ensures groups { OnOk result ((g : spec.Nesting) → ShowsNesting self.old.groups g
            → ShowsNesting self.new.groups
            (groups_behind (option_map text_piece_of piece.entry) g)) }
        ensures found { OnOk result ((g : spec.Nesting) → ShowsNesting self.old.groups g
            → self.new.found.items
            ≡ self.old.found.items ++ of_end (option_map text_piece_of piece.entry) g) }
    {
        let Some(piece) = piece else {
            return Ok(());
        };
        self.groups.tell(piece, &mut self.found)?;
        self.groups.take(piece)
    }
}
