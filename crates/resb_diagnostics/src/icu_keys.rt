//! The keys that stand twice in a table of a text of ICU's form.
//! Where its tokens stand is found in `icu_walk`; the groups and their keys are kept in `groups`.
ghost use Rattle.std.specs.Prelude.{◌≡◌, ◌+◌, ◌<◌, false, length, IfOk, OnOk};
ghost use Rattle.std.specs.Prelude.{option_map};
ghost use Rattle.resb_diagnostics.specs.Groups.{Nesting, groups_behind};
ghost use Rattle.resb_diagnostics.specs.IcuKeys as spec;
ghost use Rattle.resb_diagnostics.specs.IcuKeys.{icu_piece, icu_repeated, IsFirstWord};
ghost use Rattle.resb_diagnostics.specs.Inner.IcuTokens.{HasListed, Fits, IsIn};
ghost use Rattle.resb_diagnostics.specs.Inner.IcuTokens.{IsBeforeSome, IsBeforeToken};
ghost use Rattle.resb_diagnostics.specs.Inner.Looks.{text_piece_of, ShowsNesting};

use crate::groups::Groups;
use crate::icu_runs::{Before, icu_word_end};
use crate::icu_tokens::IcuToken;
use crate::icu_walk::IcuWalk;
use crate::text_pieces::{Piece, StringAt};
use crate::warning::Warning;
use std::alloc::{AllocError, Global};

/// The warnings of the keys that stand before in the innermost group that is open where a text of
/// ICU's form ends, in order of place, if it may be a table. They are right for a text that is the
/// front of a bundle of that form up to an entry's end; keys that are spelled in two ways are two.
pub fn repeated_icu_keys(alloc: Global, text: &[u8]) -> Result<Vec<Warning>, AllocError>
    ensures { IfOk result (λ found. found.items ≡ icu_repeated text.now (length text.now)) }
{
    let mut keys = Keys::new(alloc, text);
    'tokens: while keys.walk.at < text.len() {
        keys.advance()?;
    }
    let mut found = Vec::new(alloc);
    keys.groups.tell_keys(&mut found)?;
    Ok(found)
}

/// The word with which bytes of a text of ICU's form begin, as a key that isn't in quotes: nothing
/// if they begin with none.
pub fn first_icu_word(bytes: &[u8]) -> &[u8]
    ensures { IsFirstWord bytes.now result.now }
{
    &bytes[..icu_word_end(bytes, 0)]
}

/// How far a text was looked at, and the groups that are open there.
#[derive(Drop)]
struct Keys<'a> {
    walk: IcuWalk<'a>,
    groups: Groups<'a>,
}

impl<'a> Keys<'a> {
    /// Nothing was looked at.
    fn new(alloc: Global, text: &'a [u8]) -> Keys<'a>
        ensures { HasListed result text.now }
    {
        Keys {
            walk: IcuWalk::new(text),
            groups: Groups::new(alloc),
        }
    }

    /// Goes on behind blanks and what stands behind them, or to the text's end.
    fn advance(&mut self) -> Result<(), AllocError>
        requires more { self.old.walk.at < length self.old.walk.text.now }
        requires listed { HasListed self.old self.old.walk.text.now }
        ensures { OnOk result
            (HasListed self.new self.old.walk.text.now × (self.old.walk.at < self.new.walk.at)) }
    {
        self.walk.pass_blanks();
        if self.walk.at == self.walk.text.len() {
            return Ok(());
        }
        let before = self.walk.before;
        let token = self.walk.pass_token();
        self.take(token, before)
    }

    /// Goes on behind a token, if one comes, before which this stands.
    fn take(&mut self, token: Option<IcuToken>, before: Before) -> Result<(), AllocError>
        requires inside { IsIn self.old.walk.text.now token }
        requires before { IsBeforeSome self.old.walk.text.now token before }
        ensures walk { self.new.walk ≡ self.old.walk }
        ensures groups { OnOk result ((g : Nesting) → ShowsNesting self.old.groups g
            → ShowsNesting self.new.groups
            (groups_behind (option_map (icu_piece self.old.walk.text.now) token) g)) }
    {
        match token {
            Some(token) => self.groups.take(piece_of(self.walk.text, token, before)),
            None => Ok(()),
        }
    }
}

/// What a token is to the groups, before which this stands.
fn piece_of(text: &[u8], token: IcuToken, before: Before) -> Piece<'_>
    requires fits { Fits text.now token }
    requires before { IsBeforeToken text.now token before }
    ensures { text_piece_of result ≡ icu_piece text.now token }
{
    match token {
        IcuToken::Piece(place) => Piece::String(StringAt {
            content: content_in_quotes(&text[place + 1..]),
            place,
        }),
        IcuToken::Word(from, to) if before.has_colon => Piece::Type(&text[from..to]),
        IcuToken::Word(from, to) => Piece::String(StringAt {
            content: &text[from..to],
            place: from,
        }),
        IcuToken::Open(_) => Piece::Open,
        IcuToken::Close => Piece::Close(0),
        IcuToken::Comma => Piece::Comma(0),
    }
}

/// The bytes up to the first quote that no backslash hides.
fn content_in_quotes(bytes: &[u8]) -> &[u8]
    ensures { result.now ≡ spec.bytes_in_quotes false bytes.now }
{
    let mut is_hidden = false;
    for at in 0..bytes.len() {
        let byte = bytes[at];
        if byte == b'"' && !is_hidden {
            return &bytes[..at];
        }
        is_hidden = byte == b'\\' && !is_hidden;
    }
    bytes
}
