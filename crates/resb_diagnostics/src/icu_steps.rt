//! What stands from place to place in a text of ICU's form: a token, a comment, or a byte that is
//! nothing by itself.
//! Where it ends is found in `icu_runs`; blanks are passed in `icu_walk`.
ghost use Rattle.std.specs.Prelude.{◌≡◌, ◌+◌, ◌<◌, length, slice_index, true, false};
ghost use Rattle.resb_grammar.specs.Ascii as ascii;
ghost use Rattle.resb_grammar.specs.ByteRuns as bytes;
ghost use Rattle.resb_icu_grammar.specs.Unquoted as unquoted;
ghost use Rattle.resb_diagnostics.specs.IcuWarnings.{word_goes_on};
ghost use Rattle.resb_diagnostics.specs.Inner.IcuTokens.{IsIcuBetween, IsIcuStep, IsBefore};
ghost use Rattle.resb_diagnostics.specs.Inner.IcuTokens.{icu_sign};

use crate::icu_runs::{
    Before, icu_comment_end, icu_word_end, passed, passed_byte, quotes_end, word_goes_on,
};
use crate::icu_tokens::IcuToken;

/// What stands at a place between tokens.
#[derive(Clone, Copy)]
pub(crate) struct IcuStep {
    /// The token that it is, if it is one.
    pub token: Option<IcuToken>,
    /// What stands before its end.
    pub before: Before,
    /// Behind it.
    pub end: usize,
}

/// What stands at a place between tokens where no blank does, and before which this stands.
#[inline(always)]
pub(crate) fn next_step(text: &[u8], at: usize, before: Before) -> IcuStep
    requires fits { at < length text.now }
    requires between { IsIcuBetween text.now at }
    requires before { IsBefore text.now at before }
    requires dark { bytes.is_white (slice_index text.now at) ≡ false }
    ensures { IsIcuStep text.now at result }
{
    let byte = text[at];
    if byte == b'"' {
        return piece(text, at);
    }
    if let Some(token) = sign(at, byte) {
        return IcuStep {
            token: Some(token),
            before: passed_byte(byte, before),
            end: at + 1,
        };
    }
    if word_goes_on(text, at) {
        return word(text, at);
    }
    if byte == b'/' {
        return comment(text, at, before);
    }
    IcuStep {
        token: None,
        before: passed_byte(byte, before),
        end: at + 1,
    }
}

/// The piece in quotes that begins at a place.
#[inline(always)]
fn piece(text: &[u8], at: usize) -> IcuStep
    requires fits { at < length text.now }
    requires between { IsIcuBetween text.now at }
    requires quote { slice_index text.now at ≡ ascii.quote }
    ensures { IsIcuStep text.now at result }
{
    IcuStep {
        token: Some(IcuToken::Piece(at)),
        before: Before::nothing(),
        end: quotes_end(text, at + 1),
    }
}

/// The word that begins at a place.
#[inline(always)]
fn word(text: &[u8], at: usize) -> IcuStep
    requires fits { at < length text.now }
    requires between { IsIcuBetween text.now at }
    requires word { word_goes_on text.now at ≡ true }
    ensures { IsIcuStep text.now at result }
{
    let end = icu_word_end(text, at);
    IcuStep {
        token: Some(IcuToken::Word(at, end)),
        before: Before::nothing(),
        end,
    }
}

/// The comment that begins at a place.
fn comment(text: &[u8], at: usize, before: Before) -> IcuStep
    requires fits { at + 1 < length text.now }
    requires between { IsIcuBetween text.now at }
    requires before { IsBefore text.now at before }
    requires begins { unquoted.begins_comment text.now at ≡ true }
    ensures { IsIcuStep text.now at result }
{
    let end = icu_comment_end(text, at);
    IcuStep {
        token: None,
        before: passed(text, at, end, before),
        end,
    }
}

/// The token that is the byte at a place, if it is one.
#[inline(always)]
fn sign(at: usize, byte: u8) -> Option<IcuToken>
    ensures { result ≡ icu_sign at byte }
{
    match byte {
        b'{' => Some(IcuToken::Open(at)),
        b'}' => Some(IcuToken::Close),
        b',' => Some(IcuToken::Comma),
        _ => None,
    }
}
