//! What a person may not have meant in a text that is a bundle of ICU's form.
//! Where its tokens stand is found in `icu_walk`; the warnings of the other form are in `warning`.
ghost use Rattle.std.specs.Prelude.{◌≡◌, ◌<◌, ◌≤◌, length, slice_index, false, IfOk, OnOk};
ghost use Rattle.std.specs.Prelude.{IsPermutation};
ghost use Rattle.std.specs.List.Sorted.{IsSortedByKey};
ghost use Rattle.std.specs.Ordering.{nat_cmp};
ghost use Rattle.resb_grammar.specs.ByteRuns as bytes;
ghost use Rattle.resb_diagnostics.specs.IcuWarnings as spec;
ghost use Rattle.resb_diagnostics.specs.IcuMarks.{icu_found};
ghost use Rattle.resb_diagnostics.specs.declared.icu_tokens.IcuLast.TheVariants as last;
ghost use Rattle.resb_diagnostics.specs.Inner.IcuTokens.{HasLooked, Fits, IsIn, IsBeforeSome};
ghost use Rattle.resb_diagnostics.specs.Inner.IcuTokens.{IsBeforeToken};

use crate::icu_marks::mark;
use crate::icu_runs::Before;
use crate::icu_tokens::{IcuLast, IcuToken};
use crate::icu_walk::IcuWalk;
use crate::numbers::{cut_integer, says_octal};
use crate::warning::{Reason, Warning};
use std::alloc::{AllocError, Global};

/// The warnings of a text of ICU's form, in order of place. They are right for a text that is a
/// bundle of that form; for any other one they say little. Text behind the bundle has one, at its
/// first byte, and nothing more is told of it.
pub fn icu_warnings(alloc: Global, text: &str) -> Result<Vec<Warning>, AllocError>
    ensures exact { IfOk result (λ found. IsPermutation (icu_found text.now) found.items) }
    ensures order { IfOk result (λ found. IsSortedByKey (λ w. w.place) nat_cmp found.items) }
{
    let bytes = text.as_bytes();
    let mut found = Vec::new(alloc);
    let end = mark(bytes, &mut found)?;
    let front = &bytes[..end];
    let mut look = Look::new(alloc, front);
    'tokens: while look.walk.at < front.len() {
        look.advance()?;
    }
    found.extend_from_slice(look.found.as_slice())?;
    found.sort_unstable();
    Ok(found)
}

/// How far a text was looked at, and what was found.
#[derive(Drop)]
struct Look<'a> {
    walk: IcuWalk<'a>,
    last: IcuLast,
    found: Vec<Warning>,
}

impl<'a> Look<'a> {
    /// Nothing was looked at.
    fn new(alloc: Global, text: &'a [u8]) -> Look<'a>
        ensures { HasLooked result text.now }
    {
        Look {
            walk: IcuWalk::new(text),
            last: IcuLast::Start,
            found: Vec::new(alloc),
        }
    }

    /// Goes on behind blanks and what stands behind them, or to the text's end.
    #[inline(always)]
    fn advance(&mut self) -> Result<(), AllocError>
        requires more { self.old.walk.at < length self.old.walk.text.now }
        requires looked { HasLooked self.old self.old.walk.text.now }
        ensures { OnOk result
            (HasLooked self.new self.old.walk.text.now × (self.old.walk.at < self.new.walk.at)) }
    {
        self.walk.pass_blanks();
        if self.walk.at == self.walk.text.len() {
            return Ok(());
        }
        let before = self.walk.before;
        let token = self.walk.pass_token();
        self.take(token, before)
    }

    /// Adds the warning that a token brings out, if one comes, and goes on behind it. This stands
    /// before it.
    #[inline(always)]
    fn take(&mut self, token: Option<IcuToken>, before: Before) -> Result<(), AllocError>
        requires inside { IsIn self.old.walk.text.now token }
        requires before { IsBeforeSome self.old.walk.text.now token before }
        ensures walk { self.new.walk ≡ self.old.walk }
        ensures last { OnOk result (self.new.last
            ≡ spec.behind_some self.old.walk.text.now token self.old.last) }
        ensures found { OnOk result (self.new.found.items ≡ spec.and_one self.old.found.items
            (spec.of_some_token self.old.walk.text.now token self.old.last)) }
    {
        let Some(token) = token else {
            return Ok(());
        };
        let text = self.walk.text;
        if let Some(warning) = told(text, token, before, self.last) {
            self.found.push(warning)?;
        }
        self.last = self.last.behind(text, token, before);
        Ok(())
    }
}

/// The warning that a token brings out behind the last one. This stands before it.
#[inline(always)]
fn told(text: &[u8], token: IcuToken, before: Before, last: IcuLast) -> Option<Warning>
    requires fits { Fits text.now token }
    requires before { IsBeforeToken text.now token before }
    ensures { result ≡ spec.of_icu_token text.now token last }
{
    match last {
        IcuLast::Integer => of_integer(text, token),
        IcuLast::Digit(place) | IcuLast::Valued(place) if matches!(token, IcuToken::Close) => {
            let reason = Reason::UnquotedGroup;
            Some(Warning { place, reason })
        }
        IcuLast::First(joined) if matches!(token, IcuToken::Comma) => of_joined(joined),
        IcuLast::Member(joined) if !is_string(text, token, before) => of_joined(joined),
        _ => None,
    }
}

/// Whether a string in a row may go on with this token, before which this stands.
#[inline(always)]
fn is_string(text: &[u8], token: IcuToken, before: Before) -> bool
    requires { IsBeforeToken text.now token before }
    ensures { result ≡ spec.is_string text.now token }
{
    match token {
        IcuToken::Piece(_) => true,
        IcuToken::Word(_, _) => !before.has_colon,
        _ => false,
    }
}

/// The warning of an integer, if this token is one that is octal, or that 28 bits don't hold.
fn of_integer(text: &[u8], token: IcuToken) -> Option<Warning>
    requires { Fits text.now token }
    ensures { result ≡ spec.of_icu_token text.now token last.Integer }
{
    let IcuToken::Word(from, to) = token else {
        return None;
    };
    let number = &text[from..to];
    if says_octal(number) {
        return Some(Warning {
            place: from,
            reason: Reason::OctalNumber,
        });
    }
    match cut_integer(number) {
        Some(kept) => Some(Warning {
            place: from,
            reason: Reason::CutNumber(kept),
        }),
        None => None,
    }
}

/// The warning of a string, where a piece or a word of it is joined over a line's end.
fn of_joined(joined: Option<usize>) -> Option<Warning>
    ensures { result ≡ spec.of_joined joined }
{
    match joined {
        Some(place) => Some(Warning {
            place,
            reason: Reason::JoinedOverLine,
        }),
        None => None,
    }
}
