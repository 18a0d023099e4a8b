//! A way through a text of ICU's form, from token to token.
//! What stands at a place is found in `icu_steps`; what tokens say is told in `icu_warning` and
//! `icu_keys`.
ghost use Rattle.std.specs.Prelude.{◌≡◌, ◌<◌, length, slice_index, false, None};
ghost use Rattle.resb_grammar.specs.ByteRuns as bytes;
ghost use Rattle.resb_diagnostics.specs.Inner.IcuTokens.{IcuPasses, IsIcuWalk, IsIn, BeginsAt};

use crate::icu_runs::{Before, passed};
use crate::icu_steps::next_step;
use crate::icu_tokens::IcuToken;
use resb_grammar::blanks_end;

/// How far a text was looked at.
#[derive(Drop)]
pub(crate) struct IcuWalk<'a> {
    pub text: &'a [u8],
    /// A place between two tokens, or the text's end.
    pub at: usize,
    /// What stands before it.
    pub before: Before,
}

impl<'a> IcuWalk<'a> {
    /// Nothing was looked at.
    pub(crate) fn new(text: &'a [u8]) -> IcuWalk<'a>
        ensures walk { IsIcuWalk result text.now }
        ensures start { result.at ≡ 0 }
    {
        IcuWalk {
            text,
            at: 0,
            before: Before::nothing(),
        }
    }

    /// Goes on behind blanks.
    #[inline(always)]
    pub(crate) fn pass_blanks(&mut self)
        requires more { self.old.at < length self.old.text.now }
        requires walk { IsIcuWalk self.old self.old.text.now }
        ensures text { self.new.text ≡ self.old.text }
        ensures walk { IsIcuWalk self.new self.old.text.now }
        ensures passes { IcuPasses self.old.text.now self.old.at self.new.at None }
        ensures dark { bytes.is_white (slice_index self.old.text.now self.new.at) ≡ false }
    {
        let end = blanks_end(self.text, self.at);
        self.before = passed(self.text, self.at, end, self.before);
        self.at = end;
    }

    /// Goes on behind what stands there, where no blank does: a token, or what is none.
    #[inline(always)]
    pub(crate) fn pass_token(&mut self) -> Option<IcuToken>
        requires more { self.old.at < length self.old.text.now }
        requires walk { IsIcuWalk self.old self.old.text.now }
        requires dark { bytes.is_white (slice_index self.old.text.now self.old.at) ≡ false }
        ensures text { self.new.text ≡ self.old.text }
        ensures walk { IsIcuWalk self.new self.old.text.now }
        ensures more { self.old.at < self.new.at }
        ensures passes { IcuPasses self.old.text.now self.old.at self.new.at result }
        ensures inside { IsIn self.old.text.now result }
        ensures begins { BeginsAt self.old.at result }
    {
        let step = next_step(self.text, self.at, self.before);
        self.before = step.before;
        self.at = step.end;
        step.token
    }
}
