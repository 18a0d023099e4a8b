//! The braces that must stand at a place, each with the discardable text after it.
//! A brace that is one of several tokens which may stand there is read in `steps`.
ghost use Rattle.std.specs.Prelude.{◌+◌, ◌≤◌, length, MatchResult};
ghost use Rattle.resb_text.specs.Inner.Braces.{Opens, IsUnopened, Closes, IsUnclosed};
ghost use Rattle.resb_text.specs.Inner.Ticked.{Proceeds};

use crate::error::TextParserError;
use crate::scan::byte;
use crate::ticks::Ticks;
use crate::tokens::skip;
use resb_grammar::Expected;

/// The place after the `{` that must stand here and what may be skipped.
#[tactic(auto, using(resb_grammar::proofs::ReachLemmas::reach_left))]
pub(crate) fn left_brace(text: &str, ticks: &mut Ticks, at: usize) -> Result<usize, TextParserError>
    requires within { at ≤ length text.now }
    ensures reads { MatchResult result (Opens text.now at) (IsUnopened text.now at) }
    ensures cost { MatchResult result
        (λ to. Proceeds text.now 6 at ticks.old to ticks.new)
        (λ e. ticks.new.count ≤ ticks.old.count + 1) }
{
    if byte(text, ticks, at) == b'{' {
        Ok(skip(text, ticks, at + 1))
    } else {
        Err(TextParserError::new(at, Expected::LeftBrace))
    }
}

/// The place after the `}` that must stand here and what may be skipped.
#[tactic(auto, using(resb_grammar::proofs::ReachLemmas::reach_right))]
pub(crate) fn right_brace(
    text: &str,
    ticks: &mut Ticks,
    at: usize,
) -> Result<usize, TextParserError>
    requires within { at ≤ length text.now }
    ensures reads { MatchResult result (Closes text.now at) (IsUnclosed text.now at) }
    ensures cost { MatchResult result
        (λ to. Proceeds text.now 6 at ticks.old to ticks.new)
        (λ e. ticks.new.count ≤ ticks.old.count + 1) }
{
    if byte(text, ticks, at) == b'}' {
        Ok(skip(text, ticks, at + 1))
    } else {
        Err(TextParserError::new(at, Expected::RightBrace))
    }
}
