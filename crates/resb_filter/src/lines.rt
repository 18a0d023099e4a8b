//! The lines of a rule file: what one says, and its pieces.
//! The rules of a whole text are read in `rules`.
ghost use Rattle.std.specs.Prelude.{◌≡◌, Bool, Some, None, Ok, Err, IfOk, MatchOption};
ghost use Rattle.std.specs.Prelude.{MatchResult, ◌==◌, length};
ghost use Rattle.std.specs.List.{list_any};
ghost use Rattle.resb_draft.specs.Drafts.{texts};
ghost use Rattle.resb_filter.specs.Lines.{lines_of, line_says, path_says, pieces_say, pieces_in};

use crate::error::RuleFault;
use std::alloc::{AllocError, Global};

/// The lines of a text, without the line feeds at their ends.
pub(crate) fn lines_in(alloc: Global, text: &str) -> Result<Vec<&str>, AllocError>
    ensures { IfOk result (λ v. texts v.items ≡ lines_of text.now) }
{
    text.split('\n').collect(alloc)
}

/// Whether the rule of a line keeps what its path leads to, and the path behind its first `/`.
/// None for a line that says nothing.
pub(crate) fn signed_path(line: &str) -> Result<Option<(bool, &str)>, RuleFault>
    ensures { MatchResult result
        (λ o. MatchOption o (line_says line.now ≡ Ok None)
        (λ p. line_says line.now ≡ pieces_say p.0 (pieces_in p.1.now)))
        (λ f. line_says line.now ≡ Err f) }
{
    if line.is_empty() {
        return Ok(None);
    }
    if line.strip_prefix('#').is_some() {
        return Ok(None);
    }
    if let Some(path) = line.strip_prefix('+') {
        return Ok(Some((true, behind_slash(path)?)));
    }
    if let Some(path) = line.strip_prefix('-') {
        return Ok(Some((false, behind_slash(path)?)));
    }
    Err(RuleFault::NoSign)
}

/// What stands behind the `/` with which a path begins.
fn behind_slash(path: &str) -> Result<&str, RuleFault>
    ensures { MatchResult result
        (λ rest. (keeps : Bool) → path_says keeps path.now
        ≡ pieces_say keeps (pieces_in rest.now))
        (λ f. (keeps : Bool) → path_says keeps path.now ≡ Err f) }
{
    let Some(rest) = path.strip_prefix('/') else {
        return Err(RuleFault::NoSlash);
    };
    Ok(rest)
}

/// The pieces of a path, from what stands behind its first `/`.
pub(crate) fn pieces_behind(alloc: Global, path: &str) -> Result<Vec<&str>, AllocError>
    ensures { IfOk result (λ v. texts v.items ≡ pieces_in path.now) }
{
    if path.is_empty() {
        return Ok(Vec::new(alloc));
    }
    path.split('/').collect(alloc)
}

/// What is wrong with the pieces of a path.
pub(crate) fn pieces_fault(pieces: &[&str]) -> Option<RuleFault>
    ensures { MatchOption result
        ((keeps : Bool) → pieces_say keeps (texts pieces.now) ≡ Ok (Some (keeps, texts pieces.now)))
        (λ f. (keeps : Bool) → pieces_say keeps (texts pieces.now) ≡ Err f) }
{
    if one_is_empty(pieces) {
        Some(RuleFault::EmptyPiece)
    } else {
        None
    }
}

/// Whether one of the pieces is empty.
fn one_is_empty(pieces: &[&str]) -> bool
    ensures { result ≡ list_any (λ piece. length piece.now == 0) pieces.now }
{
    pieces.iter().any(|piece| piece.is_empty())
}
