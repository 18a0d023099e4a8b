//! Where the name of the type of a group or of the root stands in the text.
//! What a type asks of a group's content is not said here.
ghost use Rattle.std.specs.Prelude.{◌≡◌, ℕ, ◌+◌, ◌*◌, ◌≤◌, ◌<◌, ◌↔◌, Bool, IsTrue};
ghost use Rattle.std.specs.Prelude.{length, slice_index, IfSome, IfNone, IfOk, IfErr};
ghost use Rattle.resb_grammar.specs.Ascii as ascii;
ghost use Rattle.resb_grammar.specs.GroupTypes.{Stands};
ghost use Rattle.resb_icu_grammar.specs.Words.{GroupType, RootType};
ghost use Rattle.resb_icu_grammar.specs.Stuck.{TypeStuck};

use crate::blanks::skip;
use crate::error::IcuTextError;
use crate::turns::IcuTurns;
use crate::words::word;
use resb_icu_grammar::{IcuExpected, IcuKind, icu_kind_named, instead_of};

/// The type whose `:` stands here and the place behind it, if a type stands here; or what was
/// expected in its place. Counts at most two turns for each byte up to there.
#[tactic(auto, using(crate::proofs::TypesLemmas::types_of_words))]
pub fn group_type(
    text: &str,
    at: usize,
    turns: &mut IcuTurns,
) -> Result<(usize, IcuKind), IcuTextError>
    requires within { at < length text.now }
    requires colon { slice_index text.now at ≡ ascii.colon }
    ensures found { IfOk result (λ r. GroupType text.now at r.0 r.1) }
    ensures err { IfErr result (λ e. (e.position ≡ at) × TypeStuck text.now at e.expected) }
    ensures within { IfOk result (λ r. (at < r.0) × (r.0 ≤ length text.now)) }
    ensures cost { IfOk result (λ r. turns.new.count + 2 * at ≤ turns.old.count + 2 * r.0) }
    ensures most { IfErr result
        (λ e. turns.new.count + 2 * at ≤ turns.old.count + 2 * length text.now) }
{
    let place = skip(text, at + 1, turns);
    let Some((to, name)) = word(text, place, turns) else {
        return Err(IcuTextError::new(at, IcuExpected::GroupType));
    };
    match icu_kind_named(name) {
        Some(kind) => Ok((to, kind)),
        None => Err(IcuTextError::new(at, instead_of(name))),
    }
}

/// Whether these bytes stand there.
fn stands(text: &str, at: usize, bytes: &[u8]) -> bool
    requires within { at ≤ length text.now }
    ensures stands { IsTrue result ↔ Stands text.now at bytes.now }
    ensures inside { IsTrue result → at + length bytes.now ≤ length text.now }
{
    let all = text.as_bytes();
    let mut here = at;
    for b in bytes {
        if here >= all.len() || all[here] != *b {
            return false;
        }
        here += 1;
    }
    true
}

/// The root's type whose `:` stands here: the place behind it, and whether fallback stays on.
/// Counts at most two turns for each byte up to there, and twelve for what may stand behind
/// `table`.
#[tactic(auto, using(crate::proofs::TypesLemmas::types_of_roots))]
pub fn root_type(text: &str, at: usize, turns: &mut IcuTurns) -> Option<(usize, bool)>
    requires within { at < length text.now }
    requires colon { slice_index text.now at ≡ ascii.colon }
    ensures found { IfSome result (λ r. RootType text.now at r.0 r.1) }
    ensures none { IfNone result ((to : ℕ) (f : Bool) → RootType text.now at to f → ⊥) }
    ensures within { IfSome result (λ r. (at < r.0) × (r.0 ≤ length text.now)) }
    ensures cost { IfSome result (λ r. turns.new.count + 2 * at ≤ turns.old.count + 2 * r.0 + 12) }
    ensures most { IfNone result
        (turns.new.count + 2 * at ≤ turns.old.count + 2 * length text.now + 12) }
{
    let (to, kind) = match group_type(text, at, turns) {
        Ok((to, kind)) => (to, kind),
        Err(_) => return None,
    };
    match kind {
        IcuKind::Table => {
            turns.add(12);
            if stands(text, to, b"(nofallback)") {
                Some((to + 12, false))
            } else {
                Some((to, true))
            }
        }
        _ => None,
    }
}
