//! Unquoted strings: where one goes on, and where it ends. Those in a row are read in `rows`.
//! Words of types and numbers, which have fewer characters, are read in `words`.
ghost use Rattle.std.specs.Prelude.{◌≡◌, ◌≤◌, ◌<◌, ℕ, List, length, false};
ghost use Rattle.std.specs.Prelude.{IfSome, IfNone};
ghost use Rattle.resb_icu_grammar.specs.Bytes as bytes;
ghost use Rattle.resb_icu_grammar.specs.Blanks as grammar;
ghost use Rattle.resb_icu_grammar.specs.Unquoted as spec;
ghost use Rattle.resb_icu_grammar.specs.Unquoted.{Unquoted};
ghost use Rattle.resb_icu_text.specs.Inner.Unquoted.{GoesOnTo};

use crate::blanks::{begins_comment, byte};

/// Whether a byte may stand in an unquoted string.
fn is_unquoted(b: u8) -> bool
    ensures { result ≡ bytes.is_unquoted b }
{
    match b {
        0 | b'\t' | b'\n' | b'\r' | b' ' | b'"' | b',' | b':' | b'\\' | b'{' | b'}' => false,
        _ => true,
    }
}

/// Whether these three bytes stand there.
fn are_there(text: &str, at: usize, first: u8, second: u8, third: u8) -> bool
    requires inside { at < length text.now }
    ensures { result ≡ grammar.are_there first second third text.now at }
{
    byte(text, at) == first && (byte(text, at + 1) == second && byte(text, at + 2) == third)
}

/// Whether U+2029, U+FEFF or U+FFFE stands there.
fn is_no_letter(text: &str, at: usize) -> bool
    requires inside { at < length text.now }
    ensures { result ≡ spec.is_no_letter text.now at }
{
    are_there(text, at, 0xe2, 0x80, 0xa9)
        || (are_there(text, at, 0xef, 0xbb, 0xbf) || are_there(text, at, 0xef, 0xbf, 0xbe))
}

/// Whether an unquoted string goes on at a place.
fn goes_on(text: &str, at: usize) -> bool
    requires inside { at < length text.now }
    ensures { result ≡ spec.goes_on text.now at }
{
    let b = byte(text, at);
    if b.is_ascii_alphanumeric() {
        return true;
    }
    is_unquoted(b) && !(begins_comment(text, at) || is_no_letter(text, at))
}

/// Whether one may begin with a byte.
fn may_begin(b: u8) -> bool
    ensures { result ≡ spec.may_begin b }
{
    b < 128 || 192 <= b
}

/// How far an unquoted string goes on that has begun before this place.
fn unquoted_end(text: &str, from: usize) -> usize
    requires within { from ≤ length text.now }
    ensures run { GoesOnTo text.now from result }
{
    let end = text.len();
    for at in from..end {
        if !goes_on(text, at) {
            return at;
        }
    }
    end
}

/// Whether an unquoted string begins at a place.
pub(crate) fn begins_unquoted(text: &str, at: usize) -> bool
    requires within { at ≤ length text.now }
    ensures { result ≡ spec.begins_unquoted text.now at }
{
    at < text.len() && (may_begin(byte(text, at)) && goes_on(text, at))
}

/// The unquoted string that begins here, and where it ends.
#[tactic(auto, using(crate::proofs::UnquotedLemmas::unquoted_strings))]
pub(crate) fn unquoted(text: &str, from: usize) -> Option<(usize, &str)>
    requires within { from ≤ length text.now }
    ensures found { IfSome result (λ r. Unquoted text.now from r.0 r.1.now) }
    ensures none { IfNone result ((to : ℕ) (s : List ℕ) → Unquoted text.now from to s → ⊥) }
    ensures stops { IfNone result (spec.begins_unquoted text.now from ≡ false) }
{
    if !may_begin(byte(text, from)) {
        return None;
    }
    let to = unquoted_end(text, from);
    if from < to {
        Some((to, &text[from..to]))
    } else {
        None
    }
}
