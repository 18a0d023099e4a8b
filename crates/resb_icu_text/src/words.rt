//! Words, and the numbers that some of them are.
//! Which bytes a word and a key may hold is said in `resb_icu_grammar`; types are read in `types`,
//! quoted strings in `strings`. Places count bytes of the text from its start.
ghost use Rattle.std.specs.Prelude.{ℕ, ◌≡◌, ◌⊎◌, ◌+◌, ◌*◌, ◌<◌, ◌≤◌, true, false};
ghost use Rattle.std.specs.Prelude.{List, length, slice_index, IfSome, IfNone};
ghost use Rattle.std.specs.Char.{digit_value, is_digit};
ghost use Rattle.resb_grammar.specs.Ascii as ascii;
ghost use Rattle.resb_grammar.specs.ByteRuns.{Run};
ghost use Rattle.resb_icu_grammar.specs.Bytes as spec;
ghost use Rattle.resb_icu_grammar.specs.Numbers.{AllDigits, Magnitude, Signed, is_hex_letter};
ghost use Rattle.resb_icu_grammar.specs.Words.{Word, Number};
ghost use Rattle.resb_icu_text.specs.Inner.Reach.{reach};

use crate::blanks::byte;
use crate::escapes::hex_digit;
use crate::turns::IcuTurns;
use resb_grammar::negated;
use resb_icu_grammar::is_word;

/// Where the run of word characters ends.
pub(crate) fn word_end(text: &str, from: usize) -> usize
    requires within { from ≤ length text.now }
    ensures run { Run spec.is_word text.now from result }
{
    let end = text.len();
    for at in from..end {
        if !is_word(byte(text, at)) {
            return at;
        }
    }
    end
}

/// The word that begins here, and where it ends. Counts a turn for each of its bytes and one for
/// the byte behind it.
#[tactic(auto, using(crate::proofs::WordsLemmas::behind_word))]
pub(crate) fn word<'a>(text: &'a str, from: usize, turns: &mut IcuTurns) -> Option<(usize, &'a str)>
    requires within { from ≤ length text.now }
    ensures found { IfSome result (λ r. Word text.now from r.0 r.1.now) }
    ensures none { IfNone result ((to : ℕ) (s : List ℕ) → Word text.now from to s → ⊥) }
    ensures cost { IfSome result
        (λ r. turns.new.count + from ≤ turns.old.count + r.0 + 1) }
    ensures one { IfNone result (turns.new.count ≤ turns.old.count + 1) }
{
    let to = word_end(text, from);
    turns.add(to - from);
    turns.add(1);
    if from < to {
        Some((to, &text[from..to]))
    } else {
        None
    }
}

/// The value of a digit of this radix.
fn digit_of(b: u8, radix: u64) -> Option<u64>
    requires { radix ≤ 16 }
    ensures found { IfSome result (λ v. (is_digit b radix ≡ true) × (v ≡ digit_value b)
        × (v < radix)) }
    ensures none { IfNone result (is_digit b radix ≡ false) }
{
    let value = hex_digit(b)? as u64;
    if value < radix { Some(value) } else { None }
}

/// The number that the digits of a radix between two places say, up to a limit.
fn all_digits(text: &str, from: usize, to: usize, radix: u64, limit: u64) -> Option<u64>
    requires within { to ≤ length text.now }
    requires radix { (1 ≤ radix) × (radix ≤ 16) }
    requires limit { limit < 4294967296 }
    ensures found { IfSome result (λ v. AllDigits radix text.now from to v) }
    ensures limited { IfSome result (λ v. v ≤ limit) }
    ensures none { IfNone result ((v : ℕ) → AllDigits radix text.now from to v → v ≤ limit → ⊥) }
{
    if from >= to {
        return None;
    }
    let mut value = 0u64;
    for at in from..to {
        let digit = digit_of(byte(text, at), radix)?;
        let more = value * radix + digit;
        if more > limit {
            return None;
        }
        value = more;
    }
    Some(value)
}

/// Whether hex digits follow a 0 and this letter.
fn is_hex_letter(b: u8) -> bool
    ensures { result ≡ is_hex_letter b }
{
    b == b'x' || b == b'X'
}

/// Whether the letter of a hexadecimal number follows the 0 that stands at the first of two places.
fn begins_hex(text: &str, from: usize, to: usize) -> bool
    requires within { from < length text.now }
    ensures hex { result ≡ true → (from + 1 < to)
        × (is_hex_letter (slice_index text.now (from + 1)) ≡ true) }
    ensures other { result ≡ false → from + 1 < to
        → is_hex_letter (slice_index text.now (from + 1)) ≡ true → ⊥ }
{
    if from + 1 < to {
        is_hex_letter(byte(text, from + 1))
    } else {
        false
    }
}

/// The number without a sign between two places, up to a limit.
fn magnitude(text: &str, from: usize, to: usize, limit: u64) -> Option<u64>
    requires within { (from ≤ to) × (to ≤ length text.now) }
    requires limit { limit < 4294967296 }
    ensures found { IfSome result (λ v. Magnitude text.now from to v) }
    ensures limited { IfSome result (λ v. v ≤ limit) }
    ensures none { IfNone result ((v : ℕ) → Magnitude text.now from to v → v ≤ limit → ⊥) }
{
    if byte(text, from) != b'0' {
        let value = all_digits(text, from, to, 10, limit)?;
        return Some(value);
    }
    if begins_hex(text, from, to) {
        let value = all_digits(text, from + 2, to, 16, limit)?;
        return Some(value);
    }
    let value = all_digits(text, from, to, 8, limit)?;
    Some(value)
}

/// The number with its sign between two places.
fn signed(text: &str, from: usize, to: usize) -> Option<u32>
    requires within { (from < to) × (to ≤ length text.now) }
    ensures found { IfSome result (λ v. Signed text.now from to v) }
    ensures none { IfNone result ((v : ℕ) → Signed text.now from to v → ⊥) }
{
    let b = byte(text, from);
    if b == b'+' {
        let value = magnitude(text, from + 1, to, 2147483647)?;
        return Some(value as u32);
    }
    if b == b'-' {
        let value = magnitude(text, from + 1, to, 2147483648)?;
        return Some(negated(value));
    }
    let value = magnitude(text, from, to, 4294967295)?;
    Some(value as u32)
}

/// The number that begins here, and where it ends: a word, or one in quotes. Counts two turns for
/// each byte of the word, and two for the byte behind it.
#[tactic(auto, using(crate::proofs::WordsLemmas::numbers_of_words))]
pub fn number(text: &str, from: usize, turns: &mut IcuTurns) -> Option<(usize, u32)>
    requires within { from ≤ length text.now }
    ensures found { IfSome result (λ r. Number text.now from r.0 r.1) }
    ensures none { IfNone result ((to value : ℕ) → Number text.now from to value → ⊥) }
    ensures within { IfSome result (λ r. (from < r.0) × (r.0 ≤ length text.now)) }
    ensures cost { IfSome result
        (λ r. turns.new.count + 2 * from ≤ turns.old.count + 2 * r.0 + 2) }
    ensures most { turns.new.count + 8 * reach text.now from
        ≤ turns.old.count + 8 * length text.now + 2 }
{
    if byte(text, from) == b'"' {
        return quoted_number(text, from, turns);
    }
    let end = word_end(text, from);
    turns.add(end - from);
    turns.add(end - from);
    turns.add(2);
    if from == end {
        return None;
    }
    let value = signed(text, from, end)?;
    Some((end, value))
}

/// The number in quotes whose first quote stands here, and where it ends.
#[tactic(auto, using(crate::proofs::WordsLemmas::numbers_of_words))]
fn quoted_number(text: &str, from: usize, turns: &mut IcuTurns) -> Option<(usize, u32)>
    requires within { from < length text.now }
    requires opens { slice_index text.now from ≡ ascii.quote }
    ensures found { IfSome result (λ r. Number text.now from r.0 r.1) }
    ensures none { IfNone result ((to value : ℕ) → Number text.now from to value → ⊥) }
    ensures within { IfSome result (λ r. (from < r.0) × (r.0 ≤ length text.now)) }
    ensures cost { IfSome result
        (λ r. turns.new.count + 2 * from ≤ turns.old.count + 2 * r.0 + 2) }
    ensures most { turns.new.count + 8 * reach text.now from
        ≤ turns.old.count + 8 * length text.now + 2 }
{
    let last = word_end(text, from + 1);
    turns.add(last - from);
    turns.add(last - from);
    if byte(text, last) != b'"' {
        return None;
    }
    if last == from + 1 {
        return Some((last + 1, 0));
    }
    let value = signed(text, from + 1, last)?;
    Some((last + 1, value))
}
