//! The calls that look at the text's bytes, each of which counts its turns; `uncounted_byte` leaves
//! that to its callers here.
//! What stands in the text is read in `tokens`, and where a run ends is found in `runs`.
ghost use Rattle.std.specs.Prelude.{◌≡◌, ℕ, ◌+◌, ◌-◌, ◌<◌, ◌≤◌, length, slice_get};
ghost use Rattle.std.specs.Prelude.{true, false, slice_index, slice_range, MatchOption, min};
ghost use Rattle.std.specs.Char.{is_ascii_digit};
ghost use Rattle.resb_grammar.specs.ByteRuns.{Run, is_line_end, is_white, is_word};
ghost use Rattle.resb_grammar.specs.Lexical.{digits_value};
ghost use Rattle.resb_text.specs.Inner.Runs.{FirstByte, NoByte};
ghost use Rattle.resb_text.specs.Inner.Ticked.{Ticked};
ghost use Rattle.resb_text.specs.Inner.TextPieces.{IsTextPiece};

use crate::runs;
use crate::ticks::Ticks;
use memchr::{memchr, memchr2};
use resb_grammar::{blanks_end, bytes_before};

/// Counts one turn, and gives the byte there, if the text reaches so far.
pub(crate) fn look(text: &str, ticks: &mut Ticks, at: usize) -> Option<u8>
    ensures byte { result ≡ slice_get text.now at }
    ensures counted { Ticked ticks.old ticks.new 1 }
{
    ticks.tick();
    if at < text.len() {
        Some(text.as_bytes()[at])
    } else {
        None
    }
}

/// Counts one turn, and gives the byte there, or 0 past the end.
pub(crate) fn byte(text: &str, ticks: &mut Ticks, at: usize) -> u8
    ensures byte { result ≡ slice_index text.now at }
    ensures counted { Ticked ticks.old ticks.new 1 }
{
    ticks.tick();
    uncounted_byte(text, at)
}

/// The byte there, or 0 past the end. Whoever calls it counts its turn.
fn uncounted_byte(text: &str, at: usize) -> u8
    ensures byte { result ≡ slice_index text.now at }
{
    if at < text.len() {
        text.as_bytes()[at]
    } else {
        0
    }
}

/// Counts a turn for each byte from here up to the first that is this one, which is included,
/// or up to the text's end where there is none. Gives its place, which mostly is near.
#[inline(always)]
pub(crate) fn find(text: &str, ticks: &mut Ticks, from: usize, b: u8) -> Option<usize>
    requires within { from ≤ length text.now }
    ensures { MatchOption result
        (NoByte b text.now from × Ticked ticks.old ticks.new (length text.now - from))
        (λ to. FirstByte b text.now from to × Ticked ticks.old ticks.new (to + 1 - from)) }
{
    if text.len() - from >= 16 {
        let before = bytes_before(text.as_bytes(), from, b);
        if before < 16 {
            ticks.add(before + 1);
            return Some(from + before);
        }
    }
    find_far(text, ticks, from, b)
}

/// The first such byte, which need not be near.
#[inline(never)]
fn find_far(text: &str, ticks: &mut Ticks, from: usize, b: u8) -> Option<usize>
    requires within { from ≤ length text.now }
    ensures { MatchOption result
        (NoByte b text.now from × Ticked ticks.old ticks.new (length text.now - from))
        (λ to. FirstByte b text.now from to × Ticked ticks.old ticks.new (to + 1 - from)) }
{
    let rest = &text.as_bytes()[from..];
    match memchr(b, rest) {
        Some(n) => {
            ticks.add(n + 1);
            Some(from + n)
        }
        None => {
            ticks.add(rest.len());
            None
        }
    }
}

/// Counts a turn for each byte from here up to the first line feed or carriage return, which is
/// left out, or up to the text's end where there is none. Gives that place.
pub(crate) fn find_line_end(text: &str, ticks: &mut Ticks, from: usize) -> usize
    requires within { from ≤ length text.now }
    ensures within { (from ≤ result) × (result ≤ length text.now) }
    ensures line { (k : ℕ) → from ≤ k → k < result
        → is_line_end (slice_index text.now k) ≡ false }
    ensures ends { let b = slice_index text.now result in
        result < length text.now → is_line_end b ≡ true }
    ensures counted { Ticked ticks.old ticks.new (result - from) }
{
    let rest = &text.as_bytes()[from..];
    match memchr2(b'\n', b'\r', rest) {
        Some(n) => {
            ticks.add(n);
            from + n
        }
        None => {
            ticks.add(rest.len());
            from + rest.len()
        }
    }
}

/// Counts a turn for each blank byte from here on, and one for what stands behind them. Gives
/// that place, and the byte there, or 0 at the text's end.
pub(crate) fn skip_blanks(text: &str, ticks: &mut Ticks, from: usize) -> (usize, u8)
    requires within { from ≤ length text.now }
    ensures run { Run is_white text.now from result.0 }
    ensures byte { result.1 ≡ slice_index text.now result.0 }
    ensures counted { Ticked ticks.old ticks.new (result.0 + 1 - from) }
{
    let to = blanks_end(text.as_bytes(), from);
    ticks.add(to + 1 - from);
    (to, uncounted_byte(text, to))
}

/// Counts a turn for each word character from here on, and one for the byte behind them, if
/// there is one. Gives their end.
pub(crate) fn word_end(text: &str, ticks: &mut Ticks, from: usize) -> usize
    requires within { from ≤ length text.now }
    ensures run { Run is_word text.now from result }
    ensures counted { let to = min (result + 1) (length text.now) in
        Ticked ticks.old ticks.new (to - from) }
{
    let to = runs::word_end(text.as_bytes(), from);
    count_run(text, ticks, from, to);
    to
}

/// Counts a turn for each digit from here on, and one for the byte behind them, if there is
/// one. Gives their end and their value, or 2 ^ 32 where it is larger.
pub(crate) fn digits_end(text: &str, ticks: &mut Ticks, from: usize) -> (usize, u64)
    requires within { from ≤ length text.now }
    ensures run { Run is_ascii_digit text.now from result.0 }
    ensures value { result.1
        ≡ min (digits_value 10 text.now from (result.0 - from)) 4294967296 }
    ensures counted { let to = min (result.0 + 1) (length text.now) in
        Ticked ticks.old ticks.new (to - from) }
{
    let (to, value) = resb_grammar::digits_end(text.as_bytes(), from);
    count_run(text, ticks, from, to);
    (to, value)
}

/// Counts a turn for each byte from one place to another, and one for the byte there, if the
/// text reaches so far.
fn count_run(text: &str, ticks: &mut Ticks, from: usize, to: usize)
    requires { (from ≤ to) × (to ≤ length text.now) }
    ensures { let end = min (to + 1) (length text.now) in
        Ticked ticks.old ticks.new (end - from) }
{
    let end = if to < text.len() { to + 1 } else { to };
    ticks.add(end - from);
}

/// Counts a turn for each byte and one more, and gives that piece of the text: a non-empty run
/// of word characters, or what stands between two quotes and holds none.
pub(crate) fn take<'a>(text: &'a str, ticks: &mut Ticks, from: usize, to: usize) -> &'a str
    requires { IsTextPiece text.now from to }
    ensures text { result.now ≡ slice_range text.now from to }
    ensures counted { Ticked ticks.old ticks.new (to - from + 1) }
{
    ticks.add(to - from + 1);
    &text[from..to]
}
