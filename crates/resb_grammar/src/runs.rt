//! Where a run of blanks or of digits ends among bytes, where a byte stands that is near, which
//! bytes a word has in the plain form, and minus a number modulo 2 ^ 32.
//! The readers of both text forms count their turns beside it. ICU's own form has words of other
//! characters.
ghost use Rattle.std.specs.Prelude.{◌≡◌, ℕ, ◌+◌, ◌-◌, ◌<◌, ◌≤◌, min, length, slice_index};
ghost use Rattle.std.specs.Char.{is_ascii_digit};
ghost use Rattle.resb_grammar.specs.ByteRuns as spec;
ghost use Rattle.resb_grammar.specs.ByteRuns.{Each, Run};
ghost use Rattle.resb_grammar.specs.Lexical as lexical;
ghost use Rattle.resb_grammar.specs.Lexical.{digits_value};

use std::simd::prelude::*;

/// Whether a byte is blank: a space, a tab or the end of a line.
fn is_white(b: u8) -> bool
    ensures { result ≡ spec.is_white b }
{
    b == b' ' || b == b'\t' || b == b'\r' || b == b'\n'
}

/// Whether a byte may stand in a word of the plain form, a string without quotes: an ASCII letter
/// or digit, or the dash.
pub fn is_word(b: u8) -> bool
    ensures { result ≡ spec.is_word b }
{
    b.is_ascii_alphanumeric() || b == b'-'
}

/// Where the run of blanks ends.
pub fn blanks_end(bytes: &[u8], from: usize) -> usize
    requires { from ≤ length bytes.now }
    ensures { Run spec.is_white bytes.now from result }
{
    let mut at = from;
    while at < bytes.len() && is_white(bytes[at]) {
        at = spaces_end(bytes, at + 1);
    }
    at
}

/// A place up to which all bytes are spaces. Sixteen bytes are looked at at once where the first is
/// one, so others may follow.
#[inline(always)]
fn spaces_end(bytes: &[u8], from: usize) -> usize
    requires { from ≤ length bytes.now }
    ensures order { from ≤ result }
    ensures fits { result ≤ length bytes.now }
    ensures each { Each spec.is_white bytes.now from result }
{
    if bytes.len() - from >= 16 && bytes[from] == b' ' {
        from + spaces_before(bytes, from)
    } else {
        from
    }
}

/// How many of the sixteen bytes from here on stand before the first that is no space.
#[inline(always)]
fn spaces_before(bytes: &[u8], from: usize) -> usize
    requires { from + 16 ≤ length bytes.now }
    ensures few { result ≤ 16 }
    ensures each { Each spec.is_white bytes.now from (from + result) }
{
    let sixteen = u8x16::from_slice(&bytes[from..]);
    let places = sixteen.simd_ne(u8x16::splat(b' ')).to_bitmask();
    if places == 0 {
        16
    } else {
        places.trailing_zeros() as usize
    }
}

/// How many of the sixteen bytes from here on stand before the first that is this one.
#[inline(always)]
pub fn bytes_before(bytes: &[u8], from: usize, byte: u8) -> usize
    requires { from + 16 ≤ length bytes.now }
    ensures few { result ≤ 16 }
    ensures before { (k : ℕ) → from ≤ k → k < from + result
        → slice_index bytes.now k ≡ byte → ⊥ }
    ensures stands { result < 16 → slice_index bytes.now (from + result) ≡ byte }
{
    let sixteen = u8x16::from_slice(&bytes[from..]);
    let places = sixteen.simd_eq(u8x16::splat(byte)).to_bitmask();
    if places == 0 {
        16
    } else {
        places.trailing_zeros() as usize
    }
}

/// Where the run of digits ends, and their value, or 2 ^ 32 where it is larger.
pub fn digits_end(bytes: &[u8], from: usize) -> (usize, u64)
    requires { from ≤ length bytes.now }
    ensures run { Run is_ascii_digit bytes.now from result.0 }
    ensures value { result.1 ≡ min (digits_value 10 bytes.now from (result.0 - from)) 4294967296 }
{
    let mut value = 0u64;
    let end = bytes.len();
    for at in from..end {
        let b = bytes[at];
        if !b.is_ascii_digit() {
            return (at, value);
        }
        value = (value * 10 + (b - b'0') as u64).min(1 << 32);
    }
    (end, value)
}

/// Minus the value, modulo 2 ^ 32.
pub fn negated(value: u64) -> u32
    requires { value < 4294967296 }
    ensures { result ≡ lexical.negated value }
{
    if value == 0 {
        0
    } else {
        (4294967296 - value) as u32
    }
}
