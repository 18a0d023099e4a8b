//! Escapes: what a backslash and the bytes behind it stand for.
//! Where quoted pieces end, and what they say, is in `pieces`.
ghost use Rattle.std.specs.Prelude.{◌≡◌, ◌≢◌, ℕ, ◌+◌, ◌-◌, ◌%◌, ◌<◌, ◌≤◌, true, false, List};
ghost use Rattle.std.specs.Prelude.{length, Some, None, ◌==◌, ◌||◌, encode_utf8};
ghost use Rattle.std.specs.Prelude.{slice_index, IfSome, IfNone};
ghost use Rattle.std.specs.Char.{IsScalar, digit_value, is_digit};
ghost use Rattle.std.specs.Char.Utf16.{is_high_surrogate, is_low_surrogate, surrogate_pair_char};
ghost use Rattle.resb_grammar.specs.Lexical.{digits_value};
ghost use Rattle.resb_grammar.specs.Group.{is_hex};
ghost use Rattle.resb_icu_grammar.specs.Bytes.{backslash};
ghost use Rattle.resb_icu_grammar.specs.Escapes.{Escape, FewDigits, are_hex, is_lost};
ghost use Rattle.resb_icu_grammar.specs.Escapes.{FourDigits, is_letter, letter_character};
ghost use Rattle.resb_icu_grammar.specs.Escapes.{is_half, says_half};
ghost use Rattle.resb_icu_grammar.specs.Faults.{escape_there};
ghost use Rattle.resb_icu_text.specs.Inner.Escaped.{bytes_of, IsAscii, ShortNumber};

use crate::blanks::byte;
use resb_icu_grammar::IcuExpected;

/// The value of a hex digit.
pub(crate) fn hex_digit(b: u8) -> Option<u32>
    ensures found { IfSome result (λ v. (is_hex b ≡ true) × (v ≡ digit_value b) × (v < 16)) }
    ensures none { IfNone result (is_hex b ≡ false) }
{
    if b >= b'0' && b <= b'9' {
        Some((b - b'0') as u32)
    } else if b >= b'A' && b <= b'F' {
        Some((b - b'A') as u32 + 10)
    } else if b >= b'a' && b <= b'f' {
        Some((b - b'a') as u32 + 10)
    } else {
        None
    }
}

/// The number that four hex digits say.
fn four_digits(text: &str, from: usize) -> Option<u32>
    requires within { from ≤ length text.now }
    ensures found { IfSome result (λ v. (are_hex text.now from 4 ≡ true)
        × (v ≡ digits_value 16 text.now from 4) × (v < 65536) × (from + 4 ≤ length text.now)) }
    ensures none { IfNone result (are_hex text.now from 4 ≡ true → ⊥) }
{
    let first = hex_digit(byte(text, from))?;
    let second = hex_digit(byte(text, from + 1))?;
    let third = hex_digit(byte(text, from + 2))?;
    let fourth = hex_digit(byte(text, from + 3))?;
    Some(((first * 16 + second) * 16 + third) * 16 + fourth)
}

/// The number that eight hex digits say.
fn eight_digits(text: &str, from: usize) -> Option<u32>
    requires within { from ≤ length text.now }
    ensures found { IfSome result (λ v. (are_hex text.now from 8 ≡ true)
        × (v ≡ digits_value 16 text.now from 8) × (from + 8 ≤ length text.now)) }
    ensures none { IfNone result (are_hex text.now from 8 ≡ true → ⊥) }
{
    let high = four_digits(text, from)?;
    let low = four_digits(text, from + 4)?;
    Some(high * 65536 + low)
}

/// The character of a letter that stands for a control character.
fn letter(b: u8) -> Option<char>
    ensures found { IfSome result (λ c. (is_letter b ≡ true) × (c ≡ letter_character b)
        × (c < 32) × (b < 128)) }
    ensures none { IfNone result (is_letter b ≡ false) }
{
    match b {
        b'a' => Some('\x07'),
        b'b' => Some('\x08'),
        b'e' => Some('\x1b'),
        b'f' => Some('\x0c'),
        b'n' => Some('\n'),
        b'r' => Some('\r'),
        b't' => Some('\t'),
        b'v' => Some('\x0b'),
        _ => None,
    }
}

/// The character of a number of four digits, which is no backslash.
fn short_character(number: u32) -> Option<char>
    ensures found { IfSome result (λ c. (c ≡ number) × IsScalar number
        × (number ≢ backslash)) }
    ensures none { IfNone result (IsScalar number → number ≢ backslash → ⊥) }
{
    if number == 92 {
        return None;
    }
    char::from_u32(number)
}

/// The character of a number of eight digits, which is neither a backslash nor a `U`.
fn long_character(number: u32) -> Option<char>
    ensures found { IfSome result (λ c. (c ≡ number) × IsScalar number
        × (is_lost 85 number ≡ false)) }
    ensures none { IfNone result (IsScalar number → is_lost 85 number ≡ false → ⊥) }
{
    if number == 92 || number == 85 {
        return None;
    }
    char::from_u32(number)
}

/// The character of the last five bits of a character of ASCII other than U+0000.
fn control_character(b: u8) -> Option<char>
    ensures found { IfSome result (λ c. (c ≡ b % 32) × (0 < b) × (b < 128)) }
    ensures none { IfNone result (0 < b → b < 128 → ⊥) }
{
    if b == 0 || b >= 128 {
        return None;
    }
    char::from_u32((b % 32) as u32)
}

/// The number that one hex digit or two say, and where they end.
fn short_hex(text: &str, at: usize) -> Option<(usize, u32)>
    requires within { at ≤ length text.now }
    ensures found { IfSome result (λ r. FewDigits 16 2 text.now at r.0 r.1) }
    ensures none { IfNone result (is_hex (slice_index text.now at) ≡ false) }
    ensures within { IfSome result (λ r. (at < r.0) × (r.0 ≤ length text.now) × (r.1 < 1024)) }
{
    let first = hex_digit(byte(text, at))?;
    match hex_digit(byte(text, at + 1)) {
        Some(second) => Some((at + 2, first * 16 + second)),
        None => Some((at + 1, first)),
    }
}

/// The value of an octal digit.
fn octal_digit(b: u8) -> Option<u32>
    ensures found { IfSome result (λ v. (is_digit b 8 ≡ true) × (v ≡ digit_value b) × (v < 8)) }
    ensures none { IfNone result (is_digit b 8 ≡ false) }
{
    if b >= b'0' && b <= b'7' {
        Some((b - b'0') as u32)
    } else {
        None
    }
}

/// The number that one octal digit to three say, and where they end.
fn octal(text: &str, at: usize) -> Option<(usize, u32)>
    requires within { at ≤ length text.now }
    ensures found { IfSome result (λ r. FewDigits 8 3 text.now at r.0 r.1) }
    ensures none { IfNone result (is_digit (slice_index text.now at) 8 ≡ false) }
    ensures within { IfSome result (λ r. (at < r.0) × (r.0 ≤ length text.now) × (r.1 < 1024)) }
{
    let first = octal_digit(byte(text, at))?;
    let Some(second) = octal_digit(byte(text, at + 1)) else {
        return Some((at + 1, first));
    };
    match octal_digit(byte(text, at + 2)) {
        Some(third) => Some((at + 3, (first * 8 + second) * 8 + third)),
        None => Some((at + 2, first * 8 + second)),
    }
}

/// The number that short hex digits behind an `x`, or else octal digits say, and where they end.
#[tactic(auto, using(crate::proofs::NumbersLemmas::short_numbers))]
fn short_number(text: &str, at: usize) -> Option<(usize, u32)>
    requires within { at < length text.now }
    ensures found { IfSome result (λ r. ShortNumber text.now at r.0 r.1) }
    ensures none { IfNone result ((to c : ℕ) → ShortNumber text.now at to c → ⊥) }
    ensures within { IfSome result (λ r. (at < r.0) × (r.0 ≤ length text.now) × (r.1 < 1024)) }
{
    if byte(text, at) == b'x' {
        short_hex(text, at + 1)
    } else {
        octal(text, at)
    }
}

/// The character of such a number behind this byte, if it is meant.
fn meant(first: u8, number: u32) -> Option<char>
    requires low { number < 1024 }
    ensures found { IfSome result (λ c. (c ≡ number) × (is_lost first number ≡ false)) }
    ensures none { IfNone result (is_lost first number ≡ true) }
{
    if number == 92 || number == first as u32 {
        return None;
    }
    char::from_u32(number)
}

/// Whether a byte begins an escape by short hex digits or by octal ones.
fn begins_number(b: u8) -> bool
    ensures { result ≡ (b == 120 || is_digit b 8) }
{
    b == b'x' || (b >= b'0' && b <= b'7')
}

/// Whether a number is the first half of a surrogate pair.
fn is_high(number: u32) -> bool
    ensures { result ≡ is_high_surrogate number }
{
    number >= 0xd800 && number < 0xdc00
}

/// Whether a number is the last half of a surrogate pair.
fn is_low(number: u32) -> bool
    ensures { result ≡ is_low_surrogate number }
{
    number >= 0xdc00 && number < 0xe000
}

/// The last half of a surrogate pair, written by a backslash, `u` and four hex digits.
fn low_half(text: &str, at: usize) -> Option<u32>
    requires within { at ≤ length text.now }
    ensures found { IfSome result (λ low. (slice_index text.now at ≡ backslash)
        × FourDigits text.now (at + 1) low × (is_low_surrogate low ≡ true)
        × (at + 6 ≤ length text.now)) }
    ensures none { IfNone result ((low : ℕ) → slice_index text.now at ≡ backslash
        → FourDigits text.now (at + 1) low → is_low_surrogate low ≡ true → ⊥) }
{
    if byte(text, at) != b'\\' {
        return None;
    }
    if byte(text, at + 1) != b'u' {
        return None;
    }
    let number = four_digits(text, at + 2)?;
    if is_low(number) { Some(number) } else { None }
}

/// The character of two halves of a surrogate pair.
fn paired(high: u32, low: u32) -> char
    requires halves { (is_high_surrogate high ≡ true) × (is_low_surrogate low ≡ true) }
    ensures { result ≡ surrogate_pair_char high low }
{
    let number = 0x10000 + (high - 0xd800) * 1024 + (low - 0xdc00);
    match char::from_u32(number) {
        Some(c) => c,
        None => unreachable!(),
    }
}

/// What `u` and hex digits stand for: those of a character, or twice those of a surrogate pair.
fn unicode(text: &str, at: usize) -> Option<(usize, char)>
    requires within { at < length text.now }
    requires letter { slice_index text.now at ≡ 117 }
    ensures found { IfSome result (λ r. Escape text.now at r.0 (encode_utf8 r.1)) }
    ensures none { IfNone result ((to : ℕ) (s : List ℕ) → Escape text.now at to s → ⊥) }
    ensures within { IfSome result (λ r. (at < r.0) × (r.0 ≤ length text.now)
        × IsAscii (slice_index text.now (r.0 - 1))) }
{
    let number = four_digits(text, at + 1)?;
    if is_high(number) {
        let low = low_half(text, at + 5)?;
        let c = paired(number, low);
        return Some((at + 11, c));
    }
    let c = short_character(number)?;
    Some((at + 5, c))
}

/// Whether a number is half of a surrogate pair.
fn is_half(number: u32) -> bool
    ensures { result ≡ is_half number }
{
    number >= 0xd800 && number < 0xe000
}

/// Whether half of a surrogate pair is written behind a backslash.
fn says_half(text: &str, at: usize) -> bool
    requires within { at ≤ length text.now }
    ensures { result ≡ says_half text.now at }
{
    let b = byte(text, at);
    if b == b'u' {
        match four_digits(text, at + 1) {
            Some(number) => is_half(number),
            None => false,
        }
    } else if b == b'U' {
        match eight_digits(text, at + 1) {
            Some(number) => is_half(number),
            None => false,
        }
    } else {
        false
    }
}

/// What was expected behind a backslash without an escape.
pub(crate) fn escape_there(text: &str, at: usize) -> IcuExpected
    requires within { at ≤ length text.now }
    ensures { result ≡ escape_there text.now at }
{
    if says_half(text, at) {
        IcuExpected::WholePair
    } else {
        IcuExpected::Escape
    }
}

/// The escape whose backslash stands before this place: where it ends, and the character that it
/// stands for, which is none where the byte there stands for itself.
#[tactic(auto, using(crate::proofs::EscapesLemmas::escapes))]
pub(crate) fn escape(text: &str, at: usize) -> Option<(usize, Option<char>)>
    requires within { at ≤ length text.now }
    ensures found { IfSome result (λ r. Escape text.now at r.0
        (bytes_of (slice_index text.now at) r.1)) }
    ensures none { IfNone result ((to : ℕ) (s : List ℕ) → Escape text.now at to s → ⊥) }
    ensures within { IfSome result (λ r. (at < r.0) × (r.0 ≤ length text.now)) }
    ensures alone { IfSome result (λ r. r.1 ≡ None → r.0 ≡ at + 1) }
    ensures ascii { IfSome result (λ r. (c : ℕ) → r.1 ≡ Some c
        → IsAscii (slice_index text.now (r.0 - 1))) }
{
    let b = byte(text, at);
    if at >= text.len() {
        None
    } else if let Some(c) = letter(b) {
        Some((at + 1, Some(c)))
    } else if b == b'u' {
        let (to, c) = unicode(text, at)?;
        Some((to, Some(c)))
    } else if b == b'U' {
        let number = eight_digits(text, at + 1)?;
        let c = long_character(number)?;
        Some((at + 9, Some(c)))
    } else if b == b'c' {
        let c = control_character(byte(text, at + 1))?;
        Some((at + 2, Some(c)))
    } else if begins_number(b) {
        let (to, number) = short_number(text, at)?;
        let c = meant(b, number)?;
        Some((to, Some(c)))
    } else {
        Some((at + 1, None))
    }
}
