//! What another reader takes otherwise in a number.
//! Which strings are numbers is known by their groups, in `groups`.
ghost use Rattle.std.specs.Prelude.{◌≡◌, ◌++◌, ℕ, true, false, min, OnOk};
ghost use Rattle.std.specs.Char.{digit_value};
ghost use Rattle.resb_diagnostics.specs.IcuWarnings as icu;
ghost use Rattle.resb_diagnostics.specs.Warnings as spec;
ghost use Rattle.resb_diagnostics.specs.Warnings.{of_octal, of_cut, of_number, number_of};
ghost use Rattle.resb_diagnostics.specs.Inner.Looks.{placed_text_of};

use crate::named::Named;
use crate::text_pieces::StringAt;
use crate::warning::{Reason, Warning};
use resb_grammar::negated;
use resb_tree::Int28;
use std::alloc::AllocError;

/// A number without its sign.
fn unsigned(number: &[u8]) -> &[u8]
    ensures { result.now ≡ spec.unsigned number.now }
{
    match number {
        [b'-', digits @ ..] => digits,
        _ => number,
    }
}

/// Whether digits begin with a 0, and say more than 7.
fn is_octal(digits: &[u8]) -> bool
    ensures { result ≡ spec.is_octal digits.now }
{
    !digits.is_empty() && digits[0] == b'0' && value_of(digits) > 7
}

/// Adds the warning of a number that begins with a 0 and is more than 7, if this one is.
fn tell_octal(number: StringAt<'_>, found: &mut Vec<Warning>) -> Result<(), AllocError>
    ensures { OnOk result
        (found.new.items ≡ found.old.items ++ of_octal (placed_text_of number.entry)) }
{
    if is_octal(unsigned(number.content)) {
        found.push(Warning {
            place: number.place,
            reason: Reason::LeadingZero,
        })?;
    }
    Ok(())
}

/// Whether a dash stands before the digits.
fn is_negative(number: &[u8]) -> bool
    ensures { result ≡ spec.is_negative number.now }
{
    !number.is_empty() && number[0] == b'-'
}

/// The number that digits say, or 2 ^ 32 where it is larger.
fn value_of(digits: &[u8]) -> u64
    ensures { result ≡ min (number_of digits.now) 4294967296 }
{
    let mut value = 0u64;
    for byte in digits {
        value = (value * 10 + u64::from(byte.saturating_sub(b'0'))).min(1 << 32);
    }
    value
}

/// What is kept of a number that 28 bits don't hold.
fn cut(is_negative: bool, value: u64) -> Option<i32>
    ensures { (n : ℕ) → value ≡ min n 4294967296 → result ≡ spec.cut is_negative n }
{
    if is_negative {
        cut_below(value)
    } else {
        cut_above(value)
    }
}

/// The number to which 28 bits cut a negative one, if they don't hold it.
fn cut_below(value: u64) -> Option<i32>
    ensures { (n : ℕ) → value ≡ min n 4294967296 → result ≡ spec.cut true n }
{
    if 134217728 < value && value <= 2147483648 {
        Some(i32::from(Int28::from(negated(value))))
    } else {
        None
    }
}

/// The number to which 28 bits cut any other one, if they don't hold it.
fn cut_above(value: u64) -> Option<i32>
    ensures { (n : ℕ) → value ≡ min n 4294967296 → result ≡ spec.cut false n }
{
    if 268435456 <= value && value < 4294967296 {
        Some(i32::from(Int28::from(value as u32)))
    } else {
        None
    }
}

/// Adds the warning of an integer that 28 bits don't hold, if this one is.
fn tell_cut(number: StringAt<'_>, found: &mut Vec<Warning>) -> Result<(), AllocError>
    ensures { OnOk result
        (found.new.items ≡ found.old.items ++ of_cut (placed_text_of number.entry)) }
{
    let value = value_of(unsigned(number.content));
    if let Some(kept) = cut(is_negative(number.content), value) {
        found.push(Warning {
            place: number.place,
            reason: Reason::CutNumber(kept),
        })?;
    }
    Ok(())
}

/// Adds the warnings of a string that comes, if its group has numbers.
#[inline(always)]
pub(crate) fn tell_number(
    string: StringAt<'_>,
    named: Named,
    found: &mut Vec<Warning>,
) -> Result<(), AllocError>
    ensures { OnOk result
        (found.new.items ≡ found.old.items ++ of_number (placed_text_of string.entry) named) }
{
    match named {
        Named::Integer => {
            tell_octal(string, found)?;
            tell_cut(string, found)
        }
        Named::IntVector => tell_octal(string, found),
        _ => Ok(()),
    }
}

/// A number of ICU's form without its sign.
fn without_sign(number: &[u8]) -> &[u8]
    ensures { result.now ≡ icu.without_sign number.now }
{
    match number {
        [b'-' | b'+', digits @ ..] => digits,
        _ => number,
    }
}

/// The value of a digit or a letter, and 36 for any other byte.
fn digit_value(b: u8) -> u64
    ensures { result ≡ digit_value b }
{
    match b {
        b'0'..=b'9' => u64::from(b - b'0'),
        b'A'..=b'Z' => u64::from(b - b'A') + 10,
        b'a'..=b'z' => u64::from(b - b'a') + 10,
        _ => 36,
    }
}

/// The number that hex digits say, or 2 ^ 32 where it is larger.
fn hex_value(digits: &[u8]) -> u64
    ensures { result ≡ min (icu.hex_number digits.now) 4294967296 }
{
    let mut value = 0u64;
    for byte in digits {
        value = (value * 16 + digit_value(*byte)).min(1 << 32);
    }
    value
}

/// The number that octal digits say, or 2 ^ 32 where it is larger.
fn octal_value(digits: &[u8]) -> u64
    ensures { result ≡ min (icu.octal_number digits.now) 4294967296 }
{
    let mut value = 0u64;
    for byte in digits {
        value = (value * 8 + u64::from(byte.saturating_sub(b'0'))).min(1 << 32);
    }
    value
}

/// What a number of ICU's form says behind its sign, or 2 ^ 32 where that is larger.
fn icu_value(number: &[u8]) -> u64
    ensures { result ≡ min (icu.icu_number number.now) 4294967296 }
{
    match number {
        [b'0', b'x' | b'X', digits @ ..] => hex_value(digits),
        [b'0', digits @ ..] => octal_value(digits),
        _ => value_of(number),
    }
}

/// Whether an integer of ICU's form begins with a 0 and octal digits that say more than 7.
pub(crate) fn says_octal(number: &[u8]) -> bool
    ensures { result ≡ icu.says_octal (icu.without_sign number.now) }
{
    match without_sign(number) {
        [b'0', b'x' | b'X', ..] => false,
        [b'0', digits @ ..] => octal_value(digits) > 7,
        _ => false,
    }
}

/// What is kept of an integer of ICU's form that 28 bits don't hold.
pub(crate) fn cut_integer(number: &[u8]) -> Option<i32>
    ensures { result
        ≡ spec.cut (spec.is_negative number.now) (icu.icu_number (icu.without_sign number.now)) }
{
    cut(is_negative(number), icu_value(without_sign(number)))
}
