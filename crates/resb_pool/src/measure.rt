//! How many units a text and its record take, and whether strings are too long or too large to
//! plan. Which texts get a record is said in `containers`.
ghost use Rattle.std.specs.Prelude.{◌≡◌, ◌+◌, ◌∷◌, ◌<◌, ◌≤◌, ◌^◌, [], None, length, nat_le};
ghost use Rattle.std.specs.Prelude.{IfOk, OnOk, IfErr};
ghost use Rattle.resb_format.specs.Units as text_units;
ghost use Rattle.resb_format.specs.Units.{units, size};
ghost use Rattle.resb_pool.specs.Plan.{nows, first_too_long, NotPlanned};
ghost use Rattle.resb_pool.specs.declared.error.PlanError.TheVariants.{TooLarge};

use crate::error::PlanError;
use resb_format::{MAX_UNMARKED, marker_units, utf16_len};

/// The most units of a string, which its marker can say.
const LONGEST: usize = 4_294_967_295;

/// From this size of the strings on they are not planned, and from this plain size on no file is
/// written, so that the place of each part of a file fits the 28 bits of a descriptor.
pub const SIZE_LIMIT: usize = 0x1000_0000;

/// How many units a text takes.
#[derive(Clone, Copy)]
pub(crate) struct Measure {
    /// The text itself.
    pub(crate) unit_count: u32,
    /// A record of it: its marker, its units and the 0 at the end.
    pub(crate) size: u32,
    /// Its copies so far, as records of their own.
    pub(crate) total: u32,
}

/// Whether a text of so many units stands without a marker.
pub(crate) fn is_unmarked(text: &str, count: usize) -> bool
    requires { count ≡ length (units text.now) }
    ensures { result ≡ text_units.is_unmarked text.now }
{
    count <= MAX_UNMARKED && !text.as_bytes().contains(&0)
}

impl Measure {
    /// The measure of a text of which there is no copy yet.
    pub(crate) fn of(text: &str) -> Measure
        requires { length (units text.now) < 2 ^ 28 }
        ensures count { result.unit_count ≡ length (units text.now) }
        ensures size { result.size ≡ size text.now }
        ensures total { result.total ≡ 0 }
    {
        let unit_count = utf16_len(text);
        let marker = if is_unmarked(text, unit_count) {
            0
        } else {
            marker_units(unit_count).max(1)
        };
        Measure {
            unit_count: unit_count as u32,
            size: (marker + unit_count + 1) as u32,
            total: 0,
        }
    }
}

/// The number of units of a text that has more than 4294967295. They are counted only where its
/// bytes are as many.
pub fn excessive_len(text: &str) -> Option<usize>
    ensures { result ≡ first_too_long (text.now ∷ []) }
{
    if text.len() <= LONGEST {
        return None;
    }
    let count = utf16_len(text);
    if count > LONGEST { Some(count) } else { None }
}

/// Refuses the first text of more than 4294967295 units.
pub(crate) fn check_lengths(strings: &[&str]) -> Result<(), PlanError>
    ensures ok { OnOk result (first_too_long (nows strings.now) ≡ None) }
    ensures err { IfErr result (NotPlanned (nows strings.now)) }
{
    for text in strings {
        if let Some(count) = excessive_len(text) {
            return Err(PlanError::StringTooLong(count));
        }
    }
    Ok(())
}

/// The size of strings with one more string, of so many units. Refused is a size of 2^28 or more.
pub(crate) fn size_with(size: usize, count: usize) -> Result<usize, PlanError>
    requires size { size < 2 ^ 28 }
    requires count { count < 2 ^ 28 }
    ensures ok { IfOk result (λ n. n ≡ size + (16 + count)) }
    ensures small { IfOk result (λ n. n < 2 ^ 28) }
    ensures err { IfErr result (λ e. (e ≡ TooLarge) × (2 ^ 28 ≤ size + (16 + count))) }
{
    let more = size + 16 + count;
    if more >= SIZE_LIMIT {
        return Err(PlanError::TooLarge);
    }
    Ok(more)
}

/// Whether a text has 2^28 units or more. They are counted only where its bytes are as many.
pub(crate) fn is_vast(text: &str) -> bool
    ensures { result ≡ nat_le (2 ^ 28) (length (units text.now)) }
{
    text.len() >= SIZE_LIMIT && utf16_len(text) >= SIZE_LIMIT
}
