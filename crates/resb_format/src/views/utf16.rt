//! A view of bytes as 16-bit units.
//! Which units are a string is said in `units`.
ghost use Rattle.std.specs.Prelude.{◌≡◌, ◌%◌, length};

use crate::bytes::unit_at;

/// 16-bit units.
#[derive(Clone, Copy)]
pub struct Utf16View<'de> {
    bytes: &'de [u8],
    ghost whole: { length bytes.now % 2 ≡ 0 },
}

impl<'de> Utf16View<'de> {
    ghost use Rattle.std.specs.Prelude.{◌≡◌, ◌*◌, ◌<◌, ◌%◌, ◌==◌, length, slice_index};
    ghost use Rattle.resb_format.specs.Views.{unit_bytes, view_units};

    /// The view of these bytes.
    pub(crate) fn over(bytes: &'de [u8]) -> Utf16View<'de>
        requires { length bytes.now % 2 ≡ 0 }
        ensures { unit_bytes result ≡ bytes.entry.now }
    {
        Utf16View { bytes }
    }

    /// How many units there are.
    #[tactic(auto, using(crate::proofs::Spelled::units_length))]
    pub fn len(&self) -> usize
        ensures { result ≡ length (view_units self.now) }
    {
        self.bytes.len() / 2
    }

    /// Whether there is no unit.
    #[tactic(auto, using(crate::proofs::Spelled::units_length))]
    pub fn is_empty(&self) -> bool
        ensures { result ≡ (length (view_units self.now) == 0) }
    {
        self.bytes.is_empty()
    }

    /// The bytes, two for each unit.
    #[tactic(auto, using(crate::proofs::Spelled::units_length))]
    pub fn as_bytes(&self) -> &'de [u8]
        ensures bytes { result.now ≡ unit_bytes self.now }
        ensures two_each { length result.now ≡ 2 * length (view_units self.now) }
    {
        self.bytes
    }

    /// The unit with this number.
    #[tactic(auto, using(crate::proofs::Spelled::units_length))]
    pub fn item(&self, number: usize) -> u16
        requires { number < length (view_units self.now) }
        ensures { result ≡ slice_index (view_units self.now) number }
    {
        unit_at(self.bytes, number)
    }
}
