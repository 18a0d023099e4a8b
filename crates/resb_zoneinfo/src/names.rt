//! Names as 16-bit units, and where one stands in a list of them.
//! Which zone a name stands for is said in `info`.
ghost use Rattle.std.specs.Prelude.{◌<◌, ◌↔◌, IsTrue, MatchOption};
ghost use Rattle.resb.specs.Views.{view_units};
ghost use Rattle.resb_zoneinfo.specs.Names.{IsSame, IsNumberOf, HasNoName};

use resb::binary::helpers::Utf16View;

/// The number of the first name that is these bytes.
pub(crate) fn number_of(names: &[Utf16View<'_>], wanted: &[u8]) -> Option<usize>
    ensures { MatchOption result (HasNoName names.now wanted.now)
        (IsNumberOf names.now wanted.now) }
{
    for (number, units) in names.iter().enumerate() {
        if is_same(*units, wanted) {
            return Some(number);
        }
    }
    None
}

/// Whether 16-bit units are these bytes, one by one.
fn is_same(units: Utf16View<'_>, bytes: &[u8]) -> bool
    ensures { IsTrue result ↔ IsSame (view_units units.entry) bytes.now }
{
    if units.len() != bytes.len() {
        return false;
    }
    for (place, byte) in bytes.iter().enumerate() {
        if units.item(place) != u16::from(*byte) {
            return false;
        }
    }
    true
}
