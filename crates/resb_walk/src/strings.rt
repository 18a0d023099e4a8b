//! Where the units of a string stand that begins with a marker, as far as the marker shows.
//! Whether they are a text is found in `standing` and `known`.
ghost use Rattle.std.specs.Prelude.{◌≡◌, ◌+◌, ◌≤◌, IfSome, Some, length, take, drop};
ghost use Rattle.resb_format.specs.Bytes.{units_of};
ghost use Rattle.resb_format.specs.Strings.{string_at};

use resb_format::bytes::unit_at;
use resb_format::marked_part;

/// Where the units of the string at a unit begin, and how many there are, where it has a marker.
pub fn marked(block: &[u8], unit: usize) -> Option<(usize, usize)>
    ensures { let us = units_of block.now in IfSome result (λ r. r.0 + r.1 ≤ length us
        → string_at us unit ≡ Some (take r.1 (drop r.0 us))) }
{
    if unit >= block.len() / 2 {
        return None;
    }
    let first = unit_at(block, unit);
    if first < 0xdc00 || first > 0xdfff {
        return None;
    }
    marked_part(block, unit, first).ok()
}
