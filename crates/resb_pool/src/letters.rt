//! Texts by their 16-bit units, as a compact file compares them.
//! Which order that makes of texts from their ends is said in `suffix_order`.
ghost use Rattle.std.specs.Prelude.{◌≡◌, All, true, false};
ghost use Rattle.std.specs.Str.{IsUtf8};
ghost use Rattle.resb_pool.specs.Order.{start_cmp};
ghost use Rattle.resb_pool.specs.Plan.{nows};
ghost use Rattle.resb_pool.specs.Inner.Ranks as ranks;
ghost use Rattle.resb_pool.specs.Inner.Ranks.{HaveCharLetters, has_far, any_far};
ghost use Rattle.resb_pool.specs.declared.packing.Packing.TheVariants.{Compact};

use crate::packing::Packing;
use std::cmp::Ordering;

/// The first byte of a character beyond U+FFFF is this or greater, and no byte of another one is.
const FAR_BYTE: u8 = 0xf0;

/// A character's place among others at the ends of texts, in a file that is packed this way: that
/// of the character itself, or of its last unit, and then of the one before it.
pub(crate) fn last_rank(packing: Packing, c: char) -> u32
    ensures { result ≡ ranks.last_rank packing c }
{
    let code = u32::from(c);
    match packing {
        Packing::Plain => code,
        Packing::Compact if code < 0x1_0000 => code * 0x400,
        Packing::Compact => {
            let over = code - 0x1_0000;
            (0xdc00 + over % 0x400) * 0x400 + over / 0x400
        }
    }
}

/// A character's place among others at the starts of texts: that of its first unit, and then of the
/// one behind it.
fn first_rank(c: char) -> u32
    ensures { result ≡ ranks.first_rank c }
{
    let code = u32::from(c);
    if code < 0x1_0000 {
        return code * 0x400;
    }
    let over = code - 0x1_0000;
    (0xd800 + over / 0x400) * 0x400 + over % 0x400
}

/// How two texts compare by their units from the start.
pub(crate) fn compare_units(left: &str, right: &str) -> Ordering
    ensures { result ≡ start_cmp Compact left.now right.now }
{
    let mut lefts = left.chars();
    let mut rights = right.chars();
    loop {
        match (lefts.next(), rights.next()) {
            (Some(x), Some(y)) if x == y => {}
            (Some(x), Some(y)) => return first_rank(x).cmp(&first_rank(y)),
            (Some(_), None) => return Ordering::Greater,
            (None, Some(_)) => return Ordering::Less,
            (None, None) => return Ordering::Equal,
        }
    }
}

/// Whether a text has a character beyond U+FFFF, which is two units. All bytes are looked at, so
/// that many are at once.
pub fn is_far(text: &str) -> bool
    ensures { result ≡ has_far text.now }
{
    let mut is_found = false;
    for byte in text.as_bytes() {
        is_found = *byte >= FAR_BYTE || is_found;
    }
    is_found
}

/// Whether one of these texts has a character beyond U+FFFF.
fn are_far(texts: &[&str]) -> bool
    ensures { result ≡ any_far (nows texts.now) }
{
    for text in texts {
        if is_far(text) {
            return true;
        }
    }
    false
}

/// Whether a file that is packed this way may compare some of these texts otherwise than by their
/// characters.
pub(crate) fn are_compared_by_units(packing: Packing, texts: &[&str]) -> bool
    requires { All IsUtf8 (nows texts.now) }
    ensures yes { result ≡ true → packing ≡ Compact }
    ensures no { result ≡ false → HaveCharLetters packing (nows texts.now) }
{
    match packing {
        Packing::Plain => false,
        Packing::Compact => are_far(texts),
    }
}
