//! Appending numbers and fillings to a tail.
//! Which numbers make a body is said in `resource_bodies`.
ghost use Rattle.std.specs.Prelude.{◌≡◌, ◌++◌, ◌<◌, ◌^◌, length, true, OnOk};
ghost use Rattle.std.specs.Int.{to_le_bytes, w32, w16};
ghost use Rattle.std.specs.Char.Escape.{encode_utf16};
ghost use Rattle.resb_layout.specs.Laid.{words as words_bytes, fill, words_body, path_body};
ghost use Rattle.resb_format.specs.Bytes.{units_as_bytes};
ghost use Rattle.resb_format.specs.Units.{units as units_of};
ghost use Rattle.resb_layout.specs.Laid.{near_table_body, wide_table_body, are_near, nears_by};
ghost use Rattle.resb_write.specs.Inner.Lending.{lent_of};

use crate::lends::{Lends, near};
use resb_format::utf16_len;
use std::alloc::AllocError;

/// Appends the 4 bytes of a word, the lowest first.
pub(crate) fn put_word(tail: &mut Vec<u8>, word: u32) -> Result<(), AllocError>
    ensures { OnOk result (tail.new.items ≡ tail.old.items ++ to_le_bytes w32 word) }
{
    tail.extend_from_slice(&word.to_le_bytes())
}

/// Appends the bytes of words, one behind the other.
pub(crate) fn put_words(tail: &mut Vec<u8>, words: &[u32]) -> Result<(), AllocError>
    ensures { OnOk result (tail.new.items ≡ tail.old.items ++ words_bytes words.now) }
{
    for word in words {
        put_word(tail, *word)?;
    }
    Ok(())
}

/// Appends the 2 bytes of a 16-bit number, the lower one first.
pub(crate) fn put_half(tail: &mut Vec<u8>, half: u16) -> Result<(), AllocError>
    ensures { OnOk result (tail.new.items ≡ tail.old.items ++ to_le_bytes w16 half) }
{
    tail.extend_from_slice(&half.to_le_bytes())
}

/// Appends a count and so many words.
pub(crate) fn put_counted(tail: &mut Vec<u8>, words: &[u32]) -> Result<(), AllocError>
    requires { length words.now < 2 ^ 32 }
    ensures { OnOk result (tail.new.items ≡ tail.old.items ++ words_body words.now) }
{
    put_word(tail, words.len() as u32)?;
    put_words(tail, words)
}

/// Appends what units tell of positions.
fn put_halves(lent: Option<Lends>, tail: &mut Vec<u8>, positions: &[u32]) -> Result<(), AllocError>
    requires { are_near (nears_by (lent_of lent) positions.now) ≡ true }
    ensures { OnOk result (tail.new.items
        ≡ tail.old.items ++ units_as_bytes (nears_by (lent_of lent) positions.now)) }
{
    for position in positions {
        put_half(tail, near(lent, *position) as u16)?;
    }
    Ok(())
}

/// Appends the body of a table whose count a unit holds and whose positions units tell: these, a
/// padding unit where their number is even, and the words.
pub(crate) fn put_short_table(
    lent: Option<Lends>,
    tail: &mut Vec<u8>,
    positions: &[u32],
    words: &[u32],
) -> Result<(), AllocError>
    requires { are_near (nears_by (lent_of lent) positions.now) ≡ true }
    ensures { OnOk result (tail.new.items ≡ tail.old.items
        ++ near_table_body (nears_by (lent_of lent) positions.now) words.now) }
{
    put_half(tail, positions.len() as u16)?;
    put_halves(lent, tail, positions)?;
    if positions.len() % 2 == 0 {
        put_half(tail, 0xaaaa)?;
    }
    put_words(tail, words)
}

/// Appends the body of a table that has a position which no unit tells: their count, the positions
/// and the words.
pub(crate) fn put_wide_table(
    tail: &mut Vec<u8>,
    positions: &[u32],
    words: &[u32],
) -> Result<(), AllocError>
    requires { length positions.now < 2 ^ 32 }
    ensures { OnOk result (tail.new.items
        ≡ tail.old.items ++ wide_table_body positions.now words.now) }
{
    put_counted(tail, positions)?;
    put_words(tail, words)
}

/// Appends units, the lower byte of each first.
fn put_units(tail: &mut Vec<u8>, units: &[u16]) -> Result<(), AllocError>
    ensures { OnOk result (tail.new.items ≡ tail.old.items ++ units_as_bytes units.now) }
{
    for unit in units {
        put_half(tail, *unit)?;
    }
    Ok(())
}

/// Appends the one or two units of a character.
fn put_char(tail: &mut Vec<u8>, c: char) -> Result<(), AllocError>
    ensures { OnOk result (tail.new.items ≡ tail.old.items ++ units_as_bytes (encode_utf16 c)) }
{
    let mut buffer = [0u16; 2];
    put_units(tail, c.encode_utf16(&mut buffer))
}

/// Appends the units of a text.
fn put_text(tail: &mut Vec<u8>, text: &str) -> Result<(), AllocError>
    ensures { OnOk result (tail.new.items
        ≡ tail.old.items ++ units_as_bytes (units_of text.now)) }
{
    for c in text.chars() {
        put_char(tail, c)?;
    }
    Ok(())
}

/// Appends the body of a path: the number of its units, these, a unit 0, and a padding unit where
/// their number is even.
pub(crate) fn put_path(tail: &mut Vec<u8>, path: &str) -> Result<(), AllocError>
    requires { length (units_of path.now) < 2 ^ 32 }
    ensures { OnOk result (tail.new.items
        ≡ tail.old.items ++ path_body (units_of path.now)) }
{
    let count = utf16_len(path);
    put_word(tail, count as u32)?;
    put_text(tail, path)?;
    put_half(tail, 0)?;
    if count % 2 == 0 {
        put_half(tail, 0xaaaa)?;
    }
    Ok(())
}

/// Appends so many bytes 0xaa.
pub(crate) fn put_fill(tail: &mut Vec<u8>, count: usize) -> Result<(), AllocError>
    ensures { OnOk result (tail.new.items ≡ tail.old.items ++ fill count) }
{
    for _written in 0..count {
        tail.push(0xaa)?;
    }
    Ok(())
}
