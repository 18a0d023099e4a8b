//! The body of one resource, whose members' bodies stand already.
//! In which order resources come is said in `tree_bodies`.
ghost use Rattle.std.specs.Prelude.{◌≡◌, ◌++◌, ◌∷◌, ◌+◌, ◌*◌, ◌/◌, ◌%◌, ◌<◌, ◌^◌, length, IfOk};
ghost use Rattle.std.specs.Prelude.{OnOk, true};
ghost use Rattle.resb_tree.specs.Tree.{alias, binary, int_vector};
ghost use Rattle.resb_format.specs.Units.{units};
ghost use Rattle.resb_format.specs.Descriptor.{type_number};
ghost use Rattle.resb_layout.specs.Laid.{LaysBy, ClosesArrayBy, ClosesTableBy, are_near};
ghost use Rattle.resb_layout.specs.Laid.{is_short_by, are_short_by, nears_by, offsets_by};
ghost use Rattle.resb_layout.specs.Laid.{word_of_string};
ghost use Rattle.resb_write.specs.Inner.Lending.{lent_of};
ghost use Rattle.resb_write.specs.Inner.Room.{at_base, laid_of};
ghost use Rattle.resb_write.specs.Inner.Seen.{HasRoom, TakesNoMore};

use crate::lends::{Lends, near, short};
use crate::sites::{Bodies, Ground};
use crate::tail_bytes::{
    put_counted, put_fill, put_path, put_short_table, put_wide_table, put_word,
};
use resb_format::{ResDescriptor, ResourceReprType};
use resb_layout::Packing;
use std::alloc::AllocError;

/// The greatest number that a 16-bit unit holds.
pub(crate) const UNIT_MAX: usize = 65535;

/// The word of a string at the greatest index.
const LAST_STRING_WORD: u32 = 0x6fff_ffff;

/// The word of a type and a value.
pub(crate) fn word(resource_type: ResourceReprType, value: u32) -> u32
    requires { value < 2 ^ 28 }
    ensures { result ≡ type_number resource_type * 2 ^ 28 + value }
{
    u32::from(ResDescriptor::new(resource_type, value))
}

/// The word of a string at an offset: of the empty one, at offset 0, the compact packing has 0.
pub(crate) fn string_word(packing: Packing, offset: u32) -> u32
    requires { offset < 2 ^ 28 }
    ensures { result ≡ word_of_string packing offset }
{
    match packing {
        Packing::Compact if offset == 0 => 0,
        _ => word(ResourceReprType::StringV2, offset),
    }
}

/// The word of a string at unit 0.
fn first_string_word() -> u32
    ensures { result ≡ 0x6000_0000 }
{
    word(ResourceReprType::StringV2, 0)
}

/// The word of the body at which the next byte of the tail stands.
fn tail_value(base: usize, tail: &[u8], skipped: usize) -> u32
    requires aligned { (base + length tail.now + skipped) % 4 ≡ 0 }
    requires small { base + length tail.now + skipped < 2 ^ 30 }
    ensures at { base + length tail.now + skipped ≡ 4 * result }
    ensures fits { result < 2 ^ 28 }
{
    ((base + tail.len() + skipped) / 4) as u32
}

/// Whether this is the word of a string that a unit can tell: 0 is an empty one's.
#[inline(always)]
fn is_short_string(lent: Option<Lends>, word: u32) -> bool
    ensures { result ≡ is_short_by (lent_of lent) word }
{
    if word == 0 {
        return true;
    }
    let first = first_string_word();
    if word < first || word > LAST_STRING_WORD {
        return false;
    }
    short(lent, word - first) <= 65535
}

/// Whether these are the words of at most 65535 strings that units can tell.
fn are_short_strings(lent: Option<Lends>, words: &[u32]) -> bool
    ensures { result ≡ are_short_by (lent_of lent) words.now }
{
    if words.len() > UNIT_MAX {
        return false;
    }
    for word in words {
        if !is_short_string(lent, *word) {
            return false;
        }
    }
    true
}

/// Whether these are at most 65535 positions that 16 bits can tell.
pub(crate) fn are_near_positions(lent: Option<Lends>, positions: &[u32]) -> bool
    ensures { result ≡ are_near (nears_by (lent_of lent) positions.now) }
{
    if positions.len() > UNIT_MAX {
        return false;
    }
    for position in positions {
        if near(lent, *position) > 65535 {
            return false;
        }
    }
    true
}

/// Appends what units tell of short strings.
fn put_offsets(lent: Option<Lends>, units: &mut Vec<u16>, words: &[u32]) -> Result<(), AllocError>
    requires { are_short_by (lent_of lent) words.now ≡ true }
    ensures { OnOk result (units.new.items
        ≡ units.old.items ++ offsets_by (lent_of lent) words.now) }
{
    let first = first_string_word();
    for word in words {
        units.push(short(lent, word.saturating_sub(first)) as u16)?;
    }
    Ok(())
}

/// Appends what units tell of positions.
fn put_near(lent: Option<Lends>, units: &mut Vec<u16>, positions: &[u32]) -> Result<(), AllocError>
    requires { are_near (nears_by (lent_of lent) positions.now) ≡ true }
    ensures { OnOk result (units.new.items
        ≡ units.old.items ++ nears_by (lent_of lent) positions.now) }
{
    for position in positions {
        units.push(near(lent, *position) as u16)?;
    }
    Ok(())
}

/// Appends the count, the positions and the offsets of a table of short strings.
fn put_unit_table(
    lent: Option<Lends>,
    units: &mut Vec<u16>,
    positions: &[u32],
    words: &[u32],
) -> Result<(), AllocError>
    requires near { are_near (nears_by (lent_of lent) positions.now) ≡ true }
    requires short { are_short_by (lent_of lent) words.now ≡ true }
    ensures { OnOk result (units.new.items ≡ units.old.items ++ length words.now
        ∷ (nears_by (lent_of lent) positions.now ++ offsets_by (lent_of lent) words.now)) }
{
    units.push(words.len() as u16)?;
    put_near(lent, units, positions)?;
    put_offsets(lent, units, words)
}

/// Lays an array that isn't empty.
pub(crate) fn close_array(
    ground: &Ground,
    bodies: &mut Bodies,
    words: &[u32],
) -> Result<u32, AllocError>
    requires { HasRoom ground.now.base bodies.old (length words.now) }
    ensures lays { IfOk result (λ w. ClosesArrayBy (lent_of ground.now.lent)
        (at_base ground.now.base) (laid_of bodies.old) words.now (laid_of bodies.new) w) }
    ensures takes { OnOk result (TakesNoMore ground.now.base bodies.old bodies.new
        (length words.now)) }
{
    if are_short_strings(ground.lent, words) {
        let at = bodies.units.len() as u32;
        bodies.units.push(words.len() as u16)?;
        put_offsets(ground.lent, &mut bodies.units, words)?;
        return Ok(word(ResourceReprType::Array16, at));
    }
    let at = tail_value(ground.base, &bodies.tail, 0);
    put_counted(&mut bodies.tail, words)?;
    Ok(word(ResourceReprType::Array, at))
}

/// Lays a table that isn't empty.
pub(crate) fn close_table(
    ground: &Ground,
    bodies: &mut Bodies,
    positions: &[u32],
    words: &[u32],
) -> Result<u32, AllocError>
    requires room { HasRoom ground.now.base bodies.old (length words.now) }
    requires many { length positions.now ≡ length words.now }
    ensures lays { IfOk result (λ w. ClosesTableBy (lent_of ground.now.lent)
        (at_base ground.now.base) (laid_of bodies.old) positions.now words.now
        (laid_of bodies.new) w) }
    ensures takes { OnOk result (TakesNoMore ground.now.base bodies.old bodies.new
        (length words.now)) }
{
    if !are_near_positions(ground.lent, positions) {
        let at = tail_value(ground.base, &bodies.tail, 0);
        put_wide_table(&mut bodies.tail, positions, words)?;
        return Ok(word(ResourceReprType::_Table32, at));
    }
    if are_short_strings(ground.lent, words) {
        let at = bodies.units.len() as u32;
        put_unit_table(ground.lent, &mut bodies.units, positions, words)?;
        return Ok(word(ResourceReprType::Table16, at));
    }
    let at = tail_value(ground.base, &bodies.tail, 0);
    put_short_table(ground.lent, &mut bodies.tail, positions, words)?;
    Ok(word(ResourceReprType::Table, at))
}

/// Lays bytes, which begin at a multiple of 16 in the body.
pub(crate) fn lay_bytes(
    ground: &Ground,
    bodies: &mut Bodies,
    bytes: &[u8],
) -> Result<u32, AllocError>
    requires { HasRoom ground.now.base bodies.old ((length bytes.now + 7) / 8) }
    ensures lays { IfOk result (λ w. LaysBy (lent_of ground.now.lent)
        (at_base ground.now.base) (laid_of bodies.old) (binary bytes.now) (laid_of bodies.new) w) }
    ensures takes { OnOk result (TakesNoMore ground.now.base bodies.old bodies.new
        ((length bytes.now + 7) / 8)) }
{
    if bytes.is_empty() {
        return Ok(word(ResourceReprType::Binary, 0));
    }
    let skipped = (28 - (ground.base + bodies.tail.len()) % 16) % 16;
    let at = tail_value(ground.base, &bodies.tail, skipped);
    put_fill(&mut bodies.tail, skipped)?;
    put_word(&mut bodies.tail, bytes.len() as u32)?;
    bodies.tail.extend_from_slice(bytes)?;
    put_fill(&mut bodies.tail, (4 - bytes.len() % 4) % 4)?;
    Ok(word(ResourceReprType::Binary, at))
}

/// Lays numbers.
pub(crate) fn lay_numbers(
    ground: &Ground,
    bodies: &mut Bodies,
    numbers: &[u32],
) -> Result<u32, AllocError>
    requires { HasRoom ground.now.base bodies.old ((length numbers.now + 1) / 2) }
    ensures lays { IfOk result (λ w. LaysBy (lent_of ground.now.lent)
        (at_base ground.now.base) (laid_of bodies.old) (int_vector numbers.now)
        (laid_of bodies.new) w) }
    ensures takes { OnOk result (TakesNoMore ground.now.base bodies.old bodies.new
        ((length numbers.now + 1) / 2)) }
{
    if numbers.is_empty() {
        return Ok(word(ResourceReprType::IntVector, 0));
    }
    let at = tail_value(ground.base, &bodies.tail, 0);
    put_counted(&mut bodies.tail, numbers)?;
    Ok(word(ResourceReprType::IntVector, at))
}

/// Lays an alias's path.
pub(crate) fn lay_path(ground: &Ground, bodies: &mut Bodies, path: &str) -> Result<u32, AllocError>
    requires { HasRoom ground.now.base bodies.old ((length (units path.now) + 3) / 4) }
    ensures lays { IfOk result (λ w. LaysBy (lent_of ground.now.lent)
        (at_base ground.now.base) (laid_of bodies.old) (alias path.now) (laid_of bodies.new) w) }
    ensures takes { OnOk result (TakesNoMore ground.now.base bodies.old bodies.new
        ((length (units path.now) + 3) / 4)) }
{
    if path.is_empty() {
        return Ok(word(ResourceReprType::_Alias, 0));
    }
    let at = tail_value(ground.base, &bodies.tail, 0);
    put_path(&mut bodies.tail, path)?;
    Ok(word(ResourceReprType::_Alias, at))
}
