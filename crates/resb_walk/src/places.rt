//! Where keys and strings stand that a file tells by number: among its own, or in its pool.
//! What stands there is found in `standing`.
ghost use Rattle.std.specs.Prelude.{◌≡◌};
ghost use Rattle.resb_format.specs.Bytes.{units_of};
ghost use Rattle.resb_format.specs.Parts.{parts_in};
ghost use Rattle.resb_format.specs.Lookups as lookups;
ghost use Rattle.resb_format.specs.Lookups.{index_in};
ghost use Rattle.resb_walk.specs.Inner.Places.{TellsKey, TellsText};

use crate::members::WIDE;
use resb_format::{FileBlocks, PoolBlocks};

/// A byte of a key block or a unit of a 16-bit block: in the file's own, or in that of its pool.
#[derive(Clone, Copy)]
pub(crate) enum Place<'a> {
    Own(usize),
    Lent(PoolBlocks<'a>, usize),
}

/// The position that an entry has, without what one of 32 bits is more.
#[inline(always)]
pub(crate) fn position_in(position: usize) -> usize
    ensures { result ≡ lookups.position_in position }
{
    if position < WIDE {
        return position;
    }
    position - WIDE
}

/// The byte that an entry's position tells, and whose key block it is in.
#[inline(always)]
#[tactic(auto, unfolding(resb_format::specs::Lookups::key_place_by))]
pub(crate) fn key_spot(file: FileBlocks<'_>, position: usize) -> Place<'_>
    ensures { TellsKey file.entry position result }
{
    let byte = position_in(position);
    if byte < file.keys.len() {
        return Place::Own(byte);
    }
    let Some(pool) = file.pool else {
        return Place::Own(byte);
    };
    if position < WIDE {
        return Place::Lent(pool, position - file.keys.len());
    }
    if byte < 0x8000_0000 {
        return Place::Own(byte);
    }
    Place::Lent(pool, byte - 0x8000_0000)
}

/// The key block and the byte of it that an entry's position tells.
#[inline(always)]
pub fn key_place(file: FileBlocks<'_>, position: usize) -> (&[u8], usize)
    ensures { lookups.key_place (parts_in file.entry) position ≡ (result.0.now, result.1) }
{
    match key_spot(file, position) {
        Place::Own(at) => (file.keys, at),
        Place::Lent(pool, at) => (pool.keys, at),
    }
}

/// The unit that an index tells, and whose 16-bit block it is in.
#[inline(always)]
#[tactic(auto, unfolding(resb_format::specs::Lookups::text_place_by))]
pub(crate) fn text_spot(file: FileBlocks<'_>, index: usize) -> Place<'_>
    ensures { TellsText file.entry index result }
{
    let Some(pool) = file.pool else {
        return Place::Own(index);
    };
    let limit = pool.limit as usize;
    if index < limit {
        return Place::Lent(pool, index);
    }
    Place::Own(index - limit)
}

/// The 16-bit block and the unit of it that an index tells.
#[inline(always)]
pub fn text_place(file: FileBlocks<'_>, index: usize) -> (&[u8], usize)
    ensures { lookups.text_place (parts_in file.entry) index ≡ (units_of result.0.now, result.1) }
{
    match text_spot(file, index) {
        Place::Own(unit) => (file.block, unit),
        Place::Lent(pool, unit) => (pool.block, unit),
    }
}

/// The index of the string that a unit of a short collection tells.
#[inline(always)]
#[tactic(auto, unfolding(resb_format::specs::Lookups::index_by))]
pub fn index_of(file: FileBlocks<'_>, unit: u16) -> usize
    ensures { result ≡ index_in (parts_in file.entry) unit }
{
    let Some(pool) = file.pool else {
        return usize::from(unit);
    };
    if unit < pool.short_limit {
        return usize::from(unit);
    }
    usize::from(unit - pool.short_limit) + pool.limit as usize
}
