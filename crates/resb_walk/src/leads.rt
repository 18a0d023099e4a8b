//! What a member leads to, by one look at its word's type.
//! A string is told by its index, or by the word of its count: `checker` and `scale` look at it.
ghost use Rattle.resb_format.specs.Parts.{parts_in};
ghost use Rattle.resb_walk.specs.Inner.Leads.{LeadsTo, Shows};
ghost use Rattle.resb_walk.specs.Inner.Members.{member_of};

use crate::members::{Member, Standing};
use crate::places::index_of;
use crate::standing::standing_of;
use crate::types::readable;
use resb_format::{BinaryDeserializerError, FileBlocks, ResourceReprType};

/// The upper bits of a string's word.
const STRINGS: u32 = ResourceReprType::StringV2 as u32;

/// The upper bits of a number's word.
const INTEGERS: u32 = ResourceReprType::Int as u32;

/// What a member leads to.
#[derive(Clone, Copy)]
pub(crate) enum Lead<'a> {
    /// The string with this index.
    Text(usize),
    /// The text in the body whose count stands at this word: a string of the older form, or an
    /// alias's path.
    Counted(usize),
    /// A resource whose texts needn't be looked at.
    Plain(Standing<'a>),
}

/// What a member is, as far as the upper bits of its word show.
#[derive(Clone, Copy)]
pub(crate) enum Glance {
    /// The string with this index.
    Text(usize),
    /// A number, in the lower 28 bits of this word.
    Integer(u32),
    /// Any other resource, at this word.
    Other(u32),
}

/// What a member is, by a glance: most are strings and numbers, of which no more needs to be known.
#[inline(always)]
#[tactic(auto, unfolding(resb_format::specs::Content::content_at))]
pub(crate) fn glance_at(file: FileBlocks<'_>, member: Member) -> Glance
    ensures { Shows (parts_in file.entry) (member_of member) result }
{
    let word = match member {
        Member::Word(word) => word,
        Member::Unit(unit) => return Glance::Text(index_of(file, unit)),
    };
    match (word / 0x1000_0000, word % 0x1000_0000) {
        (STRINGS, value) if value != 0 => Glance::Text(value as usize),
        (INTEGERS, _) => Glance::Integer(word),
        _ => Glance::Other(word),
    }
}

/// What a member leads to. Of a string, no unit is looked at.
#[inline(always)]
#[tactic(auto, unfolding(resb_format::specs::Content::content_at))]
pub(crate) fn lead_at(
    file: FileBlocks<'_>,
    member: Member,
) -> Result<Lead<'_>, BinaryDeserializerError>
    ensures { LeadsTo (parts_in file.entry) (member_of member) result }
{
    let word = match member {
        Member::Word(word) => word,
        Member::Unit(unit) => return Ok(Lead::Text(index_of(file, unit))),
    };
    match readable(file, word)? {
        (ResourceReprType::StringV2, value) if value != 0 => Ok(Lead::Text(value as usize)),
        (ResourceReprType::_String | ResourceReprType::_Alias, value) if value != 0 => {
            Ok(Lead::Counted(value as usize))
        }
        (kind, value) => Ok(Lead::Plain(standing_of(file, word, kind, value)?)),
    }
}
