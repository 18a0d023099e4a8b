//! A zone's record checked, so that an offset can be looked up without a fault.
//! Which zone a name stands for is said in `info`.
ghost use Rattle.std.specs.Prelude.{◌≡◌, ◌≤◌, ◌<◌, ℕ, IfOk, IfErr, MatchOption, length};
ghost use Rattle.std.specs.Prelude.{slice_index, Some};
ghost use Rattle.resb_zoneinfo.specs.Checking.{IsChecked, IsZoneFault, IsLast, IsFinalFault};
ghost use Rattle.resb_zoneinfo.specs.Checking.{SaysNamed, IsNamedFault, rule_named};
ghost use Rattle.resb_zoneinfo.specs.Message.{zone_message};

use crate::data::{ZoneData, ZoneInfo};
use crate::numbers::RuleError;
use crate::rule::FinalRule;
use crate::zone::{FinalYears, Zone};
use resb::binary::helpers::I32View;
use std::error::Error;
use std::fmt;

/// Why a file has no offsets of a zone.
#[derive(Clone, Copy, Debug, PartialEq, Eq)]
pub enum ZoneError {
    /// There is no zone of this name.
    NoZone,
    /// A link that leads to no zone, or to another link.
    Link,
    /// There are more transitions than types, or fewer, or half a transition.
    Count,
    /// The zone has no type.
    NoOffset,
    /// A transition to a type that the zone does not have.
    Type,
    /// The zone's final rule is none of the file.
    NoRule,
    /// There is a final rule, and no offset for it.
    NoFinalRaw,
    /// There is a final rule, and no year for it.
    NoFinalYear,
    /// A final year before 1970.
    FinalYear,
    /// The numbers of the final rule are no rule.
    Rule(RuleError),
}

impl fmt::Display for ZoneError {
    ghost output = { λ e. Some (zone_message e) };

    fn fmt<W: fmt::Write>(&self, f: &mut fmt::Formatter<W>) -> fmt::Result {
        match self {
            ZoneError::NoZone => write!(f, "no zone has this name"),
            ZoneError::Link => write!(f, "the zone's link leads to no zone"),
            ZoneError::Count => write!(f, "the zone has not as many transitions as types"),
            ZoneError::NoOffset => write!(f, "the zone has no offset"),
            ZoneError::Type => write!(f, "a transition of the zone has no offset"),
            ZoneError::NoRule => write!(f, "the zone's final rule is none of the file"),
            ZoneError::NoFinalRaw => write!(f, "the zone's final rule has no offset"),
            ZoneError::NoFinalYear => write!(f, "the zone's final rule has no year"),
            ZoneError::FinalYear => write!(f, "the zone's final year is before 1970"),
            ZoneError::Rule(e) => write!(f, "the zone's final rule is none: {e}"),
        }
    }
}

impl Error for ZoneError {}

impl<'de> ZoneData<'de> {
    /// The zone, where each transition has a type, each type an offset, and the final years, if
    /// there are any, a rule.
    pub fn checked(&self, file: &ZoneInfo<'de>) -> Result<Zone<'de>, ZoneError>
        ensures said { IfOk result (IsChecked self.now file.now) }
        ensures refused { IfErr result (IsZoneFault self.now file.now) }
    {
        let types: &'de [u8] = self.types.unwrap_or(&[]);
        if !self.transitions.are(types.len()) {
            return Err(ZoneError::Count);
        }
        if self.offsets.len() == 0 {
            return Err(ZoneError::NoOffset);
        }
        if let Some(_) = first_beyond(types, self.offsets.len()) {
            return Err(ZoneError::Type);
        }
        let last = self.final_years(file)?;
        Ok(Zone {
            transitions: self.transitions,
            types,
            offsets: self.offsets,
            last,
        })
    }

    /// The final years, if there are any.
    fn final_years(&self, file: &ZoneInfo<'de>) -> Result<Option<FinalYears>, ZoneError>
        ensures said { IfOk result (IsLast self.now file.now) }
        ensures refused { IfErr result (IsFinalFault self.now file.now) }
    {
        let Some(name) = &self.final_rule else {
            return Ok(None);
        };
        let raw = self.final_raw.ok_or(ZoneError::NoFinalRaw)?;
        let first = self.final_year.ok_or(ZoneError::NoFinalYear)?;
        if first < 1970 {
            return Err(ZoneError::FinalYear);
        }
        let rule = file.rule_named(name.as_str())?;
        let year = u64::from(first.unsigned_abs());
        Ok(Some(FinalYears { year, raw, rule }))
    }
}

impl<'de> ZoneInfo<'de> {
    /// The rule of this name.
    pub fn rule_named(&self, name: &str) -> Result<FinalRule, ZoneError>
        ensures said { IfOk result (SaysNamed self.now name.now) }
        ensures refused { IfErr result (IsNamedFault self.now name.now) }
    {
        let Some(numbers) = self.numbers_named(name) else {
            return Err(ZoneError::NoRule);
        };
        match FinalRule::from_numbers(numbers) {
            Ok(rule) => Ok(rule),
            Err(error) => Err(ZoneError::Rule(error)),
        }
    }

    /// The numbers of the rule of this name.
    fn numbers_named(&self, name: &str) -> Option<I32View<'de>>
        ensures { result ≡ rule_named name.now self.now }
    {
        self.rules.get(name).copied()
    }
}

/// The first place of a type that is not below the limit.
fn first_beyond(types: &[u8], limit: usize) -> Option<usize>
    ensures { MatchOption result
        ((k : ℕ) → k < length types.entry.now → slice_index types.entry.now k < limit)
        (λ k. (k < length types.entry.now) × (limit ≤ slice_index types.entry.now k)) }
{
    for (place, number) in types.iter().enumerate() {
        if limit <= usize::from(*number) {
            return Some(place);
        }
    }
    None
}
