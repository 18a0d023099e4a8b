//! A zone that was checked: its transitions, what its offset changed to, and its final years.
//! How a zone is read and checked is said in `data`.
ghost use Rattle.std.specs.Prelude.{◌≡◌, ◌≤◌, ◌<◌, ◌/◌, ◌^◌, ℕ, length, slice_index};
ghost use Rattle.resb.specs.Views.{pair_words};
ghost use Rattle.resb_zoneinfo.specs.Transitions.{transition_count};

use crate::civil::year_start;
use crate::rule::{BEFORE_1970, FinalRule};
use crate::transitions::Transitions;
use resb::binary::helpers::PairView;

/// From which year on a zone follows a rule.
#[derive(Clone, Copy, Debug)]
pub struct FinalYears {
    /// The year.
    pub year: u64,
    /// The offset in seconds without what is saved.
    pub raw: i32,
    /// When something is saved.
    pub rule: FinalRule,
    ghost later: { 1970 ≤ year },
    ghost small: { year < 2 ^ 31 },
}

impl FinalYears {
    ghost use Rattle.std.specs.Prelude.{◌<ℤ◌, pos, MatchOption};
    ghost use Rattle.resb_zoneinfo.specs.Offsets.{final_begin, IsInFinalYears};

    /// The moment at which the year begins, in seconds since 1970.
    fn begin(&self) -> u64
        ensures { result ≡ final_begin self.now }
    {
        86_400 * year_start(self.year) - BEFORE_1970
    }

    /// The offset from universal time in seconds, at a moment in seconds since 1970, if the year
    /// has begun then.
    pub fn offset_at(&self, moment: i64) -> Option<i64>
        ensures { MatchOption result (moment <ℤ pos (final_begin self.now))
            (IsInFinalYears self.now moment) }
    {
        let since = moment.unsigned_abs();
        if moment < 0 || since < self.begin() {
            return None;
        }
        Some(self.rule.offset_at(self.raw, since))
    }
}

/// A zone. Each of its transitions has a type, and each type an offset.
#[derive(Clone, Copy)]
pub struct Zone<'de> {
    /// When the offset changed.
    pub transitions: Transitions<'de>,
    /// The type of each transition: a number of an offset.
    pub types: &'de [u8],
    /// Of each type the offset without what is saved, and what is saved, both in seconds.
    pub offsets: PairView<'de>,
    /// The years in which the zone follows a rule.
    pub last: Option<FinalYears>,
    ghost typed: { transition_count transitions ≡ length types.now },
    ghost known: { (k : ℕ) → k < length types.now
        → slice_index types.now k < length (pair_words offsets) / 2 },
    ghost some: { 0 < length (pair_words offsets) / 2 },
}

impl<'de> Zone<'de> {
    ghost use Rattle.resb_zoneinfo.specs.Offsets.{IsOffset, IsPastOffset, type_offset};

    /// The offset from universal time in seconds, at a moment in seconds since 1970: from the final
    /// year on that of the rule, before it that of the last transition at most at the moment, and
    /// before the first transition that of the first type.
    pub fn offset_at(&self, moment: i64) -> i64
        ensures { IsOffset self.now moment result }
    {
        let Some(last) = self.last else {
            return self.past_offset_at(moment);
        };
        match last.offset_at(moment) {
            Some(offset) => offset,
            None => self.past_offset_at(moment),
        }
    }

    /// The offset at a moment by the transitions alone.
    #[tactic(auto, unfolding(crate::specs::Offsets::IsPastOffset))]
    fn past_offset_at(&self, moment: i64) -> i64
        ensures { IsPastOffset self.now moment result }
    {
        for number in (0..self.types.len()).rev() {
            if self.transitions.moment(number) <= moment {
                return self.type_offset(usize::from(self.types[number]));
            }
        }
        self.type_offset(0)
    }

    /// The offset of a type.
    fn type_offset(&self, number: usize) -> i64
        requires { number < length (pair_words self.now.offsets) / 2 }
        ensures { result ≡ type_offset self.now number }
    {
        let pair = self.offsets.item(number);
        i64::from(pair.0) + i64::from(pair.1)
    }
}
