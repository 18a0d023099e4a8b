//! When in a year clocks change, and how five numbers of a file say it.
//! What a rule of two such changes makes of a moment is said in `rule`.
ghost use Rattle.std.specs.Prelude.{◌≡◌, ◌<◌, ◌≤◌, ◌^◌, IsTrue, Some, None, MatchResult};
ghost use Rattle.resb_zoneinfo.specs.RuleDays.{is_real};

use crate::day::RuleDay;
use crate::numbers::{RuleError, day_of, natural};

/// By which clock a time is read.
#[derive(Clone, Copy, Debug)]
pub enum Clock {
    /// The clock on the wall, which shows what was saved too.
    Wall,
    /// The zone's clock without what is saved.
    Standard,
    /// The clock of universal time.
    Universal,
}

/// A change of clocks that comes each year: on a day of a month, when a clock shows a time.
#[derive(Clone, Copy, Debug)]
pub struct Edge {
    /// The month, where 0 is January.
    pub month: u64,
    /// The day of the month.
    pub day: RuleDay,
    /// The time, in seconds from the day's begin.
    pub seconds: u64,
    /// The clock that shows the time.
    pub clock: Clock,
    ghost in_year: { month < 12 },
    ghost in_month: { IsTrue (is_real day) },
    ghost in_day: { seconds ≤ 86400 },
}

impl Edge {
    ghost use Rattle.resb_zoneinfo.specs.Edges.{IsTimeIn, SaysEdge, edge_fault};

    /// What the clock shows then in a year: the seconds since the year 0 began.
    pub fn time_in(&self, year: u64) -> u64
        requires early { 1 ≤ year }
        requires small { year < 2 ^ 39 }
        ensures { IsTimeIn self.now year result }
    {
        86_400 * self.day.in_month(year, self.month) + self.seconds
    }

    /// The change that five numbers of a file say: the month from 0 on, the day, the weekday, the
    /// time in seconds and the clock. Without a weekday the day is that of its number; with one
    /// from 1 on, which is Sunday, the first, second .. or from the month's end; with a negative
    /// one the first from a day on or, where that is negative too, the last up to it. The first
    /// fault in this order is told, the weekday's before the day's.
    pub fn from_numbers(
        month: i32,
        day: i32,
        weekday: i32,
        time: i32,
        clock: i32,
    ) -> Result<Edge, RuleError>
        ensures { let fault = edge_fault month day weekday time clock in MatchResult result
            (λ e. (fault ≡ None) × SaysEdge month day weekday time clock e)
            (λ e. fault ≡ Some e) }
    {
        let month = natural(month, 11).ok_or(RuleError::Month)?;
        let day = day_of(month, day, weekday)?;
        let seconds = natural(time, 86_400).ok_or(RuleError::Time)?;
        let clock = match natural(clock, 2).ok_or(RuleError::Clock)? {
            0 => Clock::Wall,
            1 => Clock::Standard,
            _ => Clock::Universal,
        };
        Ok(Edge {
            month,
            day,
            seconds,
            clock,
        })
    }
}
