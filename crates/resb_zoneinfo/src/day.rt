//! Which day of a month a rule names, and which one that is in a given year.
//! The rules are in `rule`.
ghost use Rattle.std.specs.Prelude.{◌+◌, ◌<◌, ◌≤◌, ◌^◌, IsTrue};
ghost use Rattle.resb_zoneinfo.specs.Civil.{year_start};
ghost use Rattle.resb_zoneinfo.specs.RuleDays.{is_real, IsRuleDay};

use crate::civil::{first_on, last_on, month_length, month_start};

/// A day of a month, by its number from 1 on or by its weekday, where 0 is Sunday.
#[derive(Clone, Copy, Debug)]
pub enum RuleDay {
    /// The day of this number, or the month's last where the month is shorter.
    Number {
        /// The day's number.
        number: u64,
    },
    /// The month's first, second .. day of a weekday.
    Nth {
        /// Which one it is, from 1 on.
        count: u64,
        /// The weekday.
        weekday: u64,
    },
    /// The month's last, last but one .. day of a weekday.
    NthLast {
        /// Which one it is, from 1 on.
        count: u64,
        /// The weekday.
        weekday: u64,
    },
    /// The first day of a weekday from a day on.
    From {
        /// The day's number.
        number: u64,
        /// The weekday.
        weekday: u64,
    },
    /// The last day of a weekday up to a day.
    UpTo {
        /// The day's number.
        number: u64,
        /// The weekday.
        weekday: u64,
    },
}

impl RuleDay {
    /// The number of this day, in the sense of `civil`, in a month, where 0 is January. It lies at
    /// most a week behind the year.
    pub fn in_month(&self, year: u64, month: u64) -> u64
        requires real { IsTrue (is_real self.now) }
        requires in_year { month < 12 }
        requires early { 1 ≤ year }
        requires small { year < 2 ^ 47 }
        ensures is { IsRuleDay self.now year month result }
        ensures near { result < year_start (year + 1) + 7 }
    {
        let start = month_start(year, month);
        let length = month_length(year, month);
        match *self {
            RuleDay::Number { number } => start + number.min(length) - 1,
            RuleDay::Nth { count, weekday } => first_on(start + 7 * count - 7, weekday),
            RuleDay::NthLast { count, weekday } => {
                last_on(start + length + 6 - 7 * count, weekday)
            }
            RuleDay::From { number, weekday } => first_on(start + number.min(length) - 1, weekday),
            RuleDay::UpTo { number, weekday } => last_on(start + number.min(length) - 1, weekday),
        }
    }
}
