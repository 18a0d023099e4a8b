//! The numbers of a file's rules: naturals up to a limit, numbers by their signs, and days.
//! What a whole change of clocks is read from is said in `edge`.
ghost use Rattle.std.specs.Prelude.{◌≡◌, ◌<◌, ◌≤◌, pos, Some, None, false, true, IsTrue};
ghost use Rattle.std.specs.Prelude.{MatchOption, MatchResult};
ghost use Rattle.resb_zoneinfo.specs.RuleDays.{is_real};
ghost use Rattle.resb_zoneinfo.specs.Message.{rule_message};
ghost use Rattle.resb_zoneinfo.specs.Numbers as numbers;
ghost use Rattle.resb_zoneinfo.specs.Numbers.{is_within, SaysDay, IsSigned};

use crate::civil::month_length;
use crate::day::RuleDay;
use std::error::Error;
use std::fmt;

/// Why numbers of a file are no rule.
#[derive(Clone, Copy, Debug, PartialEq, Eq)]
pub enum RuleError {
    /// There are not eleven numbers.
    Length,
    /// A month that is not 0 to 11.
    Month,
    /// A weekday that is not -7 to 7.
    Weekday,
    /// A day that the month does not have, or that is not the first to fifth of a weekday.
    Day,
    /// A time that is not within a day.
    Time,
    /// A clock that is not 0, 1 or 2.
    Clock,
    /// Nothing, or less than nothing, is saved.
    Saving,
}

impl fmt::Display for RuleError {
    ghost output = { λ e. Some (rule_message e) };

    fn fmt<W: fmt::Write>(&self, f: &mut fmt::Formatter<W>) -> fmt::Result {
        match self {
            RuleError::Length => write!(f, "it has not eleven numbers"),
            RuleError::Month => write!(f, "a month is not 0 to 11"),
            RuleError::Weekday => write!(f, "a weekday is not -7 to 7"),
            RuleError::Day => write!(f, "its month has no such day"),
            RuleError::Time => write!(f, "a time is not within a day"),
            RuleError::Clock => write!(f, "a clock is not 0, 1 or 2"),
            RuleError::Saving => write!(f, "it saves nothing"),
        }
    }
}

impl Error for RuleError {}

/// A number of a file that is to be one from 0 up to a limit.
pub(crate) fn natural(number: i32, limit: u64) -> Option<u64>
    ensures { MatchOption result (is_within limit number ≡ false)
        (λ n. (is_within limit number ≡ true) × (number ≡ pos n) × (n ≤ limit)) }
{
    if number < 0 {
        return None;
    }
    let size = u64::from(number.unsigned_abs());
    if limit < size { None } else { Some(size) }
}

/// A number with its sign.
#[derive(Clone, Copy)]
enum Signed {
    Up(u64),
    Down(u64),
}

/// Takes the sign from a number.
fn sign_of(number: i32) -> Signed
    ensures { IsSigned number result }
{
    let size = u64::from(number.unsigned_abs());
    if number < 0 {
        Signed::Down(size)
    } else {
        Signed::Up(size)
    }
}

/// Up to which number a day may go: the fifth of a weekday, or the length of the month, in which
/// February has 29 days.
fn day_limit(month: u64, weekday: i32) -> u64
    requires { month < 12 }
    ensures { result ≡ numbers.day_limit month weekday }
{
    if weekday > 0 {
        5
    } else {
        month_length(0, month)
    }
}

/// The day of a month that two numbers of a file say.
pub(crate) fn day_of(month: u64, day: i32, weekday: i32) -> Result<RuleDay, RuleError>
    requires { month < 12 }
    ensures { let fault = numbers.day_fault month day weekday in MatchResult result
        (λ d. (fault ≡ None) × IsTrue (is_real d) × SaysDay day weekday d)
        (λ e. fault ≡ Some e) }
{
    let (name, number) = (sign_of(weekday), sign_of(day));
    if weekday.unsigned_abs() > 7 {
        return Err(RuleError::Weekday);
    }
    let size = u64::from(day.unsigned_abs());
    if size < 1 || day_limit(month, weekday) < size {
        return Err(RuleError::Day);
    }
    match (name, number) {
        (Signed::Up(0), Signed::Up(number)) => Ok(RuleDay::Number { number }),
        (Signed::Up(0), Signed::Down(_)) => Err(RuleError::Day),
        (Signed::Up(name), Signed::Up(count)) => Ok(RuleDay::Nth {
            count,
            weekday: name - 1,
        }),
        (Signed::Up(name), Signed::Down(count)) => {
            Ok(RuleDay::NthLast {
                count,
                weekday: name - 1,
            })
        }
        (Signed::Down(name), Signed::Up(number)) => Ok(RuleDay::From {
            number,
            weekday: name - 1,
        }),
        (Signed::Down(name), Signed::Down(number)) => {
            Ok(RuleDay::UpTo {
                number,
                weekday: name - 1,
            })
        }
    }
}
