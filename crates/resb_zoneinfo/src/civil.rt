//! Civil dates: the years, months and weekdays of days, by the Gregorian calendar, which is taken
//! to hold for all years. A day's number counts the days since the first of January of the year 0.
//! At which of them clocks change is said in `rule`.
ghost use Rattle.std.specs.Prelude.{◌≡◌, ◌<◌, ◌≤◌, ◌^◌};
ghost use Rattle.resb_zoneinfo.specs.Civil as civil;
ghost use Rattle.resb_zoneinfo.specs.Civil.{IsInYear, LeapYears, MonthsFollow};
ghost use Rattle.resb_zoneinfo.specs.Civil.{IsFirstOn, IsLastOn};

/// The number of the first day of a year.
pub fn year_start(year: u64) -> u64
    requires { year < 2 ^ 48 }
    ensures { result ≡ civil.year_start year }
{
    365 * year + (year + 3) / 4 + (year + 399) / 400 - (year + 99) / 100
}

/// The year of a day.
pub fn year_of(day: u64) -> u64
    requires { day < 2 ^ 48 }
    ensures { IsInYear day result }
{
    let near = 400 * day / 146_097;
    if day < year_start(near) {
        near - 1
    } else if year_start(near + 1) <= day {
        near + 1
    } else {
        near
    }
}

/// Law: a year has 365 days, and 366 where it is a leap year.
pub fn leap_years()
    ensures { LeapYears }
{}

/// The number of the first day of a month, where 0 is January.
pub fn month_start(year: u64, month: u64) -> u64
    requires real { month < 12 }
    requires small { year < 2 ^ 48 }
    ensures { result ≡ civil.month_start year month }
{
    let days = match month {
        0 => 0,
        1 => 31,
        2 => 59,
        3 => 90,
        4 => 120,
        5 => 151,
        6 => 181,
        7 => 212,
        8 => 243,
        9 => 273,
        10 => 304,
        _ => 334,
    };
    let start = year_start(year) + days;
    if month > 1 && is_leap(year) {
        start + 1
    } else {
        start
    }
}

/// Whether a year is a leap year.
pub fn is_leap(year: u64) -> bool
    ensures { result ≡ civil.is_leap year }
{
    year % 4 == 0 && (year % 100 != 0 || year % 400 == 0)
}

/// How many days a month has, where 0 is January.
pub fn month_length(year: u64, month: u64) -> u64
    requires real { month < 12 }
    ensures { result ≡ civil.month_length year month }
{
    match month {
        1 => if is_leap(year) { 29 } else { 28 },
        3 | 5 | 8 | 10 => 30,
        _ => 31,
    }
}

/// The weekday of a day, where 0 is Sunday.
pub fn weekday_of(day: u64) -> u64
    requires { day < 2 ^ 63 }
    ensures { result ≡ civil.weekday_of day }
{
    (day + 6) % 7
}

/// Law: a month begins behind the last day of the one before, and January with the year.
pub fn months_follow()
    ensures { MonthsFollow }
{}

/// The first day from this one on that is of a weekday, where 0 is Sunday.
pub fn first_on(day: u64, weekday: u64) -> u64
    requires real { weekday < 7 }
    requires small { day < 2 ^ 62 }
    ensures { IsFirstOn day weekday result }
{
    day + (weekday + 7 - weekday_of(day)) % 7
}

/// The last day up to this one that is of a weekday, where 0 is Sunday.
pub fn last_on(day: u64, weekday: u64) -> u64
    requires real { weekday < 7 }
    requires later { 7 ≤ day }
    requires small { day < 2 ^ 62 }
    ensures { IsLastOn day weekday result }
{
    day - (weekday_of(day) + 7 - weekday) % 7
}
