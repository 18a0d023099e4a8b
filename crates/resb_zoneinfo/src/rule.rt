//! The rule that a zone follows from its final year on: each year clocks go forward and back.
//! When in a year they do is said in `edge`, and what stood before the final year in `zone`.
ghost use Rattle.std.specs.Prelude.{◌≡◌, ◌+◌, ◌<◌, ◌≤◌, ◌^◌, Some, None, MatchResult, length, pos};
ghost use Rattle.resb.specs.Views.{number_words};
ghost use Rattle.resb_zoneinfo.specs.Edges.{IsStandard, clock_reading, SaysEdgeAt, edge_fault_at};

use crate::civil::year_of;
use crate::edge::{Clock, Edge};
use crate::numbers::RuleError;
use resb::binary::helpers::I32View;

/// Seconds from the begin of the year 0 to that of 1970.
pub(crate) const BEFORE_1970: u64 = 62_167_219_200;

/// A rule for all years: when in a year saving begins and ends, and how much is saved.
#[derive(Clone, Copy, Debug)]
pub struct FinalRule {
    /// When saving begins.
    pub start: Edge,
    /// When it ends: in the same year where its month is not before that of the start, else the
    /// year begins and ends with saving.
    pub end: Edge,
    /// How many seconds clocks are ahead meanwhile.
    pub saving: u64,
    ghost saves: { 0 < saving },
    ghost small: { saving < 2 ^ 31 },
}

impl FinalRule {
    ghost use Rattle.resb_zoneinfo.specs.Rules.{SaysRule, rule_fault, saving_fault, IsFinalOffset};
    ghost use Rattle.resb_zoneinfo.specs.Rules.{IsSaving};

    /// The rule that eleven numbers of a file say: five for its start, five for its end, as
    /// `Edge::from_numbers` reads them, and the seconds that are saved. Where there aren't eleven,
    /// that is told, and else the first fault in this order.
    pub fn from_numbers(numbers: I32View<'_>) -> Result<FinalRule, RuleError>
        ensures { let fault = rule_fault (number_words numbers.entry) in MatchResult result
            (λ r. (fault ≡ None) × SaysRule (number_words numbers.entry) r)
            (λ e. fault ≡ Some e) }
    {
        if numbers.len() != 11 {
            return Err(RuleError::Length);
        }
        let start = edge_at(numbers, 0)?;
        let end = edge_at(numbers, 5)?;
        let saving = FinalRule::saving_of(numbers.item(10))?;
        Ok(FinalRule { start, end, saving })
    }

    /// How many seconds are saved, which a number of a file says.
    fn saving_of(saved: i32) -> Result<u64, RuleError>
        ensures { let fault = saving_fault saved in MatchResult result
            (λ n. (fault ≡ None) × (saved ≡ pos n) × (0 < n) × (n < 2 ^ 31)) (λ e. fault ≡ Some e) }
    {
        if saved <= 0 {
            return Err(RuleError::Saving);
        }
        Ok(u64::from(saved.unsigned_abs()))
    }

    /// The offset from universal time in seconds, at a moment in seconds since 1970, of a zone
    /// whose offset without what is saved is given.
    pub fn offset_at(&self, raw: i32, moment: u64) -> i64
        requires { moment < 2 ^ 63 }
        ensures { IsFinalOffset self.now raw moment result }
    {
        let universal = moment + BEFORE_1970;
        let standard = standard_of(universal, raw);
        let year = year_of(standard / 86_400);
        if self.saves_at(year, standard, universal) {
            i64::from(raw) + self.saving.cast_signed()
        } else {
            i64::from(raw)
        }
    }

    /// Whether something is saved in a year when the clocks of standard and universal time show
    /// these seconds since the year 0.
    fn saves_at(&self, year: u64, standard: u64, universal: u64) -> bool
        requires early { 1 ≤ year }
        requires small { year < 2 ^ 39 }
        requires fits { standard < 2 ^ 63 + 2 ^ 62 }
        ensures { IsSaving self.now year standard universal result }
    {
        let start = self.start.time_in(year);
        let end = self.end.time_in(year);
        let begun = start <= reading(self.start.clock, standard, universal, 0);
        let ended = end <= reading(self.end.clock, standard, universal, self.saving);
        if self.start.month <= self.end.month {
            begun && !ended
        } else {
            begun || !ended
        }
    }
}

/// The change that five numbers say, from the one at a place on.
fn edge_at(numbers: I32View<'_>, from: usize) -> Result<Edge, RuleError>
    requires small { from ≤ 5 }
    requires there { from + 5 ≤ length (number_words numbers) }
    ensures { let fault = edge_fault_at (number_words numbers.entry) from in MatchResult result
        (λ e. (fault ≡ None) × SaysEdgeAt (number_words numbers.entry) from e)
        (λ e. fault ≡ Some e) }
{
    Edge::from_numbers(
        numbers.item(from),
        numbers.item(from + 1),
        numbers.item(from + 2),
        numbers.item(from + 3),
        numbers.item(from + 4),
    )
}

/// What a clock shows, where those of standard and universal time show these and clocks on walls
/// are ahead by so much.
fn reading(clock: Clock, standard: u64, universal: u64, ahead: u64) -> u64
    requires { standard + ahead < 2 ^ 64 }
    ensures { result ≡ clock_reading clock standard universal ahead }
{
    match clock {
        Clock::Wall => standard + ahead,
        Clock::Standard => standard,
        Clock::Universal => universal,
    }
}

/// What the clock of standard time shows when that of universal time shows this.
fn standard_of(universal: u64, raw: i32) -> u64
    requires late { 2 ^ 32 ≤ universal }
    requires fits { universal < 2 ^ 63 + 2 ^ 61 }
    ensures { IsStandard universal raw result }
{
    let size = u64::from(raw.unsigned_abs());
    if raw < 0 {
        universal - size
    } else {
        universal + size
    }
}
