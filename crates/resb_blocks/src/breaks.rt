//! Where units of a 16-bit block don't join, counted once, so that any part of the block is known
//! to be a text by its two ends and at most two steps of units.
ghost use Rattle.std.specs.Prelude.{◌≡◌, ◌+◌, ◌-◌, ◌*◌, ◌/◌, ◌<◌, ◌≤◌, length, take, drop};
ghost use Rattle.std.specs.Prelude.{IfOk, IsTrue, ◌↔◌};
ghost use Rattle.std.specs.Char.Utf16.{is_high_surrogate, is_low_surrogate};
ghost use Rattle.resb_format.specs.Bytes.{units_of};
ghost use Rattle.resb_blocks.specs.Links.{break_of, break_count, AreCounted, IsWellFormed};

use resb_format::bytes::unit_at;
use resb_tree::NoMemory;
use std::alloc::Global;

/// From one count of breaks to the next there are so many units.
const STEP: usize = 64;

/// The breaks of a 16-bit block: how many stand before each unit whose number is a multiple of
/// `STEP`.
#[derive(Drop)]
pub struct Breaks<'a> {
    block: &'a [u8],
    before: Vec<usize>,
    ghost counted: { AreCounted (units_of block.now) before.items },
    ghost whole: { length block.now / 2 ≤ 64 * length before.items },
}

/// Whether it is the first unit of a pair.
pub fn is_high(unit: u16) -> bool
    ensures { result ≡ is_high_surrogate unit }
{
    0xd800 <= unit && unit < 0xdc00
}

/// Whether it is the second unit of a pair.
pub fn is_low(unit: u16) -> bool
    ensures { result ≡ is_low_surrogate unit }
{
    0xdc00 <= unit && unit < 0xe000
}

/// 1 where one of two neighbours asks for the other to be a pair and gets none, else 0.
fn break_between(unit: u16, next: u16) -> usize
    ensures { result ≡ break_of unit next }
{
    if is_high(unit) == is_low(next) { 0 } else { 1 }
}

/// How many breaks stand between so many units from this one on and the units behind them.
fn breaks_in(block: &[u8], from: usize, count: usize) -> usize
    requires { from + count < length block.now / 2 }
    ensures value { result ≡ break_count (units_of block.now) from count }
    ensures few { result ≤ count }
{
    let mut found = 0;
    'units: for number in 0..count {
        let unit = unit_at(block, from + number);
        let next = unit_at(block, from + number + 1);
        found += break_between(unit, next);
    }
    found
}

impl<'a> Breaks<'a> {
    ghost use Rattle.std.specs.Prelude.{◌≡◌, ◌+◌, ◌/◌, ◌≤◌, length, take, drop, IfOk, IsTrue, ◌↔◌};
    ghost use Rattle.resb_format.specs.Bytes.{units_of};
    ghost use Rattle.resb_blocks.specs.Links.{break_count, IsWellFormed};
    ghost use Rattle.resb_blocks.specs.Blocks.{breaks_block};

    /// The breaks of a block.
    pub fn of_block(alloc: Global, block: &'a [u8]) -> Result<Breaks<'a>, NoMemory>
        ensures { IfOk result (λ r. breaks_block r ≡ block.entry.now) }
    {
        let count = block.len() / 2;
        let mut before = Vec::with_capacity(alloc, count / STEP + 1)?;
        let mut total = 0;
        let mut number = 0;
        'steps: while number < count {
            before.push(total)?;
            total += breaks_in(block, number, STEP.min(count - number - 1));
            number += STEP;
        }
        Ok(Breaks { block, before })
    }

    /// Whether no break stands from one unit up to another.
    fn are_joined(&self, from: usize, end: usize) -> bool
        requires order { from ≤ end }
        requires inside { end < length (breaks_block self.now) / 2 }
        ensures { IsTrue result
            ↔ (break_count (units_of (breaks_block self.now)) from (end - from) ≡ 0) }
    {
        let first = from / STEP + 1;
        let last = end / STEP;
        if first >= last {
            return breaks_in(self.block, from, end - from) == 0;
        }
        if self.before[first] != self.before[last] {
            return false;
        }
        let front = breaks_in(self.block, from, STEP * first - from);
        let back = breaks_in(self.block, STEP * last, end - STEP * last);
        front + back == 0
    }

    /// Whether so many units from this one on are a text: each surrogate has its partner.
    pub fn is_text(&self, from: usize, count: usize) -> bool
        requires { from + count ≤ length (breaks_block self.now) / 2 }
        ensures { IsTrue result
            ↔ IsWellFormed (take count (drop from (units_of (breaks_block self.now)))) }
    {
        if count == 0 {
            return true;
        }
        let end = from + count - 1;
        if is_low(unit_at(self.block, from)) {
            return false;
        }
        if is_high(unit_at(self.block, end)) {
            return false;
        }
        self.are_joined(from, end)
    }
}
