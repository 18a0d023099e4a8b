//! How many bytes of UTF-8 the units of a 16-bit block take, summed once, so that the length of any
//! text in it is known by few looks. Whether units are a text is found in `breaks`.
ghost use Rattle.std.specs.Prelude.{◌≡◌, ◌+◌, ◌*◌, ◌/◌, ◌<◌, ◌≤◌, length, take, drop, IfOk};
ghost use Rattle.resb_format.specs.Bytes.{units_of};
ghost use Rattle.resb_blocks.specs.Wide.{width_of, text_width, AreSummed};

use crate::breaks::{is_high, is_low};
use resb_format::bytes::unit_at;
use resb_tree::NoMemory;
use std::alloc::Global;

/// From one sum to the next there are so many units.
const STEP: usize = 64;

/// The UTF-8 bytes of a 16-bit block: how many the units before each unit take whose number is a
/// multiple of `STEP`.
#[derive(Drop)]
pub struct Widths<'a> {
    block: &'a [u8],
    before: Vec<usize>,
    ghost summed: { AreSummed (units_of block.now) before.items },
    ghost whole: { length block.now / 2 < 64 * length before.items },
}

/// How many bytes of UTF-8 a unit takes: half of its pair's for a surrogate.
fn width(unit: u16) -> usize
    ensures value { result ≡ width_of unit }
    ensures few { result ≤ 3 }
{
    if unit < 0x80 {
        return 1;
    }
    if unit < 0x800 || is_high(unit) || is_low(unit) {
        return 2;
    }
    3
}

/// How many bytes of UTF-8 so many units from this one on take.
fn width_between(block: &[u8], from: usize, count: usize) -> usize
    requires { from + count ≤ length block.now / 2 }
    ensures value { result ≡ text_width (take count (drop from (units_of block.now))) }
    ensures few { result ≤ 3 * count }
{
    let mut sum = 0;
    'units: for number in 0..count {
        sum += width(unit_at(block, from + number));
    }
    sum
}

impl<'a> Widths<'a> {
    ghost use Rattle.std.specs.Prelude.{◌≡◌, ◌+◌, ◌/◌, ◌≤◌, length, take, drop, IfOk};
    ghost use Rattle.resb_format.specs.Bytes.{units_of};
    ghost use Rattle.resb_blocks.specs.Wide.{text_width};
    ghost use Rattle.resb_blocks.specs.Blocks.{widths_block};

    /// The sums of a block.
    pub fn of_block(alloc: Global, block: &'a [u8]) -> Result<Widths<'a>, NoMemory>
        ensures { IfOk result (λ r. widths_block r ≡ block.entry.now) }
    {
        let count = block.len() / 2;
        let mut before = Vec::with_capacity(alloc, count / STEP + 1)?;
        before.push(0)?;
        let mut total = 0;
        let mut number = 0;
        'steps: while STEP <= count - number {
            total += width_between(block, number, STEP);
            number += STEP;
            before.push(total)?;
        }
        Ok(Widths { block, before })
    }

    /// How many bytes of UTF-8 the units before this one take.
    fn width_before(&self, unit: usize) -> usize
        requires { unit ≤ length (widths_block self.now) / 2 }
        ensures { result ≡ text_width (take unit (units_of (widths_block self.now))) }
    {
        let step = unit / STEP;
        let front = self.before[step];
        front + width_between(self.block, STEP * step, unit - STEP * step)
    }

    /// How many bytes of UTF-8 so many units from this one on take.
    pub fn utf8_len(&self, from: usize, count: usize) -> usize
        requires { from + count ≤ length (widths_block self.now) / 2 }
        ensures { result
            ≡ text_width (take count (drop from (units_of (widths_block self.now)))) }
    {
        self.width_before(from + count) - self.width_before(from)
    }
}
