//! Long tails of keys, which are texts up to a zero byte.
ghost use Rattle.std.specs.Prelude.{◌≡◌, ◌+◌, ◌-◌, ◌<◌, ◌≤◌, length, drop, All};
ghost use Rattle.std.specs.Prelude.{ℕ, IfOk, IfSome, Some, position, ◌==◌};
ghost use Rattle.std.specs.Str.{IsUtf8};
ghost use Rattle.resb_format.specs.Strings.{key_at};
ghost use Rattle.resb_blocks.specs.Tails.{IsTail};
ghost use Rattle.resb_blocks.specs.Inner.Listed.{AreApart, AreListed};

use resb_tree::NoMemory;
use std::alloc::Global;

/// A tail of no more bytes than this is not listed.
pub const SHORT_TAIL: usize = 64;

/// A text in the key block, up to a zero byte.
#[derive(Clone, Copy)]
pub struct Tail<'a> {
    pub from: usize,
    pub text: &'a str,
}

/// The long tails of a key block.
#[derive(Drop)]
pub struct LongTails<'a> {
    keys: &'a [u8],
    tails: Vec<Tail<'a>>,
    ghost stand: { All (IsTail keys.now) tails.items },
    ghost apart: { AreApart tails.items },
    ghost whole: { AreListed keys.now tails.items (length keys.now) },
}

/// The number of the first zero byte.
pub fn first_zero(bytes: &[u8]) -> Option<usize>
    ensures { result ≡ position (λ b. b == 0) bytes.now }
{
    bytes.iter().position(|b| *b == 0)
}

/// The longest end that is a text, and how many bytes stand before it.
fn text_end(bytes: &[u8]) -> (usize, &str)
    ensures inside { result.0 ≤ length bytes.now }
    ensures text { result.1.now ≡ drop result.0 bytes.now }
    ensures utf8 { IsUtf8 result.1.now }
    ensures longest { (k : ℕ) → k < result.0 → IsUtf8 (drop k bytes.now) → ⊥ }
{
    let mut before = 0;
    'faults: loop {
        let (_, rest) = bytes.split_at(before);
        match str::from_utf8(rest) {
            Ok(text) => return (before, text),
            Err(error) => before += error.valid_up_to() + 1,
        }
    }
}

impl<'a> LongTails<'a> {
    ghost use Rattle.std.specs.Prelude.{◌≡◌, ◌≤◌, ℕ, List, length, IfOk, IfSome, Some, None};
    ghost use Rattle.std.specs.Prelude.{MatchOption};
    ghost use Rattle.resb_format.specs.Strings.{key_at};
    ghost use Rattle.resb_blocks.specs.Tails.{IsTail};
    ghost use Rattle.resb_blocks.specs.Blocks.{tails_keys};
    ghost use Rattle.resb_blocks.specs.Inner.Listed.{IsLastBefore, AllBehind};

    /// The long tails of a key block.
    pub fn of_keys(alloc: Global, keys: &'a [u8]) -> Result<LongTails<'a>, NoMemory>
        ensures { IfOk result (λ r. tails_keys r ≡ keys.entry.now) }
    {
        let mut tails = Vec::new(alloc);
        let mut start = 0;
        'keys: while start < keys.len() {
            let (_, rest) = keys.split_at(start);
            let Some(end) = first_zero(rest) else {
                break;
            };
            if end > SHORT_TAIL {
                let (key, _) = rest.split_at(end);
                let (before, text) = text_end(key);
                if text.len() > SHORT_TAIL {
                    let from = start + before;
                    tails.push(Tail { from, text })?;
                }
            }
            start += end + 1;
        }
        Ok(LongTails { keys, tails })
    }

    /// A listed tail; the last one that begins at this place or before it, if one does.
    fn near(&self, at: usize) -> Option<Tail<'a>>
        ensures stands { IfSome result (IsTail (tails_keys self.now)) }
        ensures last { MatchOption result (AllBehind self.now.tails.items at)
            (IsLastBefore self.now.tails.items at) }
    {
        let mut low = 0;
        let mut high = self.tails.len();
        'halves: while low < high {
            let middle = low + (high - low) / 2;
            if self.tails[middle].from <= at {
                low = middle + 1;
            } else {
                high = middle;
            }
        }
        if low == 0 {
            return None;
        }
        Some(self.tails[low - 1])
    }

    /// The key at a place, where it is an end of a listed tail; each key of more than `SHORT_TAIL`
    /// bytes is one.
    pub fn key(&self, at: usize) -> Option<&'a str>
        ensures is_key { IfSome result (λ s. key_at (tails_keys self.now) at ≡ Some s.now) }
        ensures each_long { result ≡ None → (s : List ℕ)
            → key_at (tails_keys self.now) at ≡ Some s → length s ≤ 64 }
    {
        let tail = self.near(at)?;
        let (_, text) = tail.text.split_at_checked(at - tail.from)?;
        Some(text)
    }
}
