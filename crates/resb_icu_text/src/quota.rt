//! How many bytes of memory a reading may still make, and what is counted of it.
//! What each step adds is said in the grammar; `steps` and `leaf` ask for it before it is made.
ghost use Rattle.std.specs.Prelude.{◌≡◌, ◌+◌, ◌*◌, false, length, MatchResult};
ghost use Rattle.resb_grammar.specs.Limit.{request_bytes};
ghost use Rattle.resb_tree.specs.Weights.{text_byte_weight};
ghost use Rattle.resb_icu_grammar.specs.Limit.{key_bytes};
ghost use Rattle.resb_icu_text.specs.Inner.Quota.{TakesBytes, RunsOver};

use crate::turns::IcuTurns;
use resb_grammar::{Limit, Weights};
use resb_tree::{NoMemory, weights};

/// How many bytes may still be made, what is counted for each thing, and whether more were asked
/// for.
#[derive(Drop)]
pub(crate) struct Quota {
    left: u64,
    pub(crate) weights: Weights,
    pub(crate) is_over: bool,
}

impl Quota {
    /// Nothing is made yet.
    pub(crate) fn new(limit: Limit) -> Quota
        ensures { result ≡ record {
          left = limit.bytes;
          weights = limit.weights;
          is_over = false;
        } }
    {
        Quota {
            left: limit.bytes,
            weights: limit.weights,
            is_over: false,
        }
    }

    /// So many bytes more are made, or more than are left were asked for: then it is as if memory
    /// were wanted.
    pub(crate) fn take(&mut self, bytes: u128) -> Result<(), NoMemory>
        ensures { MatchResult result
            (λ _. TakesBytes self.old self.new bytes) (λ _. RunsOver self.old self.new bytes) }
    {
        if bytes > u128::from(self.left) {
            self.is_over = true;
            return Err(NoMemory);
        }
        self.left -= bytes as u64;
        Ok(())
    }
}

/// What a reading counts: its turns, and the bytes that it makes.
#[derive(Drop)]
pub(crate) struct Meter {
    pub(crate) turns: IcuTurns,
    pub(crate) quota: Quota,
}

impl Meter {
    /// Nothing is counted yet, and so many bytes may be made.
    pub(crate) fn new(limit: Limit) -> Meter
        ensures { result ≡ record {
          turns = record { count = 0 };
          quota = record { left = limit.bytes; weights = limit.weights; is_over = false };
        } }
    {
        Meter {
            turns: IcuTurns::new(),
            quota: Quota::new(limit),
        }
    }
}

/// A number of a vector, where it is read and in the file.
pub(crate) const NUMBER: u128 = 2 * weights::NUMBER;

/// The memory that is asked for one thing alone, beside what it holds.
pub(crate) const REQUEST: u128 = 32;

/// A byte of a binary: itself and its two digits, whether these are put together or not.
pub(crate) const BINARY_BYTE: u128 = 3;

/// So many bytes of a text.
pub(crate) fn text_bytes(length: usize) -> u128
    ensures { result ≡ text_byte_weight * length }
{
    weights::TEXT_BYTE * length as u128
}

/// A group that holds a string or a path of so many bytes, and the memory that is asked for it.
pub(crate) fn asked_bytes(weights: Weights, length: usize) -> u128
    ensures { result ≡ weights.group + text_byte_weight * length + request_bytes + length }
{
    weights.group as u128 + REQUEST + text_bytes(length) + length as u128
}

/// The key of an entry.
pub(crate) fn key_bytes(weights: Weights, key: &str) -> u128
    ensures { result ≡ key_bytes weights key.now }
{
    weights.entry as u128 + text_bytes(key.len())
}
