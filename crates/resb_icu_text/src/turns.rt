//! The counter of a reading's turns.
//! What each function counts is said beside it: the hex digits of a binary too, and the keys where
//! they are listed. What the map of a table asks for isn't counted.
ghost use Rattle.std.specs.Prelude.{◌≡◌, ◌+◌, ◌-◌, ◌^◌, ◌≤◌, min};

/// A counter of turns: one for each byte that a loop of the reader passes, and one for each of its
/// rounds that passes none. Each byte of a binary's string counts two more, since its digits are
/// looked at and decoded, and each key one more where the keys are listed. It stays where it is
/// once it holds the greatest number that it can.
#[derive(Clone, Copy, Debug, PartialEq, Eq)]
pub struct IcuTurns {
    count: u64,
}

impl IcuTurns {
    /// A counter that stands at 0.
    pub fn new() -> IcuTurns
        ensures { result ≡ record { count = 0 } }
    {
        IcuTurns { count: 0 }
    }

    /// How many turns were counted.
    pub fn count(&self) -> u128
        ensures { result ≡ self.now.count }
    {
        u128::from(self.count)
    }

    /// Counts turns.
    pub(crate) fn add(&mut self, turns: usize)
        ensures counted { self.new.count ≡ min (self.old.count + turns) (2 ^ 64 - 1) }
        ensures most { self.new.count ≤ self.old.count + turns }
    {
        self.count = self.count.saturating_add(turns as u64);
    }

    /// Counts the turns of a reading that had a counter of its own.
    pub(crate) fn add_counted(&mut self, turns: IcuTurns)
        ensures counted { self.new.count ≡ min (self.old.count + turns.count) (2 ^ 64 - 1) }
        ensures grows { self.old.count ≤ self.new.count }
        ensures most { self.new.count ≤ self.old.count + turns.count }
    {
        self.count = self.count.saturating_add(turns.count);
    }
}
