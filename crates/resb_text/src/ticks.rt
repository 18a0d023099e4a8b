//! How many turns a reading took.
//! The text is no part of it: what looks at the text is in `scan`.
ghost use Rattle.std.specs.Prelude.{◌≡◌};
ghost use Rattle.resb_text.specs.Inner.Ticked.{Ticked};

/// How many turns a reading took, modulo 2^64, so that no call has to ask for room or to test for
/// it.
#[derive(Drop)]
pub(crate) struct Ticks {
    count: u64,
}

impl Ticks {
    /// A counter that stands at 0.
    pub(crate) fn new() -> Ticks
        ensures { result ≡ record { count = 0 } }
    {
        Ticks { count: 0 }
    }

    /// How many turns were counted.
    pub(crate) fn count(&self) -> u64
        ensures { result ≡ self.now.count }
    {
        self.count
    }

    /// Counts so many turns.
    pub(crate) fn add(&mut self, turns: usize)
        ensures { Ticked self.old self.new turns }
    {
        self.count = self.count.wrapping_add(turns as u64);
    }

    /// Counts one turn.
    pub(crate) fn tick(&mut self)
        ensures { Ticked self.old self.new 1 }
    {
        self.add(1);
    }
}
