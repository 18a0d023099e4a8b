//! The budget of a walk through a file, in resources.
//! How much a file has of it is said where the crate above opens one.
ghost use Rattle.std.specs.Prelude.{◌≡◌, ◌<◌, ℕ, ◌+◌, MatchResult};
ghost use Rattle.resb_walk.specs.Refusals.{IsSpent};

use crate::faults::budget_spent;
use resb_format::BinaryDeserializerError;
use std::marker::Model;

/// How many resources may still be read. It never grows.
#[derive(Drop)]
pub struct Walk {
    left: usize,
}

impl Model for Walk {
    ghost Value = { ℕ };

    ghost view = { λ w. w.left };
}

impl Walk {
    /// A walk that may read so many resources.
    pub fn new(left: usize) -> Walk
        ensures { result ≡ left }
    {
        Walk { left }
    }

    /// How many resources may still be read.
    pub fn left(&self) -> usize
        ensures { result ≡ self.now }
    {
        self.left
    }

    /// Pays for one resource, where the budget isn't spent.
    pub(crate) fn spend(&mut self)
        requires { 0 < self.old }
        ensures { self.new + 1 ≡ self.old }
    {
        self.left -= 1;
    }

    /// Pays for one resource.
    pub fn pay(&mut self) -> Result<(), BinaryDeserializerError>
        ensures { MatchResult result (λ _. self.new + 1 ≡ self.old)
            (λ e. IsSpent e × (self.old ≡ 0) × (self.new ≡ 0)) }
    {
        if self.left == 0 {
            return Err(budget_spent());
        }
        self.left -= 1;
        Ok(())
    }
}
