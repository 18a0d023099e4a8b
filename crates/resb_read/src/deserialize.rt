//! What can be read at a place.
//! The types that come with the crate are read in modules of their own.
ghost use Rattle.std.specs.Prelude.{◌≡◌, ◌≤◌, ◌+◌, ℕ, IfOk, IfErr};
ghost use Rattle.resb_read.specs.Places.{Place, place_of};
ghost use Rattle.resb_read.specs.Reading.{LacksOrMemory};
ghost use Rattle.resb_format.specs.declared.error.ReadingError.{ReadingError};

use crate::cursor::Cursor;
use resb_format::ReadingError;
use resb_walk::Walk;
use std::alloc::Global;

/// A type that can be read at some places of a file.
///
/// Each type says by two relations what is read where: `reads` a value with its count, and `counts`
/// the count alone. A count is the number of resources that a reading takes from the budget.
/// Memory aside, `deserialize` is `Ok` exactly where a count of at most what is left stands.
/// A third relation, `refuses`, says which errors may be answered where it isn't: a type that gives
/// none may answer any.
pub trait Deserialize<'de>: Sized + Drop {
    /// The value is read at the place, with this count.
    ghost reads: { Place → Self → ℕ → Type 0 };

    /// Some value is read at the place, with this count.
    ghost counts: { Place → ℕ → Type 0 };

    /// At the place, with so much left, this error may be answered and so much left behind it.
    ghost refuses: { Place → ℕ → ℕ → ReadingError → Type 0 } = { λ _ _ _ _. Unit {0} };

    /// Reads a value at a place, and takes its count from what is left.
    fn deserialize<'m>(
        alloc: Global,
        at: Cursor<'de>,
        walk: &mut Walk,
    ) -> Result<Self, ReadingError<'m>>
        ensures read { IfOk result
            (λ x. (n : ℕ) × reads (place_of at.entry) x n × (walk.new + n ≡ walk.old)) }
        ensures refused { IfErr result
            (λ e. (walk.new ≤ walk.old) × LacksOrMemory (counts (place_of at.entry)) walk.old e) }
        ensures says { IfErr result (refuses (place_of at.entry) walk.old walk.new) };

    /// The count of every reading is a count of the place.
    ghost counted: { (p : Place) (x : Self) (n : ℕ) → reads p x n → counts p n };

    /// A place has at most one count.
    ghost one_count: { (p : Place) (m n : ℕ) → counts p m → counts p n → m ≡ n };
}
