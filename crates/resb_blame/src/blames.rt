//! What is to blame at a place, for a type that isn't read there.
//! What a blame is is said in `blame`; the types that come with the library are in modules of their
//! own.
ghost use Rattle.std.specs.Prelude.{◌≡◌, ◌+◌, ◌⊎◌, ℕ, IfOk, IfErr};
ghost use Rattle.resb_format.specs.Error.{IsWantOfMemory};
ghost use Rattle.resb_read.specs.Places.{Place, place_of};
ghost use Rattle.resb_blame.specs.Blamed.{Blamed, Points};
ghost use Rattle.resb_blame.specs.Blames.{BlamesWhole};
ghost use Rattle.resb_blame.specs.Pointing.{whole_points};

use crate::blame::Blame;
use resb_read::{Cursor, Deserialize, Walk};
use std::alloc::Global;

/// A type that tells what is to blame where it isn't read.
pub trait Blames<'de>: Deserialize<'de> {
    /// At the place, with so much left, this may be blamed and so much left behind it.
    ghost blames: { Place → ℕ → ℕ → Blamed → Type 0 };

    /// Goes through a place as `deserialize` does, and makes no value of it.
    fn blame<'m>(alloc: Global, at: Cursor<'de>, walk: &mut Walk) -> Result<(), Blame<'de, 'm>>
        ensures counted { IfOk result
            (λ _. (n : ℕ) × Self.counts (place_of at.entry) n × (walk.new + n ≡ walk.old)) }
        ensures blamed { IfErr result (λ b. IsWantOfMemory b.error
            ⊎ blames (place_of at.entry) walk.old walk.new b) };

    /// The path leads to a place, and a field that is named is one that the table there lacks.
    ghost points: { (p : Place) (left left' : ℕ) (b : Blamed) → blames p left left' b
        → Points p b };
}

/// A type that is to blame as a whole: nothing that it is read from has a name or a number.
/// A type of one's own becomes one by an empty `impl`.
pub trait Whole<'de>: Deserialize<'de> {}

impl<'de, T: Whole<'de>> Blames<'de> for T {
    ghost blames = { BlamesWhole T.counts T.refuses };

    ghost points = { whole_points T.counts T.refuses };

    fn blame<'m>(alloc: Global, at: Cursor<'de>, walk: &mut Walk) -> Result<(), Blame<'de, 'm>> {
        match T::deserialize(alloc, at, walk) {
            Ok(_) => Ok(()),
            Err(error) => Err(Blame::whole(alloc, error)),
        }
    }
}
