//! The differences that were found: what each is, and its path.
//! How they are found is in `walk`.
ghost use Rattle.std.specs.Prelude.{◌≡◌, ◌↔◌, [], length, IsTrue, IfOk, option_map, slice_get};
ghost use Rattle.resb_diff.specs.View.{differences_in, difference_at};

use crate::paths::{PathStep, Paths};
use resb_tree::{NoMemory, Resource};
use std::alloc::Global;

/// What was done at a path.
#[derive(Clone, Copy)]
pub enum Change<'t, 'a, 'b> {
    /// The new tree has this, and the old one nothing.
    Added(&'t Resource<'b>),
    /// The old tree had this, and the new one has nothing.
    Removed(&'t Resource<'a>),
    /// The old tree had the first, and the new one has the second.
    Changed(&'t Resource<'a>, &'t Resource<'b>),
}

/// A change, and the number of its path.
#[derive(Clone, Copy)]
pub(crate) struct Found<'t, 'a, 'b> {
    pub(crate) path: usize,
    pub(crate) change: Change<'t, 'a, 'b>,
}

/// The differences between two trees, in the order of their paths. Their values are borrowed.
#[derive(Drop)]
pub struct Differences<'t, 'a, 'b> {
    pub(crate) paths: Paths<'t>,
    pub(crate) found: Vec<Found<'t, 'a, 'b>>,
}

/// A change, and the steps of its path.
#[derive(Drop)]
pub struct ChangeAt<'t, 'a, 'b> {
    /// The steps from the root.
    pub path: Vec<PathStep<'t>>,
    /// What was done there.
    pub change: Change<'t, 'a, 'b>,
}

impl<'t, 'a, 'b> Differences<'t, 'a, 'b> {
    /// How many differences there are.
    pub fn len(&self) -> usize
        ensures { result ≡ length (differences_in self.now) }
    {
        self.found.len()
    }

    /// Whether there are none.
    pub fn is_empty(&self) -> bool
        ensures { IsTrue result ↔ (differences_in self.now ≡ []) }
    {
        self.found.is_empty()
    }

    /// The difference of this number, the first of which is 0. Its path is listed anew.
    pub fn get(
        &self,
        alloc: Global,
        number: usize,
    ) -> Result<Option<ChangeAt<'t, 'a, 'b>>, NoMemory>
        ensures { IfOk result
            (λ c. option_map difference_at c ≡ slice_get (differences_in self.now) number) }
    {
        let Some(found) = self.found.get(number) else {
            return Ok(None);
        };
        let path = self.paths.steps(alloc, found.path)?;
        Ok(Some(ChangeAt {
            path,
            change: found.change,
        }))
    }
}
