//! A blame: the error, the path to the resource that was refused, and the field that it lacks.
//! Which types say what of a place is in `blames`, what a blame prints as in `message`.
use resb_diff::PathStep;
use resb_format::ReadingError;
use resb_tree::NoMemory;
use std::alloc::Global;
use std::marker::Model;

/// What is to blame for a refusal.
/// It prints as the steps of the path with `/` between them, `: ` and the error, and then `: ` and
/// the name of the field, if one is missing; without a step as the error and the name alone. In a
/// key of the path, `~1` stands for a slash and `~0` for a tilde (RFC 6901).
#[derive(Drop)]
pub struct Blame<'de, 'm> {
    pub(crate) error: ReadingError<'m>,
    /// The steps from the innermost to the root's.
    pub(crate) steps: Vec<PathStep<'de>>,
    pub(crate) field: Option<&'de str>,
}

impl<'de, 'm> Model for Blame<'de, 'm> {
    ghost use Rattle.std.specs.Prelude.{map, reverse, option_map};
    ghost use Rattle.resb_diff.specs.Paths.{step_of};
    ghost use Rattle.resb_blame.specs.Blamed.{Blamed};

    ghost Value = { Blamed };

    ghost view = { λ b. record {
      error = b.error;
      path = reverse (map step_of b.steps.items);
      field = option_map (λ s. s.now) b.field;
    } };
}

impl<'de, 'm> Blame<'de, 'm> {
    ghost use Rattle.std.specs.Prelude.{◌≡◌, ◌⊎◌, ◌∷◌, [], Some, None, map, option_map, IfOk};
    ghost use Rattle.resb_diff.specs.Paths.{step_of};
    ghost use Rattle.resb_format.specs.Error.{IsWantOfMemory};
    ghost use Rattle.resb_blame.specs.Blamed.{Blamed, IsUnder, IsHere};

    /// The resource itself, as a whole.
    pub fn whole(alloc: Global, error: ReadingError<'m>) -> Blame<'de, 'm>
        ensures { result ≡ record { error = error.entry; path = []; field = None } }
    {
        Blame {
            error,
            steps: Vec::new(alloc),
            field: None,
        }
    }

    /// The resource itself, a table that has no entry of a field's name.
    pub fn lacking(alloc: Global, error: ReadingError<'m>, field: &'de str) -> Blame<'de, 'm>
        ensures { result ≡ record { error = error.entry; path = []; field = Some field.entry.now } }
    {
        Blame {
            error,
            steps: Vec::new(alloc),
            field: Some(field),
        }
    }

    /// This blame, seen from outside of what it was seen from: a step more leads to it. Where there
    /// is no memory for the step, want of memory is to blame, without a path or a field.
    pub fn under(mut self, step: PathStep<'de>) -> Blame<'de, 'm>
        ensures leads { IsUnder (step_of step.entry) self.entry result
            ⊎ IsWantOfMemory result.error }
        ensures alone { IsUnder (step_of step.entry) self.entry result ⊎ IsHere result }
    {
        if let Err(full) = self.steps.push(step) {
            self.error = ReadingError::from(full);
            self.steps.clear();
            self.field = None;
        }
        self
    }

    /// The steps from the root to the resource that was refused.
    pub fn path(&self, alloc: Global) -> Result<Vec<PathStep<'de>>, NoMemory>
        ensures { IfOk result (λ v. map step_of v.items ≡ self.now.path) }
    {
        let mut path = Vec::from_slice(alloc, &self.steps)?;
        path.reverse();
        Ok(path)
    }

    /// The error.
    pub fn error(&self) -> ReadingError<'m>
        ensures { result ≡ self.now.error }
    {
        self.error
    }

    /// The name of the field that the resource lacks, if that is what is wrong.
    pub fn field(&self) -> Option<&'de str>
        ensures { option_map (λ s. s.now) result ≡ self.now.field }
    {
        self.field
    }
}
