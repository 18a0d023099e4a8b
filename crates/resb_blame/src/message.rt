//! What a blame prints as.
//! What a blame is is said in `blame`.
ghost use Rattle.std.specs.Prelude.{◌≡◌, ◌++◌, Some, map, reverse};
ghost use Rattle.std.specs.Fmt.{WritesOnOk};
ghost use Rattle.resb_diff.specs.Paths.{step_of};
ghost use Rattle.resb_blame.specs.Message.{step_text, divider_text, path_text, blame_text};
ghost use Rattle.resb_blame.specs.Message.{key_text, character_text};

use crate::blame::Blame;
use resb_diff::PathStep;
use std::error::Error;
use std::fmt;

impl fmt::Display for Blame<'_, '_> {
    ghost output = { λ b. Some (blame_text b) };

    fn fmt<W: fmt::Write>(&self, f: &mut fmt::Formatter<W>) -> fmt::Result {
        write_path(f, &self.steps)?;
        let error = self.error;
        match self.field {
            Some(field) => write!(f, "{error}: {field}"),
            None => write!(f, "{error}"),
        }
    }
}

/// It prints as it is shown.
impl fmt::Debug for Blame<'_, '_> {
    ghost debug_output = { λ b. Some (blame_text b) };

    fn fmt<W: fmt::Write>(&self, f: &mut fmt::Formatter<W>) -> fmt::Result {
        fmt::Display::fmt(self, f)
    }
}

impl Error for Blame<'_, '_> {}

/// Writes the path of these steps, which stand from the innermost to the root's.
fn write_path<W: fmt::Write>(f: &mut fmt::Formatter<W>, steps: &[PathStep<'_>]) -> fmt::Result
    ensures { WritesOnOk W.write_str_gives f.old result
        (path_text (reverse (map step_of steps.entry.now))) f.new }
{
    for number in (0..steps.len()).rev() {
        write_step(f, steps[number], divider(&steps[..number]))?;
    }
    Ok(())
}

/// What stands before these steps, which stand from the innermost on.
fn divider(later: &[PathStep<'_>]) -> &'static str
    ensures { result.now ≡ divider_text (reverse (map step_of later.entry.now)) }
{
    if later.is_empty() { ": " } else { "/" }
}

/// Writes a step, and a text behind it.
fn write_step<W: fmt::Write>(
    f: &mut fmt::Formatter<W>,
    step: PathStep<'_>,
    behind: &str,
) -> fmt::Result
    ensures { WritesOnOk W.write_str_gives f.old result
        (step_text (step_of step.entry) ++ behind.entry.now) f.new }
{
    match step {
        PathStep::Key(key) => write_key(f, key)?,
        PathStep::Number(number) => write!(f, "{number}")?,
    }
    f.write_str(behind)
}

/// Writes a key as a step of a path.
fn write_key<W: fmt::Write>(f: &mut fmt::Formatter<W>, key: &str) -> fmt::Result
    ensures { WritesOnOk W.write_str_gives f.old result (key_text key.entry.now) f.new }
{
    for c in key.chars() {
        write_character(f, c)?;
    }
    Ok(())
}

/// Writes a character of a key.
fn write_character<W: fmt::Write>(f: &mut fmt::Formatter<W>, c: char) -> fmt::Result
    ensures { WritesOnOk W.write_str_gives f.old result (character_text c) f.new }
{
    match c {
        '/' => f.write_str("~1"),
        '~' => f.write_str("~0"),
        _ => f.write_char(c),
    }
}
