//! Paths as words: names with a slash between two of them, where `~1` in a name stands for a slash,
//! and `~0` for a tilde. (RFC 6901, section 4.) One more slash may stand first. What stands at a
//! path is in `resb_path`.
use std::alloc::{AllocError, Global};
use std::fmt;

/// What stands between two names where they are told apart. No key of a file has it inside.
pub(crate) const BETWEEN: char = '\0';

/// The names of a path, with `BETWEEN` between two of them. A slash that stands first is none
/// between two names: `/a/b` has the names of `a/b`.
pub(crate) fn names_of(alloc: Global, path: &str) -> Result<String, AllocError> {
    let path = path.strip_prefix('/').unwrap_or(path);
    let names = path.replace(alloc, "/", "\0")?;
    let slashed = names.as_str().replace(alloc, "~1", "/")?;
    slashed.as_str().replace(alloc, "~0", "~")
}

/// A step of a path.
#[derive(Clone, Copy)]
pub(crate) enum Step<'k> {
    Key(&'k str),
    Number(usize),
}

/// Adds a step to a path of so many steps, spelled as `get` takes it. A slash stands before each
/// but the first, and before a first name that is empty, since a path's own first slash counts for
/// none.
pub(crate) fn push_step(
    path: &mut String,
    before: usize,
    step: Step<'_>,
) -> Result<(), AllocError> {
    if before > 0 || matches!(step, Step::Key("")) {
        path.push('/')?;
    }
    match step {
        Step::Key(key) => {
            let name = Name(key);
            write!(path, "{name}")
        }
        Step::Number(number) => write!(path, "{number}"),
    }
}

/// A key as a name in a path: a tilde is spelled where it would stand for something else.
#[derive(Clone, Copy)]
pub(crate) struct Name<'k>(pub(crate) &'k str);

impl fmt::Display for Name<'_> {
    fn fmt<W: fmt::Write>(&self, f: &mut fmt::Formatter<W>) -> fmt::Result {
        let key = self.0;
        let mut is_tilde = false;
        for c in key.chars() {
            if is_tilde && matches!(c, '0' | '1') {
                f.write_char('0')?;
            }
            if c == '/' {
                f.write_str("~1")?;
            } else {
                f.write_char(c)?;
            }
            is_tilde = c == '~';
        }
        Ok(())
    }
}
