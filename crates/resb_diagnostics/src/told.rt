//! What warnings print as, and the lines that tell all of a text.
//! Which warnings are due is found in `warning` and `icu_warning`.
ghost use Rattle.std.specs.Prelude.{◌≡◌, ◌++◌, Some, true, false, length, IfOk, OnOk};
ghost use Rattle.std.specs.Prelude.{MatchOption, string_bytes};
ghost use Rattle.resb_diagnostics.specs.Told as told;
ghost use Rattle.resb_diagnostics.specs.Told.{line_of, reason_message, warning_lines};

use crate::location::{Location, Locations};
use crate::warning::{Reason, Warning};
use std::alloc::{AllocError, Global};
use std::fmt;

impl fmt::Display for Reason {
    ghost output = { λ r. Some (reason_message r) };

    fn fmt<W: fmt::Write>(&self, f: &mut fmt::Formatter<W>) -> fmt::Result {
        match self {
            Reason::RepeatedKey(first) => {
                write!(
                    f,
                    "duplicate key, first at byte {first}; genrb refuses that"
                )
            }
            Reason::Backslash => write!(
                f,
                "this backslash is a character here, and an escape for genrb"
            ),
            Reason::StringsInRow => write!(
                f,
                "this string is an item of its own here; genrb joins it to the one before"
            ),
            Reason::CommaBehindPairs => {
                write!(f, "pairs with commas are an Array; genrb refuses this")
            }
            Reason::LoneString => write!(
                f,
                "this string has no group, so that all are an Array; genrb refuses this"
            ),
            Reason::EmptyGroup => write!(
                f,
                "the empty group that ends here is a Table, and an Array for genrb"
            ),
            Reason::LeadingZero => write!(
                f,
                "this number is decimal here; genrb takes its 0 for that of an octal one"
            ),
            Reason::CutNumber(kept) => {
                write!(f, "this number has more than 28 bits; {kept} is kept")
            }
            Reason::JoinedOverLine => write!(
                f,
                "this string is joined to the one before; a comma would part them"
            ),
            Reason::UnquotedGroup => write!(
                f,
                "this group is a string of its own; braces that are meant need quotes"
            ),
            Reason::OctalNumber => write!(f, "the 0 makes this number octal"),
            Reason::UnknownEscape => write!(
                f,
                "no escape begins so; the backslash is dropped, and its character stays"
            ),
            Reason::TextBehind => write!(
                f,
                "the bundle has ended before this; nothing from here on is read"
            ),
            Reason::MixedQuotes => write!(
                f,
                "this goes on with the string in quotes before it; a comma or a quote may be missing"
            ),
        }
    }
}

/// The lines that tell warnings of a text in their order, each with a line feed at its end: where
/// the warning stands, and what it prints as. None where they have more bytes than a limit; they
/// are made as far as that shows. Warnings in the order of their places take one pass over the
/// text.
pub fn told_warnings(
    alloc: Global,
    text: &str,
    found: &[Warning],
    limit: Option<u64>,
) -> Result<Option<String>, AllocError>
    ensures { let lines = warning_lines text.now found.now in
        IfOk result (λ o. MatchOption o (told.is_over limit (length lines) ≡ true)
        (λ s. (string_bytes s ≡ lines) × (told.is_over limit (length lines) ≡ false))) }
{
    let mut lines = String::new(alloc);
    let mut places = Locations::new(text.as_bytes());
    for warning in found {
        push_line(&mut lines, places.find(warning.place), warning.reason)?;
        if is_over(limit, lines.as_bytes().len()) {
            return Ok(None);
        }
    }
    Ok(Some(lines))
}

/// Appends the line of a warning that stands there.
fn push_line(lines: &mut String, at: Location, reason: Reason) -> Result<(), AllocError>
    ensures { OnOk result (string_bytes lines.new
        ≡ string_bytes lines.old ++ line_of at.line at.column reason) }
{
    let (line, column) = (at.line, at.column);
    write!(lines, "line {line}, column {column}: {reason}\n")
}

/// Whether so many bytes are more than the limit, if there is one.
fn is_over(limit: Option<u64>, length: usize) -> bool
    ensures { result ≡ told.is_over limit length }
{
    match limit {
        Some(most) => length as u64 > most,
        None => false,
    }
}
