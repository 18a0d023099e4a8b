//! What is asked of rules of collation, which `compile` and `genrb` ask by the same words.
use clap::ArgMatches;

/// What becomes of rules of collation, of which ICU needs a binary form that only its own compiler
/// makes.
#[derive(Clone, Copy, PartialEq, Eq)]
pub enum Collation<'w> {
    /// Rules without it are refused.
    Refused,
    /// They are compiled without it.
    Unbuilt,
    /// It is taken from the files of this folder.
    From(&'w str),
}

/// What these words ask of them.
pub(crate) fn asked_collation<'w>(matches: &ArgMatches<'w>) -> Collation<'w> {
    match matches.get_str("collation") {
        Some("") => Collation::From("."),
        Some(folder) => Collation::From(folder),
        None if matches.get_flag("noBinaryCollation") => Collation::Unbuilt,
        None => Collation::Refused,
    }
}
