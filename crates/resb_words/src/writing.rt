//! How files are written, and which files a text may take in: the words that `compile` and `genrb`
//! share. What they ask of a file's content is in `request` and `icu_request`.
use crate::described::{Argument, FLAG, VALUE};
use clap::ArgMatches;

/// How the files of a call are written.
#[derive(Clone, Copy)]
pub struct WritingWords<'w> {
    /// Whether the disk is waited for, file by file.
    pub is_synced: bool,
    /// Whether a file stays where it has the same bytes already.
    pub is_if_changed: bool,
    /// The name of the file that tells `make` of what each file was made, if one is wanted.
    pub depfile: Option<&'w str>,
}

/// The wish to wait for the disk.
pub(crate) const SYNC: Argument<'static> = Argument {
    id: "sync",
    option: Some("sync"),
    help: "Waits until the disk has each file",
    ..FLAG
};

/// The wish to leave files alone that would be the same.
pub(crate) const IF_CHANGED: Argument<'static> = Argument {
    id: "if-changed",
    option: Some("if-changed"),
    help: "Leaves a file and its time alone where it has the same bytes already",
    ..FLAG
};

/// The file of dependencies.
pub(crate) const DEPFILE: Argument<'static> = Argument {
    id: "DEPFILE",
    option: Some("depfile"),
    value: Some("FILE"),
    help: "Writes for make what each file was made of",
    ..VALUE
};

/// The wish for files in big-endian order.
pub(crate) const BIG_ENDIAN: Argument<'static> = Argument {
    id: "big-endian",
    option: Some("big-endian"),
    help: "Writes files in big-endian order, as ICU for Java reads them",
    ..FLAG
};

/// The leave to take files in from anywhere.
pub(crate) const INCLUDE_OUTSIDE: Argument<'static> = Argument {
    id: "include-outside",
    option: Some("include-outside"),
    help: "Lets texts take in files from outside of their folder",
    ..FLAG
};

/// How files are to be written.
pub(crate) fn asked_writing<'w>(matches: &ArgMatches<'w>) -> WritingWords<'w> {
    WritingWords {
        is_synced: matches.get_flag("sync"),
        is_if_changed: matches.get_flag("if-changed"),
        depfile: matches.get_str("DEPFILE"),
    }
}
