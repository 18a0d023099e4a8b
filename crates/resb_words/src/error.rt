//! Why words ask for nothing that is done: a mistake, or a wish for help.
//! What words ask for otherwise is in `request`.
ghost use Rattle.std.specs.Prelude.{◌≤◌};

use clap::Error;
use std::alloc::{AllocError, AllocFailed};
use std::fmt;

/// Why the words ask for nothing that is done.
#[derive(Debug, Drop)]
pub enum WordsError {
    /// `clap` refuses the words, or they ask for help or for the version.
    Words(Error),
    /// No command stands there.
    NoCommand,
    /// What stands behind `--limit` is no number of bytes.
    NoNumber,
    /// What stands behind `--directory` is no name of a folder.
    NoFolder,
    /// `--output` names one file, for several texts.
    SeveralTexts,
    /// The texts of several files are asked for, and no folder for them is named.
    SeveralFiles,
    /// `--compact` stands without `--icu`.
    CompactPlain,
    /// The words of ICU's compiler ask for this, which isn't done.
    NotDone(&'static str),
    /// These words of ICU's compiler are for a kind of file that isn't written.
    OfJava(&'static str),
    /// The words of ICU's `derb` ask it to leave data out.
    Truncated,
    /// The words of ICU's `derb` ask for the data that are built into ICU.
    IcuData,
    /// `--encoding` names one that isn't read.
    NoEncoding,
    /// `--encoding` names one that isn't written.
    NoUtf8,
    /// `--formatVersion` names one that isn't written.
    NoVersion,
    /// What stands behind `--to` is no order of bytes.
    NoOrder,
    /// A request for memory was refused.
    Memory,
}

impl WordsError {
    /// The status that the program ends with: 0 for help and the version, else 2.
    pub fn status(&self) -> u8
        ensures { result ≤ 2 }
    {
        match self {
            WordsError::Words(e) if e.exit_code() == 0 => 0,
            _ => 2,
        }
    }
}

impl fmt::Display for WordsError {
    fn fmt<W: fmt::Write>(&self, f: &mut fmt::Formatter<W>) -> fmt::Result {
        match self {
            WordsError::Words(e) => write!(f, "{e}"),
            WordsError::NoCommand => write!(f, "resb: no command"),
            WordsError::NoNumber => write!(f, "resb: --limit is a number of bytes"),
            WordsError::NoFolder => write!(f, "resb: --directory is the name of a folder"),
            WordsError::SeveralTexts => write!(
                f,
                "resb: --output is for one text; --directory is for several"
            ),
            WordsError::SeveralFiles => write!(
                f,
                "resb: the texts of several files go to a folder, named by --directory"
            ),
            WordsError::CompactPlain => write!(
                f,
                "resb: --compact is for texts in ICU's own form, which --icu says"
            ),
            WordsError::NotDone(word) => write!(
                f,
                "resb: --{word} isn't done here; for Java take --big-endian, for texts resb dump"
            ),
            WordsError::OfJava(word) => write!(
                f,
                "resb: --{word} goes with --write-java, which isn't done here"
            ),
            WordsError::Truncated => write!(
                f,
                "resb: --truncate isn't done here: it would leave data out of a text"
            ),
            WordsError::IcuData => write!(
                f,
                "resb: --sourcedir is a folder: the data that are built into ICU aren't read"
            ),
            WordsError::NoEncoding => {
                f.write_str("resb: --encoding is UTF-8, UTF-16, UTF-32, ISO-8859-1")?;
                f.write_str(" or windows-1252")
            }
            WordsError::NoUtf8 => write!(f, "resb: --encoding is UTF-8"),
            WordsError::NoVersion => write!(f, "resb: --formatVersion is 2 or 3"),
            WordsError::NoOrder => write!(f, "resb: --to is big or little"),
            WordsError::Memory => write!(f, "resb: out of memory"),
        }
    }
}

impl From<Error> for WordsError {
    fn from(e: Error) -> WordsError {
        WordsError::Words(e)
    }
}

impl From<AllocError> for WordsError {
    fn from(_: AllocError) -> WordsError {
        WordsError::Memory
    }
}

impl<T: Drop> From<AllocFailed<T>> for WordsError {
    fn from(_: AllocFailed<T>) -> WordsError {
        WordsError::Memory
    }
}
