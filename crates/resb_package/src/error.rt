//! Why bytes are no package, and what that prints as.
//! When each of these comes is said in `specs/Checks`.
ghost use Rattle.std.specs.Prelude.{Some};
ghost use Rattle.resb_package.specs.Message.{message_of};

use std::error::Error;
use std::fmt;

/// Why bytes are no package. A number is that of an item, from 0 up.
#[derive(Clone, Copy, Debug, PartialEq, Eq)]
pub enum PackageError {
    /// Less than the 24 bytes of a header are there.
    TooShort,
    /// The magic word of ICU's data is missing.
    NotData,
    /// The numbers are in big-endian order, or in none that ICU knows.
    NotLittleEndian,
    /// The names are of the EBCDIC family, or of none that ICU knows.
    NotAsciiFamily,
    /// The data format is another than `CmnD`.
    NotPackage,
    /// The major version of the format is another than 1.
    OtherVersion,
    /// The header says that it has less than 24 bytes.
    HeaderTooSmall,
    /// The table of items has no count, or runs past the end of the file.
    TableOutside,
    /// The item's name begins at the end of the file or past it.
    NameOutside(usize),
    /// No zero byte ends the item's name before the next name begins.
    NameWithoutEnd(usize),
    /// The item's name has a byte of 128 or more.
    NameNotAscii(usize),
    /// The item begins past the end of the file.
    ItemOutside(usize),
    /// The item begins behind the one that follows it.
    ItemsOutOfOrder(usize),
    /// The item's name is not above the name of the item before it.
    NamesOutOfOrder(usize),
}

impl fmt::Display for PackageError {
    ghost output = { λ e. Some (message_of e) };

    fn fmt<W: fmt::Write>(&self, f: &mut fmt::Formatter<W>) -> fmt::Result {
        match self {
            PackageError::TooShort => write!(f, "too short for the header of a package"),
            PackageError::NotData => write!(f, "not an ICU data file"),
            PackageError::NotLittleEndian => {
                write!(f, "the numbers are not in little-endian order")
            }
            PackageError::NotAsciiFamily => {
                write!(f, "the names are not of the ASCII family of character sets")
            }
            PackageError::NotPackage => { write!(f, "not a package, but another kind of ICU data") }
            PackageError::OtherVersion => write!(f, "the package's format version is not 1"),
            PackageError::HeaderTooSmall => { write!(f, "the header's size is less than 24 bytes") }
            PackageError::TableOutside => {
                write!(f, "the table of items runs past the end of the file")
            }
            PackageError::NameOutside(i) => {
                write!(f, "the name of item {i} lies past the end of the file")
            }
            PackageError::NameWithoutEnd(i) => {
                write!(f, "the name of item {i} has no end before the next name")
            }
            PackageError::NameNotAscii(i) => write!(f, "the name of item {i} is not ASCII"),
            PackageError::ItemOutside(i) => { write!(f, "item {i} lies past the end of the file") }
            PackageError::ItemsOutOfOrder(i) => { write!(f, "item {i} begins behind the next one") }
            PackageError::NamesOutOfOrder(i) => {
                write!(f, "the name of item {i} is not above the one before it")
            }
        }
    }
}

impl Error for PackageError {}
