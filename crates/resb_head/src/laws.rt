//! The laws of a head's codecs and checks, each the contract of a call that does nothing. Their
//! statements stand in `specs/Laws`; the laws of types, of descriptors and of what a file denotes
//! stand in `resb_format`.
ghost use Rattle.resb_format.specs.Laws.{Survives};
ghost use Rattle.resb_head.specs.Codes.{endianness_number, charset_number, version_bytes};
ghost use Rattle.resb_head.specs.CodeReading.{ReadsEndianness, ReadsCharset, ReadsVersion};
ghost use Rattle.resb_head.specs.Laws.{HeaderSurvives, IndexSurvives, HeaderPasses};
ghost use Rattle.resb_head.specs.Laws.{BundleFilePasses, VersionsAscend};

use crate::version::FormatVersion;

/// An order of bytes is read back from its number, and a number that is read is written unchanged.
pub fn endianness_survives()
    ensures { Survives endianness_number ReadsEndianness }
{}

/// A family of character sets is read back from its number, and the other way round.
pub fn charset_survives()
    ensures { Survives charset_number ReadsCharset }
{}

/// A version is read back from its bytes, and the other way round.
pub fn version_survives()
    ensures { Survives version_bytes ReadsVersion }
{}

/// Versions are ordered as the bytes that spell them: 1.0, 1.1, 1.2, 1.3, 2.0, 3.0.
pub fn versions_ascend()
    ensures { VersionsAscend ⟦<FormatVersion as Ord>⟧.cmp }
{}

/// A header that was read is read back from the bytes that it is written as.
pub fn header_survives()
    ensures { HeaderSurvives }
{}

/// An index is read back from the bytes that it is written as, and the words of an index
/// that was read are written unchanged.
pub fn index_survives()
    ensures { IndexSurvives }
{}

/// The checks of a header let through exactly the headers that pass each.
pub fn header_passes()
    ensures { HeaderPasses }
{}

/// The checks of a file's head let through exactly the bundle files.
pub fn bundle_file_passes()
    ensures { BundleFilePasses }
{}
