//! The versions of the format that have been written.
//! Which of them is read is decided in `repr_info`.
ghost use Rattle.std.specs.Prelude.{◌≡◌};
ghost use Rattle.resb_head.specs.Codes.{version_bytes};
ghost use Rattle.resb_head.specs.CodeReading.{ReadsVersion};

use resb_format::BinaryDeserializerError;

/// A version of the format, spelled in four bytes. The versions are ordered as listed.
/// (ICU's `uresdata.h`: formatVersion.)
#[derive(Clone, Copy, Debug, PartialEq, Eq, PartialOrd, Ord)]
pub enum FormatVersion {
    /// Version 1.0.
    V1_0,
    /// Version 1.1.
    V1_1,
    /// Version 1.2.
    V1_2,
    /// Version 1.3.
    V1_3,
    /// Version 2.0.
    V2_0,
    /// Version 3.0.
    V3_0,
}

/// Major and minor number, and two zero bytes.
impl From<FormatVersion> for [u8; 4] {
    ghost from_gives = { λ v bytes. bytes ≡ version_bytes v };

    fn from(version: FormatVersion) -> [u8; 4] {
        match version {
            FormatVersion::V1_0 => [1, 0, 0, 0],
            FormatVersion::V1_1 => [1, 1, 0, 0],
            FormatVersion::V1_2 => [1, 2, 0, 0],
            FormatVersion::V1_3 => [1, 3, 0, 0],
            FormatVersion::V2_0 => [2, 0, 0, 0],
            FormatVersion::V3_0 => [3, 0, 0, 0],
        }
    }
}

/// Bytes that spell none of the versions are refused.
impl TryFrom<&[u8]> for FormatVersion {
    type Error = BinaryDeserializerError;

    ghost try_from_gives = { λ bytes r. ReadsVersion bytes.now r };

    fn try_from(bytes: &[u8]) -> Result<FormatVersion, BinaryDeserializerError> {
        match bytes {
            [1, 0, 0, 0] => Ok(FormatVersion::V1_0),
            [1, 1, 0, 0] => Ok(FormatVersion::V1_1),
            [1, 2, 0, 0] => Ok(FormatVersion::V1_2),
            [1, 3, 0, 0] => Ok(FormatVersion::V1_3),
            [2, 0, 0, 0] => Ok(FormatVersion::V2_0),
            [3, 0, 0, 0] => Ok(FormatVersion::V3_0),
            _ => Err(BinaryDeserializerError::invalid_data("unrecognized format version")),
        }
    }
}
