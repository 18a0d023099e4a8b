//! The representation info, behind the magic word of a header: order of bytes, format, versions.
//! The checks here decide which of them are read; what follows the header is read elsewhere.
ghost use Rattle.std.specs.Prelude.{◌≡◌, ◌≤◌, ◌++◌, length, false, Some, None, MatchResult, OnOk};
ghost use Rattle.std.specs.Prelude.{IfOk};
ghost use Rattle.resb_format.specs.Error.{refusal_of, first_refusal};
ghost use Rattle.resb_head.specs.Head.{InfoAt, info_bytes};
ghost use Rattle.resb_head.specs.HeadChecks.{info_checks};
ghost use Rattle.resb_head.specs.HeadReading.{ReadsInfo};

use crate::charset::CharsetFamily;
use crate::endianness::Endianness;
use crate::version::FormatVersion;
use resb_format::BinaryDeserializerError;
use resb_format::bytes::{byte_at, four_at, unit_in};
use resb_tree::NoMemory;
use std::alloc::Global;

/// How the data of a file is represented, in 20 bytes. (ICU's `udata.h`: `UDataInfo`.)
#[derive(Clone, Copy, Debug)]
pub struct BinReprInfo {
    /// The size of the info in bytes: 20 in a written file.
    pub size: u16,
    /// 0 in a written file.
    pub reserved_word: u16,
    /// The order of the bytes of each number of the file.
    pub endianness: Endianness,
    /// The family of the character set of keys.
    pub charset_family: CharsetFamily,
    /// The size of a character of the 16-bit block in bytes: 2.
    pub size_of_char: u8,
    /// 0 in a written file.
    pub reserved_byte: u8,
    /// `ResB` for a resource bundle.
    pub data_format: [u8; 4],
    /// The version of the format.
    pub format_version: FormatVersion,
    /// The version of the data: 1.4.0.0 in a written file.
    pub data_version: [u8; 4],
}

impl BinReprInfo {
    ghost use Rattle.resb_head.specs.Inner.Checked.{ReadsSupport};

    /// The info in these bytes, in the order that it names. Only where `any_order` says so,
    /// that order may be another than the one of this crate, little-endian.
    pub(crate) fn read(
        bytes: &[u8],
        any_order: bool,
    ) -> Result<BinReprInfo, BinaryDeserializerError>
        requires { 20 ≤ length bytes.now }
        ensures { let refusal = first_refusal (info_checks any_order bytes.now) in
            MatchResult result
            (λ i. (refusal ≡ None) × InfoAt i bytes.now)
            (λ e. refusal ≡ Some (refusal_of e)) }
    {
        let endianness = Endianness::try_from(byte_at(bytes, 4))?;
        let is_big = endianness.is_big();
        if is_big && !any_order {
            return Err(BinaryDeserializerError::unsupported_format(
                "bundle endianness does not match platform endianness",
            ));
        }
        let charset_family = CharsetFamily::try_from(byte_at(bytes, 5))?;
        let data_format = four_at(bytes, 8);
        if data_format != *b"ResB" {
            return Err(BinaryDeserializerError::invalid_data("unexpected data format value"));
        }
        let format_version = FormatVersion::try_from(four_at(bytes, 12).as_slice())?;
        Ok(BinReprInfo {
            size: unit_in(bytes, 0, is_big),
            reserved_word: unit_in(bytes, 1, is_big),
            endianness,
            charset_family,
            size_of_char: byte_at(bytes, 6),
            reserved_byte: byte_at(bytes, 7),
            data_format,
            format_version,
            data_version: four_at(bytes, 16),
        })
    }

    /// Refuses what is not read: another family of character sets than ASCII, characters of
    /// another size than 2 bytes, another version than 2.0.
    pub(crate) fn check_support(&self) -> Result<(), BinaryDeserializerError>
        ensures { ReadsSupport self.now result }
    {
        let CharsetFamily::Ascii = self.charset_family else {
            return Err(BinaryDeserializerError::unsupported_format(
                "bundle and system character set families do not match",
            ));
        };
        if self.size_of_char != 2 {
            return Err(BinaryDeserializerError::unsupported_format(
                "characters of size other than 2 are not supported",
            ));
        }
        let FormatVersion::V2_0 = self.format_version else {
            return Err(BinaryDeserializerError::unsupported_format(
                "format versions other than 2.0 are not supported at this time",
            ));
        };
        Ok(())
    }

    /// The 20 bytes of the info, in little-endian order whatever it names.
    pub fn to_bytes(&self, alloc: Global) -> Result<Vec<u8>, NoMemory>
        ensures { IfOk result (λ bytes. bytes.items ≡ info_bytes self.now) }
    {
        let mut bytes = Vec::with_capacity(alloc, 20)?;
        self.append_to(&mut bytes)?;
        Ok(bytes)
    }

    /// Appends the 20 bytes of the info. For want of memory a part of them may be there.
    pub fn append_to(&self, bytes: &mut Vec<u8>) -> Result<(), NoMemory>
        ensures { OnOk result (bytes.new.items ≡ bytes.old.items ++ info_bytes self.now) }
    {
        let version: [u8; 4] = self.format_version.into();
        bytes.extend_from_slice(&self.size.to_le_bytes())?;
        bytes.extend_from_slice(&self.reserved_word.to_le_bytes())?;
        bytes.extend_from_slice(&[
            self.endianness.into(),
            self.charset_family.into(),
            self.size_of_char,
            self.reserved_byte,
        ])?;
        bytes.extend_from_slice(&self.data_format)?;
        bytes.extend_from_slice(&version)?;
        bytes.extend_from_slice(&self.data_version)?;
        Ok(())
    }
}

/// The first 20 bytes, which have to be in little-endian order.
impl TryFrom<&[u8]> for BinReprInfo {
    type Error = BinaryDeserializerError;

    ghost try_from_gives = { λ bytes r. ReadsInfo bytes.now r };

    fn try_from(bytes: &[u8]) -> Result<BinReprInfo, BinaryDeserializerError> {
        if bytes.len() < 20 {
            return Err(BinaryDeserializerError::invalid_data(
                "input is too short to contain representation info",
            ));
        }
        BinReprInfo::read(bytes, false)
    }
}
