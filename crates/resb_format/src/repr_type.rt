//! The types that a descriptor may name.
//! What stands at a descriptor of each type is said in the specs, and read by the reader.
ghost use Rattle.std.specs.Prelude.{◌≡◌};
ghost use Rattle.resb_format.specs.Descriptor.{type_number};
ghost use Rattle.resb_format.specs.DescriptorReading.{ReadsType};

use crate::error::BinaryDeserializerError;

/// The type of a resource in a file, by ICU's number. (ICU's `uresdata.h`: `URES_STRING` and those
/// below.)
#[derive(Clone, Copy, Debug, PartialEq, Eq)]
pub enum ResourceReprType {
    /// A string of the older formats, in words from the body's start. It is read by the
    /// calls that are handed a pool bundle, or none.
    _String = 0,
    /// Bytes, in words from the body's start.
    Binary = 1,
    /// A table with 16-bit key positions, in words from the body's start.
    Table = 2,
    /// Another name of a resource: a path, in words from the body's start. It is read as the old
    /// string is.
    _Alias = 3,
    /// A table with 32-bit key positions, in words from the body's start.
    _Table32 = 4,
    /// A table of strings, in units from the 16-bit block's start.
    Table16 = 5,
    /// A string, in units from the 16-bit block's start.
    StringV2 = 6,
    /// A number: the value itself.
    Int = 7,
    /// An array, in words from the body's start.
    Array = 8,
    /// An array of strings, in units from the 16-bit block's start.
    Array16 = 9,
    /// Numbers of 32 bits, in words from the body's start.
    IntVector = 14,
}

impl From<ResourceReprType> for u16 {
    ghost from_gives = { λ t n. n ≡ type_number t };

    fn from(value: ResourceReprType) -> u16 {
        value as u16
    }
}

/// A number over 9 other than 14 names no type.
impl TryFrom<u16> for ResourceReprType {
    type Error = BinaryDeserializerError;

    ghost try_from_gives = { ReadsType };

    fn try_from(value: u16) -> Result<ResourceReprType, BinaryDeserializerError> {
        match value {
            0 => Ok(ResourceReprType::_String),
            1 => Ok(ResourceReprType::Binary),
            2 => Ok(ResourceReprType::Table),
            3 => Ok(ResourceReprType::_Alias),
            4 => Ok(ResourceReprType::_Table32),
            5 => Ok(ResourceReprType::Table16),
            6 => Ok(ResourceReprType::StringV2),
            7 => Ok(ResourceReprType::Int),
            8 => Ok(ResourceReprType::Array),
            9 => Ok(ResourceReprType::Array16),
            14 => Ok(ResourceReprType::IntVector),
            _ => Err(BinaryDeserializerError::invalid_data(
                "unrecognized value for ResourceReprType",
            )),
        }
    }
}
