//! The order of bytes that a file names.
//! The numbers of a file are read in `resb_format::bytes`.
ghost use Rattle.std.specs.Prelude.{◌≡◌, nat_eq};
ghost use Rattle.resb_head.specs.Codes.{endianness_number};
ghost use Rattle.resb_head.specs.CodeReading.{ReadsEndianness};

use resb_format::BinaryDeserializerError;

/// The order of the bytes of a number. (ICU's `udata.h`: `isBigEndian`.)
#[derive(Clone, Copy, Debug, PartialEq, Eq)]
pub enum Endianness {
    /// The lowest byte first.
    Little = 0,
    /// The highest byte first.
    Big = 1,
}

impl Endianness {
    /// Whether the highest byte comes first.
    pub(crate) fn is_big(self) -> bool
        ensures { result ≡ nat_eq (endianness_number self) 1 }
    {
        match self {
            Endianness::Little => false,
            Endianness::Big => true,
        }
    }
}

impl From<Endianness> for u8 {
    ghost from_gives = { λ e n. n ≡ endianness_number e };

    fn from(endianness: Endianness) -> u8 {
        endianness as u8
    }
}

/// A number over 1 names no order.
impl TryFrom<u8> for Endianness {
    type Error = BinaryDeserializerError;

    ghost try_from_gives = { ReadsEndianness };

    fn try_from(value: u8) -> Result<Endianness, BinaryDeserializerError> {
        match value {
            0 => Ok(Endianness::Little),
            1 => Ok(Endianness::Big),
            _ => Err(BinaryDeserializerError::invalid_data("unrecognized value for Endianness")),
        }
    }
}
