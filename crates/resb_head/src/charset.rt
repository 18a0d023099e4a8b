//! The family of character sets that a file names.
//! Which family is read is decided in `repr_info`.
ghost use Rattle.std.specs.Prelude.{◌≡◌};
ghost use Rattle.resb_head.specs.Codes.{charset_number};
ghost use Rattle.resb_head.specs.CodeReading.{ReadsCharset};

use resb_format::BinaryDeserializerError;

/// The family of the character set of keys. (ICU's `udata.h`: `charsetFamily`.)
#[derive(Clone, Copy, Debug, PartialEq, Eq)]
pub enum CharsetFamily {
    /// ASCII and its extensions.
    Ascii = 0,
    /// EBCDIC.
    Ebcdic = 1,
}

impl From<CharsetFamily> for u8 {
    ghost from_gives = { λ f n. n ≡ charset_number f };

    fn from(family: CharsetFamily) -> u8 {
        family as u8
    }
}

/// A number over 1 names no family.
impl TryFrom<u8> for CharsetFamily {
    type Error = BinaryDeserializerError;

    ghost try_from_gives = { ReadsCharset };

    fn try_from(value: u8) -> Result<CharsetFamily, BinaryDeserializerError> {
        match value {
            0 => Ok(CharsetFamily::Ascii),
            1 => Ok(CharsetFamily::Ebcdic),
            _ => Err(BinaryDeserializerError::invalid_data("unrecognized value for CharsetFamily")),
        }
    }
}
