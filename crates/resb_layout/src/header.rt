//! The header that a written file begins with.
//! The index behind it is made by those who put a file together; headers are read in `resb_head`.
ghost use Rattle.std.specs.Prelude.{◌≡◌, ◌++◌, OnOk, if◌then◌else◌};
ghost use Rattle.resb_layout.specs.WrittenHead.{header_of};

use resb_head::{BinHeader, BinReprInfo, CharsetFamily, Endianness, FormatVersion};
use resb_tree::NoMemory;

/// The header and its padding, in bytes.
pub const HEADER_SIZE: u16 = 32;

/// Appends the header, padded to 32 bytes: that of version 3.0 if it is the third, else of 2.0. For
/// want of memory a part of it may be there. (ICU's `ucmndata.h` and `udata.h`.)
pub fn append_header(file: &mut Vec<u8>, is_third: bool) -> Result<(), NoMemory>
    ensures { OnOk result (file.new.items
        ≡ file.old.items ++ header_of (if is_third then 3 else 2)) }
{
    let format_version = if is_third {
        FormatVersion::V3_0
    } else {
        FormatVersion::V2_0
    };
    let header = BinHeader {
        size: HEADER_SIZE,
        repr_info: BinReprInfo {
            size: 20,
            reserved_word: 0,
            endianness: Endianness::Little,
            charset_family: CharsetFamily::Ascii,
            size_of_char: 2,
            reserved_byte: 0,
            data_format: [b'R', b'e', b's', b'B'],
            format_version,
            data_version: [1, 4, 0, 0],
        },
    };
    header.append_to(file)?;
    file.extend_from_slice(&[0; 8])?;
    Ok(())
}
