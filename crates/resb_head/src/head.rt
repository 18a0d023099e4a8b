//! The header of a file: its size, the magic word and the representation info.
//! Where the header's size leads is not looked at here.
ghost use Rattle.std.specs.Prelude.{◌≡◌, ◌++◌, true, false, IfOk, OnOk};
ghost use Rattle.resb_head.specs.Head.{header_bytes};
ghost use Rattle.resb_head.specs.HeadReading.{ReadsHeader};

use crate::repr_info::BinReprInfo;
use resb_format::BinaryDeserializerError;
use resb_format::bytes::{two_at, unit_in};
use resb_tree::NoMemory;
use std::alloc::Global;

/// What stands behind the size in each file that ICU reads.
const MAGIC: [u8; 2] = [0xda, 0x27];

/// The first 24 bytes of a file. (ICU's `ucmndata.h`: `DataHeader`.)
#[derive(Clone, Copy, Debug)]
pub struct BinHeader {
    /// The size of the header in bytes, from 24 up: where the body begins. It is 32 in a written
    /// file.
    pub size: u16,
    /// How the data is represented.
    pub repr_info: BinReprInfo,
}

impl BinHeader {
    /// The header, with its numbers in the order of bytes that it names itself.
    /// Refused as by `try_from`, but for the order of bytes.
    pub fn read_any_order(bytes: &[u8]) -> Result<BinHeader, BinaryDeserializerError>
        ensures { ReadsHeader true bytes.now result }
    {
        BinHeader::read(bytes, true)
    }

    /// The header, which may name a foreign order of bytes only where `any_order` says so.
    fn read(bytes: &[u8], any_order: bool) -> Result<BinHeader, BinaryDeserializerError>
        ensures { ReadsHeader any_order bytes.now result }
    {
        if bytes.len() < 24 {
            return Err(BinaryDeserializerError::invalid_data(
                "input is too short to contain file header",
            ));
        }
        if two_at(bytes, 2) != MAGIC {
            return Err(BinaryDeserializerError::invalid_data("magic word does not match"));
        }
        let (_, info) = bytes.split_at(4);
        let repr_info = BinReprInfo::read(info, any_order)?;
        let size = unit_in(bytes, 0, repr_info.endianness.is_big());
        if size < 24 {
            return Err(BinaryDeserializerError::invalid_data(
                "header size specified in file is smaller than expected",
            ));
        }
        Ok(BinHeader { size, repr_info })
    }

    /// The 24 bytes of the header with its magic word, in little-endian order whatever it names.
    pub fn to_bytes(&self, alloc: Global) -> Result<Vec<u8>, NoMemory>
        ensures { IfOk result (λ bytes. bytes.items ≡ header_bytes self.now) }
    {
        let mut bytes = Vec::with_capacity(alloc, 24)?;
        self.append_to(&mut bytes)?;
        Ok(bytes)
    }

    /// Appends the 24 bytes of the header. For want of memory a part of them may be there.
    pub fn append_to(&self, bytes: &mut Vec<u8>) -> Result<(), NoMemory>
        ensures { OnOk result (bytes.new.items ≡ bytes.old.items ++ header_bytes self.now) }
    {
        bytes.extend_from_slice(&self.size.to_le_bytes())?;
        bytes.extend_from_slice(&MAGIC)?;
        self.repr_info.append_to(bytes)
    }
}

/// The first 24 bytes, which have to be in little-endian order.
impl TryFrom<&[u8]> for BinHeader {
    type Error = BinaryDeserializerError;

    ghost try_from_gives = { λ bytes r. ReadsHeader false bytes.now r };

    fn try_from(bytes: &[u8]) -> Result<BinHeader, BinaryDeserializerError> {
        BinHeader::read(bytes, false)
    }
}
