//! The checksum of a pool bundle, bit by bit.
//! Where a pool bundle has its keys and units is said in `pool_bundle`.
ghost use Rattle.std.specs.Prelude.{◌≡◌};
ghost use Rattle.std.specs.List.{fold};
ghost use Rattle.resb_format.specs.Bytes.{units_of};
ghost use Rattle.resb_pool_bundle.specs.Checksum.{bit_step, byte_step, unit_step, checksum_of};

use resb_format::bytes::unit_at;

/// The polynomial of the CRC, its lowest bit first.
const POLYNOMIAL: u32 = 0xedb8_8320;

/// The CRC after one bit more.
#[tactic(auto, unfolding(crate::specs::Checksum::bit_step))]
fn after_bit(crc: u32) -> u32
    ensures { result ≡ bit_step crc }
{
    if crc % 2 == 1 {
        (crc / 2) ^ POLYNOMIAL
    } else {
        crc / 2
    }
}

/// The CRC after one byte more.
fn after_byte(crc: u32, byte: u8) -> u32
    ensures { result ≡ byte_step crc byte }
{
    let mut crc = crc ^ u32::from(byte);
    'bits: for _count in 0..8_u32 {
        crc = after_bit(crc);
    }
    crc
}

/// The CRC after these bytes.
pub(crate) fn after_bytes(crc: u32, bytes: &[u8]) -> u32
    ensures { result ≡ fold byte_step crc bytes.now }
{
    let mut crc = crc;
    'bytes: for byte in bytes {
        crc = after_byte(crc, *byte);
    }
    crc
}

/// The CRC after these units, the upper byte of each first.
pub(crate) fn after_units(crc: u32, block: &[u8]) -> u32
    ensures { result ≡ fold unit_step crc (units_of block.now) }
{
    let mut crc = crc;
    'units: for number in 0..block.len() / 2 {
        let unit = unit_at(block, number);
        crc = after_byte(crc, (unit / 0x100) as u8);
        crc = after_byte(crc, (unit % 0x100) as u8);
    }
    crc
}

/// The checksum of a pool bundle with these keys, which are filled to a word, and with this 16-bit
/// block, two bytes for each unit. The time grows with both.
#[tactic(auto, unfolding(crate::specs::Checksum::checksum_of))]
pub fn pool_checksum(keys: &[u8], block: &[u8]) -> u32
    ensures { result ≡ checksum_of (record {
      keys = keys.now;
      block = units_of block.now;
      checksum = 0;
    }) }
{
    after_units(after_bytes(0, keys), block)
}
