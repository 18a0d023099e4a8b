//! Numbers of the format: codes, versions, descriptors, and integers of 28 bits.
//! Whole heads are in `head_rows`.
use crate::refusals::is_refused;
use resb_format::{ErrorKind, Int28, ResDescriptor, ResourceReprType};
use resb_head::{CharsetFamily, Endianness, FormatVersion};

const INVALID: ErrorKind = ErrorKind::InvalidData;

const UNKNOWN_TYPE: &str = "unrecognized value for ResourceReprType";

fn is_endianness(number: u8) -> bool {
    match Endianness::try_from(number) {
        Ok(endianness) => number < 2 && u8::from(endianness) == number,
        refused => number > 1 && is_refused(refused, INVALID, "unrecognized value for Endianness"),
    }
}

fn is_family(number: u8) -> bool {
    let unknown = "unrecognized value for CharsetFamily";
    match CharsetFamily::try_from(number) {
        Ok(family) => number < 2 && u8::from(family) == number,
        refused => number > 1 && is_refused(refused, INVALID, unknown),
    }
}

fn is_type(number: u16) -> bool {
    let known = number < 10 || number == 14;
    match ResourceReprType::try_from(number) {
        Ok(resource_type) => known && u16::from(resource_type) == number,
        refused => !known && is_refused(refused, INVALID, UNKNOWN_TYPE),
    }
}

#[test]
fn codes_go_both_ways(rt: HostRuntime) {
    for number in 0..256u16 {
        let byte = (number % 256) as u8;
        assert!(rt;
            is_endianness(byte) && is_family(byte) && is_type(number),
            "{number}"
        );
    }
}

/// Bytes, and the version that they spell.
const VERSIONS: [(&[u8], Option<FormatVersion>); 10] = [
    (&[1, 0, 0, 0], Some(FormatVersion::V1_0)),
    (&[1, 1, 0, 0], Some(FormatVersion::V1_1)),
    (&[1, 2, 0, 0], Some(FormatVersion::V1_2)),
    (&[1, 3, 0, 0], Some(FormatVersion::V1_3)),
    (&[2, 0, 0, 0], Some(FormatVersion::V2_0)),
    (&[3, 0, 0, 0], Some(FormatVersion::V3_0)),
    (&[2, 1, 0, 0], None),
    (&[2, 0, 0, 1], None),
    (&[2, 0, 0], None),
    (&[2, 0, 0, 0, 0], None),
];

fn spells(bytes: &[u8], version: Option<FormatVersion>) -> bool {
    match (FormatVersion::try_from(bytes), version) {
        (Ok(read), Some(version)) => {
            let spelling: [u8; 4] = read.into();
            read == version && spelling.as_slice() == bytes
        }
        (refused, None) => is_refused(refused, INVALID, "unrecognized format version"),
        (Err(_), Some(_)) => false,
    }
}

#[test]
fn versions_are_spelled(rt: HostRuntime) {
    for (number, (bytes, version)) in VERSIONS.iter().enumerate() {
        assert!(rt; spells(bytes, *version), "row {number}");
    }
    assert!(rt; FormatVersion::V1_3 < FormatVersion::V2_0);
}

/// A word, and the type and the value of the descriptor that it is.
const DESCRIPTORS: [(u32, Option<(ResourceReprType, u32)>); 6] = [
    (0x6000_0001, Some((ResourceReprType::StringV2, 1))),
    (0x2000_0000, Some((ResourceReprType::Table, 0))),
    (0x7fff_ffff, Some((ResourceReprType::Int, 0x0fff_ffff))),
    (0x4000_4004, Some((ResourceReprType::_Table32, 0x4004))),
    (0xa000_0000, None),
    (0xffff_ffff, None),
];

fn describes(word: u32, parts: Option<(ResourceReprType, u32)>) -> bool {
    match (ResDescriptor::try_from(word), parts) {
        (Ok(read), Some((resource_type, value))) => {
            read.resource_type() == resource_type
                && read.value() == value
                && read.is_empty() == (value == 0)
                && u32::from(read) == word
        }
        (refused, None) => is_refused(refused, INVALID, UNKNOWN_TYPE),
        (Err(_), Some(_)) => false,
    }
}

#[test]
fn descriptors_hold_type_and_value(rt: HostRuntime) {
    for (word, parts) in DESCRIPTORS {
        assert!(rt; describes(word, parts), "{word}");
    }
    let empty = ResDescriptor::_new_empty(ResourceReprType::Table);
    assert!(rt; u32::from(empty) == 0x2000_0000);
    assert!(rt; u32::from(ResDescriptor::new(ResourceReprType::StringV2, 1)) == 0x6000_0001);
}

/// A number's bits, its 28 bits, and these with a sign.
const INTEGERS: [(u32, u32, i32); 6] = [
    (4_294_967_295, 268_435_455, -1),
    (0x8000_0000, 0, 0),
    (7, 7, 7),
    (0x0800_0000, 0x0800_0000, -134_217_728),
    (0x07ff_ffff, 0x07ff_ffff, 134_217_727),
    (0x1000_0001, 1, 1),
];

fn has_28_bits(bits: u32, value: u32, signed: i32) -> bool {
    let integer = Int28::from(bits);
    integer == Int28::from(bits.cast_signed())
        && u32::from(integer) == value
        && i32::from(integer) == signed
}

#[test]
fn integers_have_28_bits(rt: HostRuntime) {
    for (bits, value, signed) in INTEGERS {
        assert!(rt; has_28_bits(bits, value, signed), "{bits}");
    }
}
