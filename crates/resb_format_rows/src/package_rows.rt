//! A package of two items, and each check of a package in its order: one damage for each.
//! What an item holds is read in other rows.
use crate::head_rows::damaged;
use resb_package::{Item, Package, PackageError};
use std::test::Fail;

/// The items `a` and `b`: a header, the count, two pairs of places behind the header, the names,
/// and the items, of four bytes and of one.
const PACKAGE: [u8; 53] = [
    24, 0, 0xda, 0x27, 20, 0, 0, 0, 0, 0, 2, 0, b'C', b'm', b'n', b'D', 1, 0, 0, 0, 3, 0, 0, 0, 2,
    0, 0, 0, 20, 0, 0, 0, 24, 0, 0, 0, 22, 0, 0, 0, 28, 0, 0, 0, // the table
    b'a', 0, b'b', 0, b'W', b'X', b'Y', b'Z', b'!',
];

/// A byte put at a place, and the refusal that follows. An offset past the end is 29 or more.
const DAMAGES: [(usize, u8, PackageError); 20] = [
    (2, 0, PackageError::NotData),
    (8, 1, PackageError::NotLittleEndian),
    (9, 1, PackageError::NotAsciiFamily),
    (15, b'P', PackageError::NotPackage),
    (16, 2, PackageError::OtherVersion),
    (0, 23, PackageError::HeaderTooSmall),
    (0, 54, PackageError::TableOutside),
    (24, 4, PackageError::TableOutside),
    (27, 0xff, PackageError::TableOutside),
    (28, 29, PackageError::NameOutside(0)),
    (36, 29, PackageError::NameOutside(1)),
    (45, b'x', PackageError::NameWithoutEnd(0)),
    (28, 23, PackageError::NameWithoutEnd(0)),
    (47, b'x', PackageError::NameWithoutEnd(1)),
    (44, 0x80, PackageError::NameNotAscii(0)),
    (32, 30, PackageError::ItemOutside(0)),
    (40, 30, PackageError::ItemOutside(1)),
    (32, 29, PackageError::ItemsOutOfOrder(0)),
    (44, b'b', PackageError::NamesOutOfOrder(1)),
    (44, b'c', PackageError::NamesOutOfOrder(1)),
];

/// Whether it is an item of this name and these bytes.
fn is_item(item: Option<Item<'_>>, name: &str, bytes: &[u8]) -> bool {
    match item {
        Some(item) => item.name == name && item.bytes == bytes,
        None => false,
    }
}

/// Names, and the items that are found by them.
const NAMES: [(&str, Option<&[u8]>); 5] = [
    ("a", Some(b"WXYZ")),
    ("b", Some(b"!")),
    ("", None),
    ("aa", None),
    ("c", None),
];

/// Whether a package finds its items by their names, and no others.
fn finds(package: Package<'_>) -> bool {
    for (name, item) in NAMES {
        if package.get(name) != item {
            return false;
        }
    }
    true
}

/// Whether the package has its two items, and finds them and no others.
fn has_its_items() -> bool {
    let Ok(package) = Package::read(PACKAGE.as_slice()) else {
        return false;
    };
    let (first, second) = (package.item(0), package.item(1));
    let are_items = is_item(first, "a", b"WXYZ") && is_item(second, "b", b"!");
    let are_two = package.len() == 2 && !package.is_empty();
    are_items && are_two && package.item(2).is_none() && finds(package)
}

/// Whether the bytes are refused for this.
fn is_no_package(bytes: &[u8], error: PackageError) -> bool {
    match Package::read(bytes) {
        Ok(_) => false,
        Err(found) => found == error,
    }
}

#[test]
fn a_package_has_its_items(rt: HostRuntime) {
    assert!(rt; has_its_items());
}

#[test]
fn each_damage_to_a_package_is_named(rt: HostRuntime) -> Result<(), Fail> {
    for (place, byte, error) in DAMAGES {
        let bytes = damaged(rt.alloc(), PACKAGE.as_slice(), place, byte)?;
        assert!(rt;
            is_no_package(bytes.as_slice(), error),
            "byte {byte} at {place}"
        );
    }
    Ok(())
}

#[test]
fn a_package_cut_short_is_named(rt: HostRuntime) {
    for length in 0..44usize {
        let (cut, _) = PACKAGE.as_slice().split_at(length);
        let short = length < 24;
        let error = if short {
            PackageError::TooShort
        } else {
            PackageError::TableOutside
        };
        assert!(rt; is_no_package(cut, error));
    }
}
