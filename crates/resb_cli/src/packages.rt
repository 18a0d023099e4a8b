//! The commands `list` and `extract`: the items of a package of ICU's data.
//! What a package is, is in `resb_package`.
use crate::input::bytes_of;
use crate::place::place_of;
use crate::save::{Bytes, save, saved};
use crate::say::{complain, or_fail, refuse_memory};
use crate::show::{settled, show};
use crate::shown::Shown;
use crate::streams::made;
use crate::taken::Taken;
use crate::unread::Unread;
use resb_package::{Package, PackageError};
use resb_swap::with_little_table;
use resb_words::ExtractWords;
use std::alloc::{AllocError, Global};

/// Prints the name of each item of a package, a line each.
pub(crate) fn list(rt: &HostRuntime, name: &str) -> u8 {
    settled(list_items(rt, name))
}

/// Prints the names: the status, or that of a file that is no package.
fn list_items(rt: &HostRuntime, name: &str) -> Result<u8, u8> {
    let file = package_bytes(rt, name)?;
    let package = package_of(rt, name, file.as_slice())?;
    match names_of(rt.alloc(), &package) {
        Ok(names) => Ok(show(rt, names.as_str())),
        Err(_) => Err(refuse_memory(rt, name)),
    }
}

/// The bytes of a package, its table in little-endian order; or the status, once it is said why
/// there are none.
fn package_bytes(rt: &HostRuntime, name: &str) -> Result<Vec<u8>, u8> {
    match with_little_table(rt.alloc(), bytes_of(rt, name, None)?) {
        Ok(bytes) => Ok(bytes),
        Err(e) => Err(Unread::from(e).say(rt, name)),
    }
}

/// The package that a file is or has inside, as ICU's library of data has one; or the status, once
/// it is said why it is none.
pub(crate) fn package_of<'f>(
    rt: &HostRuntime,
    name: &str,
    file: &'f [u8],
) -> Result<Package<'f>, u8> {
    match package_in(file) {
        Ok(package) => Ok(package),
        Err(e) => {
            complain(rt, name, e);
            Err(1)
        }
    }
}

/// The package that a file is or has inside, or why it is none itself.
pub(crate) fn package_in(file: &[u8]) -> Result<Package<'_>, PackageError> {
    match Package::read(file) {
        Ok(package) => Ok(package),
        Err(e) => package_inside(file).ok_or(e),
    }
}

/// Whether a file is a package or has one inside.
pub(crate) fn is_package(file: &[u8]) -> bool {
    package_in(file).is_ok()
}

/// The package inside a file.
fn package_inside(file: &[u8]) -> Option<Package<'_>> {
    let (_, inside) = file.split_at_checked(Package::place_inside(file)?)?;
    Package::read(inside).ok()
}

/// The names of all items, a line each; what is hidden in one stands as `\u{1b}`.
fn names_of(alloc: Global, package: &Package<'_>) -> Result<String, AllocError> {
    let mut names = String::new(alloc);
    for number in 0..package.len() {
        if let Some(item) = package.item(number) {
            let name = Shown(item.name);
            write!(names, "{name}\n")?;
        }
    }
    Ok(names)
}

/// Writes one item of a package.
pub(crate) fn extract(rt: &HostRuntime, wanted: &ExtractWords<'_>) -> u8 {
    settled(extract_item(rt, wanted))
}

/// Writes the item: the status, or that of what kept it from being written.
fn extract_item(rt: &HostRuntime, wanted: &ExtractWords<'_>) -> Result<u8, u8> {
    let (name, output) = (wanted.file, wanted.output.unwrap_or("-"));
    let file = package_bytes(rt, name)?;
    let package = package_of(rt, name, file.as_slice())?;
    let bytes = item_of(rt, &package, name, wanted.item)?;
    let place = or_fail(rt, output, place_of(rt, output))?;
    let mut taken = Taken::new(rt);
    or_fail(rt, name, made(taken.add_read(rt.alloc(), name)))?;
    taken.take_or_say(rt, name, &place)?;
    let done = save(rt, &place, &Bytes(bytes));
    or_fail(rt, output, saved(&place, done))?;
    Ok(0)
}

/// The bytes of an item, or the status, once it is said that there is none of this name.
pub(crate) fn item_of<'f>(
    rt: &HostRuntime,
    package: &Package<'f>,
    name: &str,
    item: &str,
) -> Result<&'f [u8], u8> {
    match found(rt.alloc(), package, item) {
        Ok(Some(bytes)) => Ok(bytes),
        Ok(None) => {
            let (name, item) = (Shown(name), Shown(item));
            let _ = eprintln!(rt; "{name}: no item is named {item}");
            Err(1)
        }
        Err(_) => Err(refuse_memory(rt, name)),
    }
}

/// The bytes of the item of this name, or else of this name behind that of the package, which is
/// what the first item's name begins with.
pub(crate) fn found<'f>(
    alloc: Global,
    package: &Package<'f>,
    item: &str,
) -> Result<Option<&'f [u8]>, AllocError> {
    if let Some(bytes) = package.get(item) {
        return Ok(Some(bytes));
    }
    match package.item(0).and_then(|first| first.name.split_once('/')) {
        Some((own, _)) => {
            let whole = format!(in alloc; "{own}/{item}")?;
            Ok(package.get(whole.as_str()))
        }
        None => Ok(None),
    }
}
