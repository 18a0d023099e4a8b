//! The command `swap`: a file in the other order of bytes, or in the one that is said.
//! How bundles and packages are mirrored is in `resb_swap`.
use crate::input::bytes_of;
use crate::place::place_of;
use crate::save::{Bytes, save, saved};
use crate::say::{complain, or_fail, refuse_memory};
use crate::show::settled;
use crate::shown::Shown;
use crate::streams::made;
use crate::taken::Taken;
use resb_head::{BinHeader, Endianness};
use resb_package::Package;
use resb_swap::{
    IcuData, PackageSwapError, SwapError, data_of, swapped, swapped_package, with_little_table,
};
use resb_words::{Order, SwapWords};

/// Writes the file in the order that is asked for.
pub(crate) fn swap(rt: &HostRuntime, wanted: &SwapWords<'_>) -> u8 {
    settled(swap_file(rt, wanted))
}

/// Writes the file: the status, or that of what kept it from being written.
fn swap_file(rt: &HostRuntime, wanted: &SwapWords<'_>) -> Result<u8, u8> {
    let file = bytes_of(rt, wanted.file, None)?;
    if has_order(file.as_slice(), wanted.order) {
        return write(rt, wanted, file.as_slice());
    }
    let other = in_other_order(rt, wanted.file, file)?;
    write(rt, wanted, other.as_slice())
}

/// Whether a file is a bundle or a package that has the order which is asked for.
fn has_order(file: &[u8], wanted: Option<Order>) -> bool {
    match data_of(file) {
        IcuData::Bundle(order) => {
            wanted == Some(word_of(order)) && BinHeader::read_any_order(file).is_ok()
        }
        IcuData::Package(order) => wanted == Some(word_of(order)),
        IcuData::Ebcdic | IcuData::Other => false,
    }
}

/// The word of an order of bytes.
fn word_of(order: Endianness) -> Order {
    match order {
        Endianness::Little => Order::Little,
        Endianness::Big => Order::Big,
    }
}

/// The bundle or the package in the other order of bytes; or the status, once it is said why there
/// is none.
fn in_other_order(rt: &HostRuntime, name: &str, file: Vec<u8>) -> Result<Vec<u8>, u8> {
    if let IcuData::Package(_) = data_of(file.as_slice()) {
        return match swapped_package(rt.alloc(), file.as_slice()) {
            Ok(other) => Ok(other),
            Err(e) => Err(refuse_package(rt, name, file, e)),
        };
    }
    match swapped(rt.alloc(), file.as_slice()) {
        Ok(other) => Ok(other),
        Err(SwapError::NoMemory) => Err(refuse_memory(rt, name)),
        Err(e) => {
            complain(rt, name, e);
            Err(1)
        }
    }
}

/// Says why a package isn't swapped, with the name of the item that keeps it from that, and gives
/// the status of that.
fn refuse_package(rt: &HostRuntime, name: &str, file: Vec<u8>, e: PackageSwapError) -> u8 {
    let number = match e {
        PackageSwapError::NoMemory => return refuse_memory(rt, name),
        PackageSwapError::OtherOrder(number) | PackageSwapError::Item(number, _) => number,
        _ => {
            complain(rt, name, e);
            return 1;
        }
    };
    let little = with_little_table(rt.alloc(), file);
    if let Ok(little) = &little {
        if let Ok(package) = Package::read(little.as_slice()) {
            if let Some(item) = package.item(number) {
                return refuse_item(rt, name, item.name, e);
            }
        }
    }
    complain(rt, name, e);
    1
}

/// Says what is wrong with an item, and gives the status of that.
fn refuse_item(rt: &HostRuntime, name: &str, item: &str, e: PackageSwapError) -> u8 {
    let (name, item) = (Shown(name), Shown(item));
    let _ = match e {
        PackageSwapError::Item(_, SwapError::Header(_)) => eprintln!(rt;
            "{name}: {item} is no resource bundle, and swap takes packages of these alone; \
            ICU's icupkg -t takes each kind"
        ),
        PackageSwapError::Item(_, e) => eprintln!(rt; "{name}: {item}: {e}"),
        _ => eprintln!(rt; "{name}: {item} has another order of bytes than the package"),
    };
    1
}

/// Writes bytes to the file that the words name.
fn write(rt: &HostRuntime, wanted: &SwapWords<'_>, bytes: &[u8]) -> Result<u8, u8> {
    let (name, output) = (wanted.file, wanted.output);
    let place = or_fail(rt, output, place_of(rt, output))?;
    let mut taken = Taken::new(rt);
    or_fail(rt, name, made(taken.add_read(rt.alloc(), name)))?;
    taken.take_or_say(rt, name, &place)?;
    let done = save(rt, &place, &Bytes(bytes));
    or_fail(rt, output, saved(&place, done))?;
    Ok(0)
}
