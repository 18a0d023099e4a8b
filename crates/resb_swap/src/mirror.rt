//! The bytes of a file in the other order, by the roles of its words.
//! How the roles are found says `walk`.
ghost use Rattle.std.specs.Prelude.{◌≡◌, ◌-◌, ◌/◌, ◌<◌, ◌≤◌, ℕ, length, slice_index, IfOk};
ghost use Rattle.resb_swap.specs.Numbers.{header_size};
ghost use Rattle.resb_swap.specs.Swapped.{header_place, mirror_place, mirrored_byte};
ghost use Rattle.resb_swap.specs.Swapped.{names_order};
ghost use Rattle.resb_swap.specs.Inner.Mirror.{MirroredFront, Paired, AreOrders};

use crate::role::Role;
use resb_tree::NoMemory;
use std::alloc::Global;

/// The place whose byte goes to this place of a header.
fn header_place(place: usize) -> usize
    ensures { result ≡ header_place place }
{
    match place {
        0 => 1,
        1 => 0,
        4 => 5,
        5 => 4,
        6 => 7,
        7 => 6,
        _ => place,
    }
}

/// The place whose byte goes to this place of a file whose body begins at `start`.
#[tactic(auto, unfolding(crate::specs::Swapped::mirror_place))]
fn mirror_place(bytes: &[u8], start: usize, roles: &[Role], place: usize) -> usize
    requires headed { 24 ≤ start }
    requires begun { start ≤ length bytes.now }
    requires inside { place < length bytes.now }
    requires whole { length roles.now ≡ (length bytes.now - start) / 4 }
    requires paired { Paired roles.now }
    ensures value { result ≡ mirror_place roles.now start place }
    ensures inside { result < length bytes.now }
{
    if place < start {
        return header_place(place);
    }
    let number = (place - start) / 4;
    if number >= roles.len() {
        return place;
    }
    let role = roles[number];
    start + (4 * role.partner(number) + role.turn((place - start) % 4))
}

/// Whether the byte at this place names an order of bytes.
#[tactic(auto, unfolding(crate::specs::Swapped::names_order))]
fn names_order(start: usize, roles: &[Role], place: usize) -> bool
    ensures { result ≡ names_order roles.now start place }
{
    if place < start {
        return place == 8;
    }
    let number = (place - start) / 4;
    if number >= roles.len() {
        return false;
    }
    roles[number].is_order() && (place - start) % 4 == 0
}

/// The byte at this place of the file in the other order.
fn mirrored_byte(bytes: &[u8], start: usize, roles: &[Role], place: usize) -> u8
    requires headed { 24 ≤ start }
    requires begun { start ≤ length bytes.now }
    requires inside { place < length bytes.now }
    requires said { start ≡ header_size bytes.now }
    requires orders { AreOrders roles.now bytes.now }
    requires paired { Paired roles.now }
    requires whole { length roles.now ≡ (length bytes.now - start) / 4 }
    ensures { result ≡ mirrored_byte roles.now bytes.now place }
{
    if names_order(start, roles, place) {
        return 1 - bytes[place];
    }
    bytes[mirror_place(bytes, start, roles, place)]
}

/// So many bytes from the front of a file whose body begins at `start`, in the other order.
pub(crate) fn mirrored_front(
    alloc: Global,
    bytes: &[u8],
    start: usize,
    roles: &[Role],
    end: usize,
) -> Result<Vec<u8>, NoMemory>
    requires headed { 24 ≤ start }
    requires begun { start ≤ length bytes.now }
    requires said { start ≡ header_size bytes.now }
    requires orders { AreOrders roles.now bytes.now }
    requires paired { Paired roles.now }
    requires whole { length roles.now ≡ (length bytes.now - start) / 4 }
    requires inside { end ≤ length bytes.now }
    ensures { IfOk result (λ to. MirroredFront roles.now bytes.now to.items end) }
{
    let mut to = Vec::with_capacity(alloc, end)?;
    for place in 0..end {
        to.push(mirrored_byte(bytes, start, roles, place))?;
    }
    Ok(to)
}

/// The bytes of a file whose body begins at `start` in the other order.
pub(crate) fn mirrored(
    alloc: Global,
    bytes: &[u8],
    start: usize,
    roles: &[Role],
) -> Result<Vec<u8>, NoMemory>
    requires headed { 24 ≤ start }
    requires begun { start ≤ length bytes.now }
    requires said { start ≡ header_size bytes.now }
    requires orders { AreOrders roles.now bytes.now }
    requires paired { Paired roles.now }
    requires whole { length roles.now ≡ (length bytes.now - start) / 4 }
    ensures { IfOk result (λ to. MirroredFront roles.now bytes.now to.items (length bytes.now)) }
{
    mirrored_front(alloc, bytes, start, roles, bytes.len())
}
