//! Names beside keys: whether a key is a name, and which of both is the greater. Of a key no more
//! is looked at than the name is long, and one byte.
//! Where in a table a name is looked for is said in `tables`.
ghost use Rattle.std.specs.Prelude.{◌≡◌, ◌≢◌, ◌≤◌, ◌<◌, ◌+◌, ◌/◌, ◌==◌, ℕ, List, Some, length};
ghost use Rattle.std.specs.List.{position_or_len};
ghost use Rattle.std.specs.Prelude.{slice_get, take, drop, option_map, MatchOption, IfSome, true};
ghost use Rattle.std.specs.Ordering.{nat_cmp};
ghost use Rattle.std.specs.declared.cmp.Ordering.TheVariants.{Equal};
ghost use Rattle.std.specs.Cmp.Lexicographic.{slice_cmp};
ghost use Rattle.resb_format.specs.Strings.{key_at};
ghost use Rattle.resb_format.specs.Parts.{parts_in};
ghost use Rattle.resb_format.specs.Lookups.{key_in};
ghost use Rattle.resb_read.specs.Leaves.{key_from};
ghost use Rattle.resb_read.specs.declared.cursor.Spot.TheVariants as spot;
ghost use Rattle.resb_read.specs.Tables.{is_text, size_at};
ghost use Rattle.resb_read.specs.Inner.Naming.{is_plain, order_ended};

use resb_format::FileBlocks;
use resb_format::bytes::cut_at;
use resb_walk::places::key_place;
use std::cmp::Ordering;

/// Whether the key at a position is this name.
pub(crate) fn is_key(file: FileBlocks<'_>, position: usize, name: &str) -> bool
    ensures { result ≡ is_text name.now (key_from (parts_in file.entry) (spot.Key position)) }
{
    let (keys, at) = key_place(file, position);
    is_block_key(keys, at, name)
}

/// Whether the key at a byte of a block of keys is this name.
#[tactic(auto, using(crate::proofs::Naming::told))]
fn is_block_key(keys: &[u8], at: usize, name: &str) -> bool
    ensures { result ≡ is_text name.now (option_map (λ s. (s, 0)) (key_at keys.now at)) }
{
    let Some((_, tail)) = cut_at(keys, at) else {
        return false;
    };
    match closed(tail, name.len()) {
        Some(key) => is_same(key, name.as_bytes()),
        None => false,
    }
}

/// The first bytes, so many of them, if a zero byte stands behind them. Of what follows them that
/// byte alone is looked at.
fn closed(bytes: &[u8], count: usize) -> Option<&[u8]>
    ensures front { MatchOption result (slice_get bytes.entry.now count ≢ Some 0)
        (λ b. (slice_get bytes.entry.now count ≡ Some 0) × (b.now ≡ take count bytes.entry.now)) }
    ensures short { IfSome result (λ b. length b.now ≡ count) }
{
    if bytes.len() <= count || bytes[count] != 0 {
        return None;
    }
    let (front, _) = bytes.split_at(count);
    Some(front)
}

/// Whether bytes are these, and none of them is zero.
fn is_same(bytes: &[u8], wanted: &[u8]) -> bool
    ensures { result ≡ is_plain bytes.entry.now wanted.entry.now }
{
    let mut rest = bytes;
    let mut left = wanted;
    'bytes: while let Some((first, later)) = left.split_first() {
        let Some((byte, behind)) = rest.split_first() else {
            return false;
        };
        if *byte == 0 || *byte != *first {
            return false;
        }
        rest = behind;
        left = later;
    }
    match rest.first() {
        Some(_) => false,
        None => true,
    }
}

/// How a name stands to the key at a position, byte by byte, if one can be read there. They are
/// equal only where the name is that key.
pub(crate) fn order_of(file: FileBlocks<'_>, name: &str, position: usize) -> Ordering
    ensures ordered { (t : List ℕ) → key_in (parts_in file.entry) position ≡ Some t
        → result ≡ slice_cmp nat_cmp name.now t }
    ensures equal { result ≡ Equal
        → is_text name.now (key_from (parts_in file.entry) (spot.Key position)) ≡ true }
{
    let (keys, at) = key_place(file, position);
    block_order(keys, name, at)
}

/// How a name stands to the key at a byte of a block of keys.
#[tactic(auto, using(crate::proofs::Naming::ordered))]
fn block_order(keys: &[u8], name: &str, position: usize) -> Ordering
    ensures ordered { (t : List ℕ) → key_at keys.now position ≡ Some t
        → result ≡ slice_cmp nat_cmp name.now t }
    ensures equal { result ≡ Equal
        → is_text name.now (option_map (λ s. (s, 0)) (key_at keys.now position)) ≡ true }
{
    match cut_at(keys, position) {
        Some((_, tail)) => order(name.as_bytes(), tail),
        None => Ordering::Greater,
    }
}

/// How bytes stand to those before the first zero byte of a key.
#[tactic(auto, using(crate::proofs::Orders::steps))]
fn order(wanted: &[u8], key: &[u8]) -> Ordering
    ensures { result ≡ order_ended wanted.entry.now key.entry.now }
{
    let mut same = 0;
    'bytes: while same < wanted.len() && same < key.len() {
        let (first, byte) = (wanted[same], key[same]);
        if first != byte {
            return first.cmp(&byte);
        }
        if byte == 0 {
            return Ordering::Greater;
        }
        same += 1;
    }
    if same == key.len() {
        return Ordering::Greater;
    }
    if key[same] == 0 {
        Ordering::Equal
    } else {
        Ordering::Less
    }
}

/// The first bytes, at most so many of them.
fn front(bytes: &[u8], most: usize) -> &[u8]
    ensures is { result.now ≡ take most bytes.entry.now }
    ensures short { length result.now ≤ most }
{
    match cut_at(bytes, most) {
        Some((front, _)) => front,
        None => bytes,
    }
}

/// How many bytes the key at a position has, whether it can be read or not, if they are at most 15
/// more than 16 for each of so many. No more than those and one are looked at.
pub(crate) fn size_within(file: FileBlocks<'_>, position: usize, room: usize) -> Option<usize>
    ensures { let size = size_at (parts_in file.entry) (spot.Key position) in
        MatchOption result (room < size / 16) (λ n. (n ≡ size) × (size / 16 ≤ room)) }
{
    let (keys, at) = key_place(file, position);
    block_size_within(keys, at, room)
}

/// How many bytes the key at a byte of a block of keys has, with the same bound.
#[tactic(auto, using(crate::proofs::PlainLists::no_zero_behind))]
fn block_size_within(keys: &[u8], at: usize, room: usize) -> Option<usize>
    ensures { let size = position_or_len (λ b. b == 0) (drop at keys.now) in
        MatchOption result (room < size / 16) (λ n. (n ≡ size) × (size / 16 ≤ room)) }
{
    match cut_at(keys, at) {
        Some((_, tail)) => zero_within(tail, room),
        None => Some(0),
    }
}

/// Where the first zero byte stands, or how many bytes there are, if that is at most 15 more than
/// 16 for each of so many.
fn zero_within(bytes: &[u8], room: usize) -> Option<usize>
    ensures { let place = position_or_len (λ b. b == 0) bytes.entry.now in
        MatchOption result (room < place / 16) (λ n. (n ≡ place) × (place / 16 ≤ room)) }
{
    if bytes.len() / 16 <= room {
        return Some(zero_in(bytes));
    }
    let place = zero_in(front(bytes, 16 * room + 16));
    if place / 16 <= room {
        Some(place)
    } else {
        None
    }
}

/// Where the first zero byte stands, or how many bytes there are.
fn zero_in(bytes: &[u8]) -> usize
    ensures { result ≡ position_or_len (λ b. b == 0) bytes.entry.now }
{
    let mut place = 0;
    let mut rest = bytes;
    'bytes: while let Some((byte, later)) = rest.split_first() {
        if *byte == 0 {
            return place;
        }
        place += 1;
        rest = later;
    }
    place
}
