//! The data of a collation inside a binary: whether its parts are known, and where they end.
//! Which words these are is in `parts`.
ghost use Rattle.std.specs.Prelude.{◌≡◌, ◌+◌, ◌*◌, ◌<◌, ◌≤◌, ◌^◌, true, ℕ};
ghost use Rattle.resb_swap.specs.Numbers.{word_count, unit_in, word_in};
ghost use Rattle.resb_swap.specs.Bodies.{middle_at};
ghost use Rattle.resb_swap.specs.Collation.{is_headed, has_indexes, has_parts, is_trie};
ghost use Rattle.resb_swap.specs.Collation.{is_trie_part, is_whole, offset_in, part_at, parts_in};
ghost use Rattle.resb_swap.specs.Collation.{is_part, is_no_part, holds_data, index_count};
ghost use Rattle.resb_swap.specs.Collation.{index_from};
ghost use Rattle.resb_swap.specs.Collation.{has_front_parts, has_late_parts, has_end, trie_units};
ghost use Rattle.resb_swap.specs.Collation.{has_wide_values, value_words, outer_parts};
ghost use Rattle.resb_swap.specs.Inner.Claims.{fill_role};
ghost use Rattle.resb_swap.specs.Inner.Seen.{seen};

use crate::body::Body;
use crate::parts::{Fill, Parts};
use crate::role::Role;

/// Whether a binary has a header that is known, and lies inside the file.
#[tactic(auto, unfolding(crate::specs::Collation::is_headed))]
fn is_headed(body: Body<'_>, place: usize) -> bool
    requires { place < word_count (seen body) }
    ensures { result ≡ is_headed (seen body.entry) place }
{
    let len = body.word(place) as usize;
    if len < 32 || place + 1 + len.div_ceil(4) > body.len() {
        return false;
    }
    let order = if body.is_big { 1 } else { 0 };
    let is_own = body.byte(place + 3, 0) == order && body.byte(place + 3, 1) == 0;
    let version = body.byte(place + 5, 0);
    is_own && (4 <= version && version <= 5)
}

/// How many bytes the header of the data has.
fn header_of(body: Body<'_>, place: usize) -> usize
    requires { place + 1 < word_count (seen body) }
    ensures value { result ≡ unit_in (seen body.entry) (place + 1) }
    ensures small { result < 2 ^ 16 }
{
    usize::from(body.unit(place + 1))
}

/// Whether the header has whole words, and two indexes at least stand behind it.
#[tactic(auto, unfolding(crate::specs::Collation::has_indexes))]
fn has_indexes(body: Body<'_>, place: usize) -> bool
    requires first { place < word_count (seen body) }
    requires headed { is_headed (seen body) place ≡ true }
    ensures { result ≡ has_indexes (seen body.entry) place }
{
    let len = body.word(place) as usize;
    let header = header_of(body, place);
    if header < 24 || header % 4 != 0 || header + 8 > len {
        return false;
    }
    let count = body.word(place + 1 + header / 4) as usize;
    2 <= count && header + 4 * count <= len
}

/// How many indexes there are.
fn count_of(body: Body<'_>, place: usize) -> usize
    requires headed { is_headed (seen body) place ≡ true }
    requires indexed { has_indexes (seen body) place ≡ true }
    ensures value { result ≡ index_count (seen body.entry) (place + 1) }
    ensures small { result < 2 ^ 32 }
{
    body.word(place + 1 + header_of(body, place) / 4) as usize
}

/// An index.
fn index(body: Body<'_>, place: usize, number: usize) -> usize
    requires headed { is_headed (seen body) place ≡ true }
    requires indexed { has_indexes (seen body) place ≡ true }
    requires inside { number < index_count (seen body) (place + 1) }
    ensures value { result ≡ word_in (seen body.entry) (index_from (seen body.entry) (place + 1)
        + number) }
    ensures small { result < 2 ^ 32 }
{
    body.word(place + 1 + header_of(body, place) / 4 + number) as usize
}

/// Where a part begins, in bytes behind the header.
#[tactic(auto, unfolding(crate::specs::Collation::offset_in))]
fn offset(body: Body<'_>, place: usize, part: usize) -> usize
    requires headed { is_headed (seen body) place ≡ true }
    requires indexed { has_indexes (seen body) place ≡ true }
    ensures value { result ≡ offset_in (seen body.entry) (place + 1) part }
    ensures small { result < 2 ^ 32 }
{
    let count = count_of(body, place);
    if count <= 5 {
        return 4 * count;
    }
    index(body, place, part.min(count - 1))
}

/// Whether a part has whole numbers of so many bytes.
fn is_part(body: Body<'_>, place: usize, part: usize, size: usize) -> bool
    requires headed { is_headed (seen body) place ≡ true }
    requires indexed { has_indexes (seen body) place ≡ true }
    requires few { part < 20 }
    requires some { 0 < size }
    ensures { result ≡ is_part (seen body.entry) (place + 1) part size }
{
    let from = offset(body, place, part);
    let to = offset(body, place, part + 1);
    from <= to && (to - from) % size == 0
}

/// Whether a part has no bytes.
fn is_no_part(body: Body<'_>, place: usize, part: usize) -> bool
    requires headed { is_headed (seen body) place ≡ true }
    requires indexed { has_indexes (seen body) place ≡ true }
    requires few { part < 20 }
    ensures { result ≡ is_no_part (seen body.entry) (place + 1) part }
{
    offset(body, place, part) == offset(body, place, part + 1)
}

/// Whether the first parts stand one behind the other.
fn has_front_parts(body: Body<'_>, place: usize) -> bool
    requires headed { is_headed (seen body) place ≡ true }
    requires indexed { has_indexes (seen body) place ≡ true }
    ensures { result ≡ has_front_parts (seen body.entry) place }
{
    let from = offset(body, place, 5);
    let is_behind = 4 * count_of(body, place) <= from && from % 4 == 0;
    let has_codes = is_part(body, place, 5, 4) && is_part(body, place, 6, 4);
    let has_trie = is_part(body, place, 7, 4) && is_no_part(body, place, 8);
    is_behind && (has_codes && has_trie)
}

/// Whether the parts behind the trie do.
fn has_late_parts(body: Body<'_>, place: usize) -> bool
    requires headed { is_headed (seen body) place ≡ true }
    requires indexed { has_indexes (seen body) place ≡ true }
    ensures { result ≡ has_late_parts (seen body.entry) place }
{
    let has_weights = is_part(body, place, 9, 8) && is_no_part(body, place, 10);
    let has_words = is_part(body, place, 11, 4) && is_part(body, place, 12, 4);
    let has_texts = is_part(body, place, 13, 2) && is_part(body, place, 14, 2);
    let has_others = is_part(body, place, 15, 2) && is_part(body, place, 16, 2);
    (has_weights && has_words) && (has_texts && has_others)
}

/// Whether the last part ends inside the binary.
fn has_end(body: Body<'_>, place: usize) -> bool
    requires first { place < word_count (seen body) }
    requires headed { is_headed (seen body) place ≡ true }
    requires indexed { has_indexes (seen body) place ≡ true }
    ensures { result ≡ has_end (seen body.entry) place }
{
    let is_last = offset(body, place, 17) <= offset(body, place, 18);
    let end = header_of(body, place) + offset(body, place, 19);
    (is_last && is_no_part(body, place, 18)) && end <= body.word(place) as usize
}

/// The word where a part begins, from the data's first one.
fn part_at(body: Body<'_>, place: usize, part: usize) -> usize
    requires headed { is_headed (seen body) place ≡ true }
    requires indexed { has_indexes (seen body) place ≡ true }
    ensures value { result ≡ part_at (seen body.entry) (place + 1) part }
    ensures small { result < 2 ^ 33 }
{
    header_of(body, place) / 4 + offset(body, place, part) / 4
}

/// How many units the index of the trie at a word has.
fn trie_units(body: Body<'_>, trie: usize) -> usize
    requires { trie + 1 < word_count (seen body) }
    ensures value { result ≡ trie_units (seen body.entry) trie }
    ensures small { result < 2 ^ 16 }
{
    usize::from(body.second_unit(trie + 1))
}

/// Whether its values have 32 bits.
fn has_wide_values(body: Body<'_>, trie: usize) -> bool
    requires { trie + 1 < word_count (seen body) }
    ensures { result ≡ has_wide_values (seen body.entry) trie }
{
    body.unit(trie + 1) % 16 == 1
}

/// How many words its values take.
fn value_words(body: Body<'_>, trie: usize) -> usize
    requires { trie + 2 < word_count (seen body) }
    ensures value { result ≡ value_words (seen body.entry) trie }
    ensures small { result < 2 ^ 18 }
{
    let count = usize::from(body.unit(trie + 2));
    if has_wide_values(body, trie) {
        4 * count
    } else {
        2 * count
    }
}

/// Whether a trie stands at a word, and ends within so many.
#[tactic(auto, unfolding(crate::specs::Collation::is_trie))]
fn is_trie(body: Body<'_>, trie: usize, len: usize) -> bool
    requires { trie + len ≤ word_count (seen body) }
    ensures { result ≡ is_trie (seen body.entry) trie len }
{
    if len < 4 || body.word(trie) != 0x54726932 {
        return false;
    }
    let units = trie_units(body, trie);
    let is_known = body.unit(trie + 1) % 16 <= 1 && units % 2 == 0;
    is_known && 4 + units / 2 + value_words(body, trie) <= len
}

/// Whether the part of the trie has none, or just one.
fn is_trie_part(body: Body<'_>, place: usize) -> bool
    requires headed { is_headed (seen body) place ≡ true }
    requires indexed { has_indexes (seen body) place ≡ true }
    requires parted { has_parts (seen body) place ≡ true }
    ensures { result ≡ is_trie_part (seen body.entry) (place + 1) }
{
    let from = part_at(body, place, 7);
    let to = part_at(body, place, 8);
    if from >= to {
        return true;
    }
    is_trie(body, place + 1 + from, to - from)
}

/// Whether the data of a collation is whole.
#[tactic(auto, unfolding(crate::specs::Collation::has_parts))]
pub(crate) fn is_whole(body: Body<'_>, place: usize) -> bool
    requires { place < word_count (seen body) }
    ensures { result ≡ is_whole (seen body.entry) place }
{
    if !is_headed(body, place) || !has_indexes(body, place) {
        return false;
    }
    if !has_front_parts(body, place) || !has_late_parts(body, place) || !has_end(body, place) {
        return false;
    }
    is_trie_part(body, place)
}

/// The parts of the data that are no trie's.
fn outer_parts(body: Body<'_>, place: usize) -> Parts
    requires headed { is_headed (seen body) place ≡ true }
    requires indexed { has_indexes (seen body) place ≡ true }
    ensures { result ≡ outer_parts (seen body.entry) (place + 1) }
{
    let header = header_of(body, place) / 4;
    let trie = part_at(body, place, 7);
    Parts {
        header,
        indexes: header + count_of(body, place),
        gap: part_at(body, place, 5),
        codes: part_at(body, place, 6),
        table: trie,
        signature: trie,
        units: trie,
        values: trie,
        fill: part_at(body, place, 9),
        weights: part_at(body, place, 10),
        words: part_at(body, place, 13),
        texts: part_at(body, place, 17),
        last: header + (offset(body, place, 17) + 2) / 4,
    }
}

/// The parts of data that is whole.
#[tactic(auto, unfolding(crate::specs::Collation::parts_in))]
fn parts_of(body: Body<'_>, place: usize) -> Parts
    requires { is_whole (seen body) place ≡ true }
    ensures { result ≡ parts_in (seen body.entry) (place + 1) }
{
    let parts = outer_parts(body, place);
    if parts.table >= part_at(body, place, 8) {
        return parts;
    }
    let trie = place + 1 + parts.table;
    let head = parts.table + 4 + trie_units(body, trie) / 2;
    let values = head + value_words(body, trie);
    let units = if has_wide_values(body, trie) {
        head
    } else {
        values
    };
    let signature = parts.table + 1;
    Parts {
        signature,
        units,
        values,
        ..parts
    }
}

/// The roles of the words of a body behind its first one.
#[tactic(auto, unfolding(crate::specs::Bodies::middle_at))]
pub(crate) fn fill_of(body: Body<'_>, role: Role, place: usize) -> Fill
    requires { place < word_count (seen body) }
    ensures { (k : ℕ) → fill_role result k ≡ middle_at (seen body.entry) role place k }
{
    if role.is_binary() && is_whole(body, place) && body.is_collation(place) {
        return Fill::Collation(parts_of(body, place));
    }
    Fill::All(role.middle())
}
