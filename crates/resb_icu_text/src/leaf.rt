//! Groups that hold no items: one string, a path, hex digits, one number, or numbers.
//! Each is read from behind its `{` on, up to its `}`. Which type a group names is read in `types`.
ghost use Rattle.std.specs.Prelude.{◌≡◌, ◌≢◌, ◌+◌, ◌*◌, ◌<◌, ◌≤◌, length, MatchResult};
ghost use Rattle.std.specs.Prelude.{◌-◌, None, Some, IfOk, slice_index};
ghost use Rattle.resb_grammar.specs.Ascii as ascii;
ghost use Rattle.resb_icu_grammar.specs.declared.group_kind.IcuKind.TheVariants as kinds;
ghost use Rattle.resb_icu_grammar.specs.Groups.{digits_of};
ghost use Rattle.resb_icu_text.specs.Inner.Found.{IsFound, turns_to_make};
ghost use Rattle.resb_icu_text.specs.Inner.Leaf.{IsReadLeaf, LeafStops, IsVector, IsBrace};
ghost use Rattle.resb_icu_text.specs.Inner.Leaf.{IsBehindNumber, WantsBrace, WantsCommaOrBrace};
ghost use Rattle.resb_icu_text.specs.Inner.Turns.{Halts};
ghost use Rattle.resb_icu_text.specs.Inner.Reach.{reach};

use crate::blanks::{byte, skip};
use crate::digits::hex_length;
use crate::error::IcuTextError;
use crate::quota::{BINARY_BYTE, Meter, NUMBER, REQUEST, asked_bytes};
use crate::rows::row_bytes;
use crate::strings::{Found, Stands, found_or};
use crate::turns::IcuTurns;
use crate::words::number;
use resb_grammar::bytes_of_hex;
use resb_icu_grammar::{IcuExpected, IcuKind};
use resb_tree::{Int28, NoMemory, Resource};
use std::alloc::Global;
use std::borrow::CowSlice;

/// The place of the `}` that must stand here.
#[tactic(auto, using(crate::proofs::ReachLemmas::reached))]
fn closing(text: &str, at: usize) -> Result<usize, IcuTextError>
    requires within { at ≤ length text.now }
    ensures { MatchResult result (IsBrace text.now at) (WantsBrace text.now at) }
{
    if byte(text, at) == b'}' {
        Ok(at)
    } else {
        Err(IcuTextError::new(at, IcuExpected::RightBrace))
    }
}

/// The place of the `}` of a `:string` group, and its string.
fn string_leaf<'a>(
    alloc: Global,
    text: &'a str,
    at: usize,
    meter: &mut Meter,
) -> Result<(usize, Resource<'a>), IcuTextError>
    requires within { at ≤ length text.now }
    ensures reads { MatchResult result
        (IsReadLeaf text.now at kinds.String meter.old.quota meter.new.quota)
        (LeafStops text.now at kinds.String meter.old.quota meter.new.quota) }
    ensures cost { MatchResult result
        (λ r. meter.new.turns.count + 8 * reach text.now at ≤ meter.old.turns.count + 8 * r.0)
        (λ e. Halts text.now 4 at meter.old.turns meter.new.turns) }
{
    let found = found_or(text, at, IcuExpected::String, &mut meter.turns)?;
    let to = closing(text, found.next)?;
    let weights = meter.quota.weights;
    meter.quota.take(asked_bytes(weights, found.length()))?;
    let said = found.text(alloc, text, at, &mut meter.turns)?;
    Ok((to, Resource::String(said)))
}

/// The place of the `}` of an `:alias` group, and the alias with the string there as its path.
fn alias_leaf<'a>(
    alloc: Global,
    text: &'a str,
    at: usize,
    meter: &mut Meter,
) -> Result<(usize, Resource<'a>), IcuTextError>
    requires within { at ≤ length text.now }
    ensures reads { MatchResult result
        (IsReadLeaf text.now at kinds.Alias meter.old.quota meter.new.quota)
        (LeafStops text.now at kinds.Alias meter.old.quota meter.new.quota) }
    ensures cost { MatchResult result
        (λ r. meter.new.turns.count + 8 * reach text.now at ≤ meter.old.turns.count + 8 * r.0)
        (λ e. Halts text.now 4 at meter.old.turns meter.new.turns) }
{
    let found = found_or(text, at, IcuExpected::String, &mut meter.turns)?;
    let to = closing(text, found.next)?;
    let weights = meter.quota.weights;
    meter.quota.take(asked_bytes(weights, found.length()))?;
    let path = found.text(alloc, text, at, &mut meter.turns)?;
    Ok((to, Resource::Alias(path)))
}

/// The place of the `}` of a `:bin` group, and its bytes, which are taken from the quota with their
/// digits before these are put together.
fn binary_leaf<'a>(
    alloc: Global,
    text: &'a str,
    at: usize,
    meter: &mut Meter,
) -> Result<(usize, Resource<'a>), IcuTextError>
    requires within { at ≤ length text.now }
    ensures reads { MatchResult result
        (IsReadLeaf text.now at kinds.Binary meter.old.quota meter.new.quota)
        (LeafStops text.now at kinds.Binary meter.old.quota meter.new.quota) }
    ensures cost { MatchResult result
        (λ r. meter.new.turns.count + 8 * reach text.now at ≤ meter.old.turns.count + 8 * r.0)
        (λ e. Halts text.now 4 at meter.old.turns meter.new.turns) }
{
    let found = found_or(text, at, IcuExpected::String, &mut meter.turns)?;
    let Some(count) = hex_length(found, text, at, &mut meter.turns) else {
        return Err(IcuTextError::new(at, IcuExpected::HexPairs));
    };
    let to = closing(text, found.next)?;
    let block = meter.quota.weights.group as u128 + REQUEST;
    meter.quota.take(block + BINARY_BYTE * count as u128)?;
    let bytes = decoded(alloc, found, text, at, &mut meter.turns)?;
    Ok((to, Resource::Binary(CowSlice::Owned(bytes))))
}

/// The bytes that the pairs of hex digits say that a string is. Counts as many turns as it takes to
/// put it together.
fn decoded(
    alloc: Global,
    found: Found<'_>,
    text: &str,
    from: usize,
    turns: &mut IcuTurns,
) -> Result<Vec<u8>, NoMemory>
    requires found { IsFound text.now from found }
    requires pairs { (is : IsFound text.now from found)
        → digits_of is.string ≢ None }
    ensures bytes { IfOk result (λ v. (is : IsFound text.now from found.entry)
        → digits_of is.string ≡ Some v.items) }
    ensures cost { let bytes = found.entry.end - from in turns.new.count
        ≤ turns.old.count + turns_to_make bytes found.entry.stands }
{
    if let Stands::InRow(_) = found.stands {
        return row_bytes(alloc, text, from, found.end, turns);
    }
    let digits = found.text(alloc, text, from, turns)?;
    match bytes_of_hex(alloc, &digits)? {
        Some(bytes) => Ok(bytes),
        None => unreachable!(),
    }
}

/// The place of the `}` of an `:int` group, and its number, which the bundle holds modulo 2^28.
#[tactic(auto, using(crate::proofs::ReachLemmas::reached_by_numbers))]
fn integer_leaf<'a>(
    text: &'a str,
    at: usize,
    meter: &mut Meter,
) -> Result<(usize, Resource<'a>), IcuTextError>
    requires within { at ≤ length text.now }
    ensures reads { MatchResult result
        (IsReadLeaf text.now at kinds.Integer meter.old.quota meter.new.quota)
        (LeafStops text.now at kinds.Integer meter.old.quota meter.new.quota) }
    ensures cost { MatchResult result
        (λ r. meter.new.turns.count + 8 * reach text.now at ≤ meter.old.turns.count + 8 * r.0)
        (λ e. Halts text.now 4 at meter.old.turns meter.new.turns) }
{
    let Some((end, value)) = number(text, at, &mut meter.turns) else {
        return Err(IcuTextError::new(at, IcuExpected::Number));
    };
    let next = skip(text, end, &mut meter.turns);
    let to = closing(text, next)?;
    let group = meter.quota.weights.group;
    meter.quota.take(group as u128)?;
    Ok((to, Resource::Integer(Int28::from(value))))
}

/// Where the next number stands, or the `}`: behind one comma, or right here where no comma stands.
#[tactic(auto, using(crate::proofs::ReachLemmas::reached))]
fn behind_number(text: &str, at: usize, turns: &mut IcuTurns) -> Result<usize, IcuTextError>
    requires within { at ≤ length text.now }
    ensures reads { MatchResult result (IsBehindNumber text.now at)
        (WantsCommaOrBrace text.now at) }
    ensures cost { MatchResult result
        (λ to. (at ≤ to) × (to ≤ length text.now)
        × (turns.new.count + 2 * reach text.now at ≤ turns.old.count + 2 * reach text.now to))
        (λ e. turns.new.count ≤ turns.old.count) }
{
    match byte(text, at) {
        b'}' => Ok(at),
        b',' => Ok(skip(text, at + 1, turns)),
        _ => Err(IcuTextError::new(at, IcuExpected::CommaOrRightBrace)),
    }
}

/// The place of the `}` behind numbers, and these: at least one, with a comma between two. Each is
/// taken from the quota before there is room for it.
#[tactic(auto, using(crate::proofs::ReachLemmas::reached_by_numbers))]
fn numbers(
    alloc: Global,
    text: &str,
    at: usize,
    meter: &mut Meter,
) -> Result<(usize, Vec<u32>), IcuTextError>
    requires within { at ≤ length text.now }
    requires some { slice_index text.now at ≢ ascii.right_brace }
    ensures reads { MatchResult result
        (IsVector text.now at meter.old.quota meter.new.quota)
        (LeafStops text.now at kinds.IntVector meter.old.quota meter.new.quota) }
    ensures cost { MatchResult result
        (λ r. meter.new.turns.count + 8 * reach text.now at ≤ meter.old.turns.count + 8 * r.0)
        (λ e. Halts text.now 4 at meter.old.turns meter.new.turns) }
{
    let mut numbers = Vec::new(alloc);
    let mut here = at;
    'numbers: loop {
        let Some((end, value)) = number(text, here, &mut meter.turns) else {
            return Err(IcuTextError::new(here, IcuExpected::NumberOrRightBrace));
        };
        meter.quota.take(NUMBER)?;
        numbers.push(value)?;
        let place = skip(text, end, &mut meter.turns);
        here = behind_number(text, place, &mut meter.turns)?;
        if byte(text, here) == b'}' {
            return Ok((here, numbers));
        }
    }
}

/// The place of the `}` of an `:intvector` group, and its numbers.
#[tactic(auto, using(crate::proofs::ReachLemmas::reached))]
fn vector_leaf<'a>(
    alloc: Global,
    text: &'a str,
    at: usize,
    meter: &mut Meter,
) -> Result<(usize, Resource<'a>), IcuTextError>
    requires within { at ≤ length text.now }
    ensures reads { MatchResult result
        (IsReadLeaf text.now at kinds.IntVector meter.old.quota meter.new.quota)
        (LeafStops text.now at kinds.IntVector meter.old.quota meter.new.quota) }
    ensures cost { MatchResult result
        (λ r. meter.new.turns.count + 8 * reach text.now at ≤ meter.old.turns.count + 8 * r.0)
        (λ e. Halts text.now 4 at meter.old.turns meter.new.turns) }
{
    let block = meter.quota.weights.group as u128 + REQUEST;
    if byte(text, at) == b'}' {
        meter.quota.take(block)?;
        return Ok((at, Resource::IntVector(Vec::new(alloc))));
    }
    let (to, numbers) = numbers(alloc, text, at, meter)?;
    meter.quota.take(block)?;
    Ok((to, Resource::IntVector(numbers)))
}

/// The place of the `}` of a group without items, of a type that has none, and its resource.
pub(crate) fn leaf<'a>(
    alloc: Global,
    text: &'a str,
    kind: IcuKind,
    at: usize,
    meter: &mut Meter,
) -> Result<(usize, Resource<'a>), IcuTextError>
    requires within { at ≤ length text.now }
    requires leaf { (kind ≢ kinds.Array) × (kind ≢ kinds.Table) }
    ensures reads { MatchResult result
        (IsReadLeaf text.now at kind meter.old.quota meter.new.quota)
        (LeafStops text.now at kind meter.old.quota meter.new.quota) }
    ensures cost { MatchResult result
        (λ r. meter.new.turns.count + 8 * reach text.now at ≤ meter.old.turns.count + 8 * r.0)
        (λ e. Halts text.now 4 at meter.old.turns meter.new.turns) }
{
    match kind {
        IcuKind::String => string_leaf(alloc, text, at, meter),
        IcuKind::Alias => alias_leaf(alloc, text, at, meter),
        IcuKind::Binary => binary_leaf(alloc, text, at, meter),
        IcuKind::Integer => integer_leaf(text, at, meter),
        IcuKind::IntVector => vector_leaf(alloc, text, at, meter),
        IcuKind::Array | IcuKind::Table => unreachable!(),
    }
}
