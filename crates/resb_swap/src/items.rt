//! Where the items of a package and their names are: that each is where it belongs, so that no byte
//! is a part of two of them. What an item holds is the business of `package`.
ghost use Rattle.std.specs.Prelude.{◌≡◌, ◌+◌, ◌*◌, ◌≤◌, ◌<◌, length, MatchResult, Ok};
ghost use Rattle.resb_swap.specs.Numbers.{word_count};
ghost use Rattle.resb_swap.specs.Packages.{item_count, item_place, name_place, table_end};
ghost use Rattle.resb_swap.specs.Packages.{IsItemInPlace, IsNameInPlace};
ghost use Rattle.resb_swap.specs.PackageFaults.{IsPlaceFault};
ghost use Rattle.resb_swap.specs.Inner.Tables.{EndsAtZero, AreItemsInPlace, AreNamesInPlace};
ghost use Rattle.resb_swap.specs.Inner.Seen.{seen};

use crate::body::Body;
use crate::package_error::PackageSwapError;
use crate::table::item_count;

/// Where an item begins, in bytes behind the header; behind the last one, the end of the file.
#[tactic(auto, unfolding(crate::specs::Packages::item_place))]
pub(crate) fn item_place(body: Body<'_>, number: usize) -> usize
    requires { 2 * item_count (seen body) < word_count (seen body) }
    ensures { result ≡ item_place (seen body.entry) number }
{
    if number < item_count(body) {
        body.word(2 * number + 2) as usize
    } else {
        body.bytes.len() - body.start
    }
}

/// Where the table ends, in bytes behind the header.
fn table_end(body: Body<'_>) -> usize
    requires { 2 * item_count (seen body) < word_count (seen body) }
    ensures { result ≡ table_end (seen body.entry) }
{
    4 * (2 * item_count(body) + 1)
}

/// Checks where an item stands.
fn check_item(body: Body<'_>, number: usize) -> Result<(), PackageSwapError>
    requires table { 2 * item_count (seen body) < word_count (seen body) }
    requires inside { number < item_count (seen body) }
    ensures { MatchResult result (λ _. IsItemInPlace (seen body.entry) number)
        (IsPlaceFault (seen body.entry)) }
{
    let place = item_place(body, number);
    if place < table_end(body) || item_place(body, number + 1) < place {
        return Err(PackageSwapError::ItemAstray(number));
    }
    Ok(())
}

/// Checks where the items stand.
pub(crate) fn check_items(body: Body<'_>) -> Result<(), PackageSwapError>
    requires { 2 * item_count (seen body) < word_count (seen body) }
    ensures { MatchResult result (λ _. AreItemsInPlace (seen body.entry))
        (IsPlaceFault (seen body.entry)) }
{
    for number in 0..item_count(body) {
        check_item(body, number)?;
    }
    Ok(())
}

/// The place behind the last zero byte between two places of the body; the first of the two, where
/// none is there.
fn zero_end(body: Body<'_>, from: usize, to: usize) -> usize
    requires order { from ≤ to }
    requires inside { body.start + to ≤ length body.bytes.now }
    ensures { EndsAtZero (seen body.entry) from to result }
{
    let mut end = to;
    while end > from {
        if body.bytes[body.start + (end - 1)] == 0 {
            return end;
        }
        end -= 1;
    }
    end
}

/// Checks where the name of an item stands, by the place before which a name has to begin.
fn check_name(body: Body<'_>, number: usize, end: usize) -> Result<(), PackageSwapError>
    requires table { 2 * item_count (seen body) < word_count (seen body) }
    requires inside { number < item_count (seen body) }
    requires ends { EndsAtZero (seen body) (table_end (seen body)) (item_place (seen body) 0) end }
    ensures { MatchResult result (λ _. IsNameInPlace (seen body.entry) number)
        (IsPlaceFault (seen body.entry)) }
{
    let place = body.word(2 * number + 1) as usize;
    if place < table_end(body) || place >= end {
        return Err(PackageSwapError::NameAstray(number));
    }
    Ok(())
}

/// Checks where the names stand.
pub(crate) fn check_names(body: Body<'_>) -> Result<(), PackageSwapError>
    requires table { 2 * item_count (seen body) < word_count (seen body) }
    requires items { AreItemsInPlace (seen body) }
    ensures { MatchResult result (λ _. AreNamesInPlace (seen body.entry))
        (IsPlaceFault (seen body.entry)) }
{
    let end = zero_end(body, table_end(body), item_place(body, 0));
    for number in 0..item_count(body) {
        check_name(body, number, end)?;
    }
    Ok(())
}
