//! The walk over the words of resources, from the root on, that gives a role to each word of a
//! body. A body to which two words lead is walked once. How its words are claimed says `claims`.
ghost use Rattle.std.specs.Prelude.{◌≡◌, ◌+◌, ◌<◌, ◌^◌, ◌≤◌, [], ◌∷◌, ◌++◌, length, OnOk, IfErr};
ghost use Rattle.std.specs.Prelude.{MatchResult, ℕ, true, false, IsTrue, ◌↔◌};
ghost use Rattle.resb_swap.specs.Numbers.{word_count, word_in};
ghost use Rattle.resb_swap.specs.Bodies.{members_from, member_count};
ghost use Rattle.resb_swap.specs.Collation.{is_collation, is_whole};
ghost use Rattle.resb_swap.specs.Roles.{RolesOf};
ghost use Rattle.resb_swap.specs.Swapped.{is_indexed};
ghost use Rattle.resb_swap.specs.Faults.{IsBodyFault};
ghost use Rattle.resb_swap.specs.Inner.Claims.{weight_of};
ghost use Rattle.resb_swap.specs.Inner.Seen.{seen};
ghost use Rattle.resb_swap.specs.Inner.Walk.{Walking, Appends};

use crate::body::Body;
use crate::claims::{is_claimed, own};
use crate::collation::is_whole;
use crate::error::SwapError;
use crate::front::front_roles;
use crate::role::{Role, has_type, place_of};
use resb_tree::NoMemory;
use std::alloc::Global;

/// Lets the members of a body wait.
#[tactic(auto, using(crate::proofs::OwningLemmas::middle_small, crate::proofs::OwningLemmas::members_small))]
fn add_members(
    body: Body<'_>,
    role: Role,
    place: usize,
    todo: &mut Vec<u32>,
) -> Result<(), NoMemory>
    requires first { place < word_count (seen body) }
    requires inside { (k : ℕ) → k < member_count (seen body) role place
        → members_from (seen body) role place + k < word_count (seen body) }
    ensures added { OnOk result (Appends (seen body.entry) todo.old.items todo.new.items role place
        (member_count (seen body.entry) role place)) }
    ensures few { member_count (seen body.entry) role place < 2 ^ 32 }
{
    let count = body.count(role, place);
    let from = place + 1 + role.middle_len(count);
    for number in 0..role.members(count) {
        todo.push(body.word(from + number))?;
    }
    Ok(())
}

/// Whether a body is a binary that holds the data of a collation which isn't whole.
fn is_broken(body: Body<'_>, role: Role, place: usize) -> bool
    requires first { place < word_count (seen body) }
    requires inside { role ≡ Role.Binary → 16 ≤ word_in (seen body) place
        → place + 4 < word_count (seen body) }
    ensures { IsTrue result
        ↔ ((role ≡ Role.Binary) × (is_collation (seen body.entry) place ≡ true)
        × (is_whole (seen body.entry) place ≡ false)) }
{
    if !role.is_binary() {
        return false;
    }
    body.is_collation(place) && !is_whole(body, place)
}

/// Walks a word that no longer waits.
fn enter(
    body: Body<'_>,
    word: u32,
    roles: &mut [Role],
    todo: &mut Vec<u32>,
) -> Result<(), SwapError>
    requires { Walking (seen body) roles.old (todo.old.items ++ word ∷ []) }
    ensures ok { OnOk result (Walking (seen body.entry) roles.new todo.new.items) }
    ensures err { IfErr result (IsBodyFault (seen body.entry)) }
    ensures ends { OnOk result (weight_of roles.new + length todo.new.items
        ≤ weight_of roles.old + length todo.old.items) }
{
    if !has_type(word) {
        return Err(SwapError::UnknownType);
    }
    let role = Role::of_word(word);
    let place = place_of(word);
    if role.is_free() {
        return Ok(());
    }
    if is_claimed(roles, place, role) {
        return Ok(());
    }
    own(body, role, place, roles)?;
    if is_broken(body, role, place) {
        return Err(SwapError::Collation);
    }
    add_members(body, role, place, todo)?;
    Ok(())
}

/// The role of each word of a body.
pub(crate) fn roles_of(alloc: Global, body: Body<'_>) -> Result<Vec<Role>, SwapError>
    requires { is_indexed (seen body) ≡ true }
    ensures { MatchResult result (λ rs. RolesOf (seen body.entry) rs.items)
        (IsBodyFault (seen body.entry)) }
{
    let mut roles = front_roles(alloc, body)?;
    let mut todo = Vec::new(alloc);
    todo.push(body.word(0))?;
    while let Some(word) = todo.pop() {
        enter(body, word, &mut roles, &mut todo)?;
    }
    Ok(roles)
}
