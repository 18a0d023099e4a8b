//! The list of roles, and the claim of a body's words in it.
//! Which bodies there are is found in `walk`.
ghost use Rattle.std.specs.Prelude.{◌≡◌, ◌≢◌, ◌+◌, ◌<◌, ◌^◌, ◌≤◌, length, OnOk, IfErr, true};
ghost use Rattle.std.specs.Prelude.{IsTrue, ◌↔◌, ◌⊎◌, ℕ};
ghost use Rattle.resb_swap.specs.Bodies.{is_start};
ghost use Rattle.resb_swap.specs.Numbers.{word_count};
ghost use Rattle.resb_swap.specs.Roles.{role_at};
ghost use Rattle.resb_swap.specs.Inner.Claims.{Claimed, FailsClaim, Owned, FailsOwning};
ghost use Rattle.resb_swap.specs.Inner.Claims.{fill_role};
ghost use Rattle.resb_swap.specs.Inner.Seen.{seen};

use crate::body::Body;
use crate::collation::fill_of;
use crate::error::SwapError;
use crate::parts::Fill;
use crate::role::Role;

/// Whether a word is the first of a body of this kind that was claimed before.
pub(crate) fn is_claimed(roles: &[Role], place: usize, role: Role) -> bool
    requires { role ≢ Role.Free }
    ensures { IsTrue result ↔ (role_at roles.now place ≡ role) }
{
    place < roles.len() && roles[place] == role
}

/// Whether a word that has one role may be given the other.
fn is_open(old: Role, role: Role) -> bool
    ensures { IsTrue result ↔ ((old ≡ Role.Free) ⊎ (old ≡ role)) }
{
    old == Role::Free || old == role
}

/// Gives their roles to so many words from a place on. Refused where one lies outside, or has
/// another role.
fn claim(roles: &mut [Role], from: usize, count: usize, fill: Fill) -> Result<(), SwapError>
    requires small { from + count < 2 ^ 64 }
    requires some { (k : ℕ) → fill_role fill k ≢ Role.Free }
    ensures ok { OnOk result (Claimed roles.old roles.new from count (fill_role fill)) }
    ensures err { IfErr result (FailsClaim roles.old from count (fill_role fill)) }
{
    for i in from..from + count {
        if i >= roles.len() {
            return Err(SwapError::Outside);
        }
        let role = fill.role(i - from);
        if !is_open(roles[i], role) {
            return Err(SwapError::TwoRoles);
        }
        roles[i] = role;
    }
    Ok(())
}

/// Gives the words of a body their roles, whose first one hasn't that role yet. Refused where one
/// lies outside, or has another role.
#[tactic(auto, using(crate::proofs::OwningLemmas::middle_small, crate::proofs::OwningLemmas::members_small))]
pub(crate) fn own(
    body: Body<'_>,
    role: Role,
    place: usize,
    roles: &mut [Role],
) -> Result<(), SwapError>
    requires whole { length roles.old ≡ word_count (seen body) }
    requires start { is_start role ≡ true }
    requires new { role_at roles.old place ≢ role }
    requires small { place < 2 ^ 28 }
    ensures ok { OnOk result (Owned (seen body.entry) roles.old roles.new role place) }
    ensures err { IfErr result (FailsOwning (seen body.entry) roles.old role place) }
{
    if place >= roles.len() {
        return Err(SwapError::Outside);
    }
    if !roles[place].is_free() {
        return Err(SwapError::TwoRoles);
    }
    roles[place] = role;
    let count = body.count(role, place);
    let middle = role.middle_len(count);
    claim(roles, place + 1, middle, fill_of(body, role, place))?;
    let words = Fill::All(Role::Words);
    claim(roles, place + 1 + middle, role.members(count), words)
}
