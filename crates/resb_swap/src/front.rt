//! The roles of the words in front of all bodies: index, keys and 16-bit block.
//! Those of the bodies are found in `walk`.
ghost use Rattle.std.specs.Prelude.{◌≡◌, ◌<◌, ◌≤◌, IfOk, true};
ghost use Rattle.resb_swap.specs.Numbers.{word_count};
ghost use Rattle.resb_swap.specs.Roles.{field_count};
ghost use Rattle.resb_swap.specs.Roles as said;
ghost use Rattle.resb_swap.specs.Swapped.{is_indexed};
ghost use Rattle.resb_swap.specs.Inner.Seen.{seen};
ghost use Rattle.resb_swap.specs.Inner.Front.{FrontRoles, role_before};

use crate::body::Body;
use crate::role::Role;
use resb_tree::NoMemory;
use std::alloc::Global;

/// How many words the index has.
fn field_count(body: Body<'_>) -> u32
    requires { 1 < word_count (seen body) }
    ensures { result ≡ said.field_count (seen body.entry) }
{
    body.word(1) % 0x100
}

/// Where the 16-bit block ends, in words.
fn block_end(body: Body<'_>) -> usize
    requires inside { field_count (seen body) < word_count (seen body) }
    requires five { 5 ≤ field_count (seen body) }
    ensures { result ≡ said.block_end (seen body.entry) }
{
    let number = if field_count(body) >= 7 { 7 } else { 2 };
    body.word(number) as usize
}

/// Whether the index has its five words at least, and index, keys and 16-bit block lie inside.
pub(crate) fn is_indexed(body: Body<'_>) -> bool
    ensures { result ≡ is_indexed (seen body.entry) }
{
    if body.len() < 2 {
        return false;
    }
    let fields = field_count(body);
    if fields < 5 || fields as usize >= body.len() {
        return false;
    }
    body.word(2) as usize <= body.len() && block_end(body) <= body.len()
}

/// The role of a word in front of all bodies, by where index, keys and 16-bit block end.
fn front_role(number: usize, fields: usize, keys_end: usize, block_end: usize) -> Role
    ensures { result ≡ role_before number fields keys_end block_end }
{
    if number <= fields {
        Role::Words
    } else if number < keys_end {
        Role::Bytes
    } else if number < block_end {
        Role::Units
    } else {
        Role::Free
    }
}

/// The role of each word in front of all bodies; the other words are free.
pub(crate) fn front_roles(alloc: Global, body: Body<'_>) -> Result<Vec<Role>, NoMemory>
    requires { is_indexed (seen body) ≡ true }
    ensures { IfOk result (λ rs. FrontRoles (seen body.entry) rs.items) }
{
    let fields = field_count(body) as usize;
    let keys_end = body.word(2) as usize;
    let block_end = block_end(body);
    let mut roles = Vec::with_capacity(alloc, body.len())?;
    for number in 0..body.len() {
        roles.push(front_role(number, fields, keys_end, block_end))?;
    }
    Ok(roles)
}
