//! Members that are made where they stand, one behind the other: short strings and numbers, as most
//! members are. At any other, and at an entry whose key isn't short and ASCII, this ends; `read`
//! goes on there, and finds what is wrong with it.
ghost use Rattle.std.specs.Prelude.{◌≡◌, ◌≤◌, Some, IfOk, IfSome};
ghost use Rattle.resb_format.specs.Content as at;
ghost use Rattle.resb_format.specs.Lookups.{key_in};
ghost use Rattle.resb_format.specs.Parts.{parts_in};
ghost use Rattle.resb_walk.specs.Inner.Frames.{FillsList, FillsTable, Fills};
ghost use Rattle.resb_walk.specs.Inner.MemberContent.{member_content};
ghost use Rattle.resb_walk.specs.Inner.Members.{member_of, leaf_tree};

use crate::frame::Open;
use crate::leads::{Glance, glance_at};
use crate::make::Make;
use crate::members::{Leaf, Member, Members, TableParts};
use crate::places::{key_place, text_place};
use crate::standing::{plain_key, plain_text};
use crate::walk::Walk;
use resb_format::FileBlocks;
use resb_tree::NoMemory;
use std::alloc::Global;

/// The short string or the number that a member is, if it is one.
#[inline(always)]
fn plain_leaf(file: FileBlocks<'_>, member: Member) -> Option<Leaf<'_>>
    ensures { let content = member_content (parts_in file.entry) (member_of member) in
        IfSome result (λ l. content ≡ Some (at.leaf (leaf_tree l))) }
{
    match glance_at(file, member) {
        Glance::Text(index) => {
            let (block, unit) = text_place(file, index);
            let text = plain_text(block, unit)?;
            Some(Leaf::Text(text))
        }
        Glance::Integer(word) => Some(Leaf::Integer(word)),
        Glance::Other(_) => None,
    }
}

/// The key at a position, where it is short and ASCII.
#[inline(always)]
fn plain_key_at(file: FileBlocks<'_>, position: usize) -> Option<&str>
    ensures { let p = parts_in file.entry in
        IfSome result (λ s. key_in p position ≡ Some s.now) }
{
    let (keys, at) = key_place(file, position);
    plain_key(keys, at)
}

/// Adds the short strings and numbers at the front of an array's members. Gives the members behind
/// them.
#[inline(always)]
fn fill_list<'a, M: Make<'a>>(
    alloc: Global,
    file: FileBlocks<'a>,
    rest: Members<'a>,
    made: &mut M::List,
    walk: &mut Walk,
) -> Result<Members<'a>, NoMemory>
    ensures fills { IfOk result (λ later. FillsList M.lists M.tables (parts_in file.entry)
        rest.entry made.old walk.old later made.new walk.new) }
    ensures falls { walk.new ≤ walk.old }
{
    let mut rest = rest;
    'members: while walk.left() > 0 {
        let Some((member, later)) = rest.split() else {
            break;
        };
        let Some(leaf) = plain_leaf(file, member) else {
            break;
        };
        M::add(made, M::leaf(alloc, leaf)?)?;
        walk.spend();
        rest = later;
    }
    Ok(rest)
}

/// Adds the entries at the front whose values are short strings and numbers. Gives the entries
/// behind them.
#[inline(always)]
fn fill_table<'a, M: Make<'a>>(
    alloc: Global,
    file: FileBlocks<'a>,
    rest: TableParts<'a>,
    made: &mut M::Table,
    walk: &mut Walk,
) -> Result<TableParts<'a>, NoMemory>
    ensures fills { IfOk result (λ later. FillsTable M.lists M.tables (parts_in file.entry)
        rest.entry made.old walk.old later made.new walk.new) }
    ensures falls { walk.new ≤ walk.old }
{
    let mut rest = rest;
    'entries: while walk.left() > 0 {
        let Some((position, member, later)) = rest.split() else {
            break;
        };
        let Some(leaf) = plain_leaf(file, member) else {
            break;
        };
        let Some(key) = plain_key_at(file, position) else {
            break;
        };
        M::put(made, key, M::leaf(alloc, leaf)?)?;
        walk.spend();
        rest = later;
    }
    Ok(rest)
}

/// The collection once the short strings and numbers that are its next members are made. It pays
/// for them.
#[inline(always)]
pub(crate) fn fill<'a, M: Make<'a>>(
    alloc: Global,
    file: FileBlocks<'a>,
    frame: Open<'a, M::List, M::Table>,
    walk: &mut Walk,
) -> Result<Open<'a, M::List, M::Table>, NoMemory>
    ensures fills { IfOk result (λ filled. Fills M.lists M.tables (parts_in file.entry) frame.entry
        walk.old filled walk.new) }
    ensures falls { walk.new ≤ walk.old }
{
    Ok(match frame {
        Open::List(rest, mut made) => {
            let rest = fill_list::<M>(alloc, file, rest, &mut made, walk)?;
            Open::List(rest, made)
        }
        Open::Table(rest, mut made) => {
            let rest = fill_table::<M>(alloc, file, rest, &mut made, walk)?;
            Open::Table(rest, made)
        }
    })
}
