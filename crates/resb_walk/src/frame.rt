//! Open collections, round by round: members are taken from one, and put in when they are made.
//! In which order they are open is the business of `read`.
ghost use Rattle.std.specs.Prelude.{ℕ, ◌+◌, IfErr};
ghost use Rattle.resb_tree.specs.Tree.{Tree};
ghost use Rattle.resb_format.specs.Parts.{Parts, parts_in};
ghost use Rattle.resb_format.specs.Content as at;
ghost use Rattle.resb_format.specs.Denotes.{DenMember};
ghost use Rattle.resb_format.specs.Error.{refusal_of};
ghost use Rattle.resb_walk.specs.Inner.Frames.{Opened, Waits};
ghost use Rattle.resb_walk.specs.Meets.{Meets, Blames};
ghost use Rattle.resb_walk.specs.Inner.Rounds.{Progresses, PutsMember};

use crate::make::Make;
use crate::members::{Member, Members, TableParts};
use crate::standing::key_at;
use resb_format::{FileBlocks, ReadingError};
use std::alloc::Global;

/// A collection whose members are read one by one: those still to come, and what is made of the
/// others.
#[derive(Drop)]
pub enum Open<'a, L, T> {
    List(Members<'a>, L),
    Table(TableParts<'a>, T),
}

/// An open collection of which a member is being read: for a table also its key.
#[derive(Drop)]
pub enum Waiting<'a, L, T> {
    List(Members<'a>, L),
    Table(TableParts<'a>, T, &'a str),
}

/// How an open collection goes on.
#[derive(Drop)]
pub enum Progress<'a, X, L, T> {
    /// A member is wanted.
    Wants(Member, Waiting<'a, L, T>),
    /// All members were read.
    Done(X),
}

/// A member, read up to its own members.
#[derive(Drop)]
pub enum Read<'a, X, L, T> {
    Made(X),
    Begun(Open<'a, L, T>),
}

/// Takes the next member of an open collection, or closes it where none is left.
pub fn advance<'a, 'm, M: Make<'a>>(
    alloc: Global,
    file: FileBlocks<'a>,
    frame: Open<'a, M::List, M::Table>,
) -> Result<Progress<'a, M, M::List, M::Table>, ReadingError<'m>>
    ensures steps { (w n : ℕ) → Opened M.lists M.tables (parts_in file.entry) frame.entry w n
        → Progresses M.is M.lists M.tables (parts_in file.entry) w n result }
    ensures meets { (w n : ℕ) → Opened M.lists M.tables (parts_in file.entry) frame.entry w n
        → IfErr result (Blames (Meets (parts_in file.entry) (at.word w))) }
{
    match frame {
        Open::List(rest, made) => match rest.split() {
            Some((member, rest)) => Ok(Progress::Wants(member, Waiting::List(rest, made))),
            None => Ok(Progress::Done(M::end_list(made))),
        },
        Open::Table(rest, made) => match rest.split() {
            Some((position, member, rest)) => {
                let key = key_at(file, position)?;
                Ok(Progress::Wants(member, Waiting::Table(rest, made, key)))
            }
            None => Ok(Progress::Done(M::end_table(alloc, made)?)),
        },
    }
}

/// The collection with the member that it waited for.
#[inline(always)]
pub fn put<'a, 'm, M: Make<'a>>(
    waiting: Waiting<'a, M::List, M::Table>,
    item: M,
) -> Result<Open<'a, M::List, M::Table>, ReadingError<'m>>
    ensures { (p : Parts) (w n k : ℕ) (x : at.Member) (t : Tree)
        → Waits M.lists M.tables p waiting.entry w x n → DenMember p x t k → M.is item t
        → PutsMember M.lists M.tables p w (n + k) result }
{
    match waiting {
        Waiting::List(rest, mut made) => {
            M::add(&mut made, item)?;
            Ok(Open::List(rest, made))
        }
        Waiting::Table(rest, mut made, key) => {
            M::put(&mut made, key, item)?;
            Ok(Open::Table(rest, made))
        }
    }
}
