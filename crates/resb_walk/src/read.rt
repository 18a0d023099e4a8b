//! The reader: it goes from frame to frame, and no function calls itself, so any depth is read.
//! What stands at a word is found in `standing`, and what is made of it in `tree`. Where nothing is
//! made, the resources are gone through in `count`.
//! A round makes the short strings and numbers that are next in the innermost collection, in
//! `leaves`; then it takes the next member, paid for as it begins, or closes the collection.
ghost use Rattle.std.specs.Prelude.{ℕ, IfOk, IfErr};
ghost use Rattle.resb_format.specs.Content as at;
ghost use Rattle.resb_format.specs.Denotes.{Den, Reaches, DenMember, ReachesMember};
ghost use Rattle.resb_format.specs.Parts.{parts_in};
ghost use Rattle.resb_walk.specs.Inner.Members.{member_of};
ghost use Rattle.resb_walk.specs.Meets.{Meets, Blames};
ghost use Rattle.resb_walk.specs.Refusals.{Answers, TakesOne};
ghost use Rattle.resb_walk.specs.Inner.Frames.{Waits};
ghost use Rattle.resb_walk.specs.Inner.Rounds.{Starts, ReadsMember, PutsOrOpens};

use crate::count::count_word;
use crate::frame::{Open, Progress, Read, Waiting, advance, put};
use crate::leaves::fill;
use crate::make::Make;
use crate::members::{Member, Standing};
use crate::room::can_be_paid;
use crate::standing::member_at;
use crate::walk::Walk;
use resb_format::{FileBlocks, ReadingError};
use resb_tree::NoMemory;
use std::alloc::Global;

/// Makes a leaf, or begins a collection.
#[inline(always)]
fn start<'a, M: Make<'a>>(
    alloc: Global,
    standing: Standing<'a>,
) -> Result<Read<'a, M, M::List, M::Table>, NoMemory>
    ensures { IfOk result (Starts M.is M.lists M.tables standing.entry) }
{
    Ok(match standing {
        Standing::Leaf(leaf) => Read::Made(M::leaf(alloc, leaf)?),
        Standing::List(rest) => Read::Begun(Open::List(rest, M::begin_list(alloc, rest.len())?)),
        Standing::Table(rest) => Read::Begun(Open::Table(rest, M::begin_table(alloc, rest.len())?)),
    })
}

/// Reads a member up to its own members, and pays for it.
#[inline(always)]
fn begin<'a, 'm, M: Make<'a>>(
    alloc: Global,
    file: FileBlocks<'a>,
    member: Member,
    walk: &mut Walk,
) -> Result<Read<'a, M, M::List, M::Table>, ReadingError<'m>>
    ensures reads { ReadsMember M.is M.lists M.tables (parts_in file.entry)
        (member_of member) walk.old walk.new result }
    ensures meets { IfErr result (Blames (Meets (parts_in file.entry) (member_of member))) }
    ensures takes { IfErr result (TakesOne walk.old walk.new) }
{
    walk.pay()?;
    let standing = member_at(file, member)?;
    Ok(start::<M>(alloc, standing)?)
}

/// Reads a member that a collection waits for. One that has members of its own is the innermost
/// collection then, and the other stands among those around it.
#[inline(always)]
fn enter<'a, 'm, M: Make<'a>>(
    alloc: Global,
    file: FileBlocks<'a>,
    member: Member,
    waiting: Waiting<'a, M::List, M::Table>,
    frames: &mut Vec<Waiting<'a, M::List, M::Table>>,
    walk: &mut Walk,
) -> Result<Open<'a, M::List, M::Table>, ReadingError<'m>>
    ensures enters { let p = parts_in file.entry in let m = member_of member in
        (w n : ℕ) → Waits M.lists M.tables p waiting.entry w m n
        → PutsOrOpens M.lists M.tables p waiting.entry m w n frames.old.items frames.new.items
        walk.old walk.new result }
    ensures meets { let p = parts_in file.entry in let m = member_of member in
        (w n : ℕ) → Waits M.lists M.tables p waiting.entry w m n
        → IfErr result (Blames (Meets p m)) }
{
    let inner = match begin::<M>(alloc, file, member, walk)? {
        Read::Made(item) => return put::<M>(waiting, item),
        Read::Begun(inner) => inner,
    };
    frames.push(waiting)?;
    Ok(inner)
}

/// Reads the string at a unit of the 16-bit block.
pub fn read_string_at<'a, 'm, M: Make<'a>>(
    alloc: Global,
    file: FileBlocks<'a>,
    unit: u16,
    walk: &mut Walk,
) -> Result<M, ReadingError<'m>>
    ensures answers { let p = parts_in file.entry in
        Answers M.is (DenMember p (at.unit unit)) (ReachesMember p (at.unit unit)) walk.old walk.new
        result }
    ensures meets { IfErr result (Blames (Meets (parts_in file.entry) (at.unit unit))) }
    ensures takes { IfErr result (TakesOne walk.old walk.new) }
{
    match begin::<M>(alloc, file, Member::Unit(unit), walk)? {
        Read::Made(made) => Ok(made),
        Read::Begun(_) => unreachable!(),
    }
}

/// Reads the tree at a word.
pub fn read_word<'a, 'm, M: Make<'a>>(
    alloc: Global,
    file: FileBlocks<'a>,
    word: u32,
    walk: &mut Walk,
) -> Result<M, ReadingError<'m>>
    ensures answers { Answers M.is (Den (parts_in file.entry) word)
        (Reaches (parts_in file.entry) word) walk.old walk.new result }
    ensures meets { IfErr result (Blames (Meets (parts_in file.entry) (at.word word))) }
    ensures takes { IfErr result (TakesOne walk.old walk.new) }
{
    let mut frame = match begin::<M>(alloc, file, Member::Word(word), walk)? {
        Read::Made(made) => return Ok(made),
        Read::Begun(frame) => frame,
    };
    let mut frames = Vec::new(alloc);
    // twice what is left, plus the number of frames, falls in each round
    'rounds: loop {
        let filled = fill::<M>(alloc, file, frame, walk)?;
        frame = match advance::<M>(alloc, file, filled)? {
            Progress::Wants(member, waiting) => {
                enter::<M>(alloc, file, member, waiting, &mut frames, walk)?
            }
            Progress::Done(item) => match frames.pop() {
                Some(waiting) => put::<M>(waiting, item)?,
                None => return Ok(item),
            },
        };
    }
}

/// Reads the tree at a word, once its counts are known to be paid for: so no count asks for room
/// that the budget doesn't pay.
pub fn read_checked<'a, 'm, M: Make<'a>>(
    alloc: Global,
    file: FileBlocks<'a>,
    word: u32,
    walk: &mut Walk,
) -> Result<M, ReadingError<'m>>
    ensures answers { Answers M.is (Den (parts_in file.entry) word)
        (Reaches (parts_in file.entry) word) walk.old walk.new result }
    ensures meets { IfErr result (Blames (Meets (parts_in file.entry) (at.word word))) }
    ensures takes { IfErr result (TakesOne walk.old walk.new) }
{
    if !can_be_paid(alloc, file, word, walk.left())? {
        let mut budget = Walk::new(walk.left());
        if let Err(error) = count_word(alloc, file, word, &mut budget) {
            walk.pay()?;
            return Err(error);
        }
    }
    read_word::<M>(alloc, file, word, walk)
}
