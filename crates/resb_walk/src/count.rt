//! The count of the resources at a word, of which nothing is made: any depth, within a budget.
//! Keys, strings and members are looked at in `checker`.
//! A round counts the next member of the innermost collection, or goes back to the one around it.
ghost use Rattle.std.specs.Prelude.{◌≡◌, ℕ, IfOk, IfErr};
ghost use Rattle.resb_format.specs.Content as at;
ghost use Rattle.resb_format.specs.Denotes.{Den, Reaches, DenMember, ReachesMember};
ghost use Rattle.resb_format.specs.Parts.{parts_in};
ghost use Rattle.resb_walk.specs.Inner.Counting.{IsOpenedAt, Awaits, AreLastMembers, HasLast};
ghost use Rattle.resb_walk.specs.Inner.Counting.{KeepsOuter};
ghost use Rattle.resb_walk.specs.Inner.Counting.{EntersMember, TakesNext, EnteredMember};
ghost use Rattle.resb_walk.specs.Inner.Members.{member_of};
ghost use Rattle.resb_walk.specs.Meets.{Meets, Blames};
ghost use Rattle.resb_walk.specs.Refusals.{Answers};

use crate::checker::Checker;
use crate::members::{Member, Rest, Standing};
use crate::places::index_of;
use crate::standing::{standing_at, text_at};
use crate::walk::Walk;
use resb_format::{FileBlocks, ReadingError};
use resb_tree::NoMemory;
use std::alloc::Global;

/// A collection whose members are counted: its word, and what is still to come of it.
#[derive(Clone, Copy)]
pub struct Inner<'a> {
    pub word: u32,
    pub rest: Rest<'a>,
}

/// A collection that waits until the members of one of its members are counted: its word, and how
/// many of its own are still to come.
#[derive(Clone, Copy)]
pub struct Outer {
    pub word: u32,
    pub left: u32,
}

/// The collection as it waits. No collection of a file has more members than a word tells.
pub(crate) fn keep(inner: Inner<'_>) -> Result<Outer, NoMemory>
    ensures { IfOk result (KeepsOuter inner.entry) }
{
    let left = u32::try_from(inner.rest.len()).map_err(|_| NoMemory)?;
    Ok(Outer {
        word: inner.word,
        left,
    })
}

/// What is still to come of a collection that waited.
pub(crate) fn again<'a>(file: FileBlocks<'a>, outer: Outer) -> Rest<'a>
    requires { HasLast (parts_in file) outer.word outer.left }
    ensures { AreLastMembers (parts_in file.entry) outer.word outer.left result }
{
    let left = outer.left as usize;
    match standing_at(file, outer.word) {
        Ok(Standing::List(members)) => Rest::List(members.behind(members.len() - left)),
        Ok(Standing::Table(entries)) => Rest::Table(entries.behind(entries.len() - left)),
        Ok(Standing::Leaf(_)) | Err(_) => unreachable!(),
    }
}

/// Pays for a member and looks at it: if it is a collection, all its members are still to come.
#[inline(always)]
fn begin<'a, 'm>(
    alloc: Global,
    checker: &mut Checker<'a>,
    member: Member,
    walk: &mut Walk,
) -> Result<Option<Inner<'a>>, ReadingError<'m>>
    ensures enters { EntersMember (parts_in checker.old.file) (member_of member) walk.old walk.new
        result }
    ensures meets { IfErr result (Blames (Meets (parts_in checker.old.file) (member_of member))) }
    ensures file { checker.new.file ≡ checker.old.file }
{
    walk.pay()?;
    let Some(rest) = checker.look(alloc, member)? else {
        return Ok(None);
    };
    match member {
        Member::Word(word) => Ok(Some(Inner { word, rest })),
        Member::Unit(_) => unreachable!(),
    }
}

/// The next member of a collection, and what is still to come behind it. An entry's key is looked
/// at.
#[inline(always)]
fn next<'a, 'm>(
    alloc: Global,
    checker: &mut Checker<'a>,
    rest: Rest<'a>,
) -> Result<Option<(Member, Rest<'a>)>, ReadingError<'m>>
    ensures takes { let p = parts_in checker.old.file in
        (w n : ℕ) → IsOpenedAt p rest.entry w n → TakesNext p w n result }
    ensures meets { let p = parts_in checker.old.file in
        (w n : ℕ) → IsOpenedAt p rest.entry w n → IfErr result (Blames (Meets p (at.word w))) }
    ensures file { checker.new.file ≡ checker.old.file }
{
    match rest {
        Rest::List(members) => match members.split() {
            Some((member, rest)) => Ok(Some((member, Rest::List(rest)))),
            None => Ok(None),
        },
        Rest::Table(entries) => match entries.split() {
            Some((position, member, rest)) => {
                checker.key(alloc, position)?;
                Ok(Some((member, Rest::Table(rest))))
            }
            None => Ok(None),
        },
    }
}

/// Counts a member that stands before what is still to come of a collection. Where it is a
/// collection too, its members are counted first, and the other waits.
#[inline(always)]
fn enter<'a, 'm>(
    alloc: Global,
    checker: &mut Checker<'a>,
    member: Member,
    inner: Inner<'a>,
    outer: &mut Vec<Outer>,
    walk: &mut Walk,
) -> Result<Inner<'a>, ReadingError<'m>>
    ensures enters { let p = parts_in checker.old.file in let i = inner.entry in
        let m = member_of member in (n : ℕ) → Awaits p i.rest i.word m n
        → EnteredMember p i m n outer.old.items outer.new.items walk.old walk.new result }
    ensures meets { IfErr result (Blames (Meets (parts_in checker.old.file) (member_of member))) }
    ensures file { checker.new.file ≡ checker.old.file }
{
    let Some(its) = begin(alloc, checker, member, walk)? else {
        return Ok(inner);
    };
    outer.push(keep(inner)?)?;
    Ok(its)
}

/// Counts the string at a unit of the 16-bit block.
pub fn count_string_at<'m>(
    file: FileBlocks<'_>,
    unit: u16,
    walk: &mut Walk,
) -> Result<(), ReadingError<'m>>
    ensures answers { let p = parts_in file.entry in
        Answers (λ _ _. Unit {0}) (DenMember p (at.unit unit)) (ReachesMember p (at.unit unit))
        walk.old walk.new result }
    ensures meets { IfErr result (Blames (Meets (parts_in file.entry) (at.unit unit))) }
{
    walk.pay()?;
    text_at(file, index_of(file, unit))?;
    Ok(())
}

/// Counts the resources at a word. No key and no string, but short ones, is looked at again and
/// again as a whole.
pub fn count_word<'m>(
    alloc: Global,
    file: FileBlocks<'_>,
    word: u32,
    walk: &mut Walk,
) -> Result<(), ReadingError<'m>>
    ensures answers { let p = parts_in file.entry in
        Answers (λ _ _. Unit {0}) (Den p word) (Reaches p word) walk.old walk.new result }
    ensures meets { IfErr result (Blames (Meets (parts_in file.entry) (at.word word))) }
{
    let mut checker = Checker::new(file);
    let Some(mut inner) = begin(alloc, &mut checker, Member::Word(word), walk)? else {
        return Ok(());
    };
    let mut outer = Vec::new(alloc);
    // twice what is left, plus the number of collections that wait, falls in each round
    'rounds: loop {
        inner = match next(alloc, &mut checker, inner.rest)? {
            Some((member, rest)) => {
                let word = inner.word;
                enter(
                    alloc,
                    &mut checker,
                    member,
                    Inner { word, rest },
                    &mut outer,
                    walk,
                )?
            }
            None => match outer.pop() {
                Some(waiting) => Inner {
                    word: waiting.word,
                    rest: again(file, waiting),
                },
                None => return Ok(()),
            },
        };
    }
}
