//! The sums of what stands at a word, once its count is known: any depth, in the time of the count.
//! What is summed of each resource and key is found in `scale`.
//! A round takes the next member of the innermost collection, or goes back to the one around it.
ghost use Rattle.std.specs.Prelude.{◌≡◌, ℕ, ◌++◌, List, IfOk};
ghost use Rattle.resb_format.specs.Parts.{parts_in};
ghost use Rattle.resb_walk.specs.Inner.Members.{member_of};
ghost use Rattle.resb_walk.specs.Inner.Weighing.{ToCome, WaitingPieces, EnteredPieces};
ghost use Rattle.resb_walk.specs.Pieces.{Piece, Holds, HoldsMember};
ghost use Rattle.resb_walk.specs.Sums.{AddsUp, count_of};

use crate::count::{Inner, Outer, again, keep};
use crate::members::Member;
use crate::scale::Scale;
use crate::sums::Sums;
use resb_format::FileBlocks;
use resb_tree::NoMemory;
use std::alloc::Global;

/// Sums a member that stands before what is still to come of a collection. Where it has members of
/// its own, they are summed first, and the other waits.
fn enter<'a>(
    scale: &mut Scale<'a>,
    member: Member,
    inner: Inner<'a>,
    outer: &mut Vec<Outer>,
    sums: &mut Sums,
) -> Result<Inner<'a>, NoMemory>
    ensures enters { let p = parts_in scale.old.file in (ys ts us zs : List Piece)
        → HoldsMember p (member_of member) ys → ToCome p inner.entry ts
        → WaitingPieces p outer.old.items us → AddsUp sums.old zs
        → IfOk result (λ i. EnteredPieces p (ys ++ (ts ++ us)) zs outer.old.items outer.new.items i
        sums.new) }
    ensures file { scale.new.file ≡ scale.old.file }
{
    let Some(its) = scale.look(member, sums)? else {
        return Ok(inner);
    };
    outer.push(keep(inner)?)?;
    Ok(its)
}

/// The sums of the tree at a word, which has so many resources.
pub fn weigh_word(
    alloc: Global,
    file: FileBlocks<'_>,
    word: u32,
    resources: usize,
) -> Result<Sums, NoMemory>
    requires { (xs : List Piece) × Holds (parts_in file) word xs × (count_of xs ≡ resources) }
    ensures { IfOk result
        (λ s. (xs : List Piece) × Holds (parts_in file.entry) word xs × AddsUp s xs) }
{
    let mut scale = Scale::of_file(alloc, file);
    let mut sums = Sums::none();
    let Some(mut inner) = scale.look(Member::Word(word), &mut sums)? else {
        return Ok(sums);
    };
    let mut outer = Vec::new(alloc);
    let mut left = resources;
    // twice what is left, plus the number of collections that wait, falls in each round
    'rounds: loop {
        inner = match scale.next(inner, &mut sums)? {
            Some((member, rest)) => {
                left -= 1;
                enter(&mut scale, member, rest, &mut outer, &mut sums)?
            }
            None => match outer.pop() {
                Some(waiting) => Inner {
                    word: waiting.word,
                    rest: again(file, waiting),
                },
                None => return Ok(sums),
            },
        };
    }
}
