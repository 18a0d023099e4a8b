//! What the pool has of the strings of a compact file, which shares its strings with the pool's as
//! one set.
//! In whose record a text lies is found in `resb_pool`, and where in the pool in `texts`.
ghost use Rattle.std.specs.Prelude.{◌≡◌, ◌<◌, ◌⊎◌, [], ℕ, List, length, reverse, true, false};
ghost use Rattle.std.specs.Prelude.{IfOk, OnOk, All, Contains, slice_index_or, slice_get};
ghost use Rattle.std.specs.Str.{IsUtf8};
ghost use Rattle.resb_pool.specs.Plan.{nows};
ghost use Rattle.resb_pool.specs.declared.packing.Packing.TheVariants.{Compact};
ghost use Rattle.resb_lent.specs.Lending.{LendsTexts};
ghost use Rattle.resb_lent.specs.LentBeside.{LendsTextBy};
ghost use Rattle.resb_lent.specs.PlanWithPool.{AreLentBy};
ghost use Rattle.resb_lent.specs.Inner.LentEndings.{StandsAs, AreStandings, AreStandingsBy};
ghost use Rattle.resb_lent.specs.Inner.Chosen.{IsMarked, IsChosen, AreChosen, LiesAmong};
ghost use Rattle.resb_lent.specs.Inner.Copies.{AreCopies};
ghost use Rattle.resb_lent.specs.Inner.Marks.{is_hit};
ghost use Rattle.resb_lent.specs.declared.texts.Standing.{Standing as AsStanding};
ghost use Rattle.resb_lent.specs.declared.texts.Standing.TheVariants.{End};

use crate::copies::find_copies;
use crate::marks::{MARKS, mark_of, may_end_marked};
use crate::texts::{LentTexts, Standing};
use resb_pool::Packing;
use resb_pool::holders::holders;
use std::alloc::{AllocError, Global};

/// How each string stands beside the pool's texts. Copies stand alike.
fn find_standings(
    alloc: Global,
    lent: &LentTexts,
    strings: &[&str],
    copies: &[usize],
) -> Result<Vec<Standing>, AllocError>
    requires { AreCopies (nows strings.now) copies.now }
    ensures len { IfOk result (λ v. length v.items ≡ length strings.now) }
    ensures stand { IfOk result (λ v. (block : List ℕ) → LendsTexts lent.now block
        → AreStandings block (nows strings.now) v.items) }
    ensures utf8 { OnOk result (All IsUtf8 (nows strings.now)) }
{
    let mut standings = Vec::with_capacity(alloc, strings.len())?;
    for (number, text) in strings.iter().enumerate() {
        standings.push(standing_of(lent, *text, &standings, copies[number]))?;
    }
    Ok(standings)
}

/// How a string stands beside the pool's texts: as the earlier copy does, if it has one among the
/// strings of which this is found already.
fn standing_of(lent: &LentTexts, text: &str, found: &[Standing], copy: usize) -> Standing
    ensures stands { (block : List ℕ) (S : List (List ℕ)) → LendsTexts lent.now block
        → AreStandings block S found.now
        → (copy < length S → slice_index_or S copy [] ≡ text.now)
        → StandsAs block text.now result }
    ensures utf8 { IsUtf8 text.now }
{
    match found.get(copy) {
        Some(standing) => *standing,
        None => lent.standing(text),
    }
}

/// Notes the mark of a text that ends one of the pool's without being one.
fn mark_end(marks: &mut [bool; MARKS], text: &str, standing: Standing)
    ensures marked { standing ≡ End → IsMarked marks.new text.now }
    ensures kept { (b : ℕ) → slice_index_or marks.old b false ≡ true
        → slice_index_or marks.new b false ≡ true }
{
    match standing {
        Standing::End => marks[mark_of(text)] = true,
        Standing::Whole(_) | Standing::Apart => {}
    }
}

/// The marks of such texts.
fn end_marks(strings: &[&str], standings: &[Standing]) -> [bool; MARKS]
    requires { length standings.now ≡ length strings.now }
    ensures { (i : ℕ) (d : AsStanding) → i < length strings.now
        → slice_index_or standings.now i d ≡ End
        → IsMarked result (slice_index_or (nows strings.now) i []) }
{
    let mut marks = [false; MARKS];
    for at in 0..strings.len() {
        mark_end(&mut marks, strings[at], standings[at]);
    }
    marks
}

/// The text, or the empty one where it can't end with a marked one.
fn if_marked<'a>(text: &'a str, marks: &[bool; MARKS]) -> &'a str
    ensures { (result.now ≡ text.now) ⊎ ((result.now ≡ [])
        × (is_hit marks.now 4 0 (reverse text.now) ≡ false)) }
{
    if may_end_marked(marks, text) {
        text
    } else {
        ""
    }
}

/// The text, or the empty one where the pool has a record of it, or where it can't end with a
/// marked one.
fn chosen<'a>(text: &'a str, standing: Standing, marks: &[bool; MARKS]) -> &'a str
    ensures { IsChosen marks.now text.now standing result.now }
{
    match standing {
        Standing::Whole(_) => "",
        Standing::End | Standing::Apart => if_marked(text, marks),
    }
}

/// The strings, with the empty one in the place of each in whose record no string can lie that
/// ends a text of the pool: of each that the pool has a record of, and of each that ends otherwise
/// than all such strings.
fn find_others<'a>(
    alloc: Global,
    strings: &[&'a str],
    standings: &[Standing],
) -> Result<Vec<&'a str>, AllocError>
    requires { length standings.now ≡ length strings.now }
    ensures { IfOk result (λ v. AreChosen (nows strings.now) standings.now (nows v.items)) }
{
    let marks = end_marks(strings, standings);
    let mut others = Vec::with_capacity(alloc, strings.len())?;
    for at in 0..strings.len() {
        others.push(chosen(strings[at], standings[at], &marks))?;
    }
    Ok(others)
}

/// What the pool has of one of the file's strings, which stands so beside the pool's. Where it ends
/// one of these it would lie in the record of this one, if there were no pool.
fn answer_beside(lent: &LentTexts, text: &str, standing: Standing, own: &str) -> Option<u32>
    ensures { (block : List ℕ) (S O : List (List ℕ)) → LendsTexts lent.now block → All IsUtf8 S
        → All IsUtf8 O → Contains S text.now → StandsAs block text.now standing
        → (standing ≡ End → 0 < length text.now → LiesAmong block S O text.now own.now)
        → LendsTextBy Compact block S text.now result }
{
    if text.is_empty() {
        return lent.index(text);
    }
    match standing {
        Standing::Whole(index) => Some(index),
        Standing::End => lent.place_in_top(text, own),
        Standing::Apart => None,
    }
}

/// The answer for the string of this number, if it is found already.
fn answer_at(found: &[Option<u32>], number: usize) -> Option<Option<u32>>
    ensures { result ≡ slice_get found.now number }
{
    found.get(number).copied()
}

/// What the pool has of each of the file's strings, and how each stands beside the pool's texts.
pub(crate) fn answers_beside(
    alloc: Global,
    lent: &LentTexts,
    strings: &[&str],
) -> Result<(Vec<Option<u32>>, Vec<Standing>), AllocError>
    ensures lends { IfOk result (λ r. (block : List ℕ) → LendsTexts lent.now block
        → AreLentBy Compact block (nows strings.now) (nows strings.now) r.0.items) }
    ensures stand { IfOk result (λ r. (block : List ℕ) → LendsTexts lent.now block
        → AreStandingsBy Compact block (nows strings.now) r.1.items) }
    ensures utf8 { OnOk result (All IsUtf8 (nows strings.now)) }
{
    let copies = find_copies(alloc, strings)?;
    let standings = find_standings(alloc, lent, strings, &copies)?;
    let others = find_others(alloc, strings, &standings)?;
    let own = holders(alloc, Packing::Compact, &others)?;
    let mut answers = Vec::with_capacity(alloc, strings.len())?;
    for (number, text) in strings.iter().enumerate() {
        let answer = match answer_at(&answers, copies[number]) {
            Some(answer) => answer,
            None => answer_beside(lent, *text, standings[number], own[number]),
        };
        answers.push(answer)?;
    }
    Ok((answers, standings))
}
