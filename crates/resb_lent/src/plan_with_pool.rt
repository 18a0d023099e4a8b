//! The plan of the strings of a file that uses a pool bundle: where the pool has a string, or where
//! its record of the file's own stands.
//! In which of its records the pool has a text is said in `texts`.
ghost use Rattle.std.specs.Prelude.{◌≡◌, ◌+◌, ◌≤◌, ◌^◌, ◌∷◌, ◌++◌, [], ℕ, List, Option, IfOk};
ghost use Rattle.std.specs.Prelude.{OnOk, MatchOption, All, Some, None, length, ◌<◌, ◌⊎◌};
ghost use Rattle.std.specs.Prelude.{slice_get};
ghost use Rattle.std.specs.Str.{IsUtf8};
ghost use Rattle.resb_pool.specs.Plan.{nows};
ghost use Rattle.resb_lent.specs.Lending.{LendsTexts};
ghost use Rattle.resb_lent.specs.LentTexts.{LendsText};
ghost use Rattle.resb_lent.specs.Inner.LentEndings.{StandsAs, AreStandingsBy, NotesEnd};
ghost use Rattle.resb_lent.specs.Inner.LentEndings.{AreLentEnds, AreLentEndsBy};
ghost use Rattle.resb_lent.specs.declared.texts.Standing.{Standing as AsStanding};
ghost use Rattle.resb_pool.specs.declared.packing.Packing.{Packing as AsPacking};
ghost use Rattle.resb_pool.specs.declared.packing.Packing.TheVariants.{Plain};
ghost use Rattle.resb_lent.specs.PlanWithPool.{AreLentBy, lacking as lacking_of, given, behind};
ghost use Rattle.resb_lent.specs.PlanWithPool.{limit_of, short_limit_of, in_turn as in_turn_of};

use crate::answers_beside::answers_beside;
use crate::texts::{LentTexts, Standing};
use resb_pool::packed::plan_beside;
use resb_pool::{Packing, PlanError};
use std::alloc::{AllocError, Global};

/// Indexes of strings have 28 bits.
const INDEX_LIMIT: u64 = 0x1000_0000;

/// The greatest number that a unit holds.
const UNIT_MAX: u64 = 65535;

/// Where the strings of a file stand that uses a pool bundle.
#[derive(Drop)]
pub struct PlanWithPool {
    /// Unit 0, and the records of the file's own strings.
    pub units: Vec<u16>,
    /// The index of each string, in the order in which they were given.
    pub indexes: Vec<u32>,
    /// The first index of a string that is the file's own: one more than the greatest one in the
    /// pool that is used.
    pub limit: u32,
    /// The first index of the file's own strings, as a unit tells it.
    pub short_limit: u32,
}

/// What the pool has of a text.
fn answer_for(lent: &LentTexts, text: &str) -> Option<u32>
    ensures lends { (block : List ℕ) → LendsTexts lent.now block
        → LendsText block text.now result }
    ensures utf8 { IsUtf8 text.now }
{
    lent.index(text)
}

/// What the pool has of each text.
fn answers(alloc: Global, lent: &LentTexts, texts: &[&str]) -> Result<Vec<Option<u32>>, AllocError>
    ensures lends { IfOk result (λ v. (block : List ℕ) (A : List (List ℕ))
        → LendsTexts lent.now block → AreLentBy Plain block A (nows texts.now) v.items) }
    ensures utf8 { OnOk result (All IsUtf8 (nows texts.now)) }
{
    let mut found = Vec::with_capacity(alloc, texts.len())?;
    for text in texts {
        found.push(answer_for(lent, *text))?;
    }
    Ok(found)
}

/// What the pool has of each string of a file that is packed this way, and, in a compact file, how
/// each stands beside the pool's texts.
fn answers_by(
    alloc: Global,
    packing: Packing,
    lent: &LentTexts,
    strings: &[&str],
) -> Result<(Vec<Option<u32>>, Vec<Standing>), AllocError>
    ensures lends { IfOk result (λ r. (block : List ℕ) → LendsTexts lent.now block
        → AreLentBy packing block (nows strings.now) (nows strings.now) r.0.items) }
    ensures stand { IfOk result (λ r. (block : List ℕ) → LendsTexts lent.now block
        → AreStandingsBy packing block (nows strings.now) r.1.items) }
    ensures utf8 { OnOk result (All IsUtf8 (nows strings.now)) }
{
    match packing {
        Packing::Plain => Ok((answers(alloc, lent, strings)?, Vec::new(alloc))),
        Packing::Compact => answers_beside(alloc, lent, strings),
    }
}

/// Texts that the pool lacks.
#[derive(Drop)]
struct Own<'a> {
    texts: Vec<&'a str>,
    /// The numbers of those that a text of the pool ends with.
    ended: Vec<usize>,
}

/// Adds the number of a text that stands so, if it is told and a text of the pool ends with it.
fn note_end(
    ended: &mut Vec<usize>,
    standing: Option<Standing>,
    number: usize,
) -> Result<(), AllocError>
    ensures more { OnOk result ((ended.new.items ≡ ended.old.items)
        ⊎ (ended.new.items ≡ ended.old.items ++ number ∷ [])) }
    ensures none { OnOk result (standing ≡ None → ended.new.items ≡ ended.old.items) }
    ensures ends { OnOk result ((block s : List ℕ) (d : AsStanding) → standing ≡ Some d
        → StandsAs block s d → NotesEnd block s number ended.old.items ended.new.items) }
{
    match standing {
        Some(Standing::Whole(_) | Standing::End) => ended.push(number)?,
        Some(Standing::Apart) | None => {}
    }
    Ok(())
}

/// Adds a text that the pool lacks.
fn note_lacking<'a>(
    own: &mut Own<'a>,
    text: &'a str,
    answer: Option<u32>,
    standing: Option<Standing>,
) -> Result<(), AllocError>
    requires { All (λ i. i < length own.old.texts.items) own.old.ended.items }
    ensures texts { OnOk result (nows own.new.texts.items
        ≡ nows own.old.texts.items ++ lacking_of (text.now ∷ []) (answer ∷ [])) }
    ensures within { OnOk result
        (All (λ i. i < length own.new.texts.items) own.new.ended.items) }
    ensures none { OnOk result (standing ≡ None → own.new.ended.items ≡ own.old.ended.items) }
    ensures ends { OnOk result ((block : List ℕ) (d : AsStanding) → standing ≡ Some d
        → StandsAs block text.now d
        → AreLentEnds block (nows own.old.texts.items) own.old.ended.items
        → AreLentEnds block (nows own.new.texts.items) own.new.ended.items) }
{
    if answer.is_some() {
        return Ok(());
    }
    note_end(&mut own.ended, standing, own.texts.len())?;
    own.texts.push(text)?;
    Ok(())
}

/// How the text at a place stands, if it is told.
fn standing_at(standings: &[Standing], at: usize) -> Option<Standing>
    ensures { result ≡ slice_get standings.now at }
{
    standings.get(at).copied()
}

/// The texts that the pool lacks.
fn lacking<'a>(
    alloc: Global,
    texts: &[&'a str],
    found: &[Option<u32>],
    standings: &[Standing],
) -> Result<Own<'a>, AllocError>
    ensures texts { IfOk result (λ o.
        nows o.texts.items ≡ lacking_of (nows texts.now) found.now) }
    ensures within { IfOk result (λ o. All (λ i. i < length o.texts.items) o.ended.items) }
    ensures ends { IfOk result (λ o. (way : AsPacking) (block : List ℕ)
        → AreStandingsBy way block (nows texts.now) standings.now
        → AreLentEndsBy way block (nows o.texts.items) o.ended.items) }
{
    let mut own = Own {
        texts: Vec::new(alloc),
        ended: Vec::new(alloc),
    };
    for at in 0..texts.len().min(found.len()) {
        note_lacking(&mut own, texts[at], found[at], standing_at(standings, at))?;
    }
    Ok(own)
}

/// One more than an index, and 0 for that of the empty text.
fn behind_index(index: u32) -> u64
    ensures is { result ≡ behind index }
    ensures small { result ≤ 2 ^ 32 }
{
    if index == 0 { 0 } else { u64::from(index) + 1 }
}

/// One more than the index that the pool has of a text, and 0 where the pool lacks it.
fn behind_answer(answer: Option<u32>) -> u64
    ensures is { result ≡ limit_of (given (answer ∷ [])) }
    ensures small { result ≤ 2 ^ 32 }
{
    match answer {
        Some(index) => behind_index(index),
        None => 0,
    }
}

/// One more than the greatest index in the pool.
fn lent_limit(found: &[Option<u32>]) -> u64
    ensures is { result ≡ limit_of (given found.now) }
    ensures small { result ≤ 2 ^ 32 }
{
    let mut limit = 0;
    for answer in found {
        limit = behind_answer(*answer).max(limit);
    }
    limit
}

/// One more than the greatest of the file's own offsets.
fn own_limit(offsets: &[u32]) -> u64
    ensures is { result ≡ limit_of offsets.now }
    ensures small { result ≤ 2 ^ 32 }
{
    let mut limit = 0;
    for offset in offsets {
        limit = behind_index(*offset).max(limit);
    }
    limit
}

/// The first index of the file's own strings, as a unit tells it.
fn short_limit(limit: u64, own: u64) -> u32
    requires { limit + own ≤ 2 ^ 28 }
    ensures { result ≡ short_limit_of limit own }
{
    if limit <= UNIT_MAX && limit + own <= UNIT_MAX + 1 {
        return limit as u32;
    }
    (limit * UNIT_MAX / (limit + own)) as u32
}

/// The offsets of the file's own strings that aren't given out yet.
#[derive(Drop)]
struct Turns<'o> {
    offsets: &'o [u32],
}

impl<'o> Turns<'o> {
    /// The index of the next string, of which the pool has this: there, or, from the limit on, at
    /// the next offset, if one is left.
    fn next_index(&mut self, limit: u64, answer: Option<u32>) -> Option<u32>
        requires { limit + limit_of self.old.offsets.now ≤ 2 ^ 28 }
        ensures next { (os : List (Option ℕ)) → MatchOption result
            (in_turn_of limit (answer ∷ os) self.old.offsets.now ≡ [])
            (λ i. in_turn_of limit (answer ∷ os) self.old.offsets.now
            ≡ i ∷ in_turn_of limit os self.new.offsets.now) }
        ensures fewer { limit_of self.new.offsets.now ≤ limit_of self.old.offsets.now }
    {
        if let Some(index) = answer {
            return Some(index);
        }
        if self.offsets.is_empty() {
            return None;
        }
        let index = (limit + u64::from(self.offsets[0])) as u32;
        self.offsets = &self.offsets[1..];
        Some(index)
    }
}

/// Each string's index: in the pool, or in turn the next of the file's own, from the limit on.
fn in_turn(
    alloc: Global,
    limit: u64,
    found: &[Option<u32>],
    offsets: &[u32],
) -> Result<Vec<u32>, AllocError>
    requires { limit + limit_of offsets.now ≤ 2 ^ 28 }
    ensures { IfOk result (λ v. v.items ≡ in_turn_of limit found.now offsets.now) }
{
    let mut indexes = Vec::with_capacity(alloc, found.len())?;
    let mut turns = Turns { offsets };
    'answers: for answer in found {
        let Some(index) = turns.next_index(limit, *answer) else {
            break 'answers;
        };
        indexes.push(index)?;
    }
    Ok(indexes)
}

impl PlanWithPool {
    ghost use Rattle.std.specs.Prelude.{ℕ, List, IfOk, IfErr};
    ghost use Rattle.resb_pool.specs.Plan.{nows};
    ghost use Rattle.resb_lent.specs.Lending.{LendsTexts};
    ghost use Rattle.resb_lent.specs.PlanWithPool.{IsPlanWithBy, NotPlannedWithBy};

    /// Plans the strings of a plain file, each of which may be given more than once. Those that the
    /// pool has stand there, and the others have records of the file's own, as `resb_pool` plans
    /// them. (ICU's `uresdata.h`: pool bundles of version 3.0.)
    ///
    /// Refused is what is refused of the file's own strings, and, as `TooLarge`, indexes of more
    /// than 28 bits.
    pub fn of(alloc: Global, lent: &LentTexts, strings: &[&str]) -> Result<PlanWithPool, PlanError>
        ensures ok { IfOk result (λ p. (block : List ℕ) → LendsTexts lent.now block
            → IsPlanWithBy Plain block (nows strings.now) p.units.items p.indexes.items p.limit
            p.short_limit) }
        ensures err { IfErr result (λ e. (block : List ℕ) → LendsTexts lent.now block
            → NotPlannedWithBy Plain block (nows strings.now) e) }
    {
        PlanWithPool::by(alloc, Packing::Plain, lent, strings)
    }

    /// Plans the strings of a file that is packed this way. The pool has a string of a compact file
    /// if it has a record of just this string, or if this string has no marker and the greatest
    /// text that ends with it, and that no other one ends with, is the pool's, where the texts are
    /// those of the file and of the pool together. A record of the file's own that ends another one
    /// of these texts saves nothing. (ICU's `reslist.cpp`: `compactStringsV2`.)
    ///
    /// Refused is what `of` refuses; 2^32 texts and more are refused as want of memory.
    pub fn by(
        alloc: Global,
        packing: Packing,
        lent: &LentTexts,
        strings: &[&str],
    ) -> Result<PlanWithPool, PlanError>
        ensures ok { IfOk result (λ p. (block : List ℕ) → LendsTexts lent.now block
            → IsPlanWithBy packing block (nows strings.now) p.units.items p.indexes.items p.limit
            p.short_limit) }
        ensures err { IfErr result (λ e. (block : List ℕ) → LendsTexts lent.now block
            → NotPlannedWithBy packing block (nows strings.now) e) }
    {
        let (found, standings) = answers_by(alloc, packing, lent, strings)?;
        let Own { texts, ended } = lacking(alloc, strings, &found, &standings)?;
        let (units, offsets) = plan_beside(alloc, packing, texts, &ended)?;
        let limit = lent_limit(&found);
        let own_limit = own_limit(&offsets);
        if limit + own_limit > INDEX_LIMIT {
            return Err(PlanError::TooLarge);
        }
        let indexes = in_turn(alloc, limit, &found, &offsets)?;
        Ok(PlanWithPool {
            units,
            indexes,
            limit: limit as u32,
            short_limit: short_limit(limit, own_limit),
        })
    }
}
