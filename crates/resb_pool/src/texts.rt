//! The distinct texts of strings in a hash table, each with its sizes. Later steps name a text by
//! its index there.
//! Where texts lie is said in `containers`.
ghost use Rattle.std.specs.Prelude.{◌≡◌, ◌++◌, ◌∷◌, ◌<◌, ◌^◌, [], List, ℕ, IfOk, IfErr, OnOk, None};
ghost use Rattle.std.specs.Prelude.{length};
ghost use Rattle.resb_format.specs.Units.{units};
ghost use Rattle.resb_pool.specs.Plan.{nows, first_too_long, texts_size, NotPlanned};
ghost use Rattle.resb_pool.specs.Inner.Placing.{AreTexts, AreTurns, indexed_text};

use crate::error::PlanError;
use crate::measure::{Measure, is_vast, size_with};
use indexmap::IndexSet;
use std::alloc::{AllocError, Global};

/// How many of the strings are distinct is guessed from the first of them, so many times fewer.
const SAMPLED_PART: usize = 64;

/// Fewer strings than these are told apart by a table.
const MANY: usize = 256;

/// Texts, each once and in the order of their first copies, and their sizes.
#[derive(Drop)]
pub(crate) struct Texts<'a> {
    pub(crate) distinct: IndexSet<&'a str>,
    pub(crate) measures: Vec<Measure>,
    /// The index of each string's text, in the order in which they were given.
    pub(crate) order: Vec<u32>,
}

/// The text of an index, or the empty one where there is no such text.
#[inline(always)]
pub(crate) fn indexed_text<'a>(texts: &[&'a str], index: u32) -> &'a str
    ensures { result.now ≡ indexed_text (nows texts.now) index }
{
    texts.get(index as usize).copied().unwrap_or("")
}

/// How many of the first strings were looked at, and how many of these are distinct.
#[derive(Clone, Copy)]
pub(crate) struct Sample {
    looked_at: usize,
    distinct: usize,
}

impl Sample {
    /// Looks at the first of these strings.
    pub(crate) fn of(alloc: Global, strings: &[&str]) -> Result<Sample, AllocError> {
        let looked_at = strings.len() / SAMPLED_PART;
        let mut distinct = IndexSet::with_capacity(alloc, looked_at)?;
        for text in strings.iter().take(looked_at) {
            let _is_new = distinct.insert(*text)?;
        }
        Ok(Sample {
            looked_at,
            distinct: distinct.len(),
        })
    }

    /// Whether more than three in four are distinct.
    fn is_mostly_distinct(self) -> bool {
        self.distinct.saturating_mul(4) > self.looked_at.saturating_mul(3)
    }

    /// Whether the strings are many, and most are likely to be distinct.
    pub(crate) fn mostly_differ(self, strings: &[&str]) -> bool {
        strings.len() >= MANY && self.is_mostly_distinct()
    }

    /// How many distinct texts there is room for from the start. Where more than three in four of
    /// the sample are distinct, it is as many as there are likely to be, since a table that grows
    /// is filled anew. Else it is a quarter of the strings, since texts are found faster in a
    /// smaller table.
    fn expected_distinct(self, strings: &[&str]) -> usize {
        if self.is_mostly_distinct() {
            let likely = self.distinct.saturating_mul(SAMPLED_PART);
            return likely.saturating_add(likely / 32);
        }
        strings.len() / 4
    }
}

impl<'a> Texts<'a> {
    /// No texts, with room for those of these strings, of which a sample was taken.
    fn with_room_for(
        alloc: Global,
        strings: &[&str],
        sample: Sample,
    ) -> Result<Texts<'a>, AllocError>
        ensures texts { IfOk result (λ t. AreTexts [] (nows t.distinct.keys) t.measures.items) }
        ensures turns { IfOk result (λ t. AreTurns [] (nows t.distinct.keys) t.order.items) }
    {
        let room = sample.expected_distinct(strings);
        Ok(Texts {
            distinct: IndexSet::with_capacity(alloc, room)?,
            measures: Vec::with_capacity(alloc, room)?,
            order: Vec::with_capacity(alloc, strings.len())?,
        })
    }
}

/// Adds a copy of a text, and gives the number of its units.
fn add_copy<'a>(texts: &mut Texts<'a>, text: &'a str) -> Result<usize, AllocError>
    requires given { (done : List (List ℕ)) × (texts_size done < 2 ^ 28)
        × AreTexts done (nows texts.old.distinct.keys) texts.old.measures.items
        × AreTurns done (nows texts.old.distinct.keys) texts.old.order.items }
    requires short { length (units text.now) < 2 ^ 28 }
    ensures count { IfOk result (λ n. n ≡ length (units text.now)) }
    ensures texts { OnOk result ((done : List (List ℕ))
        → AreTexts done (nows texts.old.distinct.keys) texts.old.measures.items
        → AreTexts (done ++ text.now ∷ []) (nows texts.new.distinct.keys)
        texts.new.measures.items) }
    ensures turns { OnOk result ((done : List (List ℕ))
        → AreTurns done (nows texts.old.distinct.keys) texts.old.order.items
        → AreTurns (done ++ text.now ∷ []) (nows texts.new.distinct.keys)
        texts.new.order.items) }
{
    let (index, is_new) = texts.distinct.insert_full(text)?;
    if is_new {
        texts.measures.push(Measure::of(text))?;
    }
    let measure = &mut texts.measures[index];
    measure.total += measure.size;
    let count = measure.unit_count as usize;
    texts.order.push(index as u32)?;
    Ok(count)
}

/// Fills a table that has no texts yet. Refused are strings whose units and 16 for each come to
/// 2^28 or more.
fn add_all<'a>(texts: &mut Texts<'a>, strings: &[&'a str]) -> Result<(), PlanError>
    requires short { first_too_long (nows strings.now) ≡ None }
    requires empty { AreTexts [] (nows texts.old.distinct.keys) texts.old.measures.items }
    requires no_turns { AreTurns [] (nows texts.old.distinct.keys) texts.old.order.items }
    ensures texts { OnOk result (AreTexts (nows strings.now) (nows texts.new.distinct.keys)
        texts.new.measures.items) }
    ensures turns { OnOk result (AreTurns (nows strings.now) (nows texts.new.distinct.keys)
        texts.new.order.items) }
    ensures small { OnOk result (texts_size (nows strings.now) < 2 ^ 28) }
    ensures err { IfErr result (NotPlanned (nows strings.now)) }
{
    let mut size = 0;
    for text in strings {
        if is_vast(text) {
            return Err(PlanError::TooLarge);
        }
        let count = add_copy(texts, text)?;
        size = size_with(size, count)?;
    }
    Ok(())
}

/// The distinct texts of strings, of which a sample was taken. Refused are strings whose units and
/// 16 for each come to 2^28 or more.
pub(crate) fn gather<'a>(
    alloc: Global,
    strings: &[&'a str],
    sample: Sample,
) -> Result<Texts<'a>, PlanError>
    requires { first_too_long (nows strings.now) ≡ None }
    ensures texts { IfOk result (λ t.
        AreTexts (nows strings.now) (nows t.distinct.keys) t.measures.items) }
    ensures turns { IfOk result (λ t.
        AreTurns (nows strings.now) (nows t.distinct.keys) t.order.items) }
    ensures small { OnOk result (texts_size (nows strings.now) < 2 ^ 28) }
    ensures err { IfErr result (NotPlanned (nows strings.now)) }
{
    let mut texts = Texts::with_room_for(alloc, strings, sample)?;
    add_all(&mut texts, strings)?;
    Ok(texts)
}
