//! The plan of a pool, which is made of strings: the units of their records, and their offsets.
//! Strings are told apart in `texts`, or else in `firsts` and `listed_texts`. The other steps are
//! in `containers`, `records` and `offsets`.
ghost use Rattle.std.specs.Prelude.{◌≡◌, ℕ, ◌<◌, ◌^◌, List, map, Option, Some};
ghost use Rattle.std.specs.Prelude.{IfOk, IfErr, All, Contains, length};
ghost use Rattle.resb_pool.specs.Plan.{nows, plan_units, offset_of, turn_offsets, texts_size};
ghost use Rattle.resb_pool.specs.Plan.{IsPlanBy, NotPlanned};
ghost use Rattle.resb_pool.specs.declared.packing.Packing.TheVariants.{Plain};
ghost use Rattle.resb_pool.specs.Ended.{AreEnded};
ghost use Rattle.resb_pool.specs.Inner.Placing.{AreTexts, AreContainers};
ghost use Rattle.resb_pool.specs.Inner.LaidRecords.{IsBlock, HaveOffsets};
ghost use Rattle.resb_pool.specs.Inner.ToldApart.{ToldApart};

use crate::containers::{Containers, find_containers, find_sums};
use crate::error::PlanError;
use crate::firsts::find_firsts;
use crate::listed_texts::{ListedTexts, as_list, by_firsts};
use crate::measure::{Measure, check_lengths};
use crate::offsets::{Plan, find_offsets};
use crate::packed::plan_packed;
use crate::packing::Packing;
use crate::records::{Block, find_records, lay, ordered};
use crate::texts::{Sample, Texts, gather};
use std::alloc::{AllocError, Global};

/// The records of distinct texts, laid in their order in a file that is packed this way. Of each
/// text `containers` has the index of the one in which it lies.
fn lay_records(
    alloc: Global,
    packing: Packing,
    texts: &[&str],
    containers: &Containers,
    measures: &[Measure],
) -> Result<Block, AllocError>
    requires given { (strings : List (List ℕ)) × (texts_size strings < 2 ^ 28)
        × AreTexts strings (nows texts.now) measures.now }
    requires containers { AreContainers packing (nows texts.now) containers.now.of.items }
    requires hidden { All (λ h. h < length texts.now) containers.now.hidden.items }
    ensures { IfOk result (λ b. IsBlock packing (nows texts.now) containers.now.hidden.items
        containers.now.of.items measures.now b.units.items b.ends.items) }
{
    let sums = find_sums(alloc, containers, measures)?;
    let found = find_records(alloc, texts, &containers.of, measures, &sums)?;
    drop(sums);
    let records = ordered(packing, texts, found);
    lay(alloc, texts, &records)
}

/// Unit 0 and the records of distinct texts, and the unit at which each text stands in a file that
/// is packed this way. Of the texts that a text beside the file ends with the indexes are given.
pub(crate) fn place(
    alloc: Global,
    packing: Packing,
    texts: &[&str],
    measures: &[Measure],
    ended: &[u32],
) -> Result<(Vec<u16>, Vec<u32>), AllocError>
    requires given { (strings : List (List ℕ)) × (texts_size strings < 2 ^ 28)
        × AreTexts strings (nows texts.now) measures.now }
    requires within { All (λ i. i < length texts.now) ended.now }
    ensures { IfOk result (λ p. (A : List (List ℕ))
        → AreEnded packing A (nows texts.now) ended.now → HaveOffsets packing (Contains A)
        (nows texts.now) measures.now p.0.items p.1.items) }
{
    let mut containers = find_containers(alloc, packing, texts)?;
    containers.hide(ended)?;
    let block = lay_records(alloc, packing, texts, &containers, measures)?;
    let offsets = find_offsets(alloc, &containers.of, measures, &block.ends)?;
    Ok((block.units, offsets))
}

/// The distinct texts of strings. Refused is what `plan` refuses.
pub(crate) fn texts_of<'a>(alloc: Global, strings: &[&'a str]) -> Result<Texts<'a>, PlanError>
    ensures ok { IfOk result (λ t. ToldApart (nows strings.now) (nows t.distinct.keys)
        t.measures.items t.order.items) }
    ensures err { IfErr result (NotPlanned (nows strings.now)) }
{
    check_lengths(strings)?;
    let sample = Sample::of(alloc, strings)?;
    gather(alloc, strings, sample)
}

/// The plan of strings that are told apart.
fn plan_texts<'a>(alloc: Global, texts: Texts<'a>) -> Result<Plan<'a>, PlanError>
    requires { (strings : List (List ℕ)) × ToldApart strings (nows texts.distinct.keys)
        texts.measures.items texts.order.items }
    ensures ok { IfOk result (λ p. (strings : List (List ℕ)) → ToldApart strings
        (nows texts.entry.distinct.keys) texts.entry.measures.items texts.entry.order.items
        → IsPlanBy Plain strings (plan_units p) (offset_of p)) }
    ensures turns { IfOk result (λ p. (strings : List (List ℕ)) → ToldApart strings
        (nows texts.entry.distinct.keys) texts.entry.measures.items texts.entry.order.items
        → map (offset_of p) strings ≡ map Some (turn_offsets p)) }
    ensures err { IfErr result (λ e. (strings : List (List ℕ)) → NotPlanned strings e) }
{
    let (units, offsets) = place(
        alloc,
        Packing::Plain,
        texts.distinct.as_slice(),
        &texts.measures,
        &[],
    )?;
    Ok(Plan {
        units,
        texts: texts.distinct,
        offsets,
        order: texts.order,
    })
}

/// Plans the strings of a plain file, each of which may be given more than once. Each non-empty one
/// that is not, without a marker, the end of another gets a record: marker, units, 0. The empty one
/// stands at unit 0. Any other stands at the end of a record that ends with it: of these, the
/// greatest in the order of characters from the end on, where the end of a text is greater than
/// each character. (ICU's `reslist.cpp`: shared suffixes.)
///
/// Refused are a string of more than 4294967295 units, the first of them, and strings whose units
/// and 16 for each come to 2^28 or more.
pub fn plan<'a>(alloc: Global, strings: &[&'a str]) -> Result<Plan<'a>, PlanError>
    ensures ok { IfOk result (λ p. IsPlanBy Plain (nows strings.now) (plan_units p) (offset_of p)) }
    ensures turns { IfOk result (λ p.
        map (offset_of p) (nows strings.now) ≡ map Some (turn_offsets p)) }
    ensures err { IfErr result (NotPlanned (nows strings.now)) }
{
    let texts = texts_of(alloc, strings)?;
    plan_texts(alloc, texts)
}

/// The distinct texts of strings as a list. Refused is what `plan` refuses.
pub(crate) fn list_of<'a>(
    alloc: Global,
    strings: Vec<&'a str>,
) -> Result<ListedTexts<'a>, PlanError>
    ensures ok { IfOk result (λ t. ToldApart (nows strings.entry.items) (nows t.texts.items)
        t.measures.items t.order.items) }
    ensures err { IfErr result (NotPlanned (nows strings.entry.items)) }
{
    check_lengths(&strings)?;
    let sample = Sample::of(alloc, &strings)?;
    if sample.mostly_differ(&strings) {
        if let Some(firsts) = find_firsts(alloc, &strings)? {
            return by_firsts(alloc, strings, firsts);
        }
    }
    let texts = gather(alloc, &strings, sample)?;
    drop(strings);
    Ok(as_list(alloc, texts)?)
}

/// The plan of strings, as `plan` makes it: its units and the offset of each string, in the order
/// in which they were given. The list of strings is handed over. Once the strings are told apart it
/// is dropped, or their texts stand in its room.
pub fn plan_in_turn<'a>(
    alloc: Global,
    strings: Vec<&'a str>,
) -> Result<(Vec<u16>, Vec<u32>), PlanError>
    ensures ok { IfOk result (λ p. (offset : List ℕ → Option ℕ)
        × IsPlanBy Plain (nows strings.entry.items) p.0.items offset
        × (map offset (nows strings.entry.items) ≡ map Some p.1.items)) }
    ensures err { IfErr result (NotPlanned (nows strings.entry.items)) }
{
    plan_packed(alloc, Packing::Plain, strings)
}
