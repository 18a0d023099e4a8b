//! What a pool that many bundles share takes of strings: the records of each bundle, and of all
//! these together the records that save enough.
//! How strings are told apart and laid is said in `pool` and in the steps below it.
ghost use Rattle.std.specs.Prelude.{◌≡◌, ℕ, ◌<◌, ◌^◌, List, IfOk, IfErr, OnOk, All};
ghost use Rattle.resb_pool.specs.Plan.{nows, texts_size, NotPlanned};
ghost use Rattle.resb_pool.specs.Shared.{ArePlanned, InPoolOrder, IsSharedPool};
ghost use Rattle.resb_pool.specs.Inner.Placing.{AreTexts, record_texts};
ghost use Rattle.resb_pool.specs.Inner.Ranked.{AreRanked, saving};
ghost use Rattle.resb_pool.specs.declared.packing.Packing.TheVariants.{Plain};

use crate::containers::{find_containers, find_sums};
use crate::error::PlanError;
use crate::measure::Measure;
use crate::packing::Packing;
use crate::pool::texts_of;
use crate::records::{Record, find_records, lay, ordered};
use crate::texts::indexed_text;
use std::alloc::{AllocError, Global};

/// The records of distinct texts, in their order in a file that is packed like this.
fn rank(
    alloc: Global,
    packing: Packing,
    texts: &[&str],
    measures: &[Measure],
) -> Result<Vec<Record>, AllocError>
    requires given { (strings : List (List ℕ)) × (texts_size strings < 2 ^ 28)
        × AreTexts strings (nows texts.now) measures.now }
    ensures { IfOk result (λ v. AreRanked packing (nows texts.now) measures.now v.items) }
{
    let containers = find_containers(alloc, packing, texts)?;
    let sums = find_sums(alloc, &containers, measures)?;
    let records = find_records(alloc, texts, &containers.of, measures, &sums)?;
    Ok(ordered(packing, texts, records))
}

/// The texts of records.
fn texts_of_rows<'a>(
    alloc: Global,
    texts: &[&'a str],
    rows: &[Record],
) -> Result<Vec<&'a str>, AllocError>
    ensures { IfOk result (λ v. nows v.items ≡ record_texts (nows texts.now) rows.now) }
{
    let mut found = Vec::with_capacity(alloc, rows.len())?;
    for row in rows {
        found.push(indexed_text(texts, row.index))?;
    }
    Ok(found)
}

/// The records that save so many units or more.
fn saving_rows(alloc: Global, rows: &[Record], least: u32) -> Result<Vec<Record>, AllocError>
    ensures { IfOk result (λ v. v.items ≡ saving least rows.now) }
{
    let mut kept = Vec::new(alloc);
    for row in rows {
        if row.saved >= least {
            kept.push(*row)?;
        }
    }
    Ok(kept)
}

/// The texts of the records of distinct texts, in their order.
fn ranked_texts<'a>(
    alloc: Global,
    texts: &[&'a str],
    measures: &[Measure],
) -> Result<Vec<&'a str>, AllocError>
    requires given { (strings : List (List ℕ)) × (texts_size strings < 2 ^ 28)
        × AreTexts strings (nows texts.now) measures.now }
    ensures { IfOk result (λ v. (strings : List (List ℕ)) → texts_size strings < 2 ^ 28
        → AreTexts strings (nows texts.now) measures.now
        → InPoolOrder Plain strings (nows v.items)) }
{
    let rows = rank(alloc, Packing::Plain, texts, measures)?;
    texts_of_rows(alloc, texts, &rows)
}

/// Unit 0 and those records of distinct texts that save so many units or more, in their order.
fn lay_saving(
    alloc: Global,
    packing: Packing,
    texts: &[&str],
    measures: &[Measure],
    least: u32,
) -> Result<Vec<u16>, AllocError>
    requires given { (strings : List (List ℕ)) × (texts_size strings < 2 ^ 28)
        × AreTexts strings (nows texts.now) measures.now }
    ensures { IfOk result (λ v. (strings : List (List ℕ)) → texts_size strings < 2 ^ 28
        → AreTexts strings (nows texts.now) measures.now
        → IsSharedPool packing strings least v.items) }
{
    let rows = rank(alloc, packing, texts, measures)?;
    let kept = saving_rows(alloc, &rows, least)?;
    let block = lay(alloc, texts, &kept)?;
    Ok(block.units)
}

/// The texts that get a record in the plan of strings (`plan`), each once, in the order in which
/// their records stand there. Refused is what `plan` refuses.
pub fn records<'a>(alloc: Global, strings: &[&'a str]) -> Result<Vec<&'a str>, PlanError>
    ensures ok { IfOk result (λ v. InPoolOrder Plain (nows strings.now) (nows v.items)) }
    ensures planned { OnOk result (ArePlanned (nows strings.now)) }
    ensures err { IfErr result (NotPlanned (nows strings.now)) }
{
    let texts = texts_of(alloc, strings)?;
    Ok(ranked_texts(alloc, texts.distinct.as_slice(), &texts.measures)?)
}

/// Unit 0, and of the records that strings have in their plan (`plan`) those of which sharing each
/// saves so many units or more, in the same order, as a file would share them that is packed like
/// this. Refused is what `plan` refuses.
/// (ICU's `reslist.cpp`: the strings of a pool bundle.)
pub fn units_saving(
    alloc: Global,
    packing: Packing,
    strings: &[&str],
    least: u32,
) -> Result<Vec<u16>, PlanError>
    ensures ok { IfOk result (λ v. IsSharedPool packing (nows strings.now) least v.items) }
    ensures err { IfErr result (NotPlanned (nows strings.now)) }
{
    let texts = texts_of(alloc, strings)?;
    Ok(lay_saving(
        alloc,
        packing,
        texts.distinct.as_slice(),
        &texts.measures,
        least,
    )?)
}
