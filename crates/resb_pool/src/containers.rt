//! In which record each text lies.
//! Where the records stand is said in `records`.
ghost use Rattle.std.specs.Prelude.{◌≡◌, ◌<◌, ◌^◌, length, sum_by, slice_index_or};
ghost use Rattle.std.specs.Prelude.{All, Contains, IfOk, slice_index};
ghost use Rattle.std.specs.Bool.{MatchBool};
ghost use Rattle.std.specs.Str.{IsUtf8};
ghost use Rattle.resb_pool.specs.Records.{EachOnce};
ghost use Rattle.resb_pool.specs.Plan.{nows};
ghost use Rattle.resb_pool.specs.Inner.LaidRecords.{AreLyingIn, AreCounted};
ghost use Rattle.resb_pool.specs.Inner.Placing.{AreContainers, AreHidden};
ghost use Rattle.resb_pool.specs.Inner.Suffixes.{IsKeyed, IsEnd, IsSharedEnd, row_text};
ghost use Rattle.resb_pool.specs.Inner.Tops.{StepsTo};
ghost use Rattle.resb_pool.specs.declared.measure.Measure.{Measure};
ghost use Rattle.resb_pool.specs.declared.packing.Packing.TheVariants.{Plain, Compact};

use crate::measure::Measure;
use crate::packing::Packing;
use crate::suffix_order::{Row, in_suffix_order, is_whole_in_row, may_end_with, row_of};
use crate::texts::indexed_text;
use resb_format::is_unmarked;
use std::alloc::{AllocError, Global};

/// Whether a text has no record of its own, but lies where another one lies, which stands right
/// before it in suffix order: it isn't empty, has no marker and ends that text.
fn is_shared_end(text: &str, previous: &str) -> bool
    ensures { MatchBool result (IsSharedEnd previous.now text.now)
        (IsSharedEnd previous.now text.now → ⊥) }
{
    !text.is_empty() && is_unmarked(text) && previous.ends_with(text)
}

/// Whether the text of a row lies in the record of the text of the row right before it. The rows
/// tell it of most texts, which are not looked at then.
fn lies_with(texts: &[&str], row: &Row, previous: &Row) -> bool
    requires utf8 { All IsUtf8 (nows texts.now) }
    requires row { IsKeyed (nows texts.now) row.now }
    requires previous { IsKeyed (nows texts.now) previous.now }
    ensures { MatchBool result
        (IsSharedEnd (row_text (nows texts.now) previous.now) (row_text (nows texts.now) row.now))
        (IsSharedEnd (row_text (nows texts.now) previous.now) (row_text (nows texts.now) row.now)
        → ⊥) }
{
    may_end_with(previous, row)
        && (is_whole_in_row(row)
            || is_shared_end(
                indexed_text(texts, row.index),
                indexed_text(texts, previous.index),
            ))
}

/// The index of the text in whose record each of distinct texts lies in a plain file. The empty
/// text has no record, and lies in itself. In suffix order all texts that end with a text stand in
/// one run right before it. So the text lies where the one right before it lies, or is a record.
fn find_plain(alloc: Global, texts: &[&str]) -> Result<Vec<u32>, AllocError>
    requires utf8 { All IsUtf8 (nows texts.now) }
    requires distinct { EachOnce (nows texts.now) }
    requires few { length texts.now < 2 ^ 32 }
    ensures { IfOk result (λ v. AreContainers Plain (nows texts.now) v.items) }
{
    // asked for before the rows, so that what these give back isn't parted by it
    let mut containers = vec![in alloc; 0; texts.len()]?;
    let rows = in_suffix_order(alloc, Packing::Plain, texts)?;
    // the empty text ends with no other, so that the first text lies in itself
    let mut previous = row_of("", texts.len() as u32);
    let mut container = 0;
    for row in &rows {
        if !lies_with(texts, row, &previous) {
            container = row.index;
        }
        containers[row.index as usize] = container;
        previous = *row;
    }
    Ok(containers)
}

/// In whose record each of distinct texts lies.
#[derive(Drop)]
pub(crate) struct Containers {
    /// The index of that record's text.
    pub(crate) of: Vec<u32>,
    /// The indexes of texts that save nothing if they are records, since another text ends with
    /// them.
    pub(crate) hidden: Vec<u32>,
}

impl Containers {
    ghost use Rattle.std.specs.Prelude.{◌≡◌, ◌++◌, OnOk};

    /// Adds texts, by their indexes, that save nothing if they are records, since a text beside the
    /// file ends with them.
    pub(crate) fn hide(&mut self, indexes: &[u32]) -> Result<(), AllocError>
        ensures of { self.new.of ≡ self.old.of }
        ensures hidden { OnOk result
            (self.new.hidden.items ≡ self.old.hidden.items ++ indexes.now) }
    {
        self.hidden.extend_from_slice(indexes)
    }
}

/// Whether a text isn't empty and ends the one that stands right before it in suffix order.
fn is_end(text: &str, previous: &str) -> bool
    ensures { MatchBool result (IsEnd previous.now text.now) (IsEnd previous.now text.now → ⊥) }
{
    !text.is_empty() && previous.ends_with(text)
}

/// Whether the text of a row isn't empty and ends the text of the row right before it.
fn ends_previous(texts: &[&str], row: &Row, previous: &Row) -> bool
    requires utf8 { All IsUtf8 (nows texts.now) }
    requires row { IsKeyed (nows texts.now) row.now }
    requires previous { IsKeyed (nows texts.now) previous.now }
    ensures { MatchBool result
        (IsEnd (row_text (nows texts.now) previous.now) (row_text (nows texts.now) row.now))
        (IsEnd (row_text (nows texts.now) previous.now) (row_text (nows texts.now) row.now)
        → ⊥) }
{
    may_end_with(previous, row)
        && (is_whole_in_row(row)
            || is_end(
                indexed_text(texts, row.index),
                indexed_text(texts, previous.index),
            ))
}

/// The top in which a row's text would lie, and where it lies, by the row right before it and the
/// top of that one. A record that ends the text before it is noted as hidden.
fn step(
    texts: &[&str],
    row: &Row,
    previous: &Row,
    top: u32,
    hidden: &mut Vec<u32>,
) -> Result<(u32, u32), AllocError>
    requires utf8 { All IsUtf8 (nows texts.now) }
    requires row { IsKeyed (nows texts.now) row.now }
    requires previous { IsKeyed (nows texts.now) previous.now }
    ensures { IfOk result (λ p. StepsTo (row_text (nows texts.now) previous.now)
        (row_text (nows texts.now) row.now) row.now.index top hidden.old.items p.0 p.1
        hidden.new.items) }
{
    if !ends_previous(texts, row, previous) {
        return Ok((row.index, row.index));
    }
    if is_unmarked(indexed_text(texts, row.index)) {
        return Ok((top, top));
    }
    hidden.push(row.index)?;
    Ok((top, row.index))
}

/// In whose record each of distinct texts lies in a compact file. In suffix order all texts that
/// end with a text stand in one run right before it, so that the last top before it is the greatest
/// one that ends with it.
fn find_compact(alloc: Global, texts: &[&str]) -> Result<Containers, AllocError>
    requires utf8 { All IsUtf8 (nows texts.now) }
    requires distinct { EachOnce (nows texts.now) }
    requires few { length texts.now < 2 ^ 32 }
    ensures containers { IfOk result (λ c. AreContainers Compact (nows texts.now) c.of.items) }
    ensures hidden { IfOk result (λ c.
        AreHidden Compact (Contains (nows texts.now)) (nows texts.now) c.hidden.items) }
{
    let mut of = vec![in alloc; 0; texts.len()]?;
    let mut hidden = Vec::new(alloc);
    let rows = in_suffix_order(alloc, Packing::Compact, texts)?;
    // the empty text ends with no other, so that the first text is a top
    let mut previous = row_of("", texts.len() as u32);
    let mut top = 0;
    for row in &rows {
        let (next_top, container) = step(texts, row, &previous, top, &mut hidden)?;
        of[row.index as usize] = container;
        top = next_top;
        previous = *row;
    }
    Ok(Containers { of, hidden })
}

/// In whose record each of distinct texts lies, in a file that is packed this way.
pub(crate) fn find_containers(
    alloc: Global,
    packing: Packing,
    texts: &[&str],
) -> Result<Containers, AllocError>
    requires utf8 { All IsUtf8 (nows texts.now) }
    requires distinct { EachOnce (nows texts.now) }
    requires few { length texts.now < 2 ^ 32 }
    ensures containers { IfOk result (λ c. AreContainers packing (nows texts.now) c.of.items) }
    ensures hidden { IfOk result (λ c.
        AreHidden packing (Contains (nows texts.now)) (nows texts.now) c.hidden.items) }
{
    match packing {
        Packing::Plain => Ok(Containers {
            of: find_plain(alloc, texts)?,
            hidden: Vec::new(alloc),
        }),
        Packing::Compact => find_compact(alloc, texts),
    }
}

/// The units that all copies that lie in each text would take as records of their own.
fn sum_totals(
    alloc: Global,
    containers: &[u32],
    measures: &[Measure],
) -> Result<Vec<u32>, AllocError>
    requires len { length measures.now ≡ length containers.now }
    requires within { All (λ c. c < length containers.now) containers.now }
    requires small { sum_by (λ m. m.total) measures.now < 2 ^ 32 }
    ensures { IfOk result (λ v. AreLyingIn containers.now measures.now v.items) }
{
    let mut sums = vec![in alloc; 0; containers.len()]?;
    for (index, container) in containers.iter().enumerate() {
        sums[*container as usize] += measures[index].total;
    }
    Ok(sums)
}

/// These sums, but for the hidden texts, each of which counts itself alone.
pub(crate) fn find_sums(
    alloc: Global,
    containers: &Containers,
    measures: &[Measure],
) -> Result<Vec<u32>, AllocError>
    requires len { length measures.now ≡ length containers.now.of.items }
    requires within { All (λ c. c < length containers.now.of.items) containers.now.of.items }
    requires hidden { All (λ h. h < length containers.now.of.items) containers.now.hidden.items }
    requires small { sum_by (λ m. m.total) measures.now < 2 ^ 32 }
    ensures { IfOk result (λ v. AreCounted containers.now.hidden.items containers.now.of.items
        measures.now v.items) }
{
    let mut sums = sum_totals(alloc, &containers.of, measures)?;
    for index in &containers.hidden {
        sums[*index as usize] = measures[*index as usize].size;
    }
    Ok(sums)
}
