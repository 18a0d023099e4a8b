//! The distinct texts of strings as a list, each with its sizes, by the first copies of strings.
//! How first copies are found is said in `firsts`; texts in a table are those of `texts`.
ghost use Rattle.std.specs.Prelude.{◌≡◌, ◌+◌, ◌<◌, ◌^◌, List, ℕ, IfOk, IfErr, OnOk, None};
ghost use Rattle.std.specs.Prelude.{length, take, slice_index};
ghost use Rattle.std.specs.Borrow.{Bor};
ghost use Rattle.resb_format.specs.Units.{units};
ghost use Rattle.resb_pool.specs.Plan.{nows, first_too_long, texts_size, NotPlanned};
ghost use Rattle.resb_pool.specs.Inner.Placing.{AreTexts, AreTurns, indexed_text};
ghost use Rattle.resb_pool.specs.Inner.Firsts.{IsFirst, AreFirsts};
ghost use Rattle.resb_pool.specs.Inner.Listing.{IsListing};

use crate::error::PlanError;
use crate::measure::{Measure, is_vast, size_with};
use crate::texts::Texts;
use std::alloc::{AllocError, Global};

/// Texts, each once and in the order of their first copies, and their sizes.
#[derive(Drop)]
pub(crate) struct ListedTexts<'a> {
    pub(crate) texts: Vec<&'a str>,
    pub(crate) measures: Vec<Measure>,
    /// The index of each string's text, in the order in which they were given.
    pub(crate) order: Vec<u32>,
}

/// The texts of a table as a list. The table goes.
pub(crate) fn as_list<'a>(alloc: Global, texts: Texts<'a>) -> Result<ListedTexts<'a>, AllocError>
    ensures texts { IfOk result (λ t. t.texts.items ≡ texts.entry.distinct.keys) }
    ensures measures { IfOk result (λ t. t.measures.items ≡ texts.entry.measures.items) }
    ensures order { IfOk result (λ t. t.order.items ≡ texts.entry.order.items) }
{
    Ok(ListedTexts {
        texts: Vec::from_slice(alloc, texts.distinct.as_slice())?,
        measures: texts.measures,
        order: texts.order,
    })
}

/// How many strings are their own first copies.
fn count_firsts(firsts: &[u32]) -> usize {
    let mut count = 0usize;
    for (number, first) in firsts.iter().enumerate() {
        if *first as usize == number {
            count = count.saturating_add(1);
        }
    }
    count
}

/// Strings whose texts are listed in their own room.
#[derive(Drop)]
struct Listing<'a> {
    /// The texts found so far. From the next string on the strings stand where they stood; what
    /// stands between is read no more.
    strings: Vec<&'a str>,
    /// How many texts were found.
    count: usize,
    measures: Vec<Measure>,
    /// The index of each string's text so far. From the next string on the number of each one's
    /// first copy stands there.
    order: Vec<u32>,
}

/// Lists the text of the next string, before which so many strings stand. Gives how many units it
/// has.
fn list_next<'a>(list: &mut Listing<'a>, text: &'a str, number: usize) -> Result<usize, AllocError>
    requires given { (xs : List (Bor (List ℕ))) × (fs : List ℕ) × IsListing xs fs number list.old
        × (number < length xs) × (text.now ≡ indexed_text (nows xs) number)
        × (texts_size (nows (take number xs)) < 2 ^ 28)
        × IsFirst (nows xs) number (slice_index fs number) }
    requires short { length (units text.now) < 2 ^ 28 }
    ensures count { IfOk result (λ n. n ≡ length (units text.now)) }
    ensures lists { OnOk result ((xs : List (Bor (List ℕ))) (fs : List ℕ)
        → IsListing xs fs number list.old → number < length xs
        → text.now ≡ indexed_text (nows xs) number
        → IsFirst (nows xs) number (slice_index fs number)
        → IsListing xs fs (number + 1) list.new) }
{
    let first = list.order[number] as usize;
    let index = if first < number {
        list.order[first] as usize
    } else {
        let next = list.count;
        list.strings[next] = text;
        list.measures.push(Measure::of(text))?;
        list.count += 1;
        next
    };
    let measure = &mut list.measures[index];
    measure.total += measure.size;
    let unit_count = measure.unit_count as usize;
    list.order[number] = index as u32;
    Ok(unit_count)
}

/// The texts of a list, once all strings have their index there.
fn listed<'a>(list: Listing<'a>) -> ListedTexts<'a>
    ensures texts { result.texts.items ≡ take list.entry.count list.entry.strings.items }
    ensures measures { result.measures.items ≡ list.entry.measures.items }
    ensures order { result.order.items ≡ list.entry.order.items }
{
    let Listing {
        strings: mut texts,
        count,
        measures,
        order,
    } = list;
    texts.truncate(count);
    ListedTexts {
        texts,
        measures,
        order,
    }
}

/// The distinct texts of strings whose first copies are known, in the room of both. Refused are
/// strings whose units and 16 for each come to 2^28 or more.
pub(crate) fn by_firsts<'a>(
    alloc: Global,
    strings: Vec<&'a str>,
    firsts: Vec<u32>,
) -> Result<ListedTexts<'a>, PlanError>
    requires short { first_too_long (nows strings.items) ≡ None }
    requires firsts { AreFirsts (nows strings.items) firsts.items }
    ensures texts { IfOk result (λ t.
        AreTexts (nows strings.entry.items) (nows t.texts.items) t.measures.items) }
    ensures turns { IfOk result (λ t.
        AreTurns (nows strings.entry.items) (nows t.texts.items) t.order.items) }
    ensures small { OnOk result (texts_size (nows strings.entry.items) < 2 ^ 28) }
    ensures err { IfErr result (NotPlanned (nows strings.entry.items)) }
{
    let string_count = strings.len();
    let measures = Vec::with_capacity(alloc, count_firsts(&firsts))?;
    let mut list = Listing {
        strings,
        count: 0,
        measures,
        order: firsts,
    };
    let mut size = 0;
    for number in 0..string_count {
        let text = list.strings[number];
        if is_vast(text) {
            return Err(PlanError::TooLarge);
        }
        let unit_count = list_next(&mut list, text, number)?;
        size = size_with(size, unit_count)?;
    }
    Ok(listed(list))
}
