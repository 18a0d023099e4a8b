//! Pools of strings: the units and offsets that the rules of suffix sharing ask for.
//! Expected values are worked out by hand from the rules of markers, records and their order.
use crate::write_rows::text_of;
use resb_pool::{Plan, PlanError, pool};
use resb_write::BinarySerializerError;
use std::alloc::{AllocError, Global};
use std::test::Fail;

/// Strings, the units that are planned for them, and where each string stands: with no suffix to
/// share; with one; a copy more saves more, so its record comes first; a text lies in the greatest
/// of the records that end with it; a text with U+0000 has a marker, and is no suffix of another;
/// U+E000 comes before U+10000 by characters, and after it by units.
pub(crate) const POOLS: &str = " => 0 |
'' => 0 | 0
xyz yz => 0 78 79 7a 0 | 1 2
x y y => 0 79 0 78 0 | 3 1 1
xa ya a => 0 79 61 0 78 61 0 | 4 1 2
~ab ab => 0 dc03 0 61 62 0 | 1 3
a~b ~b b => 0 dc02 0 62 0 dc03 61 0 62 0 | 5 1 3
\u{e000}a \u{10000}a a => 0 e000 61 0 d800 dc00 61 0 | 1 4 6
";

/// Units and offsets as the rows write them.
fn described(alloc: Global, units: &[u16], offsets: &[u32]) -> Result<String, AllocError> {
    let mut line = String::new(alloc);
    for unit in units {
        line.push_str(format!(in alloc; "{unit:x} ")?.as_str())?;
    }
    line.push('|')?;
    for offset in offsets {
        line.push_str(format!(in alloc; " {offset}")?.as_str())?;
    }
    Ok(line)
}

/// Whether texts stand at these offsets in a plan.
fn are_at(plan: &Plan<'_>, texts: &[&str], offsets: &[u32]) -> bool {
    for (number, text) in texts.iter().enumerate() {
        if plan.offset(text) != offsets.get(number).copied() {
            return false;
        }
    }
    texts.len() == offsets.len()
}

/// Whether the plan of these strings has these units and offsets.
fn is_plan(
    alloc: Global,
    strings: &[&str],
    units: &[u16],
    offsets: &[u32],
) -> Result<bool, PlanError> {
    let plan = pool::plan(alloc, strings)?;
    Ok(plan.units() == units && are_at(&plan, strings, offsets))
}

/// The line of the plan of these strings, by both calls.
fn line_of_strings(alloc: Global, strings: &[&str]) -> Result<String, Fail> {
    let (units, offsets) = pool::plan_in_turn(alloc, strings.to_vec(alloc)?)?;
    if !is_plan(alloc, strings, &units, &offsets)? {
        return Err("two plans")?;
    }
    Ok(described(alloc, &units, &offsets)?)
}

/// The texts as strings.
fn strings_of(alloc: Global, texts: &[String]) -> Result<Vec<&str>, AllocError> {
    let mut strings = Vec::new(alloc);
    for text in texts {
        strings.push(text.as_str())?;
    }
    Ok(strings)
}

/// The line of the plan of these texts.
fn line_of_texts(alloc: Global, texts: &[String]) -> Result<String, Fail> {
    let strings = strings_of(alloc, texts)?;
    line_of_strings(alloc, &strings)
}

/// The line of the plan of the strings that these words stand for.
pub(crate) fn line_of_words(alloc: Global, words: &str) -> Result<String, Fail> {
    let mut texts = Vec::new(alloc);
    for word in words.split_whitespace() {
        texts.push(text_of(alloc, word)?)?;
    }
    line_of_texts(alloc, &texts)
}

/// The offset of a text in the plan of these strings.
fn offset_in(alloc: Global, strings: &[&str], text: &str) -> Result<Option<u32>, PlanError> {
    Ok(pool::plan(alloc, strings)?.offset(text))
}

/// A text that was not given has no offset, also where it is the end of one that was.
#[test]
fn other_texts_have_no_offset(rt: HostRuntime) -> Result<(), Fail> {
    assert!(rt; offset_in(rt.alloc(), &["xyz", "yz"], "z")?.is_none());
    assert!(rt; offset_in(rt.alloc(), &[], "")?.is_none());
    Ok(())
}

/// How many letters some texts have, where these stand in their plan, how many units that has, and
/// the first of those behind unit 0. Texts of 41 letters and more have markers, so that neither
/// lies in the other; a short end lies in the shorter one.
struct Letters {
    counts: &'static [usize],
    offsets: &'static [u32],
    length: usize,
    units: [u16; 3],
}

const LETTERS: [Letters; 7] = [
    Letters {
        counts: &[40],
        offsets: &[1],
        length: 42,
        units: [0x61, 0x61, 0x61],
    },
    Letters {
        counts: &[41],
        offsets: &[1],
        length: 44,
        units: [0xdc29, 0x61, 0x61],
    },
    Letters {
        counts: &[41, 42, 1],
        offsets: &[1, 44, 42],
        length: 88,
        units: [0xdc29, 0x61, 0x61],
    },
    Letters {
        counts: &[1006],
        offsets: &[1],
        length: 1009,
        units: [0xdfee, 0x61, 0x61],
    },
    Letters {
        counts: &[1007],
        offsets: &[1],
        length: 1011,
        units: [0xdfef, 0x3ef, 0x61],
    },
    Letters {
        counts: &[1_048_575],
        offsets: &[1],
        length: 1_048_579,
        units: [0xdffe, 0xffff, 0x61],
    },
    Letters {
        counts: &[1_048_576],
        offsets: &[1],
        length: 1_048_581,
        units: [0xdfff, 0x10, 0],
    },
];

/// Whether a plan has so many units, and these behind unit 0.
fn has_units(plan: &Plan<'_>, length: usize, units: &[u16]) -> bool {
    match plan.units().split_first() {
        Some((_, rest)) => plan.units().len() == length && rest.starts_with(units),
        None => false,
    }
}

/// The beginnings of a text that have so many letters.
fn fronts_of<'t>(
    alloc: Global,
    all: &'t str,
    counts: &[usize],
) -> Result<Vec<&'t str>, AllocError> {
    let mut texts = Vec::new(alloc);
    for count in counts {
        texts.push(all.get(..*count).unwrap_or(""))?;
    }
    Ok(texts)
}

/// Whether the plan of some texts is the one that a row wants.
fn are_planned(alloc: Global, row: &Letters, texts: &[&str]) -> Result<bool, PlanError> {
    let plan = pool::plan(alloc, texts)?;
    Ok(are_at(&plan, texts, row.offsets) && has_units(&plan, row.length, &row.units))
}

/// Whether the plan of a row's texts is the one that it wants.
fn is_planned(alloc: Global, row: &Letters) -> Result<bool, Fail> {
    let all = "a".repeat(alloc, 1_048_576)?;
    let texts = fronts_of(alloc, all.as_str(), row.counts)?;
    Ok(are_planned(alloc, row, &texts)?)
}

#[test]
fn texts_of_letters_are_planned(rt: HostRuntime) -> Result<(), Fail> {
    for (number, row) in LETTERS.iter().enumerate() {
        assert!(rt; is_planned(rt.alloc(), row)?, "row {number}");
    }
    Ok(())
}

/// The most letters of texts of 1, 2, 3 and more, the unit at which those of up to 40 end in their
/// plan, how many units that has, and the first behind unit 0: they lie in the longest; beside one
/// of 41 letters, in that.
const ENDS: [(usize, usize, usize, [u16; 3]); 2] = [
    (40, 41, 42, [0x61, 0x61, 0x61]),
    (41, 43, 44, [0xdc29, 0x61, 0x61]),
];

/// Whether each of the texts of up to 40 letters ends at this unit of a plan.
fn are_ends(plan: &Plan<'_>, texts: &[&str], end: usize) -> bool {
    for text in texts.iter().take(40) {
        let Some(offset) = plan.offset(text) else {
            return false;
        };
        if (offset as usize).saturating_add(text.len()) != end {
            return false;
        }
    }
    true
}

/// The beginnings of a text that have one letter, two, and more up to all.
fn all_fronts_of(alloc: Global, all: &str) -> Result<Vec<&str>, AllocError> {
    let mut texts = Vec::new(alloc);
    for count in 1..all.len().saturating_add(1) {
        texts.push(all.get(..count).unwrap_or(""))?;
    }
    Ok(texts)
}

/// Whether the plan of some texts has those of up to 40 letters at this end, and these units.
fn are_of_ends(
    alloc: Global,
    texts: &[&str],
    end: usize,
    wanted: (usize, [u16; 3]),
) -> Result<bool, PlanError> {
    let plan = pool::plan(alloc, texts)?;
    Ok(are_ends(&plan, texts, end) && has_units(&plan, wanted.0, &wanted.1))
}

/// Whether the plan of the texts of 1 to so many letters is the one that a row wants.
fn is_of_ends(
    alloc: Global,
    most: usize,
    end: usize,
    wanted: (usize, [u16; 3]),
) -> Result<bool, Fail> {
    let all = "a".repeat(alloc, most)?;
    let texts = all_fronts_of(alloc, all.as_str())?;
    Ok(are_of_ends(alloc, &texts, end, wanted)?)
}

#[test]
fn ends_lie_in_the_longest(rt: HostRuntime) -> Result<(), Fail> {
    for (most, end, length, units) in ENDS {
        assert!(rt; is_of_ends(rt.alloc(), most, end, (length, units))?);
    }
    Ok(())
}

/// The texts of 1 to 2000.
fn decimals(alloc: Global) -> Result<Vec<String>, AllocError> {
    let mut texts = Vec::new(alloc);
    for number in 1..2001u32 {
        texts.push(format!(in alloc; "{number}")?)?;
    }
    Ok(texts)
}

/// Decimal texts, and their offsets among those of 1 to 2000, whose plan has 5006 units.
const DECIMALS: [&str; 10] = [
    "1991", "1995", "995", "95", "5", "1910", "10", "100", "1000", "2000",
];

const DECIMAL_OFFSETS: [u32; 10] = [1, 21, 22, 23, 24, 46, 48, 452, 4501, 5001];

/// Whether the plan of these texts has so many units, and those texts there.
fn are_decimals(alloc: Global, texts: &[String]) -> Result<bool, Fail> {
    let strings = strings_of(alloc, texts)?;
    let plan = pool::plan(alloc, &strings)?;
    Ok(plan.units().len() == 5006 && are_at(&plan, &DECIMALS, &DECIMAL_OFFSETS))
}

#[test]
fn decimals_are_planned(rt: HostRuntime) -> Result<(), Fail> {
    let texts = decimals(rt.alloc())?;
    assert!(rt; are_decimals(rt.alloc(), &texts)?);
    Ok(())
}

/// Errors of a plan, what each prints, and what it prints as where a file is written.
const ERRORS: [(PlanError, &str, &str); 3] = [
    (
        PlanError::StringTooLong(5),
        "string of 5 units, more than 4294967295",
        "Cannot serialize string of length 5, maximum is 4,294,967,295 characters",
    ),
    (
        PlanError::TooLarge,
        "strings too large",
        "Limit exceeded: file too large",
    ),
    (
        PlanError::OutOfMemory,
        "out of memory",
        "Out of memory: while writing",
    ),
];

/// Whether an error of a plan prints this, and that where a file is written.
fn prints(alloc: Global, error: PlanError, said: &str, written: &str) -> Result<bool, AllocError> {
    let printed = format!(in alloc; "{error}")?.as_str() == said;
    let error = BinarySerializerError::from(error);
    Ok(printed && format!(in alloc; "{error}")?.as_str() == written)
}

#[test]
fn errors_of_plans_are_printed(rt: HostRuntime) -> Result<(), AllocError> {
    for (error, said, written) in ERRORS {
        assert!(rt; prints(rt.alloc(), error, said, written)?, "{said}");
    }
    Ok(())
}
