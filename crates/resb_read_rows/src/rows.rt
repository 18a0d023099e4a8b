//! The tests of the rows that are lines of text: what answers a row of each kind, and one loop,
//! which is proved once. The rows and what answers them stand in the other modules.
use crate::answers::{Answer, parts, said};
use crate::{
    both_rows, cursor_rows, file_rows, head_rows, hostile_rows, measure_rows, older_rows,
    pool_rows, type_rows,
};
use std::alloc::Global;
use std::process::Abort;
use std::test::Fail;

/// What a row is asked for.
#[derive(Clone, Copy)]
enum Kind {
    Alone,
    InMap,
    InList,
    Step,
    Named,
    File,
    End,
    Change,
    Hiding,
    Fronts,
    Index,
    Longer,
    Order,
    Laid,
    Hostile,
    ManyKeys,
    Deep,
    Measure,
    Type,
    Sweep,
    Beside,
    AskBeside,
    MeasureBeside,
    OneText,
    LongText,
    OverPool,
}

/// The answer to a row of this kind.
fn answered(alloc: Global, kind: Kind, input: &str) -> Answer {
    match kind {
        Kind::Alone => both_rows::answer_alone(alloc, input),
        Kind::InMap => both_rows::answer_in_map(alloc, input),
        Kind::InList => both_rows::answer_in_list(alloc, input),
        Kind::Step => cursor_rows::answer_to_step(alloc, input),
        Kind::Named => cursor_rows::answer_of_named(alloc, input),
        Kind::File => file_rows::answer_for_file(alloc, input),
        Kind::End => file_rows::answer_for_end(alloc, input),
        Kind::Change => head_rows::answer_to_change(alloc, input),
        Kind::Hiding => head_rows::count_of_hiding(alloc, input),
        Kind::Fronts => head_rows::answer_for_fronts(alloc, input),
        Kind::Index => file_rows::answer_for_words(alloc, input),
        Kind::Longer => head_rows::answer_for_longer(alloc, input),
        Kind::Order => head_rows::answer_of_order(alloc, input),
        Kind::Laid => head_rows::answer_laid(alloc, input),
        Kind::Hostile => hostile_rows::answer_for_hostile(alloc, input),
        Kind::ManyKeys => hostile_rows::answer_for_many_keys(alloc, input),
        Kind::Deep => hostile_rows::count_of_deep(alloc, input),
        Kind::Measure => measure_rows::answer_to_measure(alloc, input),
        Kind::Type => type_rows::answer_to_ask(alloc, input),
        Kind::Sweep => type_rows::answer_at_places(alloc, input),
        Kind::Beside => older_rows::answer_beside(alloc, input),
        Kind::AskBeside => older_rows::answer_to_ask(alloc, input),
        Kind::MeasureBeside => older_rows::answer_to_measure(alloc, input),
        Kind::OneText => older_rows::answer_for_one_text(alloc, input),
        Kind::LongText => older_rows::sums_of_long_text(alloc, input),
        Kind::OverPool => pool_rows::answer_over_pool(alloc, input),
    }
}

/// A row has its answer.
fn assert_row(rt: &impl Abort, alloc: Global, kind: Kind, row: &str) -> Result<(), Fail> {
    let (input, wanted) = parts(row);
    let found = said(alloc, answered(alloc, kind, input))?;
    assert_eq!(rt; found.as_str(), wanted, "of {input}");
    Ok(())
}

/// Each row of a table has its answer. A row ends with a `;` and a line feed.
fn assert_rows(rt: &impl Abort, alloc: Global, kind: Kind, rows: &str) -> Result<(), Fail> {
    for row in rows.split_terminator(";\n") {
        assert_row(rt, alloc, kind, row)?;
    }
    Ok(())
}

/// Each row of some tables has its answer.
fn assert_tables(rt: &impl Abort, alloc: Global, tables: &[(Kind, &str)]) -> Result<(), Fail> {
    for (kind, rows) in tables {
        assert_rows(rt, alloc, *kind, rows)?;
    }
    Ok(())
}

const TYPES_OF_A_USER: [(Kind, &str); 3] = [
    (Kind::Alone, both_rows::ALONE),
    (Kind::InMap, both_rows::MAP),
    (Kind::InList, both_rows::LIST),
];

#[test]
fn types_of_a_users_own_are_read(rt: HostRuntime) -> Result<(), Fail> {
    assert_tables(&rt, rt.alloc(), &TYPES_OF_A_USER)
}

const READINGS: [(Kind, &str); 3] = [
    (Kind::Step, cursor_rows::STEPS),
    (Kind::Named, cursor_rows::NAMED),
    (Kind::OverPool, pool_rows::OVER_POOLS),
];

#[test]
fn steps_of_a_reading_are_answered(rt: HostRuntime) -> Result<(), Fail> {
    assert_tables(&rt, rt.alloc(), &READINGS)
}

const WHOLE_FILES: [(Kind, &str); 2] = [
    (Kind::File, file_rows::FILES),
    (Kind::End, file_rows::ENDS),
];

#[test]
fn files_and_damaged_files_are_answered(rt: HostRuntime) -> Result<(), Fail> {
    assert_tables(&rt, rt.alloc(), &WHOLE_FILES)
}

const HEADS: [(Kind, &str); 7] = [
    (Kind::Change, head_rows::CHANGES),
    (Kind::Hiding, head_rows::HIDING),
    (Kind::Fronts, head_rows::FRONTS),
    (Kind::Index, head_rows::INDICES),
    (Kind::Longer, head_rows::LONGER),
    (Kind::Order, head_rows::ORDERS),
    (Kind::Laid, head_rows::LAID),
];

#[test]
fn heads_are_judged(rt: HostRuntime) -> Result<(), Fail> {
    assert_tables(&rt, rt.alloc(), &HEADS)
}

const HOSTILE: [(Kind, &str); 5] = [
    (Kind::Hostile, hostile_rows::SHARED),
    (Kind::Hostile, hostile_rows::ONE_TEXT),
    (Kind::Hostile, hostile_rows::WIDE),
    (Kind::ManyKeys, hostile_rows::MANY_KEYS),
    (Kind::Deep, hostile_rows::DEEP),
];

#[test]
fn hostile_files_are_answered(rt: HostRuntime) -> Result<(), Fail> {
    assert_tables(&rt, rt.alloc(), &HOSTILE)
}

const PLACES: [(Kind, &str); 2] = [
    (Kind::Type, type_rows::TYPES),
    (Kind::Sweep, type_rows::SWEEPS),
];

#[test]
fn types_are_read_at_places(rt: HostRuntime) -> Result<(), Fail> {
    assert_tables(&rt, rt.alloc(), &PLACES)
}

#[test]
fn trees_are_measured_before_they_are_made(rt: HostRuntime) -> Result<(), Fail> {
    assert_rows(&rt, rt.alloc(), Kind::Measure, measure_rows::MEASURES)
}

const OLDER: [(Kind, &str); 5] = [
    (Kind::Beside, older_rows::BESIDE),
    (Kind::Index, older_rows::ALONE),
    (Kind::AskBeside, older_rows::TYPES),
    (Kind::MeasureBeside, older_rows::MEASURES),
    (Kind::OneText, older_rows::ONE_TEXT),
];

#[test]
fn aliases_and_older_strings_are_read_beside_no_pool(rt: HostRuntime) -> Result<(), Fail> {
    assert_tables(&rt, rt.alloc(), &OLDER)
}

#[test]
fn a_long_text_is_measured_in_the_time_of_its_file(rt: HostRuntime) -> Result<(), Fail> {
    assert_rows(&rt, rt.alloc(), Kind::LongText, older_rows::LONG_TEXT)
}
