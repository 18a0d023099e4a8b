//! The tests of the rows that are lines of text: what answers a row of each kind, and one loop,
//! which is proved once. The rows and what answers them stand in the other modules.
use crate::{blame_rows, record_rows, stream_rows, text_rows};
use std::alloc::Global;
use std::process::Abort;
use std::test::Fail;

/// What a row is asked for.
#[derive(Clone, Copy)]
enum Kind {
    Records,
    Blames,
    Zones,
    Run,
    Fault,
}

/// The line of a row of this kind.
fn answered(alloc: Global, kind: Kind, input: &str) -> Result<String, Fail> {
    match kind {
        Kind::Records => record_rows::line_of_record(alloc, input),
        Kind::Blames => blame_rows::line_of_blame(alloc, input),
        Kind::Zones => text_rows::line_of_zones(alloc, input),
        Kind::Run => stream_rows::line_of_run(alloc, input),
        Kind::Fault => stream_rows::line_of_fault(alloc, input),
    }
}

/// Each row is an input, ` => `, its answer, and `;` at the end of a line.
fn assert_rows(rt: &impl Abort, alloc: Global, kind: Kind, rows: &str) -> Result<(), Fail> {
    for row in rows.split_terminator(";\n") {
        let (input, wanted) = row.split_once(" => ").ok_or("a row without an answer")?;
        let found = answered(alloc, kind, input)?;
        assert_eq!(rt; found.as_str(), wanted, "{input}");
    }
    Ok(())
}

#[test]
fn records_are_read(rt: HostRuntime) -> Result<(), Fail> {
    assert_rows(&rt, rt.alloc(), Kind::Records, record_rows::RECORDS)?;
    assert_rows(&rt, rt.alloc(), Kind::Records, record_rows::UNWRITTEN)?;
    assert_rows(&rt, rt.alloc(), Kind::Records, record_rows::SHARED)
}

#[test]
fn refusals_have_their_blames(rt: HostRuntime) -> Result<(), Fail> {
    assert_rows(&rt, rt.alloc(), Kind::Blames, blame_rows::BLAMES)
}

#[test]
fn texts_have_their_zones(rt: HostRuntime) -> Result<(), Fail> {
    assert_rows(&rt, rt.alloc(), Kind::Zones, text_rows::ZONES)
}

#[test]
fn texts_without_zones_are_refused(rt: HostRuntime) -> Result<(), Fail> {
    assert_rows(&rt, rt.alloc(), Kind::Zones, text_rows::REFUSALS)
}

#[test]
fn slow_streams_have_their_line(rt: HostRuntime) -> Result<(), Fail> {
    assert_rows(&rt, rt.alloc(), Kind::Run, stream_rows::RUNS)
}

#[test]
fn faults_end_with_their_status(rt: HostRuntime) -> Result<(), Fail> {
    assert_rows(&rt, rt.alloc(), Kind::Fault, stream_rows::FAULTS)
}
