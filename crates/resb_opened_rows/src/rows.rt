//! The tests: each row of a table has its answer.
//! The rows and what answers them stand in the other modules.
use crate::{opened_rows, shown_rows};
use std::alloc::Global;
use std::process::Abort;
use std::test::Fail;

/// What a row is asked for.
#[derive(Clone, Copy)]
enum Kind {
    Path,
    Shown,
}

/// The line of a row of this kind.
fn answered(alloc: Global, kind: Kind, input: &str) -> Result<String, Fail> {
    match kind {
        Kind::Path => opened_rows::line_of_path(alloc, input),
        Kind::Shown => shown_rows::line_of_shown(alloc, input),
    }
}

/// Each row of a table has its answer.
fn assert_rows(rt: &impl Abort, alloc: Global, kind: Kind, rows: &str) -> Result<(), Fail> {
    for row in rows.split_terminator(";\n") {
        let (input, said) = row.split_once(" => ").ok_or("a row without an answer")?;
        assert_row(rt, answered(alloc, kind, input)?, said, input);
    }
    Ok(())
}

/// The line of a row is the one that is wanted.
fn assert_row(rt: &impl Abort, found: String, said: &str, input: &str) {
    assert_eq!(rt; found.as_str(), said, "of {input}");
}

#[test]
fn opened_files_are_answered(rt: HostRuntime) -> Result<(), Fail> {
    assert_rows(&rt, rt.alloc(), Kind::Path, opened_rows::PATHS)?;
    assert_rows(&rt, rt.alloc(), Kind::Shown, shown_rows::SHOWN)
}
