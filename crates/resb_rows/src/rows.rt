//! The tests of the rows that are lines of text: what answers a row of each kind, and one loop,
//! which is proved once. The rows and what answers them stand in the other modules.
use crate::answers::{is_said, parts};
use crate::{compact_over_rows, compact_rows, over_pool_rows, pool_rows, write_rows};
use std::alloc::Global;
use std::process::Abort;
use std::test::Fail;

/// What a row is asked for.
#[derive(Clone, Copy)]
enum Kind {
    Pool,
    Strings,
    List,
    Root,
    OverPool,
    Compiled,
    Compact,
    CompactOver,
}

/// The line of a row of this kind.
fn answered(alloc: Global, kind: Kind, input: &str) -> Result<String, Fail> {
    match kind {
        Kind::Pool => pool_rows::line_of_words(alloc, input),
        Kind::Strings => write_rows::line_of_strings(alloc, input),
        Kind::List => write_rows::line_of_list(alloc, input),
        Kind::Root => write_rows::line_of_root(alloc, input),
        Kind::OverPool => over_pool_rows::line_of_pool(alloc, input),
        Kind::Compiled => over_pool_rows::line_of_compiled(alloc, input),
        Kind::Compact => compact_rows::line_of_compact(alloc, input),
        Kind::CompactOver => compact_over_rows::line_of_compact_over(alloc, input),
    }
}

/// Whether a row has its answer.
fn holds(alloc: Global, kind: Kind, row: &str) -> Result<bool, Fail> {
    let (input, wanted) = parts(row)?;
    let found = answered(alloc, kind, input)?;
    Ok(is_said(alloc, found.as_str(), wanted)?)
}

/// Each row of a table has its answer. Behind a row stands this end.
fn assert_rows(
    rt: &impl Abort,
    alloc: Global,
    kind: Kind,
    rows: &str,
    end: &str,
) -> Result<(), Fail> {
    for row in rows.split_terminator(end) {
        assert!(rt; holds(alloc, kind, row)?, "{row}");
    }
    Ok(())
}

#[test]
fn strings_are_pooled(rt: HostRuntime) -> Result<(), Fail> {
    assert_rows(&rt, rt.alloc(), Kind::Pool, pool_rows::POOLS, "\n")
}

/// The tables whose rows end with a `;` and a line feed.
const TABLES: [(Kind, &str); 7] = [
    (Kind::Strings, write_rows::STRINGS),
    (Kind::List, write_rows::LISTS),
    (Kind::Root, write_rows::ROOTS),
    (Kind::OverPool, over_pool_rows::OVER_POOLS),
    (Kind::Compiled, over_pool_rows::COMPILED),
    (Kind::Compact, compact_rows::COMPACT),
    (Kind::CompactOver, compact_over_rows::COMPACT_OVER),
];

#[test]
fn trees_have_their_files(rt: HostRuntime) -> Result<(), Fail> {
    for (kind, rows) in TABLES {
        assert_rows(&rt, rt.alloc(), kind, rows, ";\n")?;
    }
    Ok(())
}
