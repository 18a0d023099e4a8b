//! Makes the public calls that ask for memory, all of them twice, and compares their answers.
//! `tests/memory.sh` runs it with one request for memory refused. It ends with 0 where each answer
//! is right, with 3 where calls answered want of memory in one of the rounds and all are right in
//! the other, and with 1 else.
#![tactic(auto)]

mod example;
mod files;
mod outcome;
mod texts;

use crate::outcome::{Outcome, outcome_of};
use std::alloc::Global;
use std::process::ExitCode;

/// What comes of all calls.
fn all_calls(alloc: Global) -> Outcome {
    let outcomes = [
        outcome_of(texts::reads(alloc)),
        outcome_of(texts::reads_counted(alloc)),
        outcome_of(texts::reads_within(alloc)),
        outcome_of(texts::writes(alloc)),
        outcome_of(texts::compiles(alloc)),
        outcome_of(texts::compiles_icu(alloc)),
        outcome_of(texts::compiles_others(alloc)),
        outcome_of(texts::compiles_over_a_pool(alloc)),
        outcome_of(texts::filters(alloc)),
        outcome_of(texts::refuses(alloc)),
        outcome_of(texts::plans(alloc)),
        outcome_of(texts::clones_keys(alloc)),
        texts::turns_a_key_into_a_string(alloc),
        outcome_of(files::reads_a_tree(alloc)),
        outcome_of(files::counts(alloc)),
        outcome_of(files::measures(alloc)),
        outcome_of(files::reads_by_a_cursor(alloc)),
        outcome_of(files::reads_a_map(alloc)),
        outcome_of(files::reads_views(alloc)),
        outcome_of(files::reads_beside_a_pool(alloc)),
        outcome_of(files::measures_beside_a_pool(alloc)),
        files::reads_words(alloc),
        outcome_of(files::lays_a_head(alloc)),
    ];
    let mut all = Outcome::Right;
    for outcome in outcomes {
        all = all.max(outcome);
    }
    all
}

fn main(rt: HostRuntime) -> ExitCode {
    let first = all_calls(rt.alloc());
    let second = all_calls(rt.alloc());
    ExitCode::from(match (first, second) {
        (Outcome::Right, Outcome::Right) => 0,
        (Outcome::Wanted, Outcome::Right) | (Outcome::Right, Outcome::Wanted) => 3,
        _ => 1,
    })
}
