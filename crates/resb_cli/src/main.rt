//! The program `resb` that people call: compile, check, dump, get, diff, list, extract, swap,
//! and ICU's genrb and derb.
//! What its words ask for is in `resb_words`, and what it does with bytes in `resb_program`.
#![tactic(auto)]

mod below;
mod changes;
mod check;
mod collation;
mod compile;
mod copyright;
mod depfile;
mod derb;
mod diff;
mod drafted;
mod dump;
mod encoding;
mod entries;
mod filter;
mod folders;
mod format_version;
mod forms;
mod genrb;
mod get;
mod hints;
mod input;
mod key_order;
mod least;
mod levels;
mod mistaken;
mod mistaken_keys;
mod mistaken_values;
mod mistakes;
mod names;
mod note;
mod order;
mod packages;
mod paths;
mod place;
mod progress;
mod refusal;
mod repeated;
mod save;
mod say;
mod show;
mod shown;
mod streams;
mod subject;
mod swap;
mod taken;
mod texts;
mod trace;
mod unread;
mod warn;
mod words;

use resb_program::keep_freed_memory;
use resb_words::{Request, WordsError, are_of_icu, request_of};
use std::process::ExitCode;

/// Ends the process with the status of what its words ask for.
fn main(rt: HostRuntime) -> ExitCode {
    keep_freed_memory(rt.alloc());
    ExitCode::from(perform(&rt))
}

/// Does what the words ask: 0, 1 where a text or file is refused, 2 for other words and for files
/// and streams that fail. For words that they don't take, ICU's tools have a status of their own.
fn perform(rt: &HostRuntime) -> u8 {
    let Ok(words) = words::words_of(rt) else {
        return say::fail(rt, "resb", streams::NO_MEMORY);
    };
    match request_of(rt.alloc(), words.as_slice()) {
        Ok(request) => perform_request(rt, &request),
        Err(e) => match answer(rt, &e) {
            2 if are_of_icu(words.as_slice()) => genrb::ILLEGAL_ARGUMENT,
            status => status,
        },
    }
}

/// Prints help or the version, or says what is wrong with the words.
fn answer(rt: &HostRuntime, e: &WordsError) -> u8 {
    let status = e.status();
    if status != 0 {
        say::say_lines(rt, e);
        return status;
    }
    match print!(rt; "{e}") {
        Ok(()) => 0,
        Err(_) => say::fail(rt, "resb", "standard output cannot be written"),
    }
}

/// Does what is asked.
fn perform_request(rt: &HostRuntime, request: &Request<'_>) -> u8 {
    match request {
        Request::Compile(words) => compile::compile(rt, words),
        Request::Check(words) => check::check(rt, words),
        Request::Dump(words) => dump::dump(rt, words),
        Request::Get(words) => get::get(rt, words),
        Request::Diff(words) => diff::diff(rt, words),
        Request::List(name) => packages::list(rt, name),
        Request::Extract(words) if words::is_marked(words.item) => {
            say::fail(rt, words.item, words::NO_UTF8)
        }
        Request::Extract(words) => packages::extract(rt, words),
        Request::Swap(words) => swap::swap(rt, words),
        Request::Genrb(words) => genrb::genrb(rt, words),
        Request::Derb(words) => derb::derb(rt, words),
    }
}
