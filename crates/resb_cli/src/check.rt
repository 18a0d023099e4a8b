//! The command `check`: what is said of each file, as a line or as an object of JSON.
//! What a file is, and why it isn't read, is in `resb_program`.
use crate::folders::{BUNDLES, Named, named_files};
use crate::input::{Beside, Input, Opened, Pools};
use crate::progress::Progress;
use crate::refusal::{Refusal, refuse};
use crate::say::{fail, refuse_memory};
use crate::show::{show, status_of};
use crate::shown::{Shown, shown_json};
use crate::streams::InputError;
use crate::unread::Unread;
use crate::words::MARK;
use resb_head::FormatVersion;
use resb_json::json_text;
use resb_pool_bundle::{FileHead, PoolBundle};
use resb_program::{FileError, open_file};
use resb_tree::Resource;
use resb_words::CheckWords;
use std::alloc::{AllocError, Global};
use std::borrow::CowStr;
use std::fmt::{self, Display};

/// What a file is that is right.
#[derive(Clone, Copy)]
struct Summary<'f> {
    /// How many resources its tree has.
    count: usize,
    head: FileHead<'f>,
    /// Whether it is in big-endian order.
    is_big: bool,
    /// The name of the pool bundle that it uses.
    pool: Option<&'f str>,
}

/// Says of each file what it is, a line each.
pub(crate) fn check(rt: &HostRuntime, wanted: &CheckWords<'_>) -> u8 {
    if wanted.files.iter().filter(|name| **name == "-").count() > 1 {
        return fail(rt, "resb", "standard input is read once alone");
    }
    match named_files(rt, wanted.files.as_slice(), Some(BUNDLES)) {
        Ok(files) => check_each(rt, files.as_slice(), wanted),
        Err(cause) => fail(rt, "resb", cause),
    }
}

/// Says of each of these files what it is.
fn check_each(rt: &HostRuntime, files: &[Named], wanted: &CheckWords<'_>) -> u8 {
    let mut status = 0;
    let mut progress = Progress::new(rt, files.len());
    let mut before = None;
    let mut pools = Pools::new(wanted.pool, None);
    for file in files {
        let name = file.name.as_str();
        before = match input_of(rt, file, before) {
            Ok(input) => {
                status = status.max(check_one(rt, name, &input, &mut pools, wanted));
                Some(input)
            }
            Err(e) => {
                status = status.max(say_unread(rt, name, e, wanted));
                None
            }
        };
        progress.one_more(rt);
    }
    progress.end(rt);
    status
}

/// The input of a file, behind another one.
fn input_of(rt: &HostRuntime, file: &Named, before: Option<Input>) -> Result<Input, Unread> {
    match file.fault {
        Some(cause) => Err(Unread::Input(InputError::Failed(cause))),
        None => Input::next(before, rt, file.name.as_str(), None),
    }
}

/// Says why a file isn't had, and gives the status of that.
fn say_unread(rt: &HostRuntime, name: &str, e: Unread, wanted: &CheckWords<'_>) -> u8 {
    if !wanted.is_json {
        return e.say(rt, name);
    }
    print_fault(rt, name, e.kind(), e).max(e.status())
}

/// Says of one file what it is.
fn check_one(
    rt: &HostRuntime,
    name: &str,
    input: &Input,
    pools: &mut Pools<'_>,
    wanted: &CheckWords<'_>,
) -> u8 {
    let opened = match input.opened(rt.alloc()) {
        Ok(opened) => opened,
        Err(e) => return say_unread(rt, name, e, wanted),
    };
    let beside = match opened.pool_among(rt, name, pools) {
        Ok(beside) => beside,
        Err(status) => return without_pool(rt, name, status, wanted),
    };
    let status = check_beside(rt, name, opened, &beside, wanted);
    pools.keep(beside);
    status
}

/// Says of one file what it is, beside its pool bundle.
fn check_beside(
    rt: &HostRuntime,
    name: &str,
    opened: Opened<'_>,
    beside: &Beside<'_>,
    wanted: &CheckWords<'_>,
) -> u8 {
    let bundle = match beside.bundle(rt, name) {
        Ok(bundle) => bundle,
        Err(status) => return without_pool(rt, name, status, wanted),
    };
    let (file, pool) = (opened.bytes, beside.name());
    match counted(rt.alloc(), file, bundle) {
        Ok((count, head)) => {
            let is_big = opened.is_big;
            let summary = Summary {
                count,
                head,
                is_big,
                pool,
            };
            say_summary(rt, name, summary, wanted.is_json)
        }
        Err(e) if wanted.is_json => {
            let e = Refusal::of(file, &e, pool);
            print_fault(rt, name, e.kind, e).max(1)
        }
        Err(e) => refuse(rt, name, file, &e, pool),
    }
}

/// How many resources a file has, beside the pool bundle that it uses, and its head.
fn counted<'f>(
    alloc: Global,
    file: &'f [u8],
    pool: Option<PoolBundle<'f>>,
) -> Result<(usize, FileHead<'f>), FileError> {
    let source = open_file(file, pool)?;
    match source.file.count(alloc) {
        Ok(count) => Ok((count, source.head)),
        Err(e) => Err(FileError::Reading(e)),
    }
}

/// The status of a file whose pool bundle isn't read, of which standard error says why.
fn without_pool(rt: &HostRuntime, name: &str, status: u8, wanted: &CheckWords<'_>) -> u8 {
    if !wanted.is_json {
        return status;
    }
    print_fault(rt, name, "pool bundle", "its pool bundle isn't read").max(status)
}

/// The line of a file that is right.
fn say_summary(rt: &HostRuntime, name: &str, summary: Summary<'_>, is_json: bool) -> u8 {
    if !is_json {
        let name = Shown(name);
        let line = println!(rt; "{name}: {summary}");
        return status_of(rt, line.is_ok());
    }
    match object_of(rt.alloc(), name, summary) {
        Ok(line) => show(rt, line.as_str()),
        Err(_) => refuse_memory(rt, name),
    }
}

impl fmt::Display for Summary<'_> {
    fn fmt<W: fmt::Write>(&self, f: &mut fmt::Formatter<W>) -> fmt::Result {
        let fallback = if self.head.has_fallback() {
            "fallback"
        } else {
            "no fallback"
        };
        let (count, version) = (self.count, spelled(self.head.version()));
        let largest = self.head.largest_table();
        let order = if self.is_big { ", big-endian" } else { "" };
        write!(
            f,
            "{count} resources, format {version}{order}, {fallback}, largest table {largest}"
        )?;
        if self.head.is_pool() {
            f.write_str(", pool bundle")?;
        }
        match self.pool {
            Some(pool) => {
                let pool = Shown(pool);
                write!(f, ", over {pool}")
            }
            None => Ok(()),
        }
    }
}

/// The spelling of a version.
pub(crate) fn spelled(version: FormatVersion) -> &'static str {
    match version {
        FormatVersion::V1_0 => "1.0",
        FormatVersion::V1_1 => "1.1",
        FormatVersion::V1_2 => "1.2",
        FormatVersion::V1_3 => "1.3",
        FormatVersion::V2_0 => "2.0",
        FormatVersion::V3_0 => "3.0",
    }
}

/// The line of JSON of a file that is right.
fn object_of(alloc: Global, name: &str, summary: Summary<'_>) -> Result<String, AllocError> {
    let Summary { count, head, .. } = summary;
    let order = if summary.is_big {
        "big-endian"
    } else {
        "little-endian"
    };
    let (version, largest) = (spelled(head.version()), head.largest_table());
    let (fallback, is_pool) = (head.has_fallback(), head.is_pool());
    let mut line = front_of(alloc, name)?;
    write!(
        line,
        "true,\"resources\":{count},\"format\":\"{version}\",\"order\":\"{order}\""
    )?;
    write!(
        line,
        ",\"fallback\":{fallback},\"largest_table\":{largest},\"pool_bundle\":{is_pool},\"over\":"
    )?;
    match summary.pool {
        Some(pool) => line.push_str(json_string(alloc, pool)?.as_str())?,
        None => line.push_str("null")?,
    }
    line.push_str("}\n")?;
    Ok(line)
}

/// What the line of JSON of a file begins with, up to the value that says whether it is right.
fn front_of(alloc: Global, name: &str) -> Result<String, AllocError> {
    let path = json_string(alloc, name.strip_prefix(MARK).unwrap_or(name))?;
    format!(in alloc; "{{\"path\":{path},\"ok\":")
}

/// Prints the line of JSON of a file that isn't right, and gives the status of that line.
fn print_fault<C: Display + Drop>(rt: &HostRuntime, name: &str, kind: &str, cause: C) -> u8 {
    match fault_of(rt.alloc(), name, kind, cause) {
        Ok(line) => show(rt, line.as_str()),
        Err(_) => refuse_memory(rt, name),
    }
}

/// The line of JSON of a file that isn't right.
fn fault_of<C: Display + Drop>(
    alloc: Global,
    name: &str,
    kind: &str,
    cause: C,
) -> Result<String, AllocError> {
    let message = format!(in alloc; "{cause}")?;
    let message = json_string(alloc, message.as_str())?;
    let mut line = front_of(alloc, name)?;
    write!(line, "false,\"kind\":\"{kind}\",\"message\":{message}}}\n")?;
    Ok(line)
}

/// A text as JSON has it, with nothing hidden.
fn json_string(alloc: Global, text: &str) -> Result<String, AllocError> {
    let json = json_text(alloc, &Resource::String(CowStr::Borrowed(text)))?;
    shown_json(alloc, json)
}
