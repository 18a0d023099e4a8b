//! What stands at a path of an opened file, by each of the calls of a handle.
//! The test is in `rows`.
use crate::files::file_of;
use resb_format::BinaryDeserializerError;
use resb_opened::{Found, Handle, Kind, Opened};
use resb_read::File;
use std::alloc::Global;
use std::test::Fail;

/// A path in a file, and what stands there, behind the count of the file's resources.
pub(crate) const PATHS: &str = "\
root of INTEGER => 1 268435455;
root of TEXT_A => 1 \"a\";
a/1 of TEXTS => 4 \"x\" with x;
a/0 of TEXTS => 4 \"\";
a/2 of TEXTS => 4 none;
a of TEXTS => 4 [\"\",\"x\",];
b of TEXTS => 4 none;
d of BYTES => 2 <2>;
d/0 of BYTES => 2 none;
c of TWO => 3 \"yz\";
root of TWO => 3 table;
v/1 of NUMBERS => 3 4294967295;
v/01 of NUMBERS => 3 none;
v of NUMBERS => 3 (1,4294967295,);
i of NUMBERS => 3 268435455;
i/0 of NUMBERS => 3 none;
a of WIDE => 2 5;
a of DESCENDING => 3 \"yz\";
c of DESCENDING => 3 \"x\" with x;
a of EQUAL => 3 \"yz\";
a of CUT => Invalid resource bundle data: unexpected end of input;
";

/// The line of a row of these.
pub(crate) fn line_of_path(alloc: Global, input: &str) -> Result<String, Fail> {
    let (path, words) = input.split_once(" of ").ok_or("a row without a file")?;
    let bytes = file_of(alloc, words)?;
    let file = match counted(alloc, &bytes) {
        Ok(file) => file,
        Err(error) => return Ok(format!(in alloc; "{error}")?),
    };
    let mut names = Vec::new(alloc);
    for name in path.split('/') {
        if path != "root" {
            names.push(name)?;
        }
    }
    let said = line_of_found(alloc, file.root().get(names.as_slice()))?;
    let count = file.count();
    Ok(format!(in alloc; "{count} {said}")?)
}

/// A file that is read alone, and counted.
pub(crate) fn counted<'f>(
    alloc: Global,
    bytes: &'f [u8],
) -> Result<Opened<'f>, BinaryDeserializerError> {
    let file = File::alone(bytes)?;
    Opened::of(alloc, &file)
}

/// The line of what was found.
fn line_of_found(alloc: Global, found: Option<Found<'_>>) -> Result<String, Fail> {
    match found {
        Some(Found::Resource(handle)) => line_of_handle(alloc, handle),
        Some(Found::Number(number)) => Ok(format!(in alloc; "{number}")?),
        None => Ok(format!(in alloc; "none")?),
    }
}

/// The line of a resource.
fn line_of_handle(alloc: Global, handle: Handle<'_>) -> Result<String, Fail> {
    let mut text = String::new(alloc);
    handle.push_text(&mut text)?;
    let units = handle.utf16().map_or(0, |units| units.len() / 2);
    match handle.kind() {
        Kind::String if units == text.len() && handle.has_ascii(b'x') => {
            Ok(format!(in alloc; "\"{text}\" with x")?)
        }
        Kind::String if units == text.len() => Ok(format!(in alloc; "\"{text}\"")?),
        Kind::Array => line_of_array(alloc, handle),
        Kind::Table => Ok(format!(in alloc; "table")?),
        Kind::Binary => {
            let length = handle.bytes().ok_or("no bytes")?.len();
            Ok(format!(in alloc; "<{length}>")?)
        }
        Kind::Integer => {
            let number = u32::from(handle.integer().ok_or("no number")?);
            Ok(format!(in alloc; "{number}")?)
        }
        Kind::IntVector => line_of_vector(alloc, handle),
        _ => Err("another kind")?,
    }
}

/// The line of an array of few members.
fn line_of_array(alloc: Global, array: Handle<'_>) -> Result<String, Fail> {
    let mut line = String::from_str(alloc, "[")?;
    for number in 0usize..9 {
        if let Some(member) = array.member(number) {
            line.push_str("\"")?;
            member.push_text(&mut line)?;
            line.push_str("\",")?;
        }
    }
    line.push_str("]")?;
    Ok(line)
}

/// The line of a vector of few numbers.
fn line_of_vector(alloc: Global, vector: Handle<'_>) -> Result<String, Fail> {
    let mut line = String::from_str(alloc, "(")?;
    for at in 0usize..9 {
        if let Some(number) = vector.number(at) {
            let digits = format!(in alloc; "{number},")?;
            line.push_str(digits.as_str())?;
        }
    }
    line.push_str(")")?;
    Ok(line)
}
