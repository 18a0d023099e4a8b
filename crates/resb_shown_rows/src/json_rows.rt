//! The length of JSON, and writers that take two bytes a call and fail, which have a part of it.
//! The JSON of other texts is asked of the program, by `tests/rows.py`.
use resb_icu_text::IcuReader;
use resb_json::{json_length_within, write_json};
use resb_tree::Resource;
use std::alloc::{AllocError, Global};
use std::io;
use std::io::{ErrorKind, Write};

const TEXT: &str = "b{k{\"v\"}}";

const JSON: &str = "{\"k\":\"v\"}";

/// A writer of two bytes a call, which fails behind so many calls.
#[derive(Drop)]
struct FailingWriter {
    taken: Vec<u8>,
    calls: usize,
}

impl Write for FailingWriter {
    fn write(&mut self, buf: &[u8]) -> io::Result<usize> {
        let Some(left) = self.calls.checked_sub(1) else {
            return Err(io::Error::from(ErrorKind::Other));
        };
        self.calls = left;
        let count = buf.len().min(2);
        self.taken.extend_from_slice(&buf[..count])?;
        Ok(count)
    }

    fn flush(&mut self) -> io::Result<()> {
        Ok(())
    }
}

/// How often a writer takes two bytes of the JSON, what it has then, and whether it failed.
const PARTS: [(usize, &str, bool); 4] = [
    (0, "", true),
    (1, "{\"", true),
    (4, "{\"k\":\"v\"", true),
    (5, JSON, false),
];

/// Whether a writer that fails behind so many calls has this part of a tree's JSON.
fn has_part(alloc: Global, root: &Resource<'_>, calls: usize, part: &str, fails: bool) -> bool {
    let taken = Vec::new(alloc);
    let mut writer = FailingWriter { taken, calls };
    let failed = write_json(alloc, &mut writer, root).is_err();
    failed == fails && writer.taken.as_slice() == part.as_bytes()
}

/// Whether each writer has its part.
fn have_parts(alloc: Global, root: &Resource<'_>) -> bool {
    for (calls, part, fails) in PARTS {
        if !has_part(alloc, root, calls, part, fails) {
            return false;
        }
    }
    true
}

/// Whether each writer has its part of the text's JSON.
fn have_parts_of_text(alloc: Global) -> bool {
    match IcuReader::read(alloc, TEXT) {
        Ok((bundle, _)) => have_parts(alloc, bundle.root()),
        Err(_) => false,
    }
}

#[test]
fn failing_writers_have_a_part(rt: HostRuntime) {
    assert!(rt; have_parts_of_text(rt.alloc()));
}

/// A text with each type, and the JSON of its tree.
const TYPES: [&str; 2] = [
    r#"b{k{"é\u0001\u0008\""}a{"x",:int{-1}}t:table{}v:intvector{1}d:bin{"0f"}x:alias{"/p"}}"#,
    r#"{"a":["x",-1],"d":{"binary":"0f"},"k":"é\u0001\b\"","t":{},"v":[1],"x":{"alias":"/p"}}"#,
];

/// Whether the JSON of a tree has this length within a limit of that, and not within a byte less.
fn has_length(alloc: Global, root: &Resource<'_>, length: u64) -> Result<bool, AllocError> {
    let within = json_length_within(alloc, root, length)?;
    let over = json_length_within(alloc, root, length.saturating_sub(1))?;
    Ok(within == Some(length) && over.is_none())
}

/// Whether the JSON of a text's tree has this length.
fn has_length_of_text(alloc: Global, text: &str, length: u64) -> Result<bool, AllocError> {
    match IcuReader::read(alloc, text) {
        Ok((bundle, _)) => has_length(alloc, bundle.root(), length),
        Err(_) => Ok(false),
    }
}

#[test]
fn json_has_its_length(rt: HostRuntime) -> Result<(), AllocError> {
    assert!(rt; has_length_of_text(rt.alloc(), TYPES[0], TYPES[1].len() as u64)?);
    Ok(())
}
