//! What the program does over readers and writers that move one byte a call, are interrupted, fail,
//! or take nothing, and how it ends.
//! The process's own streams and files are tried by `tests/streams.sh`.
use resb_program::{ToolError, compile_text, run};
use std::alloc::{AllocError, Global};
use std::io;
use std::io::{ErrorKind, Read, Write};
use std::test::Fail;

const TEXT: &[u8] = b"b{a{\"x\"}c{\"yz\"}}";

// from the format's rules, word by word
const LINE: &str = "\
    2000da27140000000000020052657342020000000104000000000000000000000600005007000000\
    090000000f0000000f00000002000000000000000f0000006100630000007800000079007a000000\
    02002000220001000300aaaa\n";

/// Texts, and what goes wrong at the calls of the reader and of the writer, a letter for each call.
/// The answer is the file's line or the status and the reason, and how often the writer is asked.
pub(crate) const RUNS: &str = r#"b{a{"x"}c{"yz"}} | | => the line, 185 writes;
b{a{"x"}c{"yz"}} | i | => the line, 185 writes;
b{a{"x"}c{"yz"}} | .i | => the line, 185 writes;
b{a{"x"}c{"yz"}} | ..i | => the line, 185 writes;
b{a{"x"}c{"yz"}} | x | => 2 cannot read standard input, 0 writes;
b{a{"x"}c{"yz"}} | m | => 2 cannot read standard input, 0 writes;
b{a{"x"}c{"yz"}} | .x | => 2 cannot read standard input, 0 writes;
b{a{"x"}c{"yz"}} | .m | => 2 cannot read standard input, 0 writes;
b{ | | => 1 Parse error while reading text bundle:
at byte 2: expected '}', 0 writes;
b{a{"x"}c{"yz"}} | | x => 2 cannot write standard output, 1 writes;
b{a{"x"}c{"yz"}} | | .x => 2 cannot write standard output, 2 writes;
b{a{"x"}c{"yz"}} | | 0 => 2 cannot write standard output, 1 writes;
b{a{"x"}c{"yz"}} | | .0 => 2 cannot write standard output, 2 writes;
"#;

/// Faults by their names, and how the program ends.
pub(crate) const FAULTS: &str = "\
Input => 2 cannot read standard input;
Output => 2 cannot write standard output;
NotUtf8 => 1 input is not UTF-8;
Memory => 1 out of memory;
";

/// Bytes that are compiled, and what is answered.
const BYTES: [(&[u8], &str); 2] = [(TEXT, "92 bytes"), (b"\xff", "1 input is not UTF-8")];

/// The calls of a stream, and what goes wrong at them: `i`, it is interrupted; `x`, it fails; `m`,
/// it fails for want of memory; `0`, it takes nothing. Behind the letters nothing does.
#[derive(Drop)]
struct Calls<'a> {
    letters: &'a [u8],
    count: usize,
}

impl<'a> Calls<'a> {
    /// None so far.
    fn of(letters: &'a str) -> Calls<'a> {
        Calls {
            letters: letters.trim().as_bytes(),
            count: 0,
        }
    }

    /// Counts a call, and gives its letter.
    fn next(&mut self) -> u8 {
        let letter = self.letters.get(self.count).copied().unwrap_or(b'.');
        self.count = self.count.wrapping_add(1);
        letter
    }
}

/// The fault of a letter.
fn fault_of(letter: u8) -> Option<ErrorKind> {
    match letter {
        b'i' => Some(ErrorKind::Interrupted),
        b'm' => Some(ErrorKind::OutOfMemory),
        b'x' => Some(ErrorKind::Other),
        _ => None,
    }
}

/// A reader of one byte a call.
#[derive(Drop)]
struct SlowReader<'a> {
    rest: &'a [u8],
    calls: Calls<'a>,
}

impl Read for SlowReader<'_> {
    fn read(&mut self, buf: &mut [u8]) -> io::Result<usize> {
        if let Some(kind) = fault_of(self.calls.next()) {
            return Err(io::Error::from(kind));
        }
        let Some((first, others)) = self.rest.split_first() else {
            return Ok(0);
        };
        if buf.is_empty() {
            return Ok(0);
        }
        buf[0] = *first;
        self.rest = others;
        Ok(1)
    }
}

/// A writer of one byte a call.
#[derive(Drop)]
struct SlowWriter<'a> {
    taken: Vec<u8>,
    calls: Calls<'a>,
}

impl Write for SlowWriter<'_> {
    fn write(&mut self, buf: &[u8]) -> io::Result<usize> {
        let letter = self.calls.next();
        if let Some(kind) = fault_of(letter) {
            return Err(io::Error::from(kind));
        }
        if letter == b'0' {
            return Ok(0);
        }
        let Some(first) = buf.first() else {
            return Ok(0);
        };
        self.taken.push(*first)?;
        Ok(1)
    }

    fn flush(&mut self) -> io::Result<()> {
        Ok(())
    }
}

/// How the program ends where it fails: the status, and what it says.
fn told(alloc: Global, error: ToolError) -> Result<String, AllocError> {
    let status = error.status();
    format!(in alloc; "{status} {error}")
}

/// What was written, in a word where it is the file's line.
fn written(alloc: Global, taken: &[u8]) -> Result<String, Fail> {
    let text = str::from_utf8(taken)?;
    let told = if text == LINE { "the line" } else { text };
    Ok(format!(in alloc; "{told}")?)
}

/// The line of a run over these streams.
fn line_of_streams(
    alloc: Global,
    mut from: SlowReader<'_>,
    mut to: SlowWriter<'_>,
) -> Result<String, Fail> {
    let answer = match run(alloc, &mut from, &mut to) {
        Ok(()) => written(alloc, to.taken.as_slice())?,
        Err(error) => told(alloc, error)?,
    };
    let calls = to.calls.count;
    Ok(format!(in alloc; "{answer}, {calls} writes")?)
}

/// The line of a run over slow streams.
pub(crate) fn line_of_run(alloc: Global, input: &str) -> Result<String, Fail> {
    let (text, faults) = input.split_once(" |").ok_or("a row without faults")?;
    let (reads, writes) = faults.split_once('|').ok_or("a row without a writer")?;
    let from = SlowReader {
        rest: text.as_bytes(),
        calls: Calls::of(reads),
    };
    let to = SlowWriter {
        taken: Vec::new(alloc),
        calls: Calls::of(writes),
    };
    line_of_streams(alloc, from, to)
}

/// The line of the fault of this name.
pub(crate) fn line_of_fault(alloc: Global, name: &str) -> Result<String, Fail> {
    let fault = match name {
        "Input" => ToolError::Input,
        "Output" => ToolError::Output,
        "NotUtf8" => ToolError::NotUtf8,
        "Memory" => ToolError::Memory,
        _ => return Err("no fault")?,
    };
    Ok(told(alloc, fault)?)
}

/// The line of bytes that are compiled.
fn line_of_bytes(alloc: Global, bytes: &[u8]) -> Result<String, Fail> {
    match compile_text(alloc, bytes) {
        Ok(file) => {
            let length = file.len();
            Ok(format!(in alloc; "{length} bytes")?)
        }
        Err(error) => Ok(told(alloc, error)?),
    }
}

#[test]
fn writes_the_file_in_hex(rt: HostRuntime) -> Result<(), Fail> {
    let mut out = Vec::new(rt.alloc());
    run(rt.alloc(), &mut &TEXT[..], &mut out)?;
    assert_eq!(rt; out.as_slice(), LINE.as_bytes());
    Ok(())
}

#[test]
fn compiles_bytes(rt: HostRuntime) -> Result<(), Fail> {
    for (bytes, wanted) in BYTES {
        let found = line_of_bytes(rt.alloc(), bytes)?;
        assert_eq!(rt; found.as_str(), wanted);
    }
    Ok(())
}
