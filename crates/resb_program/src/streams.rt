//! The streams: all that a reader has left, and a file in hex digits to a writer.
//! What a text's file is, is in `sources`, and why a program fails in `errors`.
ghost use Rattle.std.specs.Prelude.{◌≡◌, ◌≢◌, ◌⊎◌, ℕ, List, [], ◌∷◌, ◌++◌, ◌+◌, length, ◌<◌, ◌≤◌};
ghost use Rattle.std.specs.Prelude.{Ok, true, IfOk, OnOk, IfErr, IfSome, IsUtf8, IsOkUnless};
ghost use Rattle.std.specs.Prelude.{option_map};
ghost use Rattle.std.specs.Io.KnownBytes.{Appends, Consumes, IsAtEnd, Keeps};
ghost use Rattle.hex.specs.Hex.{encode_lower};
ghost use Rattle.resb_program.specs.Program.{Writes, HasReason, within};

use crate::errors::ToolError;
use crate::sources::compile_text;
use std::alloc::Global;
use std::io::{ErrorKind, Read, Write};

/// One read of at most as many bytes as the buffer has. It answers whether the reader is at its
/// end. A read that was interrupted adds nothing.
fn read_some<R: Read>(
    reader: &mut R,
    buffer: &mut [u8],
    bytes: &mut Vec<u8>,
) -> Result<bool, ToolError>
    requires { 0 < length buffer.old }
    ensures taken { OnOk result ((new : List ℕ)
        × Consumes (R.remaining reader.old) (R.remaining reader.new) new
        × (bytes.new.items ≡ bytes.old.items ++ new) × (length new ≤ length buffer.old)) }
    ensures end { result ≡ Ok true → IsAtEnd (R.remaining reader.new) }
    ensures err { IfErr result (λ e. (e ≡ ToolError.Input) ⊎ (e ≡ ToolError.Memory)) }
{
    match reader.read(buffer) {
        Ok(0) => Ok(true),
        Ok(n) => match bytes.extend_from_slice(&buffer[..n]) {
            Ok(()) => Ok(false),
            Err(_) => Err(ToolError::Memory),
        },
        Err(e) if e.kind() == ErrorKind::Interrupted => Ok(false),
        Err(_) => Err(ToolError::Input),
    }
}

/// All that the reader has left.
pub fn read_all<R: Read>(alloc: Global, reader: &mut R) -> Result<Vec<u8>, ToolError>
    ensures ok { IfOk result (λ bytes.
        IfSome (R.remaining reader.old) (λ input. bytes.items ≡ input)) }
    ensures err { IfErr result (λ e. (e ≡ ToolError.Input) ⊎ (e ≡ ToolError.Memory)) }
{
    let mut buffer = [0u8; 65536];
    let mut bytes = Vec::new(alloc);
    for _ in 0..u64::MAX {
        if read_some(reader, &mut buffer, &mut bytes)? {
            return Ok(bytes);
        }
    }
    Err(ToolError::Input)
}

/// All that the reader has left, if that is at most so many bytes, and else nothing. At most
/// what fills a buffer is read beyond those.
pub fn read_within<R: Read>(
    alloc: Global,
    reader: &mut R,
    most: u64,
) -> Result<Option<Vec<u8>>, ToolError>
    ensures ok { IfOk result (λ r. IfSome (R.remaining reader.old)
        (λ input. option_map (λ v. v.items) r ≡ within most input)) }
    ensures taken { OnOk result ((taken : List ℕ)
        × Consumes (R.remaining reader.old) (R.remaining reader.new) taken
        × (length taken ≤ most + 65536)) }
    ensures err { IfErr result (λ e. (e ≡ ToolError.Input) ⊎ (e ≡ ToolError.Memory)) }
{
    let mut buffer = [0u8; 65536];
    let mut bytes = Vec::new(alloc);
    for _ in 0..u64::MAX {
        let is_end = read_some(reader, &mut buffer, &mut bytes)?;
        if bytes.len() as u64 > most {
            return Ok(None);
        }
        if is_end {
            return Ok(Some(bytes));
        }
    }
    Err(ToolError::Input)
}

/// Writes these bytes, of which there are at most as many as a block has, in lower-case hex digits.
fn write_block<W: Write>(writer: &mut W, bytes: &[u8]) -> Result<(), ToolError>
    requires { length bytes.now ≤ 16384 }
    ensures ok { OnOk result
        (Appends (W.contents writer.old) (W.contents writer.new) (encode_lower bytes.now)) }
    ensures err { IsOkUnless result ToolError.Output }
{
    let mut block = [0u8; 32768];
    let digits = &mut block[..2 * bytes.len()];
    if hex::encode_to_slice(bytes, digits).is_err() {
        return Err(ToolError::Output);
    }
    match writer.write_all(digits) {
        Ok(()) => Ok(()),
        Err(_) => Err(ToolError::Output),
    }
}

/// Writes a file in lower-case hex digits, block after block, and a line feed.
fn write_line<W: Write>(writer: &mut W, file: &[u8]) -> Result<(), ToolError>
    ensures ok { let line = encode_lower file.now ++ 10 ∷ [] in
        OnOk result (Appends (W.contents writer.old) (W.contents writer.new) line) }
    ensures err { IsOkUnless result ToolError.Output }
{
    let mut rest = file;
    'pieces: while !rest.is_empty() {
        let (block, others) = rest.split_at(rest.len().min(16384));
        write_block(writer, block)?;
        rest = others;
    }
    match writer.write_all(b"\n") {
        Ok(()) => Ok(()),
        Err(_) => Err(ToolError::Output),
    }
}

/// Reads a bundle's text to its end, and writes its file in lower-case hex digits and one line
/// feed.
///
/// A read that was interrupted is asked again. The writer is not touched before the file is there,
/// so that a write fault is told only then: an unknown part was written, else nothing. Where memory
/// is wanted, no clause says for what: `Memory` may stand for the reader's or the writer's too, and
/// it prints as theirs do.
pub fn run<R: Read, W: Write>(
    alloc: Global,
    reader: &mut R,
    writer: &mut W,
) -> Result<(), ToolError>
    ensures ok { OnOk result (IfSome (R.remaining reader.old)
        (λ input. IsUtf8 input × Writes input (W.contents writer.old) (W.contents writer.new))) }
    ensures err { IfErr result (λ e. IfSome (R.remaining reader.old) (λ input. HasReason input e)) }
    ensures kept { IfErr result (λ e.
        e ≢ ToolError.Output → Keeps (W.contents writer.old) (W.contents writer.new)) }
{
    let input = read_all(alloc, reader)?;
    let file = compile_text(alloc, input.as_slice())?;
    write_line(writer, file.as_slice())
}
