//! Where a text goes that is made a block at a time: into any writer.
//! What the text is, its maker says.
ghost use Rattle.std.specs.Prelude.{◌≡◌, ◌≢◌, ◌<◌, ◌≤◌, ◌++◌, ℕ, List, [], Ok};
ghost use Rattle.std.specs.Prelude.{OnOk, OnErr, IfOk, IfErr, true, false, length};
ghost use Rattle.std.specs.Io.KnownBytes.{Appends};
ghost use Rattle.std.specs.IoError.{error_kind};
ghost use Rattle.resb_shown.specs.Sink.{AppendsPart, AppendsLess, FailsWriting, IsLengthWithin};

use std::alloc::{AllocError, Global};
use std::io;
use std::io::{ErrorKind, Write};

/// So many bytes are made before they are written, and what is made at once beyond them.
pub const BLOCK_LEN: usize = 32768;

/// A text that is made a block at a time.
pub trait Blocks {
    /// The bytes that are still to come.
    ghost ahead: { Self → List ℕ };

    /// A bound on the blocks that are still to come.
    ghost left: { Self → ℕ };

    /// Puts the next bytes behind what stands, and answers whether more may come. After an error
    /// neither the bytes nor what is still to come are known.
    fn push_block(&mut self, block: &mut Vec<u8>) -> Result<bool, AllocError>
        ensures text { OnOk result
            (block.new.items ++ ahead self.new ≡ block.old.items ++ ahead self.old) }
        ensures end { result ≡ Ok false → ahead self.new ≡ [] }
        ensures fewer { result ≡ Ok true → left self.new < left self.old };
}

/// Writes bytes. Where the writer fails, a part of them from their start was written, and not all of
/// them: the error is the writer's own, or of the kind `WriteZero` where it takes nothing. A write
/// that was interrupted is asked again, so that no error is of that kind: after 2^64 of them it is
/// `TimedOut`.
pub fn write_whole<W: Write>(writer: &mut W, bytes: &[u8]) -> io::Result<()>
    ensures ok { OnOk result (Appends (W.contents writer.old) (W.contents writer.new) bytes.now) }
    ensures part { OnErr result
        (AppendsLess (W.contents writer.old) (W.contents writer.new) bytes.now) }
    ensures kind { IfErr result (λ e. error_kind e ≢ ErrorKind.Interrupted) }
{
    let mut rest = bytes;
    for _ in 0..u64::MAX {
        if rest.is_empty() {
            return Ok(());
        }
        match writer.write(rest) {
            Ok(0) => return Err(io::Error::from(ErrorKind::WriteZero)),
            Ok(n) => rest = rest.split_at(n).1,
            Err(e) if e.kind() == ErrorKind::Interrupted => {}
            Err(e) => return Err(e),
        }
    }
    if rest.is_empty() {
        return Ok(());
    }
    Err(io::Error::from(ErrorKind::TimedOut))
}

/// Writes a text to its end. Where the writer fails or memory is wanted, a part of it from its
/// start was written. The error is of the kind `OutOfMemory`, or else some of the text wasn't
/// written and it is one of `write_whole`. The writer isn't flushed.
pub fn write_blocks<B: Blocks, W: Write>(
    alloc: Global,
    writer: &mut W,
    text: &mut B,
) -> io::Result<()>
    ensures ok { OnOk result
        (Appends (W.contents writer.old) (W.contents writer.new) (B.ahead text.old)) }
    ensures part { OnErr result
        (AppendsPart (W.contents writer.old) (W.contents writer.new) (B.ahead text.old)) }
    ensures cause { IfErr result
        (FailsWriting (W.contents writer.old) (W.contents writer.new) (B.ahead text.old)) }
{
    let mut block = Vec::with_capacity(alloc, 2 * BLOCK_LEN)?;
    while text.push_block(&mut block)? {
        write_whole(writer, block.as_slice())?;
        block.clear();
    }
    write_whole(writer, block.as_slice())
}

/// How many bytes a text has, if those are no more than a limit. It is gone through as far as that
/// shows, and not kept.
pub fn length_within<B: Blocks>(
    alloc: Global,
    text: &mut B,
    limit: u64,
) -> Result<Option<u64>, AllocError>
    ensures { IfOk result (IsLengthWithin limit (B.ahead text.old)) }
{
    let mut block = Vec::with_capacity(alloc, 2 * BLOCK_LEN)?;
    let mut left = limit;
    while text.push_block(&mut block)? {
        let Some(rest) = left.checked_sub(block.len() as u64) else {
            return Ok(None);
        };
        left = rest;
        block.clear();
    }
    match left.checked_sub(block.len() as u64) {
        Some(rest) => Ok(Some(limit - rest)),
        None => Ok(None),
    }
}
