//! The calls that write JSON, and that look how long it is.
//! What is written, and in which order, is said in `text`.
ghost use Rattle.std.specs.Prelude.{◌≡◌, ◌<◌, ◌≤◌, OnOk, OnErr, IfOk, IfErr, MatchOption, length};
ghost use Rattle.std.specs.String.{string_bytes};
ghost use Rattle.std.specs.Io.KnownBytes.{Appends};
ghost use Rattle.serde_json.specs.Written.{compact_text};
ghost use Rattle.resb_shown.specs.Sink.{AppendsPart, FailsWriting, IsLengthWithin};
ghost use Rattle.resb_json.specs.Json.{json_of};

use crate::text::JsonText;
use resb_shown::{Blocks, Shown, length_within, write_blocks};
use std::alloc::{AllocError, Global};
use std::io;
use std::io::Write;

/// Writes the JSON of what is shown, without blanks and in blocks, however deep it nests. Where
/// the writer fails or memory is wanted, a part of it from its start was written. The error is of
/// the kind `OutOfMemory`, or else some of the text wasn't written and it is one of
/// `resb_shown::write_whole`. The writer isn't flushed.
pub fn write_json<'s, S: Shown<'s>, W: Write>(
    alloc: Global,
    writer: &mut W,
    shown: S,
) -> io::Result<()>
    ensures ok { let text = compact_text (json_of (S.tree shown)) in
        OnOk result (Appends (W.contents writer.old) (W.contents writer.new) text) }
    ensures part { let text = compact_text (json_of (S.tree shown)) in
        OnErr result (AppendsPart (W.contents writer.old) (W.contents writer.new) text) }
    ensures cause { let text = compact_text (json_of (S.tree shown)) in
        IfErr result (FailsWriting (W.contents writer.old) (W.contents writer.new) text) }
{
    let mut text = JsonText::new(alloc, shown)?;
    write_blocks(alloc, writer, &mut text)
}

/// How many bytes the JSON of what is shown has, if those are no more than a limit. It is made as
/// far as that shows, a block at a time, and not kept.
pub fn json_length_within<'s, S: Shown<'s>>(
    alloc: Global,
    shown: S,
    limit: u64,
) -> Result<Option<u64>, AllocError>
    ensures { IfOk result (IsLengthWithin limit (compact_text (json_of (S.tree shown)))) }
{
    let mut text = JsonText::new(alloc, shown)?;
    length_within(alloc, &mut text, limit)
}

/// The JSON of what is shown, without blanks.
pub fn json_text<'s, S: Shown<'s>>(alloc: Global, shown: S) -> Result<String, AllocError>
    ensures { IfOk result (λ s. string_bytes s ≡ compact_text (json_of (S.tree shown))) }
{
    let mut text = Vec::new(alloc);
    // no clause says of what kind an error of a vector's is, nor that JSON is UTF-8
    if write_json(alloc, &mut text, shown).is_err() {
        return Err(AllocError);
    }
    String::from_utf8(text).ok().ok_or(AllocError)
}

/// The JSON of what is shown, without blanks, or none where it has more bytes than a limit. It is
/// made as far as that shows.
pub fn json_text_within<'s, S: Shown<'s>>(
    alloc: Global,
    shown: S,
    limit: u64,
) -> Result<Option<String>, AllocError>
    ensures { let text = compact_text (json_of (S.tree shown)) in
        IfOk result (λ found. MatchOption found (limit < length text)
        (λ s. (string_bytes s ≡ text) × (length (string_bytes s) ≤ limit))) }
{
    let mut text = JsonText::new(alloc, shown)?;
    let mut bytes = Vec::new(alloc);
    while text.push_block(&mut bytes)? {
        if bytes.len() as u64 > limit {
            return Ok(None);
        }
    }
    let length = bytes.len() as u64;
    if length > limit {
        return Ok(None);
    }
    // no clause says that JSON is UTF-8
    let text = String::from_utf8(bytes).ok().ok_or(AllocError)?;
    Ok(Some(text))
}
