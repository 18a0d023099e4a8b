//! The text that bytes are, its file, and where a person is to look if there is none.
//! What else a person is told of a text is in `resb_diagnostics`.
ghost use Rattle.std.specs.Prelude.{◌≡◌, IsUtf8, IfOk, IfErr};
ghost use Rattle.resb_compile.specs.Compiling.{IsCompiled, IsRefused};
ghost use Rattle.resb_program.specs.Program.{IsNoInput};
ghost use Rattle.resb_program.specs.Sources as sources;
ghost use Rattle.resb_program.specs.Sources.{IsNotUtf8, blame_of};

use crate::errors::{SourceError, ToolError};
use resb_compile::{Compile, CompileError, TextForm};
use resb_diagnostics::{innermost_icu_open, innermost_open};
use resb_grammar::Expected;
use resb_icu_grammar::IcuExpected;
use resb_icu_text::IcuTextError;
use resb_text::TextParserError;
use std::alloc::Global;

/// The text of these bytes, or the first place that is no part of a character.
pub fn text_of(bytes: &[u8]) -> Result<&str, usize>
    ensures ok { IfOk result (λ text. (text.now ≡ bytes.entry.now) × IsUtf8 bytes.entry.now) }
    ensures err { IfErr result (IsNotUtf8 bytes.entry.now) }
{
    match simdutf8::compat::from_utf8(bytes) {
        Ok(text) => Ok(text),
        Err(e) => Err(e.valid_up_to()),
    }
}

/// The bytes of the `.res` file of a bundle's text, which is given as bytes.
pub fn compile_text(alloc: Global, input: &[u8]) -> Result<Vec<u8>, ToolError>
    ensures ok { IfOk result (λ file. IsUtf8 input.now × IsCompiled input.now file.items) }
    ensures err { IfErr result (IsNoInput input.now) }
{
    let text = text_of(input).ok().ok_or(ToolError::NotUtf8)?;
    compiled(alloc, text).map_err(ToolError::Compiling)
}

/// The bytes of the `.res` file of a bundle's text.
fn compiled(alloc: Global, text: &str) -> Result<Vec<u8>, CompileError>
    ensures ok { IfOk result (λ file. IsCompiled text.now file.items) }
    ensures err { IfErr result (IsRefused text.now) }
{
    Compile::new(TextForm::Plain).text(alloc, text)
}

/// Where a person is to look for the cause of a refusal, in bytes from the text's start.
#[derive(Clone, Copy, Debug, PartialEq, Eq)]
pub enum Blame {
    /// At this place.
    At(usize),
    /// At this `{`, which is open where the text ends.
    Open(usize),
    /// At no place of the text.
    Nowhere,
}

/// At the brace that is open, if one is, or else at the place.
fn brace_or_end(place: usize, brace: Option<usize>) -> Blame
    ensures { result ≡ sources.brace_or_end place brace }
{
    match brace {
        Some(brace) => Blame::Open(brace),
        None => Blame::At(place),
    }
}

/// Where to look after a reading.
fn stuck_at(source: &[u8], e: &TextParserError) -> Blame
    ensures { result ≡ sources.stuck_at source.now e.now }
{
    if e.expected() == Expected::Memory {
        Blame::Nowhere
    } else if e.position() < source.len() {
        Blame::At(e.position())
    } else {
        brace_or_end(e.position(), innermost_open(source))
    }
}

/// Where to look after a reading of ICU's form.
fn icu_stuck_at(source: &[u8], e: &IcuTextError) -> Blame
    ensures { result ≡ sources.icu_stuck_at source.now e.now }
{
    if e.expected() == IcuExpected::Memory {
        Blame::Nowhere
    } else if e.position() < source.len() {
        Blame::At(e.position())
    } else {
        brace_or_end(e.position(), innermost_icu_open(source))
    }
}

/// Where to look in a text that was refused: where it is no UTF-8, where the reading got stuck, or,
/// if that is the text's end, at the innermost `{` that is open there.
pub fn where_to_look(source: &[u8], error: &SourceError) -> Blame
    ensures { result ≡ blame_of source.now error.now }
{
    match error {
        SourceError::NotUtf8(place) => Blame::At(*place),
        SourceError::Refused(CompileError::Reading(e)) => stuck_at(source, e),
        SourceError::Refused(CompileError::ReadingIcu(e)) => icu_stuck_at(source, e),
        SourceError::Refused(CompileError::Writing(_)) => Blame::Nowhere,
        SourceError::Refused(CompileError::Larger(_)) => Blame::Nowhere,
    }
}
