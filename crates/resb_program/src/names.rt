//! The name of the bundle that a text is, which stands in no file.
//! The file of a text is made in `sources`.
ghost use Rattle.std.specs.Prelude.{IfOk, IfErr, string_bytes};
ghost use Rattle.resb_compile.specs.Compiling.{IsUnreadable};
ghost use Rattle.resb_program.specs.Names.{IsNameOf, HasNoName};
ghost use Rattle.resb_program.specs.Sources.{IsNoSource};

use crate::errors::SourceError;
use resb_compile::CompileError;
use resb_text::{Reader, TextParserError};
use std::alloc::Global;

/// The name of the bundle of a text, which is read as a whole. It is refused only for what the
/// reader refuses: a text whose tree no file holds has a name.
pub fn bundle_name(alloc: Global, source: &str) -> Result<String, SourceError>
    ensures ok { IfOk result (λ name. IsNameOf source.now (string_bytes name)) }
    ensures err { IfErr result (IsNoSource source.now) }
    ensures unread { IfErr result (HasNoName source.now) }
{
    match name_of(alloc, source) {
        Ok(name) => Ok(name),
        Err(e) => Err(SourceError::Refused(CompileError::Reading(e))),
    }
}

/// The name of a text's bundle.
fn name_of(alloc: Global, text: &str) -> Result<String, TextParserError>
    ensures ok { IfOk result (λ name. IsNameOf text.now (string_bytes name)) }
    ensures err { IfErr result (IsUnreadable text.now) }
{
    let (bundle, _keys) = Reader::read_draft(alloc, text)?;
    let name = String::from_str(alloc, bundle.name)?;
    Ok(name)
}
