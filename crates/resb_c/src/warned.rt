//! The lines that tell the warnings of a text of either form, which go to the front of the caller's
//! buffer. Which warnings are due, and what they print as, is decided by `resb_diagnostics`.
ghost use Rattle.std.specs.Prelude.{◌≡◌, IfOk, IfErr};
ghost use Rattle.std.specs.String.{string_bytes};
ghost use Rattle.resb_c.specs.Warned.{AreWarnings, TellsNone, TellsWarnings, WarnsInto};

use crate::fault::Fault;
use crate::files::{fill, text_of};
use crate::options::ResbOptions;
use resb_compile::TextForm;
use resb_diagnostics::{Warning, icu_warnings, told_warnings, warnings};
use resb_print::PrintError;
use std::alloc::{AllocError, Global};

/// The warnings of a text of a form, by their places.
fn warnings_of(alloc: Global, form: TextForm, text: &str) -> Result<Vec<Warning>, AllocError>
    ensures { IfOk result (λ found. AreWarnings form text.now found.items) }
{
    match form {
        TextForm::Plain => warnings(alloc, text),
        TextForm::Icu => icu_warnings(alloc, text),
    }
}

/// The lines that tell the warnings of a text of the form that the options ask for.
fn lines_of(alloc: Global, options: &ResbOptions<'_>, text: &[u8]) -> Result<String, Fault>
    ensures ok { IfOk result (λ lines. TellsWarnings options.now text.now (string_bytes lines)) }
    ensures err { IfErr result (TellsNone options.now text.now) }
{
    let form = options.text_form()?;
    let text = text_of(text)?;
    let Ok(found) = warnings_of(alloc, form, text) else {
        return Err(Fault::Printing(PrintError::OutOfMemory));
    };
    match told_warnings(alloc, text, found.as_slice(), options.limit()) {
        Ok(Some(lines)) => Ok(lines),
        Ok(None) => Err(Fault::Printing(PrintError::Larger(options.limit))),
        Err(_) => Err(Fault::Printing(PrintError::OutOfMemory)),
    }
}

/// Tells the warnings of a text at the front of the buffer, as the options say.
pub(crate) fn warn_into(
    alloc: Global,
    options: &ResbOptions<'_>,
    text: &[u8],
    out: &mut [u8],
) -> Result<usize, Fault>
    ensures { WarnsInto options.now text.now out.old out.new result }
{
    let lines = lines_of(alloc, options, text)?;
    fill(lines.as_bytes(), out).map_err(Fault::TooShort)
}
