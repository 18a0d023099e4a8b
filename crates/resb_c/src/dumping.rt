//! A file's tree as a text of either form or as JSON, which goes to the front of the caller's
//! buffer. How the file's bundle is read is in `files`.
ghost use Rattle.std.specs.Prelude.{◌≡◌, IfOk, IfErr};
ghost use Rattle.std.specs.String.{string_bytes};
ghost use Rattle.resb_c.specs.Dumping.{print_of, DumpsInto, HasNoText, IsDump};

use crate::fault::Fault;
use crate::files::{Input, bundle_of, fill, text_of};
use crate::options::ResbOptions;
use resb_lines::{Print, PrintForm, ShownBundle};
use std::alloc::Global;

/// How a bundle is printed in this form, within the limit of the options, if they set one.
fn print_by(options: &ResbOptions<'_>, form: PrintForm) -> Print
    ensures { result ≡ print_of options.now form }
{
    match options.limit() {
        Some(limit) => Print::new(form).within(limit),
        None => Print::new(form),
    }
}

/// The text, or the JSON, of a file's tree that the options ask for.
fn text_of_file(alloc: Global, file: &[u8], options: &ResbOptions<'_>) -> Result<String, Fault>
    ensures ok { IfOk result (λ text. IsDump options.now file.now (string_bytes text)) }
    ensures err { IfErr result (HasNoText options.now file.now) }
{
    let form = options.print_form()?;
    let name = text_of(options.name)?;
    let pool = options.pool;
    let bundle = bundle_of(alloc, name, Input { file, pool }, options.limit())?;
    match print_by(options, form).text(alloc, &ShownBundle::of(&bundle)) {
        Ok(text) => Ok(text),
        Err(e) => Err(Fault::Printing(e)),
    }
}

/// Prints a file's tree to the front of the buffer, as the options say.
pub(crate) fn dump_into(
    alloc: Global,
    file: &[u8],
    options: &ResbOptions<'_>,
    out: &mut [u8],
) -> Result<usize, Fault>
    ensures { DumpsInto options.now file.now out.old out.new result }
{
    let text = text_of_file(alloc, file, options)?;
    fill(text.as_bytes(), out).map_err(Fault::TooShort)
}
