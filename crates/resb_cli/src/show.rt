//! What is shown of a file as a whole: its text, in either form, and its JSON, from its tree or
//! from the opened file. Where that goes is said by the commands, and what is had of a file in
//! `subject`.
use crate::least::uncounted_in;
use crate::save::{Bytes, Content, cause_of_printing, print};
use crate::say::{NoText, complain, fail, refuse_memory, say_no_text};
use resb_lines::{Print, PrintForm, Printable, ShownBundle};
use resb_print::{Cause, PrintError};
use resb_shown::Shown;
use resb_tree::ResourceBundle;
use std::alloc::{AllocError, Global};
use std::fmt;
use std::io::{self, ErrorKind, Write};
use std::path::Path;

/// The status of what was written to standard output, or not, once that is said.
pub(crate) fn status_of(rt: &HostRuntime, is_written: bool) -> u8 {
    if is_written {
        return 0;
    }
    fail(rt, "resb", "standard output cannot be written")
}

/// What a form is called.
pub(crate) fn form_name(form: PrintForm) -> &'static str {
    match form {
        PrintForm::Plain => "text",
        PrintForm::Icu => "text in ICU's form",
        PrintForm::Json => "JSON",
    }
}

/// What the name of a file in a form ends with.
pub(crate) fn form_ending(form: PrintForm) -> &'static str {
    match form {
        PrintForm::Plain | PrintForm::Icu => ".txt",
        PrintForm::Json => ".json",
    }
}

/// How a bundle is printed in a form, within the limit, if there is one.
pub(crate) fn print_as(form: PrintForm, limit: Option<u64>) -> Print {
    let print = Print::new(form);
    match limit {
        Some(limit) => print.within(limit),
        None => print,
    }
}

/// A bundle that is shown in a form, whatever holds it: a tree, or an opened file. Its JSON ends
/// with a line feed.
#[derive(Drop)]
pub(crate) struct Showing<'s, S: Copy> {
    /// The bundle, as it is written.
    pub(crate) content: Printable<'s, S>,
    /// The form.
    pub(crate) form: PrintForm,
    /// Whether a byte order mark stands before it.
    pub(crate) has_mark: bool,
}

impl<'s, S: Shown<'s>> Content for Showing<'s, S> {
    fn write_to<W: Write>(&self, alloc: Global, out: &mut W) -> io::Result<()> {
        if self.has_mark {
            out.write_all("\u{FEFF}".as_bytes())?;
        }
        self.content.to(alloc, out)?;
        if self.form == PrintForm::Json {
            out.write_all(b"\n")?;
        }
        Ok(())
    }
}

/// Says that what would be shown of a bundle takes more bytes than the limit, and how many, or that
/// memory was wanted, and gives the status of that.
pub(crate) fn refuse_print<'s, S: Shown<'s>>(
    rt: &HostRuntime,
    name: &str,
    form: PrintForm,
    shown: &ShownBundle<'s, S>,
    error: PrintError,
) -> u8 {
    let PrintError::Larger(limit) = error else {
        return refuse_memory(rt, name);
    };
    let what = form_name(form);
    match length_of(rt.alloc(), form, shown, limit) {
        Ok(length) => {
            let long = TooLong {
                what,
                length,
                limit,
            };
            refuse_long(rt, name, long)
        }
        Err(_) => refuse_memory(rt, name),
    }
}

/// How many bytes what is shown of a bundle has. A tree is not counted for the bytes of its
/// binaries, so that they may be far over the limit: where they and the keys alone are over it, no
/// more is counted. Else all is made and counted, which is some ten times the limit at most.
fn length_of<'s, S: Shown<'s>>(
    alloc: Global,
    form: PrintForm,
    shown: &ShownBundle<'s, S>,
    limit: u64,
) -> Result<Length, AllocError> {
    let least = uncounted_in(alloc, shown.root)?.least();
    if least > limit {
        return Ok(Length::AtLeast(least));
    }
    match Print::new(form).length(alloc, shown)? {
        Some(length) => Ok(Length::Exactly(length)),
        None => Ok(Length::AtLeast(u64::MAX)),
    }
}

/// Writes what is shown of a file to standard output, a block at a time, and gives the status of
/// that.
pub(crate) fn print_content<C: Content>(rt: &HostRuntime, name: &str, content: &C) -> u8 {
    match print(rt, content) {
        Ok(()) => 0,
        Err(e) if e.kind() == ErrorKind::OutOfMemory => refuse_memory(rt, name),
        Err(_) => status_of(rt, false),
    }
}

/// The name of the bundle of a file: the file's without its ending, as none stands inside it.
pub(crate) fn bundle_name(file: &str) -> &str {
    if file == "-" {
        return "bundle";
    }
    Path::new(file).file_stem().unwrap_or("bundle")
}

/// The status of what was done, or of what kept it from being done.
pub(crate) fn settled(answer: Result<u8, u8>) -> u8 {
    match answer {
        Ok(status) | Err(status) => status,
    }
}

/// Says why a bundle has no text of a form, and what is done in its place; or the status, once it
/// is said that memory was wanted.
pub(crate) fn say_cause(
    rt: &HostRuntime,
    name: &str,
    bundle: &ResourceBundle<'_>,
    missing: NoText,
) -> Result<(), u8> {
    match Print::new(missing.form).cause(rt.alloc(), &ShownBundle::of(bundle)) {
        Ok(Some((path, Cause::Alias))) => {
            let hint = ", which --icu prints";
            let missing = NoText { hint, ..missing };
            say_no_text(rt, name, missing, "an alias stands", path.as_slice())
        }
        Ok(Some((path, cause))) => {
            let cause = PrintError::NotPrintable(cause);
            say_no_text(rt, name, missing, cause, path.as_slice())
        }
        Ok(None) => Ok(()),
        Err(_) => Err(refuse_memory(rt, name)),
    }
}

/// Prints a resource as JSON, with a line feed: nothing of it where it has more bytes than the
/// limit, if there is one.
pub(crate) fn show_json<'s, S: Shown<'s>>(
    rt: &HostRuntime,
    name: &'s str,
    root: S,
    limit: Option<u64>,
) -> u8 {
    let form = PrintForm::Json;
    let shown = ShownBundle {
        name,
        root,
        is_locale_fallback_enabled: false,
    };
    match print_as(form, limit).printable(rt.alloc(), &shown) {
        Ok(content) => {
            let showing = Showing {
                content,
                form,
                has_mark: false,
            };
            print_content(rt, name, &showing)
        }
        Err(e) => refuse_print(rt, name, form, &shown, e),
    }
}

/// How many bytes something has.
#[derive(Clone, Copy)]
pub(crate) enum Length {
    /// So many.
    Exactly(u64),
    /// No fewer: it wasn't looked at to its end.
    AtLeast(u64),
}

/// What takes more bytes than the limit.
#[derive(Clone, Copy)]
pub(crate) struct TooLong {
    /// What it is.
    pub(crate) what: &'static str,
    /// How many bytes it has.
    pub(crate) length: Length,
    /// The limit.
    pub(crate) limit: u64,
}

impl fmt::Display for TooLong {
    fn fmt<W: fmt::Write>(&self, f: &mut fmt::Formatter<W>) -> fmt::Result {
        let (what, limit) = (self.what, self.limit);
        let (least, length) = match self.length {
            Length::Exactly(length) => ("", length),
            Length::AtLeast(length) => ("at least ", length),
        };
        write!(
            f,
            "its {what} takes {least}{length} bytes, more than the limit of {limit}"
        )
    }
}

/// Says that what was to be printed takes more bytes than the limit, and gives the status of that.
pub(crate) fn refuse_long(rt: &HostRuntime, name: &str, long: TooLong) -> u8 {
    complain(rt, name, long);
    1
}

/// Prints a text.
pub(crate) fn show(rt: &HostRuntime, text: &str) -> u8 {
    match print(rt, &Bytes(text.as_bytes())) {
        Ok(()) => 0,
        Err(e) => fail(rt, "resb", cause_of_printing(&e)),
    }
}
