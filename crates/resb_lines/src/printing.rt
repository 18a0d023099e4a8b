//! The printer's one door: a bundle, whatever holds it, is printed in any of three forms, as a text
//! or into a writer, within a limit or without one.
//! What the lines of a text are is said in `text`, and how a cause is found in `causes`.
ghost use Rattle.std.specs.Prelude.{◌≡◌, ◌≤◌, None, Some, length};
ghost use Rattle.std.specs.Prelude.{IfOk, IfErr, OnOk, OnErr, IfSome};
ghost use Rattle.std.specs.String.{string_bytes};
ghost use Rattle.std.specs.Io.KnownBytes.{Appends};
ghost use Rattle.resb_shown.specs.Sink.{AppendsPart, FailsWriting, IsLengthWithin};
ghost use Rattle.resb_lines.specs.Causes.{found_as};
ghost use Rattle.resb_lines.specs.Lines.{IsTextWithin};
ghost use Rattle.resb_lines.specs.Printing as printing;
ghost use Rattle.resb_lines.specs.Printing.{printed_as, cause_in, most_of};
ghost use Rattle.resb_lines.specs.Printing.{IsTextOf, IsNotPrinted, IsHeldFor};

use crate::causes::find_cause;
use crate::form::{Icu, Plain};
use crate::write::{ShownBundle, lines_length_within, lines_within, write_lines};
use resb_json::{json_length_within, json_text_within, write_json};
use resb_print::{Cause, PathStep, PrintError};
use resb_shown::Shown;
use std::alloc::{AllocError, Global};
use std::io;
use std::io::Write;

/// A form in which a bundle is printed.
#[derive(Clone, Copy, Debug, PartialEq, Eq)]
pub enum PrintForm {
    /// The small text form that the Rust crate `resb` reads.
    Plain,
    /// ICU's own text form, which `genrb` reads.
    Icu,
    /// JSON of the root, without blanks, the name and the fallback flag.
    Json,
}

/// How a bundle is printed: in a form, and within so many bytes, if a limit is set.
#[derive(Clone, Copy)]
pub struct Print {
    pub(crate) form: PrintForm,
    pub(crate) limit: Option<u64>,
}

impl Print {
    /// Prints in this form, however long what is printed gets.
    pub fn new(form: PrintForm) -> Print
        ensures { result ≡ printing.unlimited form }
    {
        Print { form, limit: None }
    }

    /// Prints nothing that has more bytes than this.
    pub fn within(self, bytes: u64) -> Print
        ensures { result ≡ printing.limited self bytes }
    {
        Print {
            form: self.form,
            limit: Some(bytes),
        }
    }

    /// What keeps a bundle from being printed in the form, with the path to it: the first such
    /// cause in the order of the text, if there is one. The path has no steps where the root is no
    /// table or the name is the cause. Nothing keeps a bundle from having JSON.
    pub fn cause<'s, S: Shown<'s>>(
        self,
        alloc: Global,
        bundle: &ShownBundle<'s, S>,
    ) -> Result<Option<(Vec<PathStep<'s>>, Cause)>, AllocError>
        ensures found { IfOk result (λ found. found_as found
            ≡ cause_in self.form bundle.now.name.now (S.tree bundle.now.root)) }
        ensures held { IfOk result
            (λ found. found ≡ None → IsHeldFor self.form (S.tree bundle.now.root)) }
    {
        match self.form {
            PrintForm::Plain => find_cause(alloc, Plain, bundle.again()),
            PrintForm::Icu => find_cause(alloc, Icu, bundle.again()),
            PrintForm::Json => Ok(None),
        }
    }

    /// How many bytes a bundle is printed as, or none where they are more than the limit. They are
    /// made as far as that shows, a block at a time, and not kept. A bundle whose root is no table
    /// has no lines.
    pub fn length<'s, S: Shown<'s>>(
        self,
        alloc: Global,
        bundle: &ShownBundle<'s, S>,
    ) -> Result<Option<u64>, AllocError>
        ensures { IfOk result (IsLengthWithin (most_of self)
            (printed_as self.form bundle.now.name.now bundle.now.is_locale_fallback_enabled
            (S.tree bundle.now.root))) }
    {
        let limit = self.limit.unwrap_or(u64::MAX);
        match self.form {
            PrintForm::Plain => lines_length_within(alloc, Plain, bundle.again(), limit),
            PrintForm::Icu => lines_length_within(alloc, Icu, bundle.again(), limit),
            PrintForm::Json => json_length_within(alloc, bundle.root, limit),
        }
    }

    /// The text of a bundle in the form. It has one entry or item a line, indented by four blanks a
    /// level up to 32 levels; JSON has no lines.
    ///
    /// A bundle is refused by the first cause that keeps it from having a text: its root is no
    /// table; in the plain form the name, a key or a string holds a `"`, or there is an alias; in
    /// ICU's form the name is no word, or a key has a character that may not stand in one. Else it
    /// is refused if the text has more bytes than the limit. Before an entry or item is made, the
    /// bytes of its key and of its string or path, and two for each byte of its binary, have to be
    /// within the limit, so that no more than a line is made beyond it. Want of memory may come
    /// before any of these.
    ///
    /// For how long a text may be without a limit see `resb::laws::printed_is_linear`.
    pub fn text<'s, S: Shown<'s>>(
        self,
        alloc: Global,
        bundle: &ShownBundle<'s, S>,
    ) -> Result<String, PrintError>
        ensures exact { IfOk result (λ text. string_bytes text
            ≡ printed_as self.form bundle.now.name.now bundle.now.is_locale_fallback_enabled
            (S.tree bundle.now.root)) }
        ensures text { IfOk result (λ text. IsTextOf self.form (string_bytes text)
            bundle.now.name.now bundle.now.is_locale_fallback_enabled
            (S.tree bundle.now.root)) }
        ensures within { IfOk result
            (λ text. IfSome self.limit (λ most. length (string_bytes text) ≤ most)) }
        ensures err { IfErr result (IsNotPrinted self bundle.now.name.now
            bundle.now.is_locale_fallback_enabled (S.tree bundle.now.root)) }
    {
        if let Some((_, cause)) = self.cause(alloc, bundle)? {
            return Err(PrintError::NotPrintable(cause));
        }
        match (self.made(alloc, bundle)?, self.limit) {
            (Some(text), _) => Ok(text),
            (None, Some(limit)) => Err(PrintError::Larger(limit)),
            // no memory holds a text of more bytes
            (None, None) => Err(PrintError::OutOfMemory),
        }
    }

    /// The bytes that a bundle is printed as, where they are no more than the limit.
    fn made<'s, S: Shown<'s>>(
        self,
        alloc: Global,
        bundle: &ShownBundle<'s, S>,
    ) -> Result<Option<String>, AllocError>
        ensures { IfOk result (IsTextWithin (most_of self)
            (printed_as self.form bundle.now.name.now bundle.now.is_locale_fallback_enabled
            (S.tree bundle.now.root))) }
    {
        let limit = self.limit.unwrap_or(u64::MAX);
        match self.form {
            PrintForm::Plain => lines_within(alloc, Plain, bundle.again(), limit),
            PrintForm::Icu => lines_within(alloc, Icu, bundle.again(), limit),
            PrintForm::Json => json_text_within(alloc, bundle.root, limit),
        }
    }

    /// A bundle that can be written in the form. It is refused as `text` refuses it, before any of
    /// it is made; where no limit is set, its length isn't looked at.
    pub fn printable<'s, S: Shown<'s>>(
        self,
        alloc: Global,
        bundle: &ShownBundle<'s, S>,
    ) -> Result<Printable<'s, S>, PrintError>
        ensures is { IfOk result
            (λ it. (it.form ≡ self.form) × (it.bundle ≡ bundle.now)) }
        ensures no_cause { OnOk result
            (cause_in self.form bundle.now.name.now (S.tree bundle.now.root) ≡ None) }
        ensures within { OnOk result (IfSome self.limit (λ most. length
            (printed_as self.form bundle.now.name.now bundle.now.is_locale_fallback_enabled
            (S.tree bundle.now.root)) ≤ most)) }
        ensures err { IfErr result (IsNotPrinted self bundle.now.name.now
            bundle.now.is_locale_fallback_enabled (S.tree bundle.now.root)) }
    {
        if let Some((_, cause)) = self.cause(alloc, bundle)? {
            return Err(PrintError::NotPrintable(cause));
        }
        if let Some(limit) = self.limit
            && self.length(alloc, bundle)?.is_none()
        {
            return Err(PrintError::Larger(limit));
        }
        Ok(Printable {
            form: self.form,
            bundle: bundle.again(),
        })
    }
}

/// A bundle that can be written in a form (`Print::printable`).
#[derive(Clone, Copy)]
pub struct Printable<'s, S: Copy> {
    pub(crate) form: PrintForm,
    pub(crate) bundle: ShownBundle<'s, S>,
}

impl<'s, S: Shown<'s>> Printable<'s, S> {
    /// Writes the bundle into any writer, in blocks, however deep it nests: the bytes that
    /// `Print::text` gives as a text. Where the writer fails or memory is wanted, a part of them
    /// from their start was written. The error is of the kind `OutOfMemory`, or else some of the
    /// bytes weren't written and it is the writer's own, or `WriteZero` where the writer took none.
    /// The writer isn't flushed.
    pub fn to<W: Write>(&self, alloc: Global, writer: &mut W) -> io::Result<()>
        ensures ok { let text = printed_as self.now.form self.now.bundle.name.now
            self.now.bundle.is_locale_fallback_enabled (S.tree self.now.bundle.root) in
            OnOk result (Appends (W.contents writer.old) (W.contents writer.new) text) }
        ensures part { let text = printed_as self.now.form self.now.bundle.name.now
            self.now.bundle.is_locale_fallback_enabled (S.tree self.now.bundle.root) in
            OnErr result (AppendsPart (W.contents writer.old) (W.contents writer.new) text) }
        ensures cause { let text = printed_as self.now.form self.now.bundle.name.now
            self.now.bundle.is_locale_fallback_enabled (S.tree self.now.bundle.root) in
            IfErr result (FailsWriting (W.contents writer.old) (W.contents writer.new) text) }
    {
        match self.form {
            PrintForm::Plain => write_lines(alloc, writer, Plain, self.bundle.again()),
            PrintForm::Icu => write_lines(alloc, writer, Icu, self.bundle.again()),
            PrintForm::Json => write_json(alloc, writer, self.bundle.root),
        }
    }
}
