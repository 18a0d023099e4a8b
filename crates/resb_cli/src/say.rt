//! What is said on standard error: the place, the cause, and the line round it.
//! What the causes are called is theirs to print; warnings are said in `warn`.
use crate::hints::hint_at;
use crate::mistaken::mistake_at;
use crate::mistaken_values::last_long_string;
use crate::mistakes::{Mistake, What};
use crate::paths::{Step, push_step};
use crate::show::form_name;
use crate::shown::Shown;
use crate::streams::{InputError, NO_MEMORY};
use crate::texts::SourceText;
use resb_compile::CompileError;
use resb_diagnostics::{Location, first_icu_outdent, first_outdent, location_of, pointed_line};
use resb_lines::PrintForm;
use resb_print::PathStep;
use resb_program::{Blame, SourceError, where_to_look};
use std::alloc::{AllocError, Global};
use std::fmt::{self, Display};

/// What is said of the last string that spans lines before the place of a refusal.
const LONG_STRING: &str = "the last string before that which spans lines begins here";

/// What is said of a line before which a `}` may be missing.
const OUTDENT: &str =
    "a '}' may be missing before this line, which is indented too little for its group";

/// Says one line.
pub(crate) fn complain<R: Eprint, C: Display + Drop>(rt: &R, name: &str, cause: C) {
    let name = Shown(name);
    let _ = eprintln!(rt; "{name}: {cause}");
}

/// Says what failed of a file or a stream, and gives the status of that.
pub(crate) fn fail<R: Eprint>(rt: &R, name: &str, cause: &str) -> u8 {
    complain(rt, name, cause);
    2
}

/// What was done, or the status, once it is said what failed.
pub(crate) fn or_fail<T, R: Eprint>(
    rt: &R,
    name: &str,
    done: Result<T, &'static str>,
) -> Result<T, u8> {
    match done {
        Ok(done) => Ok(done),
        Err(cause) => Err(fail(rt, name, cause)),
    }
}

/// Says that memory was refused, and gives the status of that.
pub(crate) fn refuse_memory<R: Eprint>(rt: &R, name: &str) -> u8 {
    complain(rt, name, NO_MEMORY);
    1
}

/// Says why an input isn't had, and gives the status of that.
pub(crate) fn fail_input<R: Eprint>(rt: &R, name: &str, e: InputError) -> u8 {
    complain(rt, name, e);
    e.status()
}

/// Says what is wrong with the process's words, in lines of its own.
pub(crate) fn say_lines<R: Eprint + AllocGlobal, C: Display>(rt: &R, cause: &C) {
    match format!(in rt.alloc(); "{cause}") {
        Ok(text) => {
            for line in text.as_str().lines() {
                let line = Shown(line);
                let _ = eprintln!(rt; "{line}");
            }
        }
        Err(_) => complain(rt, "resb", NO_MEMORY),
    }
}

/// A form of text that a bundle has none of.
#[derive(Clone, Copy)]
pub(crate) struct NoText {
    /// The form.
    pub(crate) form: PrintForm,
    /// What is said of where it has a text, or nothing.
    pub(crate) hint: &'static str,
    /// What is said of the JSON that stands in its place, or nothing.
    pub(crate) instead: &'static str,
}

/// Says why a bundle has no text of a form, and the path to the cause, if that is inside it; or the
/// status, once it is said that memory for the path was wanted.
pub(crate) fn say_no_text<R: Eprint + AllocGlobal, C: Display + Drop>(
    rt: &R,
    name: &str,
    missing: NoText,
    cause: C,
    path: &[PathStep<'_>],
) -> Result<(), u8> {
    let Ok(at) = path_text(rt.alloc(), path) else {
        return Err(refuse_memory(rt, name));
    };
    let (name, what) = (Shown(name), form_name(missing.form));
    let (hint, end) = (missing.hint, missing.instead);
    if at.is_empty() {
        let _ = eprintln!(rt; "{name}: this has no {what}, since {cause}{hint}{end}");
    } else {
        let at = Shown(at.as_str());
        let _ = eprintln!(rt; "{name}: this has no {what}, since {cause} at {at}{hint}{end}");
    }
    Ok(())
}

/// The keys and numbers of a path, as `get` takes it.
fn path_text(alloc: Global, path: &[PathStep<'_>]) -> Result<String, AllocError> {
    let mut text = String::new(alloc);
    for (before, step) in path.iter().enumerate() {
        let step = match step {
            PathStep::Key(key) => Step::Key(key),
            PathStep::Member(number) => Step::Number(*number),
        };
        push_step(&mut text, before, step)?;
    }
    Ok(text)
}

/// Says why a text is refused, and where, and gives the status of that.
pub(crate) fn refuse<R: Eprint + AllocGlobal>(
    rt: &R,
    name: &str,
    source: &[u8],
    error: &SourceError,
) -> u8 {
    tell(rt, name, source, where_to_look(source, error), error)
}

/// Says why a text is refused that may have taken other files in, and where in its own file, and
/// gives the status of that.
pub(crate) fn refuse_source<R: Eprint + AllocGlobal>(
    rt: &R,
    name: &str,
    text: SourceText<'_>,
    error: &SourceError,
) -> u8 {
    let blame = match where_to_look(text.whole().as_bytes(), error) {
        Blame::Nowhere => Blame::Nowhere,
        Blame::At(place) => Blame::At(text.place_in_file(place)),
        Blame::Open(place) => Blame::Open(text.place_in_file(place)),
    };
    tell(rt, name, text.read().as_bytes(), blame, error)
}

/// Says why a text is refused, and what is to blame in it, and gives the status of that.
fn tell<R: Eprint + AllocGlobal>(
    rt: &R,
    name: &str,
    source: &[u8],
    blame: Blame,
    error: &SourceError,
) -> u8 {
    match blame {
        Blame::Nowhere if wants_memory(error) => complain(rt, name, NO_MEMORY),
        Blame::Nowhere => complain(rt, name, error),
        Blame::At(place) => refuse_at(rt, name, source, place, error),
        Blame::Open(place) => refuse_open(rt, name, source, place, error),
    }
    1
}

/// Says which brace is open where the text ends, behind the line at which another one may be
/// missing, if that is known.
fn refuse_open<R: Eprint + AllocGlobal>(
    rt: &R,
    name: &str,
    source: &[u8],
    place: usize,
    error: &SourceError,
) {
    match or_no_memory(rt, name, outdent(rt.alloc(), source, error)) {
        Some(line) if !opens_before(source, line) => {
            say_at(rt, name, location_of(source, line), OUTDENT);
            point(rt, name, source, line);
            say_at(rt, name, location_of(source, place), Unclosed(error));
        }
        _ => {
            say_at(rt, name, location_of(source, place), Unclosed(error));
            point(rt, name, source, place);
        }
    }
}

/// Whether a group opens right before a place: all lines of a text may be indented as little.
fn opens_before(source: &[u8], place: usize) -> bool {
    match source.split_at_checked(place) {
        Some((before, _)) => before.trim_ascii_end().ends_with(b"{"),
        None => false,
    }
}

/// Says which mistake a text is refused for, or what was expected at its place, and what else may
/// be the cause.
fn refuse_at<R: Eprint + AllocGlobal>(
    rt: &R,
    name: &str,
    source: &[u8],
    place: usize,
    error: &SourceError,
) {
    let mistake = or_no_memory(rt, name, mistake_at(rt.alloc(), source, place, error));
    match mistake {
        Some(Mistake { place, what }) => {
            say_at(rt, name, location_of(source, place), what);
            point(rt, name, source, place);
        }
        None => {
            say_at(rt, name, location_of(source, place), error);
            point(rt, name, source, place);
        }
    }
    if let Some(hint) = hint_at(source, place, error, mistake) {
        complain(rt, name, hint);
    }
    match mistake {
        Some(
            Mistake {
                what: What::LongString,
                ..
            },
        ) => {
            say_at(rt, name, location_of(source, place), error);
        }
        Some(_) => {}
        None => say_long_string(rt, name, source, place, error),
    }
}

/// What was found, or nothing, once it is said that memory for it was refused.
fn or_no_memory<R: Eprint, T: Drop>(
    rt: &R,
    name: &str,
    found: Result<Option<T>, AllocError>,
) -> Option<T> {
    match found {
        Ok(found) => found,
        Err(_) => {
            complain(rt, name, NO_MEMORY);
            None
        }
    }
}

/// Says where the last string that spans lines begins before a place at which a text is refused.
fn say_long_string<R: Eprint>(
    rt: &R,
    name: &str,
    source: &[u8],
    place: usize,
    error: &SourceError,
) {
    if let Some(quote) = long_string(source, place, error) {
        say_at(rt, name, location_of(source, quote), LONG_STRING);
    }
}

/// The last string that spans lines before a place at which a text is refused.
fn long_string(source: &[u8], place: usize, error: &SourceError) -> Option<usize> {
    match error {
        SourceError::Refused(CompileError::Reading(_)) => last_long_string(source, place, false),
        SourceError::Refused(CompileError::ReadingIcu(_)) => last_long_string(source, place, true),
        _ => None,
    }
}

/// The first line that is indented too little for the group it stands in.
fn outdent(alloc: Global, source: &[u8], error: &SourceError) -> Result<Option<usize>, AllocError> {
    match error {
        SourceError::Refused(CompileError::ReadingIcu(_)) => first_icu_outdent(alloc, source),
        _ => first_outdent(alloc, source),
    }
}

/// A refusal where the text ends too early.
#[derive(Clone, Copy)]
struct Unclosed<'e>(&'e SourceError);

impl fmt::Display for Unclosed<'_> {
    fn fmt<W: fmt::Write>(&self, f: &mut fmt::Formatter<W>) -> fmt::Result {
        let error = self.0;
        write!(f, "{error} before the text ends inside this")
    }
}

/// Says a line of a place in a text.
pub(crate) fn say_at<R: Eprint, C: Display + Drop>(rt: &R, name: &str, at: Location, cause: C) {
    let (name, line, column) = (Shown(name), at.line, at.column);
    let _ = eprintln!(rt; "{name}:{line}:{column}: {cause}");
}

/// Whether it was memory that was wanted.
fn wants_memory(error: &SourceError) -> bool {
    match error {
        SourceError::Refused(e) => e.is_out_of_memory(),
        SourceError::NotUtf8(_) => false,
    }
}

/// Shows the line round a place.
fn point<R: Eprint + AllocGlobal>(rt: &R, name: &str, source: &[u8], place: usize) {
    match pointed_line(rt.alloc(), source, place) {
        Ok(line) => {
            let line = line.as_str();
            let _ = eprintln!(rt; "{line}");
        }
        Err(_) => complain(rt, name, NO_MEMORY),
    }
}
