//! What is said on standard error of a text that is compiled, though something in it may not be
//! meant so.
//! Where a warning is due is told by `resb_diagnostics`; refusals are said in `say`.
use crate::compile::is_file_name;
use crate::mistaken_values::end_mistake;
use crate::mistakes::{Repeated, Spot, What};
use crate::names::name_in;
use crate::repeated::key_at;
use crate::say::{fail, say_at};
use crate::shown::Shown;
use crate::texts::SourceText;
use resb_diagnostics::{Location, Locations, Reason, Warning, icu_warnings, location_of, warnings};
use resb_words::CompileWords;
use std::fmt;
use std::path::Path;

/// The most warnings that are said of one text.
const MOST_WARNINGS: usize = 20;

/// Says the warnings of a text that was compiled, of ICU's form or not, and answers whether there
/// is any. The status of a want of memory is answered once that is said.
pub(crate) fn warn<R: Eprint + AllocGlobal>(
    rt: &R,
    name: &str,
    text: SourceText<'_>,
    is_icu: bool,
) -> Result<bool, u8> {
    let found = if is_icu {
        icu_warnings(rt.alloc(), text.whole())
    } else {
        warnings(rt.alloc(), text.whole())
    };
    let Ok(found) = found else {
        return Err(fail(rt, name, "its warnings are not known: out of memory"));
    };
    say_warnings(rt, name, text, found.as_slice());
    Ok(!found.is_empty())
}

/// Says if a text's bundle isn't named as the text, by whose name its file is made, and answers
/// whether that is so.
pub(crate) fn warn_of_name<R: Eprint>(
    rt: &R,
    name: &str,
    text: SourceText<'_>,
    wanted: &CompileWords<'_>,
) -> bool {
    let Some(stem) = Path::new(name).file_stem() else {
        return false;
    };
    let source = text.read().as_bytes();
    let (place, bundle) = name_in(source, wanted.is_icu);
    if bundle == stem || !is_file_name(bundle) {
        return false;
    }
    let at = location_of(source, place);
    let is_by_name = wanted.is_by_name;
    let told = OtherName {
        bundle,
        stem,
        is_by_name,
    };
    say_at(rt, name, at, told);
    true
}

/// A bundle whose name isn't that of its text, as it is said.
#[derive(Clone, Copy)]
struct OtherName<'n> {
    bundle: &'n str,
    stem: &'n str,
    /// Whether the file has the bundle's name.
    is_by_name: bool,
}

impl fmt::Display for OtherName<'_> {
    fn fmt<W: fmt::Write>(&self, f: &mut fmt::Formatter<W>) -> fmt::Result {
        let (bundle, stem) = (Shown(self.bundle), Shown(self.stem));
        write!(f, "warning: the bundle is named '{bundle}', ")?;
        if self.is_by_name {
            return write!(f, "so this makes {bundle}.res, and no {stem}.res");
        }
        write!(
            f,
            "but this makes {stem}.res: what looks for {bundle}.res won't find it"
        )
    }
}

/// Says the first of the warnings of a text, and how many more there are.
fn say_warnings<R: Eprint>(rt: &R, name: &str, text: SourceText<'_>, found: &[Warning]) {
    let source = text.read().as_bytes();
    let (mut places, mut firsts) = (Locations::new(source), Locations::new(source));
    for warning in found.iter().take(MOST_WARNINGS) {
        let reason = warning.reason;
        let (place, end) = told_at(source, text.place_in_file(warning.place), reason);
        let at = places.find(place);
        let (key, first) = match reason {
            // a text of ICU's form with such a key is refused
            Reason::RepeatedKey(first) => (
                key_at(source, warning.place, false),
                firsts.find(first),
            ),
            _ => ("", at),
        };
        let line = at.line;
        let told = Told {
            reason,
            end,
            key,
            first,
            line,
        };
        say_at(rt, name, at, told);
    }
    if found.len() > MOST_WARNINGS {
        let (name, more) = (Shown(name), found.len() - MOST_WARNINGS);
        let _ = eprintln!(rt; "{name}: {more} more warnings");
    }
}

/// Where a warning is told that is due at a place, and the `}` that is told in place of the text
/// behind it, if a bundle ends with one too early or one more stands there.
fn told_at(source: &[u8], place: usize, reason: Reason) -> (usize, Option<What<'_>>) {
    if reason != Reason::TextBehind {
        return (place, None);
    }
    let Some(spot) = Spot::new(source, place) else {
        return (place, None);
    };
    match end_mistake(&spot) {
        Some(end) if matches!(end.what, What::BraceTooMany | What::EarlyEnd) => {
            (end.place, Some(end.what))
        }
        _ => (place, None),
    }
}

/// A warning of a text, as it is said.
#[derive(Clone, Copy)]
struct Told<'s> {
    reason: Reason,
    /// What ends the bundle where text behind it isn't meant to stand there; of others, nothing.
    end: Option<What<'s>>,
    /// How a repeated key is spelled; of others, nothing.
    key: &'s str,
    /// Where a repeated key stands first; of others, their own place.
    first: Location,
    /// Its own line.
    line: usize,
}

impl fmt::Display for Told<'_> {
    fn fmt<W: fmt::Write>(&self, f: &mut fmt::Formatter<W>) -> fmt::Result {
        match self.reason {
            Reason::RepeatedKey(_) => {
                let (key, first, line) = (self.key, self.first, self.line);
                let repeated = Repeated { key, first, line };
                write!(f, "warning: {repeated}; genrb refuses that")
            }
            reason => match self.end {
                Some(end) => write!(f, "warning: {end}; nothing more is read"),
                None => write!(f, "warning: {reason}"),
            },
        }
    }
}
