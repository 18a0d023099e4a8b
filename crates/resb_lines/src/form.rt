//! The two forms of texts, by what differs in them.
//! What a line is made of else is said in `text`.
ghost use Rattle.std.specs.Prelude.{◌≡◌, ℕ, List, None, OnOk, MatchOption};
ghost use Rattle.resb_print.specs.Inner.Appends.{Appends};
ghost use Rattle.resb_print.specs.Paths as paths;
ghost use Rattle.resb_print.specs.Paths.{Tests};
ghost use Rattle.resb_print.specs.declared.cause.Cause.{Cause};
ghost use Rattle.resb_print.specs.Spelling.{Spelling};
ghost use Rattle.resb_lines.specs.Growing.{Grows};
ghost use Rattle.resb_lines.specs.Causes.{IsCauseByItself};

use resb_icu_print::{is_bare, is_key};
use resb_print::{Cause, has_quote};
use std::alloc::{AllocError, Global};

/// A form of texts: how names, keys and strings are spelled, and what has no text of it.
pub trait Form: Copy {
    /// How names, keys and strings are spelled, as functions of them.
    ghost spelling: { Spelling };

    /// Writes a bundle's name.
    fn push_name(self, out: &mut String, name: &str) -> Result<(), AllocError>
        ensures { OnOk result (Appends out.old out.new (spelling.name_on name.now)) };

    /// Writes a key.
    fn push_key(self, out: &mut String, key: &str) -> Result<(), AllocError>
        ensures { OnOk result (Appends out.old out.new (spelling.key_on key.now)) };

    /// Writes a string in quotes.
    fn push_piece(self, alloc: Global, out: &mut String, text: &str) -> Result<(), AllocError>
        ensures { OnOk result (Appends out.old out.new (spelling.piece_on text.now)) };

    /// What keeps a bundle from having a text of the form, as tests.
    ghost tests: { Tests Cause };

    /// Which cause a root is that is no table.
    fn root_cause(self) -> Cause
        ensures { result ≡ tests.of_root };

    /// Which cause a name is, if it is one.
    fn name_cause(self, name: &str) -> Option<Cause>
        ensures { result ≡ tests.of_name name.now };

    /// Which cause a key is, if it is one.
    fn key_cause(self, key: &str) -> Option<Cause>
        ensures { result ≡ tests.of_key key.now };

    /// The character of ASCII by which a string is a cause, and which one, if strings are any.
    fn string_cause(self) -> Option<(u8, Cause)>
        ensures { MatchOption result ((text : List ℕ) → tests.of_string text ≡ None)
            (λ found. IsCauseByItself tests found.0 found.1) };

    /// Which cause each alias is, if it is one.
    fn alias_cause(self) -> Option<Cause>
        ensures { result ≡ tests.of_alias };

    /// Keys and strings are no shorter as they are spelled.
    ghost grows: { Grows spelling };
}

/// The form of `resb_print`.
#[derive(Clone, Copy)]
pub struct Plain;

/// Which cause a text is that holds a quote.
fn quote_cause(text: &str, cause: Cause) -> Option<Cause>
    ensures { result ≡ paths.quote_cause cause text.now }
{
    if has_quote(text) { Some(cause) } else { None }
}

impl Form for Plain {
    ghost use Rattle.resb_print.specs.Paths.{plain_tests};
    ghost use Rattle.resb_print.specs.Printed.{plain_spelling};
    ghost use Rattle.resb_print.proofs.Sizes.{name_grows, quoted_grows};

    ghost spelling = { plain_spelling };

    ghost tests = { plain_tests };

    fn push_name(self, out: &mut String, name: &str) -> Result<(), AllocError> {
        resb_print::push_name(out, name)
    }

    fn push_key(self, out: &mut String, key: &str) -> Result<(), AllocError> {
        resb_print::push_name(out, key)
    }

    fn push_piece(self, _alloc: Global, out: &mut String, text: &str) -> Result<(), AllocError> {
        resb_print::push_quoted(out, text)
    }

    fn root_cause(self) -> Cause {
        Cause::RootIsNoTable
    }

    fn name_cause(self, name: &str) -> Option<Cause> {
        quote_cause(name, Cause::QuoteInName)
    }

    fn key_cause(self, key: &str) -> Option<Cause> {
        quote_cause(key, Cause::QuoteInKey)
    }

    #[tactic(auto, using(crate::proofs::PlainPrinted::quotes_alone))]
    fn string_cause(self) -> Option<(u8, Cause)> {
        Some((b'"', Cause::QuoteInString))
    }

    fn alias_cause(self) -> Option<Cause> {
        Some(Cause::Alias)
    }

    ghost grows = { record { keys = name_grows; pieces = quoted_grows } };
}

/// ICU's form, that of `resb_icu_print`.
#[derive(Clone, Copy)]
pub struct Icu;

impl Form for Icu {
    ghost use Rattle.resb_icu_print.specs.Causes.{icu_tests};
    ghost use Rattle.resb_icu_print.specs.Printed.{icu_spelling};
    ghost use Rattle.resb_icu_print.proofs.Sizes.{key_grows, piece_grows};

    ghost spelling = { icu_spelling };

    ghost tests = { icu_tests };

    fn push_name(self, out: &mut String, name: &str) -> Result<(), AllocError> {
        out.push_str(name)
    }

    fn push_key(self, out: &mut String, key: &str) -> Result<(), AllocError> {
        resb_icu_print::push_key(out, key)
    }

    fn push_piece(self, alloc: Global, out: &mut String, text: &str) -> Result<(), AllocError> {
        resb_icu_print::push_piece(alloc, out, text)
    }

    fn root_cause(self) -> Cause {
        Cause::RootIsNoTable
    }

    fn name_cause(self, name: &str) -> Option<Cause> {
        if is_bare(name) {
            None
        } else {
            Some(Cause::NameIsNoWord)
        }
    }

    fn key_cause(self, key: &str) -> Option<Cause> {
        if is_key(key) {
            None
        } else {
            Some(Cause::KeyHasOtherBytes)
        }
    }

    fn string_cause(self) -> Option<(u8, Cause)> {
        None
    }

    fn alias_cause(self) -> Option<Cause> {
        None
    }

    ghost grows = { record { keys = key_grows; pieces = piece_grows } };
}
