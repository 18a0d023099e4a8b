//! A bundle of a name that no file has, which is printed in neither form, and an alias, which ICU's
//! form alone has. What files are printed as is asked of the program, by `tests/rows.py`.
use resb_icu_text::IcuReader;
use resb_lines::{Print, PrintForm, ShownBundle};
use resb_print::{Cause, PathStep, PrintError};
use resb_tree::{Resource, ResourceBundle};
use std::alloc::{AllocError, Global};
use std::borrow::CowStr;
use std::collections::BTreeMap;

/// Why an empty table of this name has no text in ICU's form.
fn refusal_of(alloc: Global, name: &str) -> Option<PrintError> {
    let root = Resource::Table(BTreeMap::new(alloc));
    let bundle = ResourceBundle::new(CowStr::Borrowed(name), root, true);
    Print::new(PrintForm::Icu)
        .text(alloc, &ShownBundle::of(&bundle))
        .err()
}

#[test]
fn an_empty_name_is_no_word_of_icu(rt: HostRuntime) {
    let refusal = refusal_of(rt.alloc(), "");
    assert!(rt; refusal == Some(PrintError::NotPrintable(Cause::NameIsNoWord)));
}

/// The refusal of an alias.
const ALIAS: PrintError = PrintError::NotPrintable(Cause::Alias);

/// Whether these are the steps to the key `x`.
fn is_at_key(steps: &[PathStep<'_>]) -> bool {
    steps.len() == 1 && steps[0] == PathStep::Key("x")
}

/// Whether a bundle has no text of the plain form for an alias, at the key `x`.
fn has_alias(alloc: Global, bundle: &ResourceBundle<'_>) -> bool {
    let (print, shown) = (Print::new(PrintForm::Plain), ShownBundle::of(bundle));
    let refusal = print.text(alloc, &shown).err();
    match print.cause(alloc, &shown) {
        Ok(Some((steps, cause))) => {
            refusal == Some(ALIAS) && cause == Cause::Alias && is_at_key(steps.as_slice())
        }
        _ => false,
    }
}

/// Whether the bundle of a text is refused for that.
fn is_refused(alloc: Global, text: &str) -> bool {
    match IcuReader::read(alloc, text) {
        Ok((bundle, _)) => has_alias(alloc, &bundle),
        Err(_) => false,
    }
}

#[test]
fn the_plain_form_has_no_aliases(rt: HostRuntime) -> Result<(), AllocError> {
    assert!(rt; is_refused(rt.alloc(), "b{x:alias{\"/a/b\"}}"));
    let message = format!(in rt.alloc(); "{ALIAS}")?;
    assert!(rt; message.as_str() == "the plain form has no aliases");
    Ok(())
}
