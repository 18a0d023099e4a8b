//! The calls that show bundles as lines: their length, lines within a limit, and what keeps a
//! bundle from having a text. Other bundles are asked of the program, by `tests/rows.py`.
use resb_icu_text::IcuReader;
use resb_lines::{Print, PrintForm, ShownBundle};
use resb_print::PrintError;
use resb_tree::ResourceBundle;
use std::alloc::{AllocError, Global};
use std::test::Fail;

/// A text, and its lines in both forms.
const TEXT: &str = "b{w:table{}v:intvector{1,2}t{u:int{7}}l:array{\"y\",:bin{\"0a\"}}e:array{}}";

const LINES: &str =
    "b{\n    e:array{}\n    l:array{\n        \"y\",\n        :bin{\"0a\"},\n    }\n    \
    t{\n        u:int{7}\n    }\n    v:intvector{1,2}\n    w:table{}\n}\n";

/// How many bytes they have.
const LENGTH: u64 = LINES.len() as u64;

/// Whether a bundle has a text of a form, which is those lines, with their length within a limit of
/// that, and not within a byte less.
fn is_shown(alloc: Global, form: PrintForm, bundle: &ResourceBundle<'_>) -> Result<bool, Fail> {
    let (shown, print) = (ShownBundle::of(bundle), Print::new(form));
    let within = print.within(LENGTH).length(alloc, &shown)?;
    let over = print.within(LENGTH - 1).length(alloc, &shown)?;
    let mut written = Vec::new(alloc);
    print.printable(alloc, &shown)?.to(alloc, &mut written)?;
    let has_length = within == Some(LENGTH) && over.is_none();
    Ok(has_length && written.as_slice() == LINES.as_bytes())
}

/// Whether a bundle's lines are made within a limit of their length, and not within a byte less.
fn is_within(alloc: Global, bundle: &ResourceBundle<'_>) -> bool {
    let (shown, print) = (ShownBundle::of(bundle), Print::new(PrintForm::Plain));
    let less = print.within(LENGTH - 1).text(alloc, &shown).err();
    match print.within(LENGTH).text(alloc, &shown) {
        Ok(made) => less == Some(PrintError::Larger(LENGTH - 1)) && made.as_str() == LINES,
        Err(_) => false,
    }
}

/// Whether the text has its lines by each call.
fn has_lines(alloc: Global) -> Result<bool, Fail> {
    let (bundle, _) = IcuReader::read(alloc, TEXT)?;
    let is_plain = is_shown(alloc, PrintForm::Plain, &bundle)?;
    Ok(is_plain && is_shown(alloc, PrintForm::Icu, &bundle)? && is_within(alloc, &bundle))
}

#[test]
fn bundles_have_their_lines(rt: HostRuntime) -> Result<(), Fail> {
    assert!(rt; has_lines(rt.alloc())?);
    Ok(())
}

/// What keeps a bundle from having a plain text, and the path to it.
fn cause_in(alloc: Global, bundle: &ResourceBundle<'_>) -> Result<String, AllocError> {
    let shown = ShownBundle::of(bundle);
    match Print::new(PrintForm::Plain).cause(alloc, &shown)? {
        Some((path, cause)) => format!(in alloc; "{cause:?} {path:?}"),
        None => String::from_str(alloc, "none"),
    }
}

/// What keeps the bundle of a text from having one.
fn cause_of(alloc: Global, text: &str) -> Result<String, Fail> {
    let (bundle, _) = IcuReader::read(alloc, text)?;
    Ok(cause_in(alloc, &bundle)?)
}

/// An alias that stands before a quote.
#[test]
fn the_first_cause_has_a_path(rt: HostRuntime) -> Result<(), Fail> {
    let text = "b{t{l:array{\"y\",:alias{\"/p\"}}}u{\"\\\"\"}}";
    let cause = cause_of(rt.alloc(), text)?;
    assert!(rt; cause.as_str() == "Alias [Key(\"t\"), Key(\"l\"), Member(1)]");
    Ok(())
}
