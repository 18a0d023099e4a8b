//! The tokens of a printed text: names, strings, numbers, and the ends of lines.
//! In which order they make a text is said in `resb_lines`.
ghost use Rattle.std.specs.Prelude.{◌≡◌, ◌++◌, ◌∷◌, ℕ, List, OnOk, codes, decimal, refl, IsTrue};
ghost use Rattle.std.specs.String.{string_bytes};
ghost use Rattle.std.specs.List.{list_all};
ghost use Rattle.resb_tree.specs.Tree.{integer};
ghost use Rattle.resb_print.specs.Quotes as quotes;
ghost use Rattle.resb_print.specs.Printed as printed;
ghost use Rattle.resb_print.specs.Printed.{indent_on, line_on, quoted_on, name_on, tree_on};
ghost use Rattle.resb_print.specs.Printed.{end_on, root_type_on, plain_spelling};
ghost use Rattle.resb_print.specs.Inner.Appends.{Appends};
ghost use Rattle.resb_grammar.specs.ByteRuns as grammar;

use crate::place::Place;
use resb_grammar::is_word;
use std::alloc::AllocError;

/// Whether the text holds a quote.
pub fn has_quote(text: &str) -> bool
    ensures { result ≡ quotes.has_quote text.now }
{
    for byte in text.as_bytes() {
        if *byte == b'"' {
            return true;
        }
    }
    false
}

/// Whether the bytes are word characters.
fn are_words(bytes: &[u8]) -> bool
    ensures { result ≡ list_all grammar.is_word bytes.now }
{
    for byte in bytes {
        if !is_word(*byte) {
            return false;
        }
    }
    true
}

/// Whether a string may stand without quotes.
fn is_bare(text: &str) -> bool
    ensures { result ≡ printed.is_bare text.now }
{
    !text.is_empty() && are_words(text.as_bytes())
}

/// Writes a string in quotes.
pub fn push_quoted(out: &mut String, text: &str) -> Result<(), AllocError>
    ensures { OnOk result (Appends out.old out.new (quoted_on text.now)) }
{
    out.push_str("\"")?;
    out.push_str(text)?;
    out.push_str("\"")
}

/// Writes a name or key.
pub fn push_name(out: &mut String, text: &str) -> Result<(), AllocError>
    ensures { OnOk result (Appends out.old out.new (name_on text.now)) }
{
    if is_bare(text) {
        out.push_str(text)
    } else {
        push_quoted(out, text)
    }
}

/// The level inside a collection. Indentation ends at 32 levels, so that a text is not longer than
/// some multiple of what it holds, however deep the tree is.
pub fn deeper(level: usize) -> usize
    ensures { result ≡ printed.deeper level }
{
    if level < 32 { level + 1 } else { level }
}

/// Begins a line of a deep level.
fn push_deep_line(out: &mut String, level: usize) -> Result<(), AllocError>
    ensures { OnOk result (Appends out.old out.new (line_on level)) }
{
    out.push_str("\n")?;
    for line in 0..level {
        out.push_str("    ")?;
    }
    Ok(())
}

/// Begins a line. The indentation of the first levels is written at once.
pub fn push_line(out: &mut String, level: usize) -> Result<(), AllocError>
    ensures { OnOk result (Appends out.old out.new (line_on level)) }
{
    match level {
        0 => out.push_str("\n"),
        1 => out.push_str("\n    "),
        2 => out.push_str("\n        "),
        3 => out.push_str("\n            "),
        4 => out.push_str("\n                "),
        5 => out.push_str("\n                    "),
        6 => out.push_str("\n                        "),
        _ => push_deep_line(out, level),
    }
}

/// Writes what follows a resource.
pub fn push_end(out: &mut String, place: Place) -> Result<(), AllocError>
    ensures { OnOk result (Appends out.old out.new (end_on place)) }
{
    match place {
        Place::InTable => Ok(()),
        Place::InArray => out.push_str(","),
    }
}

/// Writes the root's type.
pub fn push_root_type(out: &mut String, fallback: bool) -> Result<(), AllocError>
    ensures { OnOk result (Appends out.old out.new (root_type_on fallback)) }
{
    if fallback {
        Ok(())
    } else {
        out.push_str(":table(nofallback)")
    }
}

/// Writes a number.
pub fn push_number(out: &mut String, number: u32) -> Result<(), AllocError>
    ensures { OnOk result (Appends out.old out.new (λ rest. decimal number ++ rest)) }
{
    write!(out, "{number}")
}

/// Writes an integer.
pub fn push_integer(out: &mut String, place: Place, number: u32) -> Result<(), AllocError>
    ensures { OnOk result (Appends out.old out.new
        (tree_on plain_spelling place 0 (integer number))) }
{
    out.push_str(":int{")?;
    push_number(out, number)?;
    out.push_str("}")?;
    push_end(out, place)
}
