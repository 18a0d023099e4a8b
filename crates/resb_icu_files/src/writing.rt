//! What is written for a group that takes a file in, given the files.
//! Where it is written is said in `making`.
ghost use Rattle.std.specs.Prelude.{◌≡◌, ◌++◌, ℕ, true, List, Some, codes, IfOk, IfErr};
ghost use Rattle.std.specs.Prelude.{option_map};
ghost use Rattle.std.specs.String.{string_bytes};
ghost use Rattle.hex.specs.Hex.{encode_lower};
ghost use Rattle.resb_icu_print.specs.Printed.{piece_on};
ghost use Rattle.resb_print.specs.Printed.{quoted_on};
ghost use Rattle.resb_icu_text.specs.Lexemes.{bytes_said};
ghost use Rattle.resb_icu_files.specs.Inner.Making.{WriteFails, IsTextOf, IsWithoutRules};
ghost use Rattle.resb_icu_files.specs.Ways as ways;
ghost use Rattle.resb_icu_files.specs.Writing as spec;

use crate::collation::collation_rules_in;
use crate::error::FilesError;
use crate::file::{FileNamed, TextFile, bytes_named};
use crate::group::{Group, said};
use crate::rules::rules_in;
use crate::way::Way;
use resb_icu_print::push_piece;
use resb_icu_text::Said;
use resb_print::push_quoted;
use resb_tree::NoMemory;
use std::alloc::{AllocError, Global};

/// A string, by what stands between its braces.
fn string_of(alloc: Global, inside: &str) -> Result<String, AllocError>
    ensures { IfOk result
        (λ w. string_bytes w ≡ codes ":string{" ++ (inside.now ++ codes "}")) }
{
    let mut out = String::from_str(alloc, ":string{")?;
    out.push_str(inside)?;
    out.push_str("}")?;
    Ok(out)
}

/// A string of a text, in quotes.
fn string_saying(alloc: Global, text: &str) -> Result<String, AllocError>
    ensures { IfOk result
        (λ w. string_bytes w ≡ codes ":string{" ++ piece_on text.now (codes "}")) }
{
    let mut out = String::from_str(alloc, ":string{")?;
    push_piece(alloc, &mut out, text)?;
    out.push_str("}")?;
    Ok(out)
}

/// A binary of these bytes, in hex digits.
fn binary_of(alloc: Global, bytes: &[u8]) -> Result<String, AllocError>
    ensures { IfOk result (λ w. string_bytes w
        ≡ codes ":bin{" ++ quoted_on (encode_lower bytes.now) (codes "}")) }
{
    let digits = hex::encode(alloc, bytes)?;
    let mut out = String::from_str(alloc, ":bin{")?;
    push_quoted(&mut out, digits.as_str())?;
    out.push_str("}")?;
    Ok(out)
}

/// Bytes without the mark before them, if it stands there.
fn behind_mark(bytes: &[u8]) -> &[u8]
    ensures { result.now ≡ spec.behind_mark bytes.now }
{
    if bytes.starts_with(b"\xef\xbb\xbf") {
        &bytes[3..]
    } else {
        bytes
    }
}

/// The file that a group names.
pub(crate) fn named(alloc: Global, group: &Group<'_>) -> Result<FileNamed, AllocError>
    ensures { IfOk result (λ f. (f.place ≡ group.now.at)
        × (string_bytes f.name ≡ bytes_said group.now.name)) }
{
    Ok(FileNamed {
        place: group.at,
        name: String::from_str(alloc, said(&group.name))?,
    })
}

/// The bytes of the file that a group takes in.
fn bytes_for<'a>(
    alloc: Global,
    files: &'a [TextFile],
    group: &Group<'_>,
) -> Result<&'a [u8], FilesError>
    requires { ways.takes_file group.now.kind ≡ true }
    ensures ok { IfOk result
        (λ b. ways.bytes_named files.now (bytes_said group.now.name) ≡ Some b.now) }
    ensures err { IfErr result
        (WriteFails files.now (bytes_said group.now.name) group.now.kind group.now.at) }
{
    match bytes_named(files, said(&group.name)) {
        Some(bytes) => Ok(bytes),
        None => Err(FilesError::Missing(named(alloc, group)?)),
    }
}

/// The text of the file that a group takes in.
fn text_for<'a>(
    alloc: Global,
    files: &'a [TextFile],
    group: &Group<'_>,
) -> Result<&'a str, FilesError>
    requires file { ways.takes_file group.now.kind ≡ true }
    requires text { ways.takes_text group.now.kind ≡ true }
    ensures ok { IfOk result (IsTextOf files.now (bytes_said group.now.name)) }
    ensures err { IfErr result
        (WriteFails files.now (bytes_said group.now.name) group.now.kind group.now.at) }
{
    let bytes = bytes_for(alloc, files, group)?;
    match str::from_utf8(behind_mark(bytes)) {
        Ok(text) => Ok(text),
        Err(_) => Err(FilesError::NotUtf8(named(alloc, group)?)),
    }
}

/// What a group of this type takes of a file's text.
fn said_of<'a>(alloc: Global, kind: Way, text: &'a str) -> Result<Option<Said<'a>>, NoMemory>
    ensures { IfOk result
        (λ o. option_map (λ s. bytes_said s) o ≡ spec.said_of kind text.now) }
{
    let rules = match kind {
        Way::Rules => rules_in(alloc, text)?,
        Way::CollationRules => collation_rules_in(alloc, text)?,
        Way::Dependency | Way::Include | Way::Import => return Ok(Some(Said::Slice(text))),
    };
    match rules {
        Some(rules) => Ok(Some(Said::Built(rules))),
        None => Ok(None),
    }
}

/// The error for a file in which there are none of the rules that a group of this type takes.
fn without_rules(kind: Way, file: FileNamed) -> FilesError
    ensures { IsWithoutRules kind file result }
{
    if kind == Way::CollationRules {
        FilesError::NoCollationRules(file)
    } else {
        FilesError::NoRules(file)
    }
}

/// The string of what a group takes of the text of its file.
fn text_written(alloc: Global, files: &[TextFile], group: &Group<'_>) -> Result<String, FilesError>
    requires file { ways.takes_file group.now.kind ≡ true }
    requires text { ways.takes_text group.now.kind ≡ true }
    ensures ok { IfOk result (λ w. (inside : List ℕ) → spec.Written files.now inside
        (bytes_said group.now.name) group.now.kind (string_bytes w)) }
    ensures err { IfErr result
        (WriteFails files.now (bytes_said group.now.name) group.now.kind group.now.at) }
{
    let text = text_for(alloc, files, group)?;
    match said_of(alloc, group.kind, text)? {
        Some(taken) => Ok(string_saying(alloc, said(&taken))?),
        None => Err(without_rules(group.kind, named(alloc, group)?)),
    }
}

/// What is written for a group, given what stands between its braces.
pub(crate) fn written(
    alloc: Global,
    files: &[TextFile],
    group: &Group<'_>,
    inside: &str,
) -> Result<String, FilesError>
    ensures ok { IfOk result (λ w. spec.Written files.now inside.now
        (bytes_said group.now.name) group.now.kind (string_bytes w)) }
    ensures err { IfErr result
        (WriteFails files.now (bytes_said group.now.name) group.now.kind group.now.at) }
{
    match group.kind {
        Way::Dependency => Ok(string_of(alloc, inside)?),
        Way::Import => Ok(binary_of(alloc, bytes_for(alloc, files, group)?)?),
        Way::Include | Way::Rules | Way::CollationRules => text_written(alloc, files, group),
    }
}
