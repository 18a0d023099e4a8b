//! What is to blame where records, lists and maps are refused: the path from the root, the error,
//! and the field that is missing.
//! The records themselves are in `shapes`, the tests in `rows`.
use crate::shapes::{Point, PointFields, Shape, ShapeFields};
use resb::blame::{Blame, Blames, PathStep, from_bytes_blaming};
use resb::fields::Table;
use resb::{Compile, TextForm};
use std::alloc::Global;
use std::collections::BTreeMap;
use std::fmt::Write;
use std::test::Fail;

/// Texts, and what is to blame in their files where they are read as this.
pub(crate) const BLAMES: &str = r#"point of r{x:int{1}} => read;
point of r{y:int{2}} => Unknown error: field missing: x;
point of r{x{"1"}} => x: Unknown error: value cannot be read here;
point of r{x:int{1}y:array{}}
  => y: Resource did not match expected data type: expected integer resource;
points of p{a{x:int{1}}b:int{2}}
  => b: Resource did not match expected data type: expected table resource;
points of p{a{x:int{1}}b{x:int{2}}c{y:int{3}}} => c: Unknown error: field missing: x;
lists of p{a:array{:table{x:int{1}}}b:array{:table{x:int{1}} :table{y:int{4}}}}
  => b/1: Unknown error: field missing: x;
lists of p{a:int{1}}
  => a: Resource did not match expected data type: expected array resource;
shape of s{at{y:int{1}}pairs:intvector{}sizes:table{}} => at: Unknown error: field missing: x;
shape of s{at{x:int{1}}sizes:table{}} => Unknown error: field missing: pairs;
shape of s{at{x:int{1}}pairs:intvector{1,2,3}sizes:table{}}
  => pairs: Unknown error: Wrong length;
shape of s{at{x:int{1}}pairs:intvector{}sizes{a:int{1}b{"x"}}}
  => sizes/b: Resource did not match expected data type: expected integer resource;
shape of s{at{x:int{1}}pairs:intvector{}sizes:table{}more:array{:table{x:int{1}} :table{}}}
  => more/1: Unknown error: field missing: x;
parts of p{a:array{:table{x:int{1}}}b:array{:table{x:int{1}} :table{y:int{4}}}}
  => key b, number 1, lacks x;
parts of p{a:int{1}} => key a, lacks nothing;
parts of p{a:array{:int{1}}} => key a, number 0, lacks nothing;
"#;

/// Lists of points, by names.
type Lists<'a> = BTreeMap<&'a str, Vec<Option<Table<Point, PointFields>>>>;

/// The line of what a row asks for, of its text's file.
pub(crate) fn line_of_blame(alloc: Global, input: &str) -> Result<String, Fail> {
    let (asked, source) = input.split_once(" of ").ok_or("a row without a text")?;
    let file = Compile::new(TextForm::Plain).text(alloc, source)?;
    match asked {
        "point" => line::<Table<Point, PointFields>>(alloc, &file),
        "points" => line::<BTreeMap<&str, Table<Point, PointFields>>>(alloc, &file),
        "lists" => line::<Lists<'_>>(alloc, &file),
        "parts" => line_of_parts(alloc, &file),
        _ => line::<Table<Shape<'_>, ShapeFields<'_>>>(alloc, &file),
    }
}

/// The line of what is to blame.
fn line<'a, T: Blames<'a>>(alloc: Global, file: &'a [u8]) -> Result<String, Fail> {
    match from_bytes_blaming::<T>(alloc, file, None) {
        Ok(_) => Ok(String::from_str(alloc, "read")?),
        Err(blame) => said(alloc, &blame),
    }
}

/// What a blame prints as, if it isn't want of memory.
fn said(alloc: Global, blame: &Blame<'_, 'static>) -> Result<String, Fail> {
    let error = blame.error();
    if error.is_out_of_memory() {
        return Err(error)?;
    }
    Ok(format!(in alloc; "{blame}")?)
}

/// The steps to what is to blame in lists of points, and the name of the field that it lacks.
fn line_of_parts(alloc: Global, file: &[u8]) -> Result<String, Fail> {
    let blame = match from_bytes_blaming::<Lists<'_>>(alloc, file, None) {
        Ok(_) => return Ok(String::from_str(alloc, "read")?),
        Err(blame) => blame,
    };
    let mut line = String::new(alloc);
    for step in &blame.path(alloc)? {
        match step {
            PathStep::Key(key) => write!(line, "key {key}, ")?,
            PathStep::Number(number) => write!(line, "number {number}, ")?,
        }
    }
    let lacked = blame.field().unwrap_or("nothing");
    write!(line, "lacks {lacked}")?;
    Ok(line)
}
