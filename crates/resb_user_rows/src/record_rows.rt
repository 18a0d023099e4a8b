//! Records that are read from files, and numbers that are looked up by their keys: what a text can
//! say, files that no text has (equal keys, keys in any order, keys that can't be read), and files
//! that are made to take time. The records themselves are in `shapes`, the tests in `rows`.
use crate::shapes::{Point, PointFields, Shape, ShapeFields};
use crate::zone_rows::file_of;
use resb::binary::{
    BinaryDeserializerError, Cursor, Deserialize, SortedTable, TableView, Walk, from_bytes_counted,
};
use resb::fields::Table;
use resb::{Compile, TextForm};
use std::alloc::Global;
use std::collections::BTreeMap;
use std::fmt::Debug;
use std::test::Fail;

/// What is read of texts, with its count: 1 for a table, 1 for each of its entries, and what its
/// fields take.
pub(crate) const RECORDS: &str = r#"point of r{x:int{1}y:int{2}} => 5 Point { x: 1, y: 2 };
point of r{x:int{-1}} => 3 Point { x: -1, y: 0 };
point of r{n{"m"}x:int{7}xx:int{9}y:int{8}zz:array{"x"}} => 8 Point { x: 7, y: 8 };
point of r{y:int{2}} => Unknown error: field missing;
point of r{} => Unknown error: field missing;
point of r{x{"1"}} => Unknown error: value cannot be read here;
point of r{x:int{1}y{"2"}}
  => Resource did not match expected data type: expected integer resource;
points of p{a{x:int{1}}b{x:int{2}y:int{3}}}
  => 9 {"a": Point { x: 1, y: 0 }, "b": Point { x: 2, y: 3 }};
points of p{a{x:int{1}}b:int{2}}
  => Resource did not match expected data type: expected table resource;
lists of p{a:array{:table{x:int{1}} :table{y:int{4}x:int{5}}}}
  => 10 {"a": [Some(Point { x: 1, y: 0 }), Some(Point { x: 5, y: 4 })]};
lists of p{a:array{:table{x:int{1}} :table{y:int{4}}}} => Unknown error: field missing;
shape of s{at{x:int{1}}pairs:intvector{100,1,200,-2}sizes{a:int{5}b:int{6}}}
  => 11 Point { x: 1, y: 0 } [I32Pair(100, 1), I32Pair(200, -2)] {"a": 5, "b": 6} None;
shape of s{more:array{:table{x:int{2}}}at{x:int{1}}pairs:intvector{}sizes:table{}}
  => 14 Point { x: 1, y: 0 } [] {} Some([Point { x: 2, y: 0 }]);
shape of s{at{y:int{1}}pairs:intvector{}sizes:table{}} => Unknown error: field missing;
shape of s{at{x:int{1}}sizes:table{}} => Unknown error: field missing;
shape of s{at{x:int{1}}pairs:intvector{1,2,3}sizes:table{}} => Unknown error: Wrong length;
names a b c d e f g of r{a:int{1}c:int{3}e:int{5}g:int{7}}
  => 4 ascending, a 1, b none, c 3, d none, e 5, f none, g 7;
names a ab abc é z of r{ab:int{2}z:int{4}"é":int{3}}
  => 3 ascending, a none, ab 2, abc none, é 3, z 4;
names a of r{} => 0 ascending, a none;
names a of r{a:int{1}b{"x"}} => 2 ascending, a 1;
"#;

/// What is read of files that no text has. Each is a table: x = 1, x = 2, y = 3; then y = 2, x = 1;
/// then 1 at a key that is no UTF-8, x = 7, 2 at a key that doesn't end, 3 at one behind the keys.
pub(crate) const UNWRITTEN: &str = "\
point of 2000000a 7 9 f f 3 0 a 790078 aaaa0000 200003 220020 70000001 70000002 70000003
  => 6 Point { x: 2, y: 3 };
names x y z of 2000000a 7 9 f f 3 0 a 790078 aaaa0000 200003 220020 70000001 70000002 70000003
  => 3 in any order, x 2, y 3, z none;
point of 2000000a 7 9 e e 2 0 a 790078 aaaa0000 220002 aaaa0020 70000002 70000001
  => 5 Point { x: 1, y: 2 };
names x y z of 2000000a 7 9 e e 2 0 a 790078 aaaa0000 220002 aaaa0020 70000002 70000001
  => 2 in any order, x 1, y 2, z none;
point of 2000000b 7 a 12 12 4 0 b 7800ff 79797979 aaaa0000 200004 240022 aaaa0030
  70000001 70000007 70000002 70000003 => 6 Point { x: 7, y: 0 };
names x yyyy y of 2000000b 7 a 12 12 4 0 b 7800ff 79797979 aaaa0000 200004 240022 aaaa0030
  70000001 70000007 70000002 70000003 => 4 in any order, x 7, yyyy none, y none;
";

/// A map of a list of so many members, all of which are one table of so many entries with the key
/// `x`; and a table of so many entries, whose keys are the ends of one key of so many characters,
/// of which the last alone is `x`. The budget of 6 members and 20 entries is 134; that of the long
/// key doesn't pay for reading each of its ends.
pub(crate) const SHARED: &str = "\
lists of 6 members, 20 entries => 134 {\"x\": [Some(Point { x: 1, y: 0 }), \
  Some(Point { x: 1, y: 0 }), Some(Point { x: 1, y: 0 }), Some(Point { x: 1, y: 0 }), \
  Some(Point { x: 1, y: 0 }), Some(Point { x: 1, y: 0 })]};
lists of 7 members, 20 entries => Invalid resource bundle data: resource budget spent;
lists of 125000 members, 62500 entries => Invalid resource bundle data: resource budget spent;
point of 500000 letters, 62500 entries => 62502 Point { x: 1, y: 0 };
names x of 500000 letters, 62500 entries
  => 62500 Invalid resource bundle data: resource budget spent;
";

/// The line of what a row asks for, of its file.
pub(crate) fn line_of_record(alloc: Global, input: &str) -> Result<String, Fail> {
    let (asked, source) = input.split_once(" of ").ok_or("a row without a file")?;
    let file = file_of_source(alloc, source)?;
    match asked.split_once(' ').unwrap_or((asked, "")) {
        ("point", _) => line(
            alloc,
            from_bytes_counted::<Table<Point, PointFields>>(alloc, &file),
        ),
        ("points", _) => line(
            alloc,
            from_bytes_counted::<BTreeMap<&str, Table<Point, PointFields>>>(alloc, &file),
        ),
        ("lists", _) => line(
            alloc,
            from_bytes_counted::<BTreeMap<&str, Vec<Option<Table<Point, PointFields>>>>>(
                alloc, &file,
            ),
        ),
        ("shape", _) => line_of_shape(alloc, &file),
        (_, names) => line_of_names(alloc, &file, names),
    }
}

/// The file of a row: a text's, or one of words, or one of a kind and two numbers.
fn file_of_source(alloc: Global, source: &str) -> Result<Vec<u8>, Fail> {
    if source.contains('{') {
        return Ok(Compile::new(TextForm::Plain).text(alloc, source)?);
    }
    let Some((first, second)) = source.split_once(", ") else {
        return file_of_digits(alloc, source);
    };
    let (count, kind) = first.split_once(' ').ok_or("a row without a kind")?;
    let (entries, _) = second.split_once(' ').ok_or("a row without entries")?;
    let (count, entries) = (count.parse::<u32>()?, entries.parse::<u32>()?);
    match kind {
        "members" => shared_table(alloc, count, entries),
        _ => ends_of_a_key(alloc, count, entries),
    }
}

/// The file of words that stand as hex digits.
fn file_of_digits(alloc: Global, digits: &str) -> Result<Vec<u8>, Fail> {
    let mut words = Vec::new(alloc);
    for word in digits.split_whitespace() {
        words.push(u32::from_str_radix(word, 16)?)?;
    }
    Ok(file_of(alloc, &words)?)
}

/// A table of one entry, a list of so many members, each of which is a table of so many entries.
fn shared_table(alloc: Global, members: u32, entries: u32) -> Result<Vec<u8>, Fail> {
    let list = entries.wrapping_mul(2).wrapping_add(10);
    let table = list.wrapping_add(members).wrapping_add(1);
    let end = table.wrapping_add(2);
    let root = table.wrapping_add(0x2000_0000);
    let mut words = Vec::from_slice(alloc, &[root, 7, 9, end, end, entries, 0, 9, 0xaaaa_0078])?;
    words.push(entries)?;
    for _ in 0..entries {
        words.push(0x20)?;
    }
    for _ in 0..entries {
        words.push(0x7000_0001)?;
    }
    words.push(members)?;
    for _ in 0..members {
        words.push(0x4000_0009)?;
    }
    words.extend_from_slice(&[0x0020_0001, list.wrapping_add(0x8000_0000)])?;
    Ok(file_of(alloc, &words)?)
}

/// A table of so many entries, whose keys are the ends of a key of so many letters `w` and an `x`.
/// The letters are a multiple of four.
fn ends_of_a_key(alloc: Global, letters: u32, entries: u32) -> Result<Vec<u8>, Fail> {
    let keys_end = (letters / 4).wrapping_add(9);
    let end = entries
        .wrapping_mul(2)
        .wrapping_add(keys_end)
        .wrapping_add(1);
    let root = keys_end.wrapping_add(0x4000_0000);
    let mut words = Vec::from_slice(alloc, &[root, 7, keys_end, end, end, entries, 0, keys_end])?;
    for _ in 0..letters / 4 {
        words.push(0x7777_7777)?;
    }
    words.extend_from_slice(&[0xaaaa_0078, entries])?;
    for number in 1..entries {
        words.push(number.wrapping_add(31))?;
    }
    words.push(letters.wrapping_add(32))?;
    for _ in 0..entries {
        words.push(0x7000_0001)?;
    }
    Ok(file_of(alloc, &words)?)
}

/// The line of a value and its count, or of why it is refused.
fn line<T: Debug + Drop>(
    alloc: Global,
    read: Result<(T, usize), BinaryDeserializerError>,
) -> Result<String, Fail> {
    match read {
        Ok((value, count)) => Ok(format!(in alloc; "{count} {value:?}")?),
        Err(error) if error.is_out_of_memory() => Err(error)?,
        Err(error) => Ok(format!(in alloc; "{error}")?),
    }
}

/// The line of a shape.
fn line_of_shape(alloc: Global, file: &[u8]) -> Result<String, Fail> {
    match from_bytes_counted::<Table<Shape<'_>, ShapeFields<'_>>>(alloc, file) {
        Ok((table, count)) => {
            let shape = &table.0;
            let mut pairs = Vec::new(alloc);
            for number in 0..shape.pairs.len() {
                pairs.push(shape.pairs.item(number))?;
            }
            let (at, sizes, more) = (&shape.at, &shape.sizes, &shape.more);
            Ok(format!(in alloc; "{count} {at:?} {pairs:?} {sizes:?} {more:?}")?)
        }
        Err(error) if error.is_out_of_memory() => Err(error)?,
        Err(error) => Ok(format!(in alloc; "{error}")?),
    }
}

/// The number at a name, by one search and, where there is one, by the other.
fn number_at(
    alloc: Global,
    table: TableView<'_>,
    sorted: Option<SortedTable<'_>>,
    name: &str,
    walk: &mut Walk,
) -> Result<Option<i32>, Fail> {
    let found = table.value::<i32>(alloc, name, walk)?;
    let Some(sorted) = sorted else {
        return Ok(found);
    };
    let halved = match sorted.get(name) {
        Some(at) => Some(i32::deserialize(alloc, at, walk)?),
        None => None,
    };
    if found != halved {
        return Err("the searches differ")?;
    }
    Ok(found)
}

/// The line of the numbers at these names, with how many entries there are and how they stand.
fn line_of_names(alloc: Global, file: &[u8], names: &str) -> Result<String, Fail> {
    let (root, mut walk) = Cursor::root(file)?;
    let table = root.read_table(&mut walk)?;
    let count = table.len();
    let sorted = match table.sorted_within(&mut walk) {
        Ok(sorted) => sorted,
        Err(error) => return Ok(format!(in alloc; "{count} {error}")?),
    };
    let order = if sorted.is_some() {
        "ascending"
    } else {
        "in any order"
    };
    let mut line = format!(in alloc; "{count} {order}")?;
    for name in names.split(' ') {
        let said = match number_at(alloc, table, sorted, name, &mut walk)? {
            Some(number) => format!(in alloc; ", {name} {number}")?,
            None => format!(in alloc; ", {name} none")?,
        };
        line.push_str(said.as_str())?;
    }
    Ok(line)
}
