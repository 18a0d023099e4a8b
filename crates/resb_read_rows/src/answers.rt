//! What reading a file answers, as a line of text: the count and the tree, or why it is refused.
//! Rows compare such lines. Want of memory is a refusal too, which no row wants.
use resb_format::{BinaryDeserializerError, Resource};
use resb_read::{File, from_bytes, from_bytes_counted};
use std::alloc::{AllocError, Global};
use std::fmt::Write;

/// A line, or why what it would speak of is refused.
pub(crate) type Answer = Result<String, BinaryDeserializerError>;

/// A line that says of a refusal why it is one.
pub(crate) type Line = Result<String, AllocError>;

/// Adds texts.
pub(crate) fn push_all(line: &mut String, texts: &[&str]) -> Result<(), AllocError> {
    for text in texts {
        line.push_str(text)?;
    }
    Ok(())
}

/// Adds a tree of few levels: `"text"`, `@"path"`, `[item, ..]`, `{key=item, ..}`, `<bytes>`,
/// `number`, `(numbers)`.
fn push_tree(line: &mut String, tree: &Resource<'_>) -> Result<(), AllocError> {
    match tree {
        Resource::String(text) => push_all(line, &["\"", text.as_str(), "\""]),
        Resource::Alias(path) => push_all(line, &["@\"", path.as_str(), "\""]),
        Resource::Array(items) => {
            line.push_str("[")?;
            for item in items {
                push_tree(line, item)?;
                line.push_str(",")?;
            }
            line.push_str("]")
        }
        Resource::Table(table) => {
            line.push_str("{")?;
            for (key, item) in table {
                push_all(line, &[key.as_str(), "="])?;
                push_tree(line, item)?;
                line.push_str(",")?;
            }
            line.push_str("}")
        }
        Resource::Binary(bytes) => push_numbers(line, "<", bytes.as_slice(), ">"),
        Resource::Integer(number) => push_number(line, u32::from(*number)),
        Resource::IntVector(numbers) => push_numbers(line, "(", numbers.as_slice(), ")"),
    }
}

/// Adds a number.
fn push_number(line: &mut String, number: u32) -> Result<(), AllocError> {
    write!(line, "{number}")
}

/// Adds numbers between two marks.
fn push_numbers<N: Copy + Into<u32>>(
    line: &mut String,
    before: &str,
    numbers: &[N],
    behind: &str,
) -> Result<(), AllocError> {
    line.push_str(before)?;
    for number in numbers {
        push_number(line, (*number).into())?;
        line.push_str(",")?;
    }
    line.push_str(behind)
}

/// The line of a tree.
pub(crate) fn shown(alloc: Global, tree: &Resource<'_>) -> Line {
    let mut line = String::new(alloc);
    push_tree(&mut line, tree)?;
    Ok(line)
}

/// The line of a count and a tree.
pub(crate) fn line_of_tree(alloc: Global, count: usize, tree: &Resource<'_>) -> Line {
    let mut line = format!(in alloc; "{count} ")?;
    push_tree(&mut line, tree)?;
    Ok(line)
}

/// The line of a count and the tree that is read.
pub(crate) fn line_of_read(
    alloc: Global,
    count: usize,
    read: Result<Resource<'_>, BinaryDeserializerError>,
) -> Answer {
    let tree = read?;
    Ok(line_of_tree(alloc, count, &tree)?)
}

/// The line of an answer.
pub(crate) fn said(alloc: Global, answer: Answer) -> Line {
    match answer {
        Ok(line) => Ok(line),
        Err(error) => format!(in alloc; "{error}"),
    }
}

/// The line that two calls give.
pub(crate) fn same(alloc: Global, one: Line, other: Line) -> Line {
    let (one, other) = (one?, other?);
    if one == other {
        Ok(one)
    } else {
        format!(in alloc; "{one}, but by another call {other}")
    }
}

/// The line of what two calls answer.
pub(crate) fn agreed(alloc: Global, one: Answer, other: Answer) -> Line {
    same(alloc, said(alloc, one), said(alloc, other))
}

/// The answer for a file, by `from_bytes_counted`.
fn answer_by_counted(alloc: Global, bytes: &[u8]) -> Answer {
    let (tree, count) = from_bytes_counted::<Resource<'_>>(alloc, bytes)?;
    Ok(line_of_tree(alloc, count, &tree)?)
}

/// The count of a file that is read alone.
pub(crate) fn count_of(alloc: Global, bytes: &[u8]) -> Result<usize, BinaryDeserializerError> {
    File::alone(bytes)?.count(alloc)
}

/// The answer for a file, by `from_bytes` and its count.
fn answer_by_count(alloc: Global, bytes: &[u8]) -> Answer {
    let count = count_of(alloc, bytes).unwrap_or(0);
    line_of_read(alloc, count, from_bytes::<Resource<'_>>(alloc, bytes))
}

/// The answer for a file that is read alone, by its count and its tree.
pub(crate) fn answer_by_tree(alloc: Global, bytes: &[u8]) -> Answer {
    let file = File::alone(bytes)?;
    let count = file.count(alloc)?;
    line_of_read(alloc, count, file.tree(alloc, None))
}

/// The line of a file, which is the same by each of the calls that read a whole tree.
pub(crate) fn line_of(alloc: Global, bytes: &[u8]) -> Line {
    let tree = said(alloc, answer_by_tree(alloc, bytes));
    let others = agreed(
        alloc,
        answer_by_counted(alloc, bytes),
        answer_by_count(alloc, bytes),
    );
    same(alloc, tree, others)
}

/// What stands before a mark and behind it, which is nothing where the mark isn't there.
pub(crate) fn halves<'a>(text: &'a str, mark: &str) -> (&'a str, &'a str) {
    text.split_once(mark).unwrap_or((text, ""))
}

/// What a row asks for, and the answer that it wants.
pub(crate) fn parts(row: &str) -> (&str, &str) {
    let (input, said) = halves(row, " =>");
    (input, said.trim_start())
}

/// The number of decimal digits, and 0 for other texts.
pub(crate) fn number_of(digits: &str) -> usize {
    digits.parse::<usize>().unwrap_or(0)
}

/// What stands beside a name; none where nothing does.
pub(crate) fn named<T: Copy>(table: &[(&str, T)], name: &str) -> Option<T> {
    for (it, value) in table {
        if *it == name {
            return Some(*value);
        }
    }
    None
}

/// The digest of no lines.
pub(crate) const BASIS: u64 = 0xcbf2_9ce4_8422_2325;

/// The digest of the lines so far and one more (FNV-1a of 64 bits, a line feed behind each line).
pub(crate) fn digest(before: u64, line: &str) -> u64 {
    let mut sum = before;
    for byte in line.bytes() {
        sum = (sum ^ u64::from(byte)).wrapping_mul(0x0100_0000_01b3);
    }
    (sum ^ 10).wrapping_mul(0x0100_0000_01b3)
}
