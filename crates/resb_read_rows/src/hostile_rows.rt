//! Files that are made to take room, time or depth: shared bodies, cycles, many levels and many
//! entries.
//! Small files that are damaged are in `file_rows`, and the tests are in `rows`.
use crate::answers::{Answer, count_of, line_of, same};
use crate::files::{file_of, file_of_many_keys};
use resb_format::{BinaryDeserializerError, Resource};
use resb_read::from_bytes_counted;
use std::alloc::{AllocError, Global};

/// Files of shared bodies, and what is answered: an array of so many arrays of two empty strings
/// and a last word; twenty levels of doubling, also without the last word; an array of so many
/// members, each of which is that array itself, and so much padding, 66 kilobytes in all.
pub(crate) const SHARED: &str = "\
8000000a 7 8 30 30 0 0 a 20000 0 25 90000001*37 =>
    112 [[\"\",\"\",],[\"\",\"\",],[\"\",\"\",],[\"\",\"\",],[\"\",\"\",],[\"\",\"\",],\
    [\"\",\"\",],[\"\",\"\",],[\"\",\"\",],[\"\",\"\",],[\"\",\"\",],[\"\",\"\",],\
    [\"\",\"\",],[\"\",\"\",],[\"\",\"\",],[\"\",\"\",],[\"\",\"\",],[\"\",\"\",],\
    [\"\",\"\",],[\"\",\"\",],[\"\",\"\",],[\"\",\"\",],[\"\",\"\",],[\"\",\"\",],\
    [\"\",\"\",],[\"\",\"\",],[\"\",\"\",],[\"\",\"\",],[\"\",\"\",],[\"\",\"\",],\
    [\"\",\"\",],[\"\",\"\",],[\"\",\"\",],[\"\",\"\",],[\"\",\"\",],[\"\",\"\",],\
    [\"\",\"\",],];
8000000a 7 8 31 31 0 0 a 20000 0 26 90000001*38 =>
    Invalid resource bundle data: resource budget spent;
8000000a 7 8 33 33 0 0 a 20000 0 28 90000001*39 a0000000 =>
    Invalid resource bundle data: resource budget spent;
8000000a 7 8 32 32 0 0 a 20000 0 27 90000001*38 a0000000 =>
    Invalid resource bundle data: unrecognized value for ResourceReprType;
80000009 7 9 9 9 0 0 9 aaaa006b 2,8000000c+3,8000000c+3*19 2 70000000 70000000 =>
    Invalid resource bundle data: resource budget spent;
80000009 7 9 9 9 0 0 9 aaaa006b 2,8000000c+3,8000000c+3*19 2 70000000 =>
    Invalid resource bundle data: unexpected end of input;
80000009 7 9 9 9 0 0 9 aaaa006b 1 80000009 aaaaaaaa*16490 =>
    Invalid resource bundle data: resource budget spent;
80000009 7 9 9 9 0 0 9 aaaa006b 406a 80000009*16490 aaaaaaaa =>
    Invalid resource bundle data: resource budget spent;
";

/// So many arrays or tables in one another, and how many are counted. Their tree is dropped.
pub(crate) const DEEP: &str = "\
80000009 7 9 9 9 0 0 9 aaaa006b 1,8000000b+2*1249999 0 => 1250000;
20000009 7 9 9 9 0 0 9 aaaa006b 200001,2000000b+2*999999 0 => 1000000;
";

/// A table of so many entries of one key, whose last stands, and what is answered.
pub(crate) const WIDE: &str = "\
20000009 7 9 9 9 0 0 9 aaaa006b 20ffff 200020*32767 70000000+1*65535 => 65536 {k=65534,};
";

/// The table of 65536 keys of five digits, and what is answered.
pub(crate) const MANY_KEYS: &str = "\
00000 to 65535 => 65537 {00000=0,00001=0,00002=0, and ,65534=0,65535=0,} in 524296 bytes;
";

/// Files in which so many places lead to one text, and what is answered. All members of an array
/// but the last are a string of 503 pairs; from its third unit on stands another, since the second
/// unit of a pair is a marker. All keys of a table but the last are ends of one of 200 characters,
/// each of two bytes, which begins at byte 32.
pub(crate) const ONE_TEXT: &str = "\
80000200 7 8 5e9 5e9 0 0 200 dfee0000 dc02d800*503 3e8 60000001*999 60000003 =>
    1001 [\"\u{10002}\u{10002}\u{10002}\u{10002}\u{10002}\u{10002} and \
    \u{10002}\u{10002}\",\"\u{10002}\",] in 2012999 bytes;
80000200 7 8 5e9 5e9 0 0 200 dfee0000 dc01d800*503 3e8 60000001*999 60000003 =>
    Invalid resource bundle data: string resource is not valid UTF-16;
80000200 7 8 5e9 5e9 0 0 200 dfee0000 dc01d800*503 3e8 60000001*999 60000000 =>
    1001 [\"\u{10001}\u{10001}\u{10001}\u{10001}\u{10001}\u{10001} and \
    \u{10001}\u{10001}\u{10001}\",\"\",] in 2012995 bytes;
4000006d 7 6d 0 0 0 0 6d a9c3a9c3*100 0 64 20+2*99 e8 70000000*100 =>
    101 {\u{e9}\u{e9}\u{e9}\u{e9}\u{e9}\u{e9}\u{e9}\u{e9}\u{e9}\u{e9}\u{e9}\
    \u{e9}\u{e9} and \u{e9}\u{e9}\u{e9}\u{e9}\u{e9}\u{e9}\u{e9}=0,} in 30404 bytes;
4000006d 7 6d 0 0 0 0 6d a9c3a9c3*100 0 64 20+2*99 e7 70000000*100 =>
    Invalid resource bundle data: key string is not valid UTF-8;
";

/// The line, or of a long one the first 31 and the last 18 bytes, and how many there are.
pub(crate) fn ends_of(alloc: Global, line: String) -> Result<String, AllocError> {
    let length = line.len();
    if length < 1000 {
        return Ok(line);
    }
    let text = line.as_str();
    let first = text.get(..31).unwrap_or("");
    let last = text.get(length - 18..).unwrap_or("");
    format!(in alloc; "{first} and {last} in {length} bytes")
}

/// The answer for the file of a row of these.
pub(crate) fn answer_for_hostile(alloc: Global, words: &str) -> Answer {
    let bytes = file_of(alloc, words)?;
    Ok(ends_of(alloc, line_of(alloc, &bytes)?)?)
}

/// The answer for the table of many keys.
pub(crate) fn answer_for_many_keys(alloc: Global, _: &str) -> Answer {
    let bytes = file_of_many_keys(alloc)?;
    Ok(ends_of(alloc, line_of(alloc, &bytes)?)?)
}

/// The count of a file whose tree is made, and dropped.
fn count_of_tree(alloc: Global, bytes: &[u8]) -> Result<usize, BinaryDeserializerError> {
    let (_, count) = from_bytes_counted::<Resource<'_>>(alloc, bytes)?;
    Ok(count)
}

/// The count of the file of a row of these, which is the same where a tree is made.
pub(crate) fn count_of_deep(alloc: Global, words: &str) -> Answer {
    let bytes = file_of(alloc, words)?;
    let count = count_of(alloc, &bytes)?;
    let counted = count_of_tree(alloc, &bytes)?;
    let one = format!(in alloc; "{count}");
    Ok(same(alloc, one, format!(in alloc; "{counted}"))?)
}
