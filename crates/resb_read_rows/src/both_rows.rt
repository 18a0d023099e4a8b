//! A type of a user's own at the root of files, in a map and in a list.
//! The type and its proof are in `both`, the tests in `rows`.
use crate::answers::Answer;
use crate::both::Both;
use crate::files::file_of;
use resb_format::BinaryDeserializerError;
use resb_read::from_bytes_counted;
use std::alloc::Global;
use std::collections::BTreeMap;
use std::fmt::Debug;

/// Files, and what is read of each as a `Both`, with its count.
pub(crate) const ALONE: &str = "\
NUMBERS => 3 Both { i: -1, v: [1, -1] };
TWO_ENTRIES => Unknown error: another field;
20000000 7 8 9 9 0 0 9 aaaa0000 => Unknown error: a field is missing;
2000000a 7 9 c c 1 0 a aaaa0069 aaaa0000 200001 7fffffff => Unknown error: a field is missing;
2000000d 7 a 12 12 3 0 b 760069 aaaa0077 aaaa0000 1 1 200003 240022 7fffffff e000000b 70000005 =>
    Unknown error: more fields than two;
2000000c 7 9 10 10 2 0 a 760069 aaaa0000 1 1 200002 aaaa0022 70008000 e000000a =>
    Unknown error: number out of range;
";

/// The root is a table of p = a table of i = -1 and v = (1, -1), and q = a table of i = 2 and v =
/// ().
pub(crate) const MAP: &str = "\
20000016 7 a 1a 1a 2 0 b 690070 710076 aaaa0000 2 1 ffffffff 220002 aaaa0024 7fffffff e000000b
  220002 aaaa0024 70000002 e0000000 200002 aaaa0026 2000000e 20000012 =>
    7 {\"p\": Both { i: -1, v: [1, -1] }, \"q\": Both { i: 2, v: [] }};
";

/// The root is a table of a = the array of two such tables.
pub(crate) const LIST: &str = "\
20000019 7 a 1b 1b 2 0 b 690061 aaaa0076 aaaa0000 2 1 ffffffff 220002 aaaa0024 7fffffff e000000b
  220002 aaaa0024 70000002 e0000000 2 2000000e 20000012 200001 80000016 =>
    8 {\"a\": [Both { i: -1, v: [1, -1] }, Both { i: 2, v: [] }]};
";

/// The answer of a value and its count.
fn answer<T: Debug + Drop>(
    alloc: Global,
    read: Result<(T, usize), BinaryDeserializerError>,
) -> Answer {
    let (value, count) = read?;
    Ok(format!(in alloc; "{count} {value:?}")?)
}

/// The answer for a file that is read as the type.
pub(crate) fn answer_alone(alloc: Global, words: &str) -> Answer {
    let bytes = file_of(alloc, words)?;
    answer(alloc, from_bytes_counted::<Both>(alloc, &bytes))
}

/// The answer for a file that is read as a map of the type.
pub(crate) fn answer_in_map(alloc: Global, words: &str) -> Answer {
    let bytes = file_of(alloc, words)?;
    answer(
        alloc,
        from_bytes_counted::<BTreeMap<&str, Both>>(alloc, &bytes),
    )
}

/// The answer for a file that is read as a map of lists of the type.
pub(crate) fn answer_in_list(alloc: Global, words: &str) -> Answer {
    let bytes = file_of(alloc, words)?;
    answer(
        alloc,
        from_bytes_counted::<BTreeMap<&str, Vec<Both>>>(alloc, &bytes),
    )
}
