//! Opened files as they are shown: their JSON, written without a tree. The test is in `rows`.
use crate::files::file_of;
use crate::opened_rows::counted;
use resb_json::write_json;
use resb_opened::Ascending;
use std::alloc::Global;
use std::test::Fail;

/// Files, and the JSON of their trees. A file whose keys don't ascend isn't shown.
pub(crate) const SHOWN: &str = "\
INTEGER => -1;
TEXT_A => \"a\";
TEXTS => {\"a\":[\"\",\"x\"]};
BYTES => {\"d\":{\"binary\":\"00ff\"}};
TWO => {\"a\":\"x\",\"c\":\"yz\"};
NUMBERS => {\"i\":-1,\"v\":[1,-1]};
WIDE => {\"a\":5};
DESCENDING => not shown;
EQUAL => not shown;
";

/// The line of a row of these.
pub(crate) fn line_of_shown(alloc: Global, words: &str) -> Result<String, Fail> {
    let bytes = file_of(alloc, words)?;
    let file = counted(alloc, &bytes)?;
    let Some(root) = Ascending::of(file.root()) else {
        return Ok(String::from_str(alloc, "not shown")?);
    };
    let mut json = Vec::new(alloc);
    write_json(alloc, &mut json, root)?;
    Ok(String::from_utf8(json)?)
}
