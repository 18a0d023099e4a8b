//! Files of words, as the rows name them. Words stand as hex digits.
//! What is read of them is in the other modules.
use std::alloc::Global;
use std::test::Fail;

/// The 32 bytes that a written file begins with.
const HEADER: [u8; 32] = [
    0x20, 0, 0xda, 0x27, 0x14, 0, 0, 0, 0, 0, 2, 0, 0x52, 0x65, 0x73, 0x42, 2, 0, 0, 0, 1, 4, 0, 0,
    0, 0, 0, 0, 0, 0, 0, 0,
];

/// The words that a row names, or that stand in it.
fn words_of(row: &str) -> &str {
    match row {
        // an integer, all of whose 28 bits are set
        "INTEGER" => "7fffffff 7 8 9 9 0 0 9 aaaa0000",
        // the string "a"
        "TEXT_A" => "60000001 7 8 a a 0 0 a 610000 aaaa0000",
        // a table of a = the array of "" and "x"
        "TEXTS" => "2000000c 7 9 e e 1 0 c aaaa0061 780000 20000 10000 200001 90000003",
        // a table of d = the bytes 0 and 255
        "BYTES" => "2000000d 7 9 f f 1 0 a aaaa0064 aaaa0000 aaaaaaaa 2 aaaaff00 200001 1000000b",
        // a table of a = "x" and c = "yz"
        "TWO" => "50000006 7 9 f f 2 0 f 630061 780000 790000 7a 200002 10022 aaaa0003",
        // the same, where c stands before a
        "DESCENDING" => "50000006 7 9 f f 2 0 f 630061 780000 790000 7a 220002 10020 aaaa0003",
        // a table of a = "x" and a = "yz"
        "EQUAL" => "50000006 7 9 f f 2 0 f 630061 780000 790000 7a 200002 10020 aaaa0003",
        // the table of two entries, cut behind the first position
        "CUT" => "50000006 7 9 f f 2 0 f 630061 780000 790000 7a 200002",
        // a table of i = -1 and v = the vector of 1 and -1
        "NUMBERS" => {
            "2000000d 7 9 11 11 2 0 a 760069 aaaa0000 2 1 ffffffff 200002 aaaa0022 7fffffff \
            e000000a"
        }
        // a table of a = 5, with key positions of 32 bits
        "WIDE" => "40000009 7 9 c c 1 0 9 aaaa0061 1 20 70000005",
        words => words,
    }
}

/// The bytes of these words, or of those that the row names, behind a written header.
pub(crate) fn file_of(alloc: Global, row: &str) -> Result<Vec<u8>, Fail> {
    let mut bytes = Vec::from_slice(alloc, &HEADER)?;
    for word in words_of(row).split_whitespace() {
        let word = u32::from_str_radix(word, 16)?;
        bytes.extend_from_slice(&word.to_le_bytes())?;
    }
    Ok(bytes)
}
