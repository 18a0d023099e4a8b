//! Files, and the count and the tree that each denotes, or why it is refused. A row ends with a `;`
//! and a line feed. The number in it is the digest of the lines of its file cut at each length, and
//! then with each byte changed to 0, 1, 0x7f and 0xff. The tests are in `rows`.
use crate::answers::{Answer, BASIS, digest, halves, line_of, number_of};
use crate::files::{cut, file_of, with_byte};
use std::alloc::{AllocError, Global};

pub(crate) const FILES: &str = "\
INTEGER | 57527c573832488d => 1 268435455;
TEXT_A | 952d7bc6cb29d296 => 1 \"a\";
TEXTS | 3c94aec31f048231 => 4 {a=[\"\",\"x\",],};
BYTES | 7771b247b414f775 => 2 {d=<0,255,>,};
ONE_ENTRY | 780da8945a13eb92 => 2 {a=\"2\",};
TWO_ENTRIES | a6264150125c4690 => 3 {a=\"x\",c=\"yz\",};
NUMBERS | 854fe31a7e0a5f22 => 3 {i=268435455,v=(1,4294967295,),};
WIDE_TABLE | f1f935d4df9485ec => 2 {a=5,};
THREE_NUMBERS | 1d0ca0b81761628f => 2 {v=(1,2,3,),};
20000000 7 8 9 9 0 1 9 aaaa0000 | ae531ce90887c5b3 => 1 {};
90000006 7 8 d d 0 0 d dc030000 610000 62 10002 aaaa0003 | 1e33343ec559253e =>
    3 [\"\0ab\",\"ab\",];
20000009 7 8 9 9 0 0 9 aaaa0000 0 | c1205a0a91281c24 => 1 {};
20000009 7 8 9 9 0 0 9 aaaa0000 | 6b5c261933abf294 =>
    Invalid resource bundle data: unexpected end of input;
40000000 7 8 9 9 0 0 9 aaaa0000 | ae531ce90887c5b3 => 1 {};
40000009 7 8 9 9 0 0 9 aaaa0000 | 6b5c261933abf294 =>
    Invalid resource bundle data: unexpected end of input;
a0000000 7 8 9 9 0 0 9 aaaa0000 | 015924a140afedee =>
    Invalid resource bundle data: unrecognized value for ResourceReprType;
1 7 8 9 9 0 0 9 aaaa0000 | 29963f2ea68cb10b =>
    Unsupported resource bundle format: resource type is not supported;
30000000 7 8 9 9 0 0 9 aaaa0000 | d5a28710006ea8aa =>
    Unsupported resource bundle format: resource type is not supported;
80000009 7 8 b b 0 0 9 aaaa0000 1 80000009 | 3f058d1f778f0eec =>
    Invalid resource bundle data: resource budget spent;
60000001 7 8 9 9 0 0 9 dc000000 | 25c48d0ab21f67d1 => 1 \"\";
60000001 7 8 9 9 0 0 9 dc010000 | 8db78e76dcedad34 =>
    Invalid resource bundle data: unexpected end of input;
60000001 7 8 9 9 0 0 9 dfef0000 | b9b3caad5afdc287 =>
    Invalid resource bundle data: unexpected end of input;
60000001 7 8 9 9 0 0 9 610000 | 480c3264c4bf22d6 =>
    Invalid resource bundle data: unterminated string with implicit length;
60000003 7 8 9 9 0 0 9 dc000000 | 6175ccd9451d1c81 =>
    Invalid resource bundle data: unexpected end of input;
60000001 7 8 b b 0 0 b dfff0000 10000 61 | 9e38fa7d13d939ad => 1 \"a\";
60000001 7 8 a a 0 0 a d8000000 0 | 4925d7ddd5fd30ef =>
    Invalid resource bundle data: string resource is not valid UTF-16;
60000001 7 8 9 a 0 0 9 dc010000 61 | 58a1883e67114504 =>
    Invalid resource bundle data: unexpected end of input;
90000001 7 8 9 9 0 0 9 10000 | d3282bdb163dd9f2 =>
    Invalid resource bundle data: unexpected end of input;
50000003 7 9 c c 1 0 c aaaa0061 320000 10000 10022 | 5fb51f00160fe9a8 =>
    Invalid resource bundle data: unterminated key string;
50000006 7 9 f f 2 0 f 630061 780000 790000 7a 250002 10022 aaaa0003 | eaba0853543d4bf0 =>
    Invalid resource bundle data: unexpected end of data while deserializing key;
50000006 7 9 f f 2 0 f 630061 780000 790000 7a 2 10022 aaaa0003 | 38b3da94dc302ab1 =>
    3 {\u{6}=\"x\",c=\"yz\",};
40000009 7 9 c c 1 0 9 aaaa0061 1 20 | f19b1b71f4029451 =>
    Invalid resource bundle data: unexpected end of input;
40000009 7 9 c c 1 0 9 aaaa0061 1 80000000 70000005 | b43626d44dc05082 =>
    Invalid resource bundle data: unexpected end of data while deserializing key;
50000003 7 9 c c 1 0 c aaaa00ff 320000 10000 10020 | 8f19b7ca4d9ac956 =>
    Invalid resource bundle data: key string is not valid UTF-8;
2000000a 7 9 e e 2 0 9 aaaa006b aaaaaaaa 200002 aaaa0020 70000001 70000002 | fe1cfae520fdc0f1 =>
    3 {k=2,};
50000005 7 9 e e 2 0 e 630061 780000 7a0079 20000 220020 20001 | d15f8c6f39c9d33d =>
    3 {a=\"xyz\",c=\"yz\",};
90000058 7 8 36 36 0 0 36 dc290000 610061 610061 610061 610061 610061 610061 610061 610061
  610061 610061 610061 610061 610061 610061 610061 610061 610061 610061 610061 610061 61 61dc2a
  610061 610061 610061 610061 610061 610061 610061 610061 610061 610061 610061 610061 610061
  610061 610061 610061 610061 610061 610061 610061 61 10003 2a002c | f938369bdb31b3b3 =>
    4 [\"aaaaaaaaaaaaaaaaaaaaaaaaaaaaaaaaaaaaaaaaa\",\"aaaaaaaaaaaaaaaaaaaaaaaaaaaaaaaaaaaaaaaaa\
    a\",\"a\",];
60000001 7 8 32 32 0 0 32 dc500000 de00d83d de00d83d de00d83d de00d83d de00d83d de00d83d
  de00d83d de00d83d de00d83d de00d83d de00d83d de00d83d de00d83d de00d83d de00d83d de00d83d
  de00d83d de00d83d de00d83d de00d83d de00d83d de00d83d de00d83d de00d83d de00d83d de00d83d
  de00d83d de00d83d de00d83d de00d83d de00d83d de00d83d de00d83d de00d83d de00d83d de00d83d
  de00d83d de00d83d de00d83d de00d83d aaaa0000 | 78860bc1e5dae0f1 =>
    1 \"😀😀😀😀😀😀😀😀😀😀😀😀😀😀😀😀😀😀😀😀😀😀😀😀😀😀😀😀😀😀😀😀😀😀😀😀😀😀😀😀\";
90000005 7 8 d d 0 0 d 790000 780000 30000 10003 aaaa0001 | 8999e6214445a7d1 =>
    4 [\"x\",\"y\",\"y\",];
90000007 7 8 e e 0 0 e 790000 61 610078 30000 10004 aaaa0002 | 606dbd307cbca441 =>
    4 [\"xa\",\"ya\",\"a\",];
9000000a 7 8 f f 0 0 f dc020000 620000 dc030000 61 62 50003 30001 | 94cb71a128ce0161 =>
    4 [\"a\0b\",\"\0b\",\"b\",];
20000011 7 9 15 15 2 0 a 650064 aaaa0000 aaaaaaaa 1 aaaaaa00 aaaaaaaa aaaaaaaa 1 aaaaaa00 200002
  aaaa0022 1000000b 1000000f | 99fde69aa5c8ca64 =>
    3 {d=<0,>,e=<0,>,};
80000009 7 8 45 45 0 0 9 aaaa0000 2 8000000c 8000000c 2 8000000f 8000000f 2 80000012 80000012 2
  80000015 80000015 2 80000018 80000018 2 8000001b 8000001b 2 8000001e 8000001e 2 80000021
  80000021 2 80000024 80000024 2 80000027 80000027 2 8000002a 8000002a 2 8000002d 8000002d 2
  80000030 80000030 2 80000033 80000033 2 80000036 80000036 2 80000039 80000039 2 8000003c
  8000003c 2 8000003f 8000003f 2 80000042 80000042 2 70000000 70000000 | 1d9a0f8371866b4d =>
    Invalid resource bundle data: resource budget spent;
8000000a 7 8 30 30 0 0 a 20000 0 25 90000001 90000001 90000001 90000001 90000001 90000001
  90000001 90000001 90000001 90000001 90000001 90000001 90000001 90000001 90000001 90000001
  90000001 90000001 90000001 90000001 90000001 90000001 90000001 90000001 90000001 90000001
  90000001 90000001 90000001 90000001 90000001 90000001 90000001 90000001 90000001 90000001
  90000001 | 582736cd0caf2694 =>
    112 [[\"\",\"\",],[\"\",\"\",],[\"\",\"\",],[\"\",\"\",],[\"\",\"\",],[\"\",\"\",],[\"\",\"\
    \",],[\"\",\"\",],[\"\",\"\",],[\"\",\"\",],[\"\",\"\",],[\"\",\"\",],[\"\",\"\",],[\"\",\"\
    \",],[\"\",\"\",],[\"\",\"\",],[\"\",\"\",],[\"\",\"\",],[\"\",\"\",],[\"\",\"\",],[\"\",\"\
    \",],[\"\",\"\",],[\"\",\"\",],[\"\",\"\",],[\"\",\"\",],[\"\",\"\",],[\"\",\"\",],[\"\",\"\
    \",],[\"\",\"\",],[\"\",\"\",],[\"\",\"\",],[\"\",\"\",],[\"\",\"\",],[\"\",\"\",],[\"\",\"\
    \",],[\"\",\"\",],[\"\",\"\",],];
8000000a 7 8 31 31 0 0 a 20000 0 26 90000001 90000001 90000001 90000001 90000001 90000001
  90000001 90000001 90000001 90000001 90000001 90000001 90000001 90000001 90000001 90000001
  90000001 90000001 90000001 90000001 90000001 90000001 90000001 90000001 90000001 90000001
  90000001 90000001 90000001 90000001 90000001 90000001 90000001 90000001 90000001 90000001
  90000001 90000001 | 00e2d36bc10cbd7c =>
    Invalid resource bundle data: resource budget spent;
";

/// How many bytes of the word of a table at the body's end are left, and what is said.
pub(crate) const ENDS: &str = "\
4 => 1 {};
2 => Invalid resource bundle data: unexpected end of input;
0 => Invalid resource bundle data: unexpected end of input;
";

/// The answer for a file of a table without entries, of whose word so many bytes are left.
pub(crate) fn answer_for_end(alloc: Global, left: &str) -> Answer {
    let bytes = file_of(alloc, "20000009 7 8 9 9 0 0 9 aaaa0000 0")?;
    let file = cut(alloc, &bytes, number_of(left).saturating_add(68))?;
    Ok(line_of(alloc, &file)?)
}

/// The answer for a file of these words.
pub(crate) fn answer_for_words(alloc: Global, words: &str) -> Answer {
    let bytes = file_of(alloc, words)?;
    Ok(line_of(alloc, &bytes)?)
}

/// The answer for the file of a row, whose digest is the one of the damaged files.
pub(crate) fn answer_for_file(alloc: Global, row: &str) -> Answer {
    let (words, digits) = halves(row, " | ");
    let sum = digest_of_damage(alloc, words)?;
    let found = format!(in alloc; "{sum:016x}")?;
    if found.as_str() != digits {
        return Ok(format!(in alloc; "damaged files have the digest {found}")?);
    }
    answer_for_words(alloc, words)
}

/// The digest so far, with the line of a file.
fn with_line(alloc: Global, sum: u64, file: Vec<u8>) -> Result<u64, AllocError> {
    let line = line_of(alloc, &file)?;
    Ok(digest(sum, &line))
}

/// The digest of the lines of a file cut at each length.
fn digest_of_fronts(alloc: Global, bytes: &[u8]) -> Result<u64, AllocError> {
    let mut sum = BASIS;
    for length in 0..bytes.len() {
        sum = with_line(alloc, sum, cut(alloc, bytes, length)?)?;
    }
    Ok(sum)
}

/// The digest of the lines of a file cut at each length and changed at each byte.
fn digest_of_damage(alloc: Global, words: &str) -> Result<u64, AllocError> {
    let bytes = file_of(alloc, words)?;
    let mut sum = digest_of_fronts(alloc, &bytes)?;
    for place in 0..bytes.len() {
        for byte in [0u8, 1, 0x7f, 0xff] {
            sum = with_line(alloc, sum, with_byte(alloc, &bytes, place, byte)?)?;
        }
    }
    Ok(sum)
}
