//! One bundle as a text and as its file, and other texts with theirs: all files follow from the
//! format's rules.

/// A table of each type of resource.
pub(crate) const TEXT: &str =
    r#"b{a{"xyz"}c{"yz"}d:bin{"00ff"}i:int{-1}l{"x","y"{z}}t{k{v}}v:intvector{1,-1}}"#;

/// The words of its file.
pub(crate) const WORDS: [u32; 47] = [
    0x27da0020, 0x00000014, 0x00020000, 0x42736552, 2, 0x00000401, 0, 0, 0x2000001c, 7, 0x0000000c,
    0x00000027, 0x00000027, 7, 0, 0x00000015, 0x00630061, 0x00690064, 0x0074006c, 0x0076006b,
    0x00760000, 0x00780000, 0x00790000, 0x00780000, 0x007a0079, 0x00030000, 0x00050003, 0x00010009,
    0x0001002c, 0xaaaaaaaa, 0xaaaaaaaa, 2, 0xaaaaff00, 2, 1, 0xffffffff, 0x00200007, 0x00240022,
    0x00280026, 0x002e002a, 0x60000007, 0x60000008, 0x10000017, 0x7fffffff, 0x9000000b, 0x5000000f,
    0xe0000019,
];

/// The bytes of its file.
pub(crate) const FILE: [u8; 188] = [
    0x20, 0, 0xda, 0x27, 0x14, 0, 0, 0, 0, 0, 2, 0, 0x52, 0x65, 0x73, 0x42, 2, 0, 0, 0, 1, 4, 0, 0,
    0, 0, 0, 0, 0, 0, 0, 0, 0x1c, 0, 0, 0x20, 7, 0, 0, 0, 0x0c, 0, 0, 0, 0x27, 0, 0, 0, 0x27, 0, 0,
    0, 7, 0, 0, 0, 0, 0, 0, 0, 0x15, 0, 0, 0, 0x61, 0, 0x63, 0, 0x64, 0, 0x69, 0, 0x6c, 0, 0x74, 0,
    0x6b, 0, 0x76, 0, 0, 0, 0x76, 0, 0, 0, 0x78, 0, 0, 0, 0x79, 0, 0, 0, 0x78, 0, 0x79, 0, 0x7a, 0,
    0, 0, 3, 0, 3, 0, 5, 0, 9, 0, 1, 0, 0x2c, 0, 1, 0, 0xaa, 0xaa, 0xaa, 0xaa, 0xaa, 0xaa, 0xaa,
    0xaa, 2, 0, 0, 0, 0, 0xff, 0xaa, 0xaa, 2, 0, 0, 0, 1, 0, 0, 0, 0xff, 0xff, 0xff, 0xff, 7, 0,
    0x20, 0, 0x22, 0, 0x24, 0, 0x26, 0, 0x28, 0, 0x2a, 0, 0x2e, 0, 7, 0, 0, 0x60, 8, 0, 0, 0x60,
    0x17, 0, 0, 0x10, 0xff, 0xff, 0xff, 0x7f, 0x0b, 0, 0, 0x90, 0x0f, 0, 0, 0x50, 0x19, 0, 0, 0xe0,
];

/// The file of an array of two binaries, the bytes of the unit `z` and none.
pub(crate) const BINARIES: [u8; 96] = [
    0x20, 0, 0xda, 0x27, 0x14, 0, 0, 0, 0, 0, 2, 0, 0x52, 0x65, 0x73, 0x42, 2, 0, 0, 0, 1, 4, 0, 0,
    0, 0, 0, 0, 0, 0, 0, 0, 0x0d, 0, 0, 0x80, 7, 0, 0, 0, 8, 0, 0, 0, 0x10, 0, 0, 0, 0x10, 0, 0, 0,
    0, 0, 0, 0, 0, 0, 0, 0, 9, 0, 0, 0, 0, 0, 0xaa, 0xaa, 0xaa, 0xaa, 0xaa, 0xaa, 0xaa, 0xaa, 0xaa,
    0xaa, 2, 0, 0, 0, 0x7a, 0, 0xaa, 0xaa, 2, 0, 0, 0, 0x0b, 0, 0, 0x10, 0, 0, 0, 0x10,
];

/// The file of the table `a{"x"}c{"yz"}`.
pub(crate) const STRINGS: [u8; 92] = [
    0x20, 0, 0xda, 0x27, 0x14, 0, 0, 0, 0, 0, 2, 0, 0x52, 0x65, 0x73, 0x42, 2, 0, 0, 0, 1, 4, 0, 0,
    0, 0, 0, 0, 0, 0, 0, 0, 6, 0, 0, 0x50, 7, 0, 0, 0, 9, 0, 0, 0, 0x0f, 0, 0, 0, 0x0f, 0, 0, 0, 2,
    0, 0, 0, 0, 0, 0, 0, 0x0f, 0, 0, 0, 0x61, 0, 0x63, 0, 0, 0, 0x78, 0, 0, 0, 0x79, 0, 0x7a, 0, 0,
    0, 2, 0, 0x20, 0, 0x22, 0, 1, 0, 3, 0, 0xaa, 0xaa,
];

/// A pool bundle of three keys and the string `one two three`, as ICU's `genrb` writes it.
pub(crate) const POOL: [u8; 120] = [
    0x20, 0, 0xda, 0x27, 0x14, 0, 0, 0, 0, 0, 2, 0, 0x52, 0x65, 0x73, 0x42, 3, 0, 0, 0, 1, 4, 0, 0,
    0, 0, 0, 0, 0, 0, 0, 0, 0, 0, 0, 0x20, 8, 0, 0, 0, 0x0e, 0, 0, 0, 0x16, 0, 0, 0, 0x16, 0, 0, 0,
    0, 0, 0, 0, 3, 0, 0, 0, 0x16, 0, 0, 0, 0xfa, 0x10, 0x16, 0xe3, 0x61, 0x6c, 0x70, 0x68, 0x61, 0,
    0x62, 0x65, 0x74, 0x61, 0, 0x67, 0x61, 0x6d, 0x6d, 0x61, 0, 0xaa, 0xaa, 0xaa, 0, 0, 0x6f, 0,
    0x6e, 0, 0x65, 0, 0x20, 0, 0x74, 0, 0x77, 0, 0x6f, 0, 0x20, 0, 0x74, 0, 0x68, 0, 0x72, 0, 0x65,
    0, 0x65, 0, 0, 0, 0xaa, 0xaa,
];

/// A file of `a{alpha{"one two three"}beta{"x"}}` over it.
pub(crate) const OVER_POOL: [u8; 84] = [
    0x20, 0, 0xda, 0x27, 0x14, 0, 0, 0, 0, 0, 2, 0, 0x52, 0x65, 0x73, 0x42, 3, 0, 0, 0, 1, 4, 0, 0,
    0, 0, 0, 0, 0, 0, 0, 0, 3, 0, 0, 0x50, 8, 2, 0, 0, 9, 0, 0, 0, 0x0d, 0, 0, 0, 0x0d, 0, 0, 0, 2,
    0, 0, 0, 4, 0, 2, 0, 0x0d, 0, 0, 0, 0xfa, 0x10, 0x16, 0xe3, 0, 0, 0x78, 0, 0, 0, 2, 0, 0, 0, 6,
    0, 1, 0, 3, 0,
];

/// Texts: strings in an array, shared suffixes, bytes without fallback, tables in one another. And
/// what stands in the file of each behind the 32 bytes that every file begins with.
pub(crate) const OTHERS: [(&str, &[u8]); 4] = [
    (
        r#"b{a:array{"" "x"}}"#,
        b"\x0c\0\0\x20\x07\0\0\0\x09\0\0\0\x0e\0\0\0\x0e\0\0\0\x01\0\0\0\0\0\0\0\x0c\0\0\
          \0a\0\xaa\xaa\0\0x\0\0\0\x02\0\0\0\x01\0\x01\0\x20\0\x03\0\0\x90",
    ),
    (
        "b{a{ab}b{b}c{ab}d{cab}}",
        b"\x05\0\0P\x07\0\0\0\x0a\0\0\0\x11\0\0\0\x11\0\0\0\x04\0\0\0\0\0\0\0\x11\0\0\0a\
          \0b\0c\0d\0\0\0c\0a\0b\0\0\0\x04\0\x20\0\x22\0$\0&\0\x02\0\x03\0\x02\0\x01\0",
    ),
    (
        r#"b:table(nofallback){d:bin{"00"}e:bin{"00"}}"#,
        b"\x11\0\0\x20\x07\0\0\0\x09\0\0\0\x15\0\0\0\x15\0\0\0\x02\0\0\0\x01\0\0\0\x0a\0\
          \0\0d\0e\0\0\0\xaa\xaa\xaa\xaa\xaa\xaa\x01\0\0\0\0\xaa\xaa\xaa\xaa\xaa\xaa\xaa\
          \xaa\xaa\xaa\xaa\x01\0\0\0\0\xaa\xaa\xaa\x02\0\x20\0\x22\0\xaa\xaa\x0b\0\0\x10\
          \x0f\0\0\x10",
    ),
    (
        "b{a:table{k{v}}b:table{k{v}l:int{1}}}",
        b"\x11\0\0\x20\x07\0\0\0\x0a\0\0\0\x15\0\0\0\x15\0\0\0\x02\0\0\0\0\0\0\0\x0d\0\0\
          \0a\0k\0b\0l\0\0\0v\0\0\0\x01\0\x22\0\x01\0\x02\0\x22\0&\0\xaa\xaa\x01\0\0`\
          \x01\0\0p\x02\0\x20\0$\0\xaa\xaa\x03\0\0P\x0d\0\0\x20",
    ),
];
