//! The encodings of texts, by the names that ICU's compiler takes for them.
//! How a text in one is read is the program's.

/// How the bytes of a text without a byte order mark are read. A mark goes before what is said.
#[derive(Clone, Copy, PartialEq)]
pub enum Encoding {
    /// UTF-8.
    Utf8,
    /// UTF-16, the low byte of a unit first.
    Utf16Little,
    /// UTF-16, the high byte of a unit first.
    Utf16Big,
    /// UTF-32, the low byte of a word first.
    Utf32Little,
    /// UTF-32, the high byte of a word first.
    Utf32Big,
    /// ISO 8859-1.
    Latin1,
    /// Microsoft's code page 1252.
    Windows1252,
}

/// The encodings by their names. Where a name says no order, the high byte is first.
const NAMES: [(&str, Encoding); 22] = [
    ("UTF-8", Encoding::Utf8),
    ("UTF8", Encoding::Utf8),
    ("US-ASCII", Encoding::Utf8),
    ("ASCII", Encoding::Utf8),
    ("UTF-16", Encoding::Utf16Big),
    ("UTF16", Encoding::Utf16Big),
    ("UTF-16BE", Encoding::Utf16Big),
    ("UTF16BE", Encoding::Utf16Big),
    ("UTF-16LE", Encoding::Utf16Little),
    ("UTF16LE", Encoding::Utf16Little),
    ("UTF-32", Encoding::Utf32Big),
    ("UTF32", Encoding::Utf32Big),
    ("UTF-32BE", Encoding::Utf32Big),
    ("UTF-32LE", Encoding::Utf32Little),
    ("ISO-8859-1", Encoding::Latin1),
    ("ISO_8859-1", Encoding::Latin1),
    ("ISO8859-1", Encoding::Latin1),
    ("Latin1", Encoding::Latin1),
    ("Latin-1", Encoding::Latin1),
    ("windows-1252", Encoding::Windows1252),
    ("cp1252", Encoding::Windows1252),
    ("ibm-5348", Encoding::Windows1252),
];

impl Encoding {
    /// The encoding of a name in letters of any case, if it is one that is read. That of an empty
    /// name is UTF-8.
    pub(crate) fn named(name: &str) -> Option<Encoding> {
        if name.is_empty() {
            return Some(Encoding::Utf8);
        }
        for (known, encoding) in NAMES {
            if name.eq_ignore_ascii_case(known) {
                return Some(encoding);
            }
        }
        None
    }
}
