//! Why a bundle has no text of a form, whoever prints it.
//! Where the cause stands in the bundle isn't said here.

/// What keeps a bundle from having a text of a form. In ICU's form no string and no alias does.
#[derive(Clone, Copy, Debug, PartialEq, Eq)]
pub enum Cause {
    /// The root is no table.
    RootIsNoTable,
    /// The name holds a `"`.
    QuoteInName,
    /// A key holds a `"`.
    QuoteInKey,
    /// A string holds a `"`.
    QuoteInString,
    /// A resource is an alias, which the plain form has no way to write.
    Alias,
    /// The name isn't one or more ASCII letters, digits and `_ - . % +`, which ICU's form asks for.
    NameIsNoWord,
    /// A key has a byte that may not stand in one of ICU's form: it isn't of the printable
    /// characters of ASCII, or is one of ``! " # $ @ [ \ ] ^ ` { | } ~``.
    KeyHasOtherBytes,
}
