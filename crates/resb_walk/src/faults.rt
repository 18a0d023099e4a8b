//! What is said of bytes that are no readable resource, and of a budget that is spent.
//! Where each is found is said in `standing`, `types` and `walk`.
ghost use Rattle.std.specs.Prelude.{codes};
ghost use Rattle.resb_format.specs.Error.{IsEndOfInput, IsInvalid, IsRefusal};
ghost use Rattle.resb_format.specs.declared.error.ErrorKind.TheVariants.{UnsupportedFormat};
ghost use Rattle.resb_walk.specs.Refusals.{IsFault, IsSpent};

use resb_format::BinaryDeserializerError;

/// A count, an item or a place lies outside its block.
pub fn past_end() -> BinaryDeserializerError
    ensures says { IsEndOfInput result }
    ensures fault { IsFault result }
{
    BinaryDeserializerError::end_of_input()
}

/// A string of the older form, or an alias, where those aren't read.
pub fn unsupported_type() -> BinaryDeserializerError
    ensures says { IsRefusal result UnsupportedFormat (codes "resource type is not supported") }
    ensures fault { IsFault result }
{
    BinaryDeserializerError::unsupported_format("resource type is not supported")
}

/// A surrogate of a string has no partner.
pub(crate) fn not_utf16() -> BinaryDeserializerError
    ensures says { IsInvalid result (codes "string resource is not valid UTF-16") }
    ensures fault { IsFault result }
{
    BinaryDeserializerError::invalid_data("string resource is not valid UTF-16")
}

/// A key's position is over the key block's length.
pub(crate) fn key_past_end() -> BinaryDeserializerError
    ensures says { IsInvalid result (codes "unexpected end of data while deserializing key") }
    ensures fault { IsFault result }
{
    BinaryDeserializerError::invalid_data("unexpected end of data while deserializing key")
}

/// A key has no zero byte behind it.
pub(crate) fn key_unterminated() -> BinaryDeserializerError
    ensures says { IsInvalid result (codes "unterminated key string") }
    ensures fault { IsFault result }
{
    BinaryDeserializerError::invalid_data("unterminated key string")
}

/// A key is no UTF-8.
pub(crate) fn key_not_utf8() -> BinaryDeserializerError
    ensures says { IsInvalid result (codes "key string is not valid UTF-8") }
    ensures fault { IsFault result }
{
    BinaryDeserializerError::invalid_data("key string is not valid UTF-8")
}

/// No more resources may be read.
pub fn budget_spent() -> BinaryDeserializerError
    ensures { IsSpent result }
{
    BinaryDeserializerError::invalid_data("resource budget spent")
}
