//! What a group of a text names as its type, as far as warnings ask for it.
//! Where such a name stands is found in `text_pieces`.
ghost use Rattle.std.specs.Prelude.{◌≡◌};
ghost use Rattle.resb_diagnostics.specs.Groups as groups;
ghost use Rattle.resb_diagnostics.specs.Warnings as warnings;

/// What a group names as its type, as far as warnings ask for it.
#[derive(Clone, Copy, Debug, PartialEq, Eq)]
pub(crate) enum Named {
    /// It has no type.
    Nothing,
    /// `array`.
    Array,
    /// `int` or `integer`.
    Integer,
    /// `intvector`.
    IntVector,
    /// Anything else.
    Another,
}

impl Named {
    /// Whether it is the type of arrays.
    pub(crate) fn is_array(self) -> bool
        ensures { result ≡ warnings.is_array self }
    {
        matches!(self, Named::Array)
    }

    /// Whether there is no type.
    pub(crate) fn is_nothing(self) -> bool
        ensures { result ≡ warnings.is_nothing self }
    {
        matches!(self, Named::Nothing)
    }
}

/// What a name of a type names.
pub(crate) fn named_by(name: &[u8]) -> Named
    ensures { result ≡ groups.named_by name.now }
{
    if name == b"array".as_slice() {
        Named::Array
    } else if name == b"int".as_slice() || name == b"integer".as_slice() {
        Named::Integer
    } else if name == b"intvector".as_slice() {
        Named::IntVector
    } else {
        Named::Another
    }
}
