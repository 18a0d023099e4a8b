//! The types that a group of a text may name.
//! Where in a text such a name stands is found by the readers.
ghost use Rattle.std.specs.Prelude.{IfSome, IfNone};
ghost use Rattle.resb_grammar.specs.GroupTypes as spec;
ghost use Rattle.resb_grammar.specs.GroupTypes.{Names};

/// The types that a group may name.
#[derive(Clone, Copy, Debug, PartialEq, Eq)]
pub enum Kind {
    /// `string`.
    String,
    /// `array`.
    Array,
    /// `table`.
    Table,
    /// `binary` or `bin`.
    Binary,
    /// `integer` or `int`.
    Integer,
    /// `intvector`.
    IntVector,
}

/// The type that the word names, if it names one.
pub fn kind_named(word: &str) -> Option<Kind>
    ensures found { IfSome result (λ kind. Names word.now kind) }
    ensures none { IfNone result ((kind : spec.Kind) → Names word.now kind → ⊥) }
{
    match word {
        "string" => Some(Kind::String),
        "array" => Some(Kind::Array),
        "table" => Some(Kind::Table),
        "binary" | "bin" => Some(Kind::Binary),
        "integer" | "int" => Some(Kind::Integer),
        "intvector" => Some(Kind::IntVector),
        _ => None,
    }
}
