//! The types that a group of a text in ICU's form may name.
//! Where in a text such a name stands is found by the reader.
ghost use Rattle.std.specs.Prelude.{IfSome, IfNone};
ghost use Rattle.resb_icu_grammar.specs.Kinds as spec;
ghost use Rattle.resb_icu_grammar.specs.Kinds.{Names};

/// The types that a group of ICU's form may name.
#[derive(Clone, Copy, Debug, PartialEq, Eq)]
pub enum IcuKind {
    /// `string`.
    String,
    /// `alias`.
    Alias,
    /// `array`.
    Array,
    /// `table`.
    Table,
    /// `binary` or `bin`.
    Binary,
    /// `integer` or `int`.
    Integer,
    /// `intvector`.
    IntVector,
}

/// The type of ICU's form that the word names, if it names one.
pub fn icu_kind_named(word: &str) -> Option<IcuKind>
    ensures found { IfSome result (λ kind. Names word.now kind) }
    ensures none { IfNone result ((kind : spec.Kind) → Names word.now kind → ⊥) }
{
    match word {
        "string" => Some(IcuKind::String),
        "alias" => Some(IcuKind::Alias),
        "array" => Some(IcuKind::Array),
        "table" => Some(IcuKind::Table),
        "binary" | "bin" => Some(IcuKind::Binary),
        "integer" | "int" => Some(IcuKind::Integer),
        "intvector" => Some(IcuKind::IntVector),
        _ => None,
    }
}
