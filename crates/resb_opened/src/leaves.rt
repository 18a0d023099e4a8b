//! What a resource without members holds: its text, its bytes, its number or numbers.
//! What is inside arrays and tables is found in `inside`.
ghost use Rattle.std.specs.Prelude.{◌≡◌, ◌==◌, ◌<◌, ◌++◌, IfOk, OnErr, IfSome};
ghost use Rattle.std.specs.Prelude.{option_map, slice_get};
ghost use Rattle.std.specs.List.{list_any};
ghost use Rattle.std.specs.String.{string_bytes};
ghost use Rattle.resb_format.specs.Bytes.{units_as_bytes};
ghost use Rattle.resb_format.specs.Units.{units};
ghost use Rattle.resb_walk.specs.Inner.Members.{text_of_bytes, AreUtf16};
ghost use Rattle.resb_shown.specs.Shown as shown;
ghost use Rattle.resb_opened.specs.Handles as seen;
ghost use Rattle.resb_opened.specs.Handles.{tree_at, kind_of};

use crate::handle::Handle;
use crate::kind::Kind;
use resb_format::bytes::{some_word, unit_at};
use resb_tree::{Int28, NoMemory};
use resb_walk::{Leaf, Standing, push_text_of_units};

/// Whether a text, as bytes of its 16-bit units, has this character of ASCII, which is a unit by
/// itself there.
fn has_unit(units: &[u8], character: u8) -> bool
    requires { character < 128 }
    ensures { result ≡ list_any (λ b. b == character) (text_of_bytes units.now) }
{
    for number in 0..units.len() / 2 {
        if unit_at(units, number) == u16::from(character) {
            return true;
        }
    }
    false
}

/// Bytes of UTF-16, which are those of the units of the text that they spell.
fn spelled(bytes: &[u8]) -> &[u8]
    requires { AreUtf16 bytes.now }
    ensures is { result.now ≡ bytes.entry.now }
    ensures units { result.now ≡ units_as_bytes (units (text_of_bytes result.now)) }
{
    bytes
}

impl<'a> Handle<'a> {
    /// Which kind of resource stands here.
    pub fn kind(self) -> Kind
        ensures { result ≡ kind_of (tree_at self.entry) }
    {
        match self.standing() {
            Standing::Leaf(Leaf::Text(_) | Leaf::Empty) => Kind::String,
            Standing::Leaf(Leaf::Alias(_)) => Kind::Alias,
            Standing::Leaf(Leaf::Binary(_)) => Kind::Binary,
            Standing::Leaf(Leaf::Integer(_)) => Kind::Integer,
            Standing::Leaf(Leaf::Numbers(_)) => Kind::IntVector,
            Standing::List(_) => Kind::Array,
            Standing::Table(_) => Kind::Table,
        }
    }

    /// The bytes of a binary.
    pub fn bytes(self) -> Option<&'a [u8]>
        ensures { option_map (λ bytes. bytes.now) result ≡ seen.bytes_in (tree_at self.entry) }
    {
        match self.standing() {
            Standing::Leaf(Leaf::Binary(bytes)) => Some(bytes),
            _ => None,
        }
    }

    /// The number of an integer, of 28 bits.
    pub fn integer(self) -> Option<Int28>
        ensures { result ≡ seen.integer_in (tree_at self.entry) }
    {
        match self.standing() {
            Standing::Leaf(Leaf::Integer(word)) => Some(Int28::from(word)),
            _ => None,
        }
    }

    /// The number that a vector has at this place, counted from 0, if it has so many.
    #[tactic(auto, using(crate::proofs::TextLemmas::no_word))]
    pub fn number(self, at: usize) -> Option<u32>
        ensures number { result ≡ slice_get (shown.numbers_in (tree_at self.entry)) at }
        ensures place { IfSome result (λ _. at < usize.MAX) }
    {
        match self.standing() {
            Standing::Leaf(Leaf::Numbers(words)) if at < words.len() => some_word(words, at),
            _ => None,
        }
    }

    /// The UTF-16 units of a string, or of an alias's path: two bytes for each unit, the lower one
    /// first.
    #[tactic(auto, using(crate::proofs::Utf16Lemmas::empty_leaf))]
    pub fn utf16(self) -> Option<&'a [u8]>
        ensures { option_map (λ bytes. bytes.now) result
            ≡ option_map (λ text. units_as_bytes (units text)) (seen.text_of (tree_at self.entry)) }
    {
        match self.standing() {
            Standing::Leaf(Leaf::Text(units)) => Some(spelled(units)),
            Standing::Leaf(Leaf::Alias(path)) => Some(spelled(path)),
            Standing::Leaf(Leaf::Empty) => Some(&[]),
            _ => None,
        }
    }

    /// Puts the text of a string, or the path of an alias, behind what stands; of any other
    /// resource nothing. Where memory is missing, a front of that text stands there.
    pub fn push_text(self, text: &mut String) -> Result<(), NoMemory>
        ensures all { IfOk result (λ _. string_bytes text.new
            ≡ string_bytes text.old ++ shown.text_in (tree_at self.entry)) }
        ensures front { OnErr result (shown.AddsFront (string_bytes text.old)
            (string_bytes text.new) (shown.text_in (tree_at self.entry))) }
    {
        match self.standing() {
            Standing::Leaf(Leaf::Text(units) | Leaf::Alias(units)) => {
                push_text_of_units(text, units)
            }
            _ => Ok(()),
        }
    }

    /// Whether the text of a string, or the path of an alias, has this character of ASCII; no other
    /// resource has it.
    pub fn has_ascii(self, character: u8) -> bool
        requires { character < 128 }
        ensures { result ≡ list_any (λ b. b == character) (shown.text_in (tree_at self.entry)) }
    {
        match self.standing() {
            Standing::Leaf(Leaf::Text(units) | Leaf::Alias(units)) => has_unit(units, character),
            _ => false,
        }
    }
}
