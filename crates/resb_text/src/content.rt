//! What a group without items holds, as the text says it, before a resource is made of it.
//! It is read in `leaf`; what it is weighed as stands in `quota`.
ghost use Rattle.std.specs.Prelude.{◌≡◌, true, MatchBool, None, Some, IfOk};
ghost use Rattle.std.specs.List.{list_all};
ghost use Rattle.resb_grammar.specs.Group.{is_hex, hex_bytes};
ghost use Rattle.resb_tree.specs.View.{tree_of};
ghost use Rattle.resb_text.specs.Borrowed.{borrows_strings};
ghost use Rattle.resb_text.specs.Inner.Content.{ArePairs, IsPaired, tree_of_content};

use resb_grammar::bytes_of_hex;
use resb_tree::{Int28, NoMemory, Resource};
use std::alloc::Global;
use std::borrow::{CowSlice, CowStr};

/// One string, hex digits, one number, or numbers.
#[derive(Drop)]
pub(crate) enum Content<'a> {
    String(&'a str),
    /// Pairs of hex digits.
    Binary(&'a str),
    Integer(Int28),
    IntVector(Vec<u32>),
}

impl<'a> Content<'a> {
    /// The resource with this content, which takes memory for a binary.
    pub(crate) fn resource(self, alloc: Global) -> Result<Resource<'a>, NoMemory>
        requires paired { IsPaired self }
        ensures { IfOk result (λ r. (tree_of r ≡ tree_of_content self.entry)
            × (borrows_strings r ≡ true)) }
    {
        Ok(match self {
            Content::String(text) => Resource::String(CowStr::Borrowed(text)),
            Content::Binary(digits) => Resource::Binary(CowSlice::Owned(bytes_of(alloc, digits)?)),
            Content::Integer(number) => Resource::Integer(number),
            Content::IntVector(numbers) => Resource::IntVector(numbers),
        })
    }
}

/// The bytes that pairs of hex digits say.
fn bytes_of(alloc: Global, digits: &str) -> Result<Vec<u8>, NoMemory>
    requires pairs { ArePairs digits.now }
    ensures { IfOk result (λ bytes. hex_bytes digits.now ≡ Some bytes.items) }
{
    match bytes_of_hex(alloc, digits)? {
        Some(bytes) => Ok(bytes),
        None => unreachable!(),
    }
}

/// Whether each byte is a hex digit.
fn are_digits(bytes: &[u8]) -> bool
    ensures { result ≡ list_all is_hex bytes.now }
{
    for b in bytes {
        if !b.is_ascii_hexdigit() {
            return false;
        }
    }
    true
}

/// Whether these are pairs of hex digits. Nothing is made of them.
pub(crate) fn are_pairs(digits: &str) -> bool
    ensures { MatchBool result (ArePairs digits.now) (hex_bytes digits.now ≡ None) }
{
    are_digits(digits.as_bytes()) && digits.len() % 2 == 0
}
