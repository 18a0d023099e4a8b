//! The keys of tables: texts, borrowed or owned, ordered by their UTF-8 bytes.
//! The tables that they are keys of are in `resource`.
ghost use Rattle.std.specs.Prelude.{◌≡◌, ℕ, List, IfOk, IfErr, nat_eq, refl, Some};
ghost use Rattle.std.specs.Ordering.{nat_cmp};
ghost use Rattle.std.specs.Cmp.{partial_equiv_from_equiv};
ghost use Rattle.std.specs.Cmp.Lexicographic.{pointwise, slice_cmp, nat_list_eq_equiv};
ghost use Rattle.std.specs.Cmp.Lexicographic.{nat_list_cmp_total, texts_ties, texts_po};
ghost use Rattle.std.specs.Cow.{cow_str_bytes};
ghost use Rattle.std.specs.Hash as fed;
ghost use Rattle.std.specs.Str.{IsUtf8};
ghost use Rattle.std.specs.String.{string_bytes};

use crate::no_memory::NoMemory;
use std::alloc::Global;
use std::borrow::CowStr;
use std::cmp::Ordering;
use std::hash::{Hash, Hasher};
use std::marker::Model;

/// A key of a table. Equality, order and hash are those of its text.
#[derive(Drop)]
pub struct Key<'a> {
    text: CowStr<'a>,
}

impl<'a> Model for Key<'a> {
    ghost Value = { List ℕ };

    ghost view = { λ k. cow_str_bytes k.text };
}

impl<'a> Key<'a> {
    /// The text of the key.
    pub fn as_str(&self) -> &str
        ensures value { result.now ≡ self.now }
        ensures utf8 { IsUtf8 self.now }
    {
        self.text.as_str()
    }

    /// The UTF-8 bytes of the key.
    pub fn as_bytes(&self) -> &[u8]
        ensures value { result.now ≡ self.now }
        ensures utf8 { IsUtf8 self.now }
    {
        self.as_str().as_bytes()
    }

    /// The text as an owned string. For want of memory the key is handed back.
    pub fn into_string(self, alloc: Global) -> Result<String, Key<'a>>
        ensures ok { IfOk result (λ text. string_bytes text ≡ self.entry) }
        ensures err { IfErr result (λ key. key ≡ self.entry) }
    {
        let Key { text } = self;
        match text {
            CowStr::Borrowed(borrowed) => match String::from_str(alloc, borrowed) {
                Ok(owned) => Ok(owned),
                Err(_) => Err(Key::from(borrowed)),
            },
            CowStr::Owned(owned) => Ok(owned),
        }
    }

    /// A key of the same text. A borrowed text stays borrowed and takes no memory.
    pub fn try_clone(&self, alloc: Global) -> Result<Key<'a>, NoMemory>
        ensures { IfOk result (λ key. key ≡ self.now) }
    {
        match &self.text {
            CowStr::Borrowed(borrowed) => Ok(Key::from(*borrowed)),
            CowStr::Owned(owned) => Ok(Key::from(String::from_str(alloc, owned.as_str())?)),
        }
    }
}

impl<'a> From<&'a str> for Key<'a> {
    ghost from_gives = { λ s k. k ≡ s.now };

    fn from(text: &'a str) -> Key<'a> {
        Key {
            text: CowStr::Borrowed(text),
        }
    }
}

impl<'a> From<String> for Key<'a> {
    ghost from_gives = { λ s k. k ≡ string_bytes s };

    fn from(text: String) -> Key<'a> {
        Key {
            text: CowStr::Owned(text),
        }
    }
}

impl<'a> PartialEq for Key<'a> {
    ghost eq = { pointwise nat_eq };

    ghost laws = { partial_equiv_from_equiv nat_list_eq_equiv };

    fn eq(&self, other: &Key<'a>) -> bool {
        self.as_str() == other.as_str()
    }
}

impl<'a> Eq for Key<'a> {
    ghost laws = { nat_list_eq_equiv };
}

impl<'a> PartialOrd for Key<'a> {
    ghost partial_cmp = { λ x y. Some (slice_cmp nat_cmp x y) };

    ghost laws = { texts_po };

    fn partial_cmp(&self, other: &Key<'a>) -> Option<Ordering> {
        Some(self.cmp(other))
    }
}

impl<'a> Ord for Key<'a> {
    ghost cmp = { slice_cmp nat_cmp };

    ghost total = { nat_list_cmp_total };

    ghost matches_partial_cmp = { λ x y. refl };

    ghost matches_eq = { λ x y. texts_ties x y };

    fn cmp(&self, other: &Key<'a>) -> Ordering {
        self.as_str().cmp(other.as_str())
    }
}

impl<'a> Hash for Key<'a> {
    ghost use Rattle.std.proofs.Common.{rules};
    ghost use Rattle.std.specs.Cmp.Rules.{hashing};

    ghost hash_input = { fed.str };

    ghost respects_eq = { Prim.search (hashing, rules) };

    fn hash<H: Hasher>(&self, state: &mut H) {
        self.as_str().hash(state);
    }
}
