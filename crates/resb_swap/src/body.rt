//! The numbers of a file's body, in the order of bytes that the file names.
//! What they say is the business of `front` and `walk`.
ghost use Rattle.std.specs.Prelude.{◌≤◌, length};

use crate::role::Role;

/// A file's bytes, where its body begins, and its order of bytes.
#[derive(Clone, Copy)]
pub(crate) struct Body<'a> {
    pub(crate) bytes: &'a [u8],
    pub(crate) start: usize,
    pub(crate) is_big: bool,
    pub(crate) ghost inside: { start ≤ length bytes.now },
}

impl<'a> Body<'a> {
    ghost use Rattle.std.specs.Prelude.{◌≡◌, ◌+◌, ◌-◌, ◌*◌, ◌<◌, ◌≤◌, length};
    ghost use Rattle.resb_swap.specs.Numbers.{byte_in, unit_in, second_unit_in, word_in};
    ghost use Rattle.resb_swap.specs.Numbers.{word_count};
    ghost use Rattle.resb_swap.specs.Bodies.{count_in};
    ghost use Rattle.resb_swap.specs.Collation.{is_collation};
    ghost use Rattle.resb_swap.specs.Inner.Seen.{seen};

    /// How many whole words the body has.
    pub(crate) fn len(self) -> usize
        ensures { result ≡ word_count (seen self.entry) }
    {
        (self.bytes.len() - self.start) / 4
    }

    /// The byte of a word.
    pub(crate) fn byte(self, word: usize, byte: usize) -> u8
        requires inside { word < word_count (seen self) }
        requires one_of_four { byte < 4 }
        ensures { result ≡ byte_in (seen self.entry) (4 * word + byte) }
    {
        self.bytes[self.start + (4 * word + byte)]
    }

    /// The first unit of a word.
    #[tactic(auto, unfolding(crate::specs::Numbers::unit_in))]
    pub(crate) fn unit(self, word: usize) -> u16
        requires { word < word_count (seen self) }
        ensures { result ≡ unit_in (seen self.entry) word }
    {
        let bytes = [self.byte(word, 0), self.byte(word, 1)];
        if self.is_big {
            u16::from_be_bytes(bytes)
        } else {
            u16::from_le_bytes(bytes)
        }
    }

    /// The second unit of a word.
    #[tactic(auto, unfolding(crate::specs::Numbers::second_unit_in))]
    pub(crate) fn second_unit(self, word: usize) -> u16
        requires { word < word_count (seen self) }
        ensures { result ≡ second_unit_in (seen self.entry) word }
    {
        let bytes = [self.byte(word, 2), self.byte(word, 3)];
        if self.is_big {
            u16::from_be_bytes(bytes)
        } else {
            u16::from_le_bytes(bytes)
        }
    }

    /// The number that a word is.
    #[tactic(auto, unfolding(crate::specs::Numbers::word_in))]
    pub(crate) fn word(self, word: usize) -> u32
        requires { word < word_count (seen self) }
        ensures { result ≡ word_in (seen self.entry) word }
    {
        let bytes = [
            self.byte(word, 0),
            self.byte(word, 1),
            self.byte(word, 2),
            self.byte(word, 3),
        ];
        if self.is_big {
            u32::from_be_bytes(bytes)
        } else {
            u32::from_le_bytes(bytes)
        }
    }

    /// The number that a body begins with.
    pub(crate) fn count(self, role: Role, place: usize) -> u32
        requires { place < word_count (seen self) }
        ensures { result ≡ count_in (seen self.entry) role place }
    {
        match role {
            Role::Table => u32::from(self.unit(place)),
            _ => self.word(place),
        }
    }

    /// Whether a binary holds the data of a collation.
    #[tactic(auto, unfolding(crate::specs::Collation::is_collation))]
    pub(crate) fn is_collation(self, place: usize) -> bool
        requires first { place < word_count (seen self) }
        requires inside { 16 ≤ word_in (seen self) place → place + 4 < word_count (seen self) }
        ensures { result ≡ is_collation (seen self.entry) place }
    {
        if self.word(place) < 16 {
            return false;
        }
        let has_magic = self.byte(place + 1, 2) == 0xda && self.byte(place + 1, 3) == 0x27;
        let is_format = self.byte(place + 4, 0) == b'U' && self.byte(place + 4, 1) == b'C';
        let is_data = self.byte(place + 4, 2) == b'o' && self.byte(place + 4, 3) == b'l';
        has_magic && (is_format && is_data)
    }
}
