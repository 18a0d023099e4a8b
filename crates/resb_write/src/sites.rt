//! What is given to those who lay bodies, and what they have laid so far.
//! Where keys and strings stand is found out elsewhere.
ghost use Rattle.std.specs.Prelude.{◌≡◌, ◌∷◌, ◌<◌, ◌≤◌, length, take, drop};

use crate::lends::Lends;
use resb_layout::Packing;

/// Where the keys and the strings of a tree stand, one for each in laying order.
#[derive(Drop)]
pub(crate) struct Sites<'s> {
    /// The positions of the tables' keys, in bytes of the body.
    pub(crate) positions: &'s [u32],
    /// The offsets of the strings, in units of the 16-bit block.
    pub(crate) offsets: &'s [u32],
    /// What a pool bundle lends to the file, if it uses one.
    pub(crate) lent: Option<Lends>,
    /// How the file is packed.
    pub(crate) packing: Packing,
}

impl<'s> Sites<'s> {
    /// Where the keys and strings stand of the resources that are laid first.
    pub(crate) fn coming(&self) -> Coming<'s>
        ensures positions { result.positions.now ≡ self.now.positions.now }
        ensures offsets { result.offsets.now ≡ self.now.offsets.now }
    {
        Coming {
            positions: self.positions,
            offsets: self.offsets,
        }
    }
}

/// Where the keys and the strings stand of the resources that are still to be laid.
#[derive(Drop)]
pub(crate) struct Coming<'s> {
    pub(crate) positions: &'s [u32],
    pub(crate) offsets: &'s [u32],
}

impl<'s> Coming<'s> {
    /// Takes the positions of the next keys.
    pub(crate) fn take_positions(&mut self, count: usize) -> &'s [u32]
        requires { count ≤ length self.old.positions.now }
        ensures taken { result.now ≡ take count self.old.positions.now }
        ensures left { self.new.positions.now ≡ drop count self.old.positions.now }
        ensures keeps { self.new.offsets.now ≡ self.old.offsets.now }
    {
        let (taken, left) = self.positions.split_at(count);
        self.positions = left;
        taken
    }

    /// Takes the offset of the next string.
    pub(crate) fn take_offset(&mut self) -> u32
        requires { 0 < length self.old.offsets.now }
        ensures taken { self.old.offsets.now ≡ result ∷ self.new.offsets.now }
        ensures keeps { self.new.positions.now ≡ self.old.positions.now }
    {
        let offset = self.offsets[0];
        self.offsets = &self.offsets[1..];
        offset
    }
}

/// Where bodies are laid.
#[derive(Clone, Copy)]
pub(crate) struct Ground {
    /// Where the tail begins, in bytes of the body.
    pub(crate) base: usize,
    /// What a pool bundle lends to the file, if it uses one.
    pub(crate) lent: Option<Lends>,
    /// How the file is packed.
    pub(crate) packing: Packing,
}

/// The units of the 16-bit block and the bytes of the tail.
#[derive(Drop)]
pub(crate) struct Bodies {
    pub(crate) units: Vec<u16>,
    pub(crate) tail: Vec<u8>,
}
