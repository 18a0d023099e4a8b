//! A place in a file: where a cursor stands, and where it begins.
//! What is read there is said in the modules of the types.
ghost use Rattle.std.specs.Prelude.{◌≡◌};
ghost use Rattle.resb_format.specs.Parts.{parts_in};
ghost use Rattle.resb_head.specs.File.{budget};
ghost use Rattle.resb_read.specs.Places.{place_of};
ghost use Rattle.resb_read.specs.Roots.{OpensRoot, alone};
ghost use Rattle.resb_read.specs.declared.cursor.Spot.TheVariants as spot;

use crate::file::File;
use resb_format::{BinaryDeserializerError, FileBlocks};
use resb_head::CheckedFile;
use resb_walk::Walk;

/// Where a cursor stands.
#[derive(Clone, Copy)]
pub enum Spot {
    /// At a resource's descriptor, by its word.
    Descriptor(u32),
    /// At a string, by its unit of the 16-bit block.
    Unit(u16),
    /// At a vector's word.
    Word(u32),
    /// At a key, by its position, which tells a byte of the file's own keys or of its pool's.
    Key(usize),
}

/// A view of a file and a place in it.
#[derive(Clone, Copy)]
pub struct Cursor<'de> {
    pub(crate) file: FileBlocks<'de>,
    pub(crate) at: Spot,
}

impl<'de> Cursor<'de> {
    /// The root of a file, with the whole budget: one resource for each two bytes.
    /// The first check of the file's head that fails is answered.
    pub fn root(bytes: &'de [u8]) -> Result<(Cursor<'de>, Walk), BinaryDeserializerError>
        ensures { OpensRoot (alone bytes.now) result }
    {
        let file = File::alone(bytes)?;
        Ok(file.root())
    }

    /// The spot where the cursor stands in the parts of its file.
    pub fn spot(self) -> Spot
        ensures { result ≡ self.entry.at }
    {
        self.at
    }

    /// The parts of the file in which the cursor stands.
    pub fn file(self) -> FileBlocks<'de>
        ensures { result ≡ self.entry.file }
    {
        self.file
    }

    /// A cursor at the root of the parts of a file, and the whole budget of the file's bytes.
    pub(crate) fn begin(parts: CheckedFile<'de>, bytes: &[u8]) -> (Cursor<'de>, Walk)
        ensures root { place_of result.0
            ≡ record { parts = parts_in parts.entry.file; at = spot.Descriptor parts.entry.root } }
        ensures budget { result.1 ≡ budget bytes.now }
    {
        let cursor = Cursor {
            file: parts.file,
            at: Spot::Descriptor(parts.root),
        };
        (cursor, Walk::new(bytes.len() / 2))
    }
}
