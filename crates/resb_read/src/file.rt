//! A file that was opened: its head was checked once, alone or beside a pool bundle.
//! What is read from its root is in `whole_files`, and in `measuring` what it adds up to.
ghost use Rattle.resb_read.specs.Manners.{PassesAs};

use crate::cursor::Cursor;
use resb_format::BinaryDeserializerError;
use resb_head::CheckedFile;
use resb_pool_bundle::{FileHead, PoolBundle};
use resb_walk::Walk;

/// How a file is read.
#[derive(Clone, Copy)]
pub enum Manner<'de> {
    /// Alone, as the Rust crate reads files: of version 2.0, without aliases.
    Alone,
    /// Beside the pool bundle that is given, if one is: of version 1.1 to 3.0, with aliases.
    Beside(Option<PoolBundle<'de>>),
}

/// A file whose head was checked once. Whatever is read of it borrows its bytes, and those of the
/// pool bundle that it uses.
///
/// `File::open` is the door for any file. `File::alone` reads as the Rust crate does.
#[derive(Clone, Copy)]
pub struct File<'de> {
    pub(crate) bytes: &'de [u8],
    pub(crate) manner: Manner<'de>,
    pub(crate) parts: CheckedFile<'de>,
    pub ghost passes: { PassesAs manner bytes.now parts },
}

impl<'de> File<'de> {
    ghost use Rattle.std.specs.Prelude.{◌≡◌};
    ghost use Rattle.resb_format.specs.Parts.{parts_in};
    ghost use Rattle.resb_pool_bundle.specs.Heads.{head_bytes};
    ghost use Rattle.resb_read.specs.Files.{whole_in, ChecksFile};
    ghost use Rattle.resb_read.specs.Roots.{StandsAtRoot};
    ghost use Rattle.resb_read.specs.declared.file.Manner.TheVariants as manner;

    /// Opens a file of version 1.1 to 3.0 beside the pool bundle that is given. Aliases and strings
    /// of the older form are read too. The first check of the head that fails is answered; the last
    /// is that a file that uses a pool bundle is given one, of the same checksum. Another file is
    /// read as if no pool bundle were given. (ICU's `uresdata.h`: `URES_ATT_USES_POOL_BUNDLE`.)
    pub fn open(
        bytes: &'de [u8],
        pool: Option<PoolBundle<'de>>,
    ) -> Result<File<'de>, BinaryDeserializerError>
        ensures { ChecksFile (manner.Beside pool.entry) bytes.entry.now result }
    {
        File::beside(FileHead::read(bytes)?, pool)
    }

    /// Opens a file whose head was read, as `File::open` does.
    pub fn beside(
        head: FileHead<'de>,
        pool: Option<PoolBundle<'de>>,
    ) -> Result<File<'de>, BinaryDeserializerError>
        ensures { ChecksFile (manner.Beside pool.entry) (head_bytes head.entry) result }
    {
        let parts = head.beside(pool)?;
        Ok(File {
            bytes: head.bytes(),
            manner: Manner::Beside(pool),
            parts,
        })
    }

    /// Opens a file that is read alone, as `from_bytes` reads it: one that uses a pool bundle as
    /// one that uses none, whatever its head says of that, so that its keys are refused, or read as
    /// other bytes of the file. The first check of the head that fails is answered.
    pub fn alone(bytes: &'de [u8]) -> Result<File<'de>, BinaryDeserializerError>
        ensures { ChecksFile manner.Alone bytes.entry.now result }
    {
        let parts = CheckedFile::read(bytes)?;
        Ok(File {
            bytes,
            manner: Manner::Alone,
            parts,
        })
    }

    /// The bytes of the file.
    pub fn bytes(&self) -> &'de [u8]
        ensures { result.now ≡ self.now.bytes.now }
    {
        self.bytes
    }

    /// The parts of the file, and its root's descriptor.
    pub fn parts(&self) -> CheckedFile<'de>
        ensures parts { parts_in result.file ≡ (whole_in self.now).parts }
        ensures root { result.root ≡ (whole_in self.now).root }
    {
        self.parts
    }

    /// A cursor at the root, with the whole budget: one resource for each two bytes of the file,
    /// whatever its pool bundle has.
    pub fn root(&self) -> (Cursor<'de>, Walk)
        ensures { StandsAtRoot (whole_in self.now) result }
    {
        Cursor::begin(self.parts, self.bytes)
    }
}
