//! How a file is counted, and whether its tables ascend is found.
//! How its head is checked, and what it is counted by, is in `resb_read`.
ghost use Rattle.std.specs.Prelude.{◌≡◌, IfOk, length};
ghost use Rattle.resb_read.specs.Files.{whole_in};
ghost use Rattle.resb_opened.specs.Handles.{tree_at, tree_in};
ghost use Rattle.resb_opened.specs.Opening.{FindsAscending, Opens};

use crate::handle::Handle;
use crate::opened::Opened;
use crate::ordering::all_ascend;
use resb_format::BinaryDeserializerError;
use resb_read::File;
use resb_walk::Member;
use std::alloc::Global;

impl<'de> Opened<'de> {
    /// Counts a file, as `File::count` does, with its refusals, and want of memory besides. Where
    /// the keys of all tables ascend, that is found, unless they have more than 16 times the bytes
    /// of the file, a key counted as often as it is reached.
    pub fn of(alloc: Global, file: &File<'de>) -> Result<Opened<'de>, BinaryDeserializerError>
        ensures opens { Opens (whole_in file.now) result }
        ensures ascends { IfOk result
            (FindsAscending (whole_in file.now) (length file.now.bytes.now)) }
    {
        let count = file.count(alloc)?;
        let parts = file.parts();
        let room = file.bytes().len();
        let ascends = all_ascend(alloc, parts.file, parts.root, count, room)?;
        Ok(Opened::counted(parts, count, ascends))
    }

    /// How many resources the file has: those of replaced entries count too.
    pub fn count(&self) -> usize
        ensures { result ≡ self.now.count }
    {
        self.count
    }

    /// The root.
    pub fn root(&self) -> Handle<'_>
        ensures { tree_at result ≡ tree_in self.now }
    {
        Handle::at(self, Member::Word(self.root))
    }
}
