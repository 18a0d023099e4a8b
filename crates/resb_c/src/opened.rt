//! A file that was opened, in a struct of the caller's. It may come back in any state, so that
//! nothing is taken for granted of what it says but that its slices are slices.
//! How a file is opened is in `opening`, what stands in it in `seen` and `within`.
ghost use Rattle.std.specs.Prelude.{◌≡◌, true};
ghost use Rattle.resb_format.specs.Parts.{parts_in, reads_older};
ghost use Rattle.resb_read.specs.declared.cursor.Spot.TheVariants as spot;
ghost use Rattle.resb_c.specs.Opened.{parts_of, says_ascending, spot_of, IsClosed};

use crate::resource::ResbResource;
use resb_format::{FileBlocks, PoolBlocks};
use resb_head::CheckedFile;
use resb_walk::Member;

/// What was learned of a file when it was opened. Its slices are parts of the file, and of the pool
/// bundle beside it.
#[derive(Clone, Copy)]
#[repr(C)]
pub struct ResbOpened<'a> {
    /// The root.
    pub root: ResbResource,
    /// The resources, the root included.
    pub count: usize,
    /// The bytes behind the header.
    pub body: &'a [u8],
    /// The file's own keys.
    pub keys: &'a [u8],
    /// The 16-bit block.
    pub block: &'a [u8],
    /// The pool bundle's keys.
    pub pool_keys: &'a [u8],
    /// The pool bundle's 16-bit block.
    pub pool_block: &'a [u8],
    /// The first index of a string that is the file's own.
    pub limit: u32,
    /// The first index of the file's own strings, as a unit tells it.
    pub short_limit: u16,
    /// Not 0 where the keys of each table were found to ascend.
    pub ascends: u16,
}

impl<'a> ResbOpened<'a> {
    /// What is told of a file that is not opened: nothing stands in it.
    pub(crate) fn none() -> ResbOpened<'a>
        ensures { IsClosed result }
    {
        ResbOpened {
            root: ResbResource::of_member(Member::Word(0)),
            count: 0,
            body: &[],
            keys: &[],
            block: &[],
            pool_keys: &[],
            pool_block: &[],
            limit: 0,
            short_limit: 0,
            ascends: 0,
        }
    }

    /// A file of these parts, which has so many resources, and whose tables ascend or not.
    pub(crate) fn of(parts: CheckedFile<'a>, count: usize, ascends: bool) -> ResbOpened<'a>
        ensures parts { reads_older (parts_in parts.entry.file) ≡ true
            → parts_of result ≡ parts_in parts.entry.file }
        ensures root { spot_of result.root ≡ spot.Descriptor parts.entry.root }
        ensures count { result.count ≡ count }
        ensures ascends { says_ascending result ≡ ascends }
    {
        let file = parts.file;
        let pool = match file.pool {
            Some(pool) => pool,
            None => PoolBlocks::none(),
        };
        ResbOpened {
            root: ResbResource::of_member(Member::Word(parts.root)),
            count,
            body: file.body,
            keys: file.keys,
            block: file.block,
            pool_keys: pool.keys,
            pool_block: pool.block,
            limit: pool.limit,
            short_limit: pool.short_limit,
            ascends: u16::from(ascends),
        }
    }

    /// Whether the keys of each table were found to ascend.
    pub(crate) fn ascends(&self) -> bool
        ensures { result ≡ says_ascending self.now }
    {
        self.ascends != 0
    }

    /// The parts of the file, of which aliases and strings of the older form are read too.
    pub(crate) fn parts(&self) -> FileBlocks<'a>
        ensures { parts_in result ≡ parts_of self.now }
    {
        FileBlocks {
            body: self.body,
            keys: self.keys,
            block: self.block,
            pool: Some(PoolBlocks {
                keys: self.pool_keys,
                block: self.pool_block,
                limit: self.limit,
                short_limit: self.short_limit,
            }),
        }
    }
}
