//! The parts of a file, as the crates above hand them on.
//! How they are cut out of its bytes is said in `resb_head`, what stands in them in `resb_walk`.
ghost use Rattle.std.specs.Prelude.{◌≡◌};
ghost use Rattle.resb_format.specs.Parts.{lent_in, no_pool};

/// What a file takes from a pool bundle.
#[derive(Clone, Copy)]
pub struct PoolBlocks<'a> {
    /// The pool's keys, from behind its index on.
    pub keys: &'a [u8],
    /// The pool's 16-bit block.
    pub block: &'a [u8],
    /// The first index of a string that is the file's own.
    pub limit: u32,
    /// The first index of the file's own strings, as a unit tells it.
    pub short_limit: u16,
}

impl PoolBlocks<'static> {
    /// What a file takes that uses no pool bundle: nothing.
    #[tactic(auto, unfolding(crate::specs::Bytes::units_of))]
    pub fn none() -> PoolBlocks<'static>
        ensures { lent_in result ≡ no_pool }
    {
        PoolBlocks {
            keys: &[],
            block: &[],
            limit: 0,
            short_limit: 0,
        }
    }
}

/// The parts of a file, each in bytes. (ICU's `uresdata.h`.)
#[derive(Clone, Copy)]
pub struct FileBlocks<'a> {
    /// The bytes behind the header. Words count from its start.
    pub body: &'a [u8],
    /// The body's front, up to the end of the keys, or nothing. Own key positions count bytes from
    /// its start.
    pub keys: &'a [u8],
    /// The 16-bit block behind the keys, two bytes for each unit.
    pub block: &'a [u8],
    /// What it takes from a pool bundle, where it is read beside one, or beside none. Else aliases
    /// and strings of the older form aren't read.
    pub pool: Option<PoolBlocks<'a>>,
}
