//! What a pool bundle lends to a file, and how the file's short bodies tell it.
//! Where a pool has keys and strings is found in `resb_lent`.
ghost use Rattle.std.specs.Prelude.{◌≡◌};
ghost use Rattle.resb_layout.specs.Laid.{near_by, short_by};
ghost use Rattle.resb_write.specs.Inner.Lending.{lends_of, lent_of};

/// What a position of a key that the pool has is over its place there.
const LENT_KEY: u32 = 0x8000_0000;

/// What no unit holds.
const NO_UNIT: u64 = 65536;

/// What a pool bundle lends to a file, as a short body of the file tells it. (ICU's `uresdata.h`:
/// pool bundles.)
#[derive(Clone, Copy)]
pub(crate) struct Lends {
    /// Where the file's own keys end, in bytes of the body.
    pub(crate) own_end: u32,
    /// The first index of a string that is the file's own.
    pub(crate) limit: u32,
    /// The first index of the file's own strings, as a unit tells it.
    pub(crate) short_limit: u32,
}

impl Lends {
    /// A position as 16 bits tell it: more than 65535 where they can't.
    fn near(&self, position: u32) -> u64
        ensures { result ≡ near_by (Some (lends_of self.now)) position }
    {
        if position >= LENT_KEY {
            u64::from(position - LENT_KEY) + u64::from(self.own_end)
        } else {
            u64::from(position)
        }
    }

    /// A string's index as a unit tells it: more than 65535 where none can.
    fn short(&self, index: u32) -> u64
        ensures { result ≡ short_by (Some (lends_of self.now)) index }
    {
        if index == 0 {
            0
        } else if index >= self.limit {
            u64::from(index - self.limit) + u64::from(self.short_limit)
        } else if index < self.short_limit {
            u64::from(index)
        } else {
            NO_UNIT
        }
    }
}

/// A position as 16 bits tell it, or itself where no pool is used.
#[inline(always)]
pub(crate) fn near(lent: Option<Lends>, position: u32) -> u64
    ensures { result ≡ near_by (lent_of lent) position }
{
    match lent {
        Some(lends) => lends.near(position),
        None => u64::from(position),
    }
}

/// A string's index as a unit tells it, or itself where no pool is used.
#[inline(always)]
pub(crate) fn short(lent: Option<Lends>, index: u32) -> u64
    ensures { result ≡ short_by (lent_of lent) index }
{
    match lent {
        Some(lends) => lends.short(index),
        None => u64::from(index),
    }
}
