//! A record of a pool bundle as it is held: its text, where it stands, and the last digits of its
//! text, by which a search goes.
//! How records are found in a pool is said in `records`.
ghost use Rattle.std.specs.Prelude.{◌≡◌};
ghost use Rattle.std.specs.String.{string_bytes};
ghost use Rattle.std.proofs.Props.{props};
ghost use Rattle.resb_pool.specs.Inner.Suffixes.{last_digits as digits_of};

/// A record of a pool bundle.
#[derive(Drop)]
pub(crate) struct LentRecord {
    pub(crate) text: String,
    /// The unit at which it stands.
    pub(crate) at: u32,
    /// The unit right behind it.
    pub(crate) end: u32,
    /// The last digits of its text, by which most records are told apart.
    pub(crate) digits: u128,
    ghost keyed: { digits ≡ digits_of (string_bytes text) } by { Prim.hlevel props },
}
