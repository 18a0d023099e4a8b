//! Where the strings of a tree stand in the pool at the front of the 16-bit block.
//! Which strings get a record is decided in `resb_pool`.
ghost use Rattle.std.specs.Prelude.{IfOk, IfErr};
ghost use Rattle.resb_pool.specs.Plan.{nows, NotPlanned};
ghost use Rattle.resb_write.specs.Inner.Pooled.{Pooled};

use resb_pool::packed::plan_packed;
use resb_pool::{Packing, PlanError};
use std::alloc::Global;

/// The units of a pool, and the offset of each string in it, in the order in which they were given.
#[derive(Drop)]
pub(crate) struct Strings {
    pub(crate) pool: Vec<u16>,
    pub(crate) offsets: Vec<u32>,
}

impl Strings {
    /// The pool of the strings of a tree, which are given in laying order, in a file that is packed
    /// like this. Refused is a string that is too long, and strings that are too large for a pool.
    pub(crate) fn plan(
        alloc: Global,
        packing: Packing,
        texts: Vec<&str>,
    ) -> Result<Strings, PlanError>
        ensures ok { IfOk result
            (λ s. Pooled packing (nows texts.entry.items) s.pool.items s.offsets.items) }
        ensures err { IfErr result (NotPlanned (nows texts.entry.items)) }
    {
        let (pool, offsets) = plan_packed(alloc, packing, texts)?;
        Ok(Strings { pool, offsets })
    }
}
