//! A value in a list, or a number in its place that leads to another member of the list.
//! Where such links are followed is said in `info`.
ghost use Rattle.resb_zoneinfo.specs.Linked.{ReadsLinked, CountsLinked, RefusesLinked};
ghost use Rattle.resb_zoneinfo.specs.LinkedLaws.{linked_counted, linked_one};

use resb::binary::{Cursor, Deserialize, ReadingError, ResourceReprType, Walk};
use std::alloc::Global;

/// A member of a list: a value of its own, or the number of the member that it is the same as.
#[derive(Drop)]
pub enum Linked<T> {
    /// The number of another member, from 0 on.
    Link(i32),
    /// A value.
    Value(T),
}

/// An integer is a link, and anything else a value.
impl<'de, T: Deserialize<'de>> Deserialize<'de> for Linked<T> {
    ghost reads = { ReadsLinked T.reads };

    ghost counts = { CountsLinked T.counts };

    ghost refuses = { RefusesLinked T.refuses };

    ghost counted = { linked_counted T.reads T.counts T.counted };

    ghost one_count = { linked_one T.counts T.one_count };

    fn deserialize<'m>(
        alloc: Global,
        at: Cursor<'de>,
        walk: &mut Walk,
    ) -> Result<Linked<T>, ReadingError<'m>> {
        match at.resource_type()? {
            ResourceReprType::Int => Ok(Linked::Link(i32::deserialize(alloc, at, walk)?)),
            _ => Ok(Linked::Value(T::deserialize(alloc, at, walk)?)),
        }
    }
}
