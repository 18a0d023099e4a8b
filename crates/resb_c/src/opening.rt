//! How a file is opened: it is counted, which checks it as a whole, whether its tables ascend is
//! found, and its parts are kept.
//! What stands in them is found in `seen` and `within`.
ghost use Rattle.std.specs.Prelude.{◌≡◌};
ghost use Rattle.resb_c.specs.Opening.{OpensFile};

use crate::fault::Fault;
use crate::files::{Input, source_of};
use crate::opened::ResbOpened;
use resb_format::BinaryDeserializerError;
use resb_opened::all_ascend;
use std::alloc::Global;

/// Opens a file beside the pool bundle that is given, if one is.
pub(crate) fn open_file<'a>(alloc: Global, input: Input<'a>) -> Result<ResbOpened<'a>, Fault>
    ensures { OpensFile input.entry.pool.now input.entry.file.now result }
{
    let source = source_of(input)?;
    let count = match source.file.count(alloc) {
        Ok(count) => count,
        Err(e) => return Err(Fault::Reading(e)),
    };
    let parts = source.file.parts();
    match all_ascend(alloc, parts.file, parts.root, count, input.file.len()) {
        Ok(ascends) => Ok(ResbOpened::of(parts, count, ascends)),
        Err(_) => Err(Fault::Reading(BinaryDeserializerError::out_of_memory())),
    }
}
