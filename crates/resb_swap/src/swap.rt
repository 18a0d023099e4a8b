//! A file in the other order of bytes.
//! Its head is read in `head`, and its bodies are walked in `walk`.
ghost use Rattle.std.specs.Prelude.{MatchResult};
ghost use Rattle.resb_swap.specs.Swapped.{IsSwapped};
ghost use Rattle.resb_swap.specs.Faults.{IsFault};

use crate::error::SwapError;
use crate::head::read_head;
use crate::mirror::mirrored;
use crate::walk::roles_of;
use std::alloc::Global;

/// The file in the other order of bytes: big-endian, if it is little-endian, else the other way
/// round. Its byte 8 names its order. Each number of 16 or 32 bits is mirrored; keys, the bytes of
/// binaries and what nothing leads to stay as they are. A binary that begins as the data of a
/// collation does, whatever its key, is mirrored inside: its numbers of 16, 32 and 64 bits, and its
/// own order. (ICU's `uresdata.h`, `ucmndata.h`, `collationdatareader.h`, `utrie2.h`.)
///
/// Refused where the head isn't that of a bundle of version 1.1 to 3.0, where a resource lies
/// outside the file or inside another one, so that a byte would have two roles, where a word names
/// no type, and where the data of a collation has other parts than versions 4 and 5 of its format,
/// or parts that don't stand one behind the other. Words that lead in a circle are mirrored as
/// others are. The time grows with the bytes, and so does the memory: half a file's bytes beside
/// the new ones.
pub fn swapped(alloc: Global, bytes: &[u8]) -> Result<Vec<u8>, SwapError>
    ensures { MatchResult result (λ to. IsSwapped bytes.now to.items) (IsFault bytes.now) }
{
    let body = read_head(bytes)?;
    let roles = roles_of(alloc, body)?;
    Ok(mirrored(alloc, bytes, body.start, &roles)?)
}
