//! How a program keeps the memory that it gives back.
//! What it does with bytes is in `streams`.

use std::alloc::{AllocError, Global};

/// Pieces of up to so many bytes are kept.
const LARGEST_KEPT: usize = 1_048_576;

/// Asks for a piece of memory of that size and gives it back untouched. A refusal does no harm.
fn ask_and_give_back(alloc: Global) {
    let _piece: Result<Vec<u8>, AllocError> = Vec::with_capacity(alloc, LARGEST_KEPT);
}

/// Asks twice for a large piece of memory and gives it back untouched. Nothing else depends on it.
///
/// GNU's C library hands a piece of 128 kB or more back to the system, unless one as large was
/// handed back before, and the next one costs the system's time for each page once more. From the
/// first piece on it keeps pieces of up to this size for the next requests. (`mallopt` of that
/// library: the threshold of `mmap` follows the largest piece that was given back.) So the second
/// piece comes from the heap, whose end has as much room from then on, and a list that stands last
/// there grows where it is. Longer lists are the system's to move.
pub fn keep_freed_memory(alloc: Global) {
    ask_and_give_back(alloc);
    ask_and_give_back(alloc);
}
