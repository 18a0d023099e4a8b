//! A file in the other order of bytes, which goes to the front of the caller's buffer.
//! Which file that is, and why there may be none, is decided by `resb_swap`.
ghost use Rattle.std.specs.Prelude.{◌≡◌};
ghost use Rattle.resb_c.specs.Faults as faults;
ghost use Rattle.resb_c.specs.Swapping.{SwapsInto};

use crate::fault::Fault;
use crate::files::fill;
use resb_format::ErrorKind;
use resb_swap::{SwapError, swapped};
use std::alloc::Global;

/// The number of what keeps a file from being swapped.
pub(crate) fn number(e: &SwapError) -> u32
    ensures { result ≡ faults.swap_number e.now }
{
    match e {
        SwapError::Header(e) => match e.kind() {
            ErrorKind::OutOfMemory => 8,
            ErrorKind::UnsupportedFormat => 6,
            _ => 5,
        },
        SwapError::Ebcdic | SwapError::OtherCharacters | SwapError::FirstVersion => 6,
        SwapError::NoMemory => 8,
        _ => 5,
    }
}

/// Writes a file in the other order of bytes to the front of the buffer.
pub(crate) fn swap_into(alloc: Global, file: &[u8], out: &mut [u8]) -> Result<usize, Fault>
    ensures { SwapsInto file.now out.old out.new result }
{
    let other = swapped(alloc, file).map_err(Fault::Swapping)?;
    fill(other.as_slice(), out).map_err(Fault::TooShort)
}
