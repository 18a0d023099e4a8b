//! What the caller is told: a status, a number, and an error with its message.
//! Which fault there is, is found in `compiling`, `files` and `found`.
ghost use Rattle.std.specs.Prelude.{◌≡◌};
ghost use Rattle.resb_c.specs.Calls.{IsMessage, Reports, Tells, number_told};
ghost use Rattle.resb_c.specs.Faults.{message_of};

use crate::fault::Fault;
use crate::files::fill;
use std::alloc::Global;

/// Why a call failed. After a call that succeeded its kind is 0, its place 0 and its message empty.
#[repr(C)]
pub struct ResbError {
    /// The number of the fault, which is the call's status.
    pub kind: u32,
    /// The byte of the text at which it can't be read on, else 0.
    pub place: usize,
    /// What the fault prints as, cut at 255 bytes, and a zero byte at its end.
    pub message: [u8; 256],
}

/// Writes a fault's message, with zero bytes behind it, or nothing where memory is wanted for it.
fn write_message(alloc: Global, fault: &Fault, message: &mut [u8; 256])
    ensures { IsMessage (message_of fault.now) message.new }
{
    *message = [0; 256];
    if let Ok(text) = format!(in alloc; "{fault}") {
        let bytes = text.as_bytes();
        let _ = fill(&bytes[..bytes.len().min(255)], message);
    }
}

/// Writes why a call failed, if it did, where the caller wants it, and gives the call's status.
pub(crate) fn tell<T>(alloc: Global, answer: &Result<T, Fault>, error: &mut ResbError) -> u32
    ensures { Tells answer.now result error.new }
{
    error.kind = 0;
    error.place = 0;
    error.message = [0; 256];
    if let Err(fault) = answer {
        error.kind = fault.number();
        error.place = fault.place();
        write_message(alloc, fault, &mut error.message);
    }
    error.kind
}

/// The number that the caller gets of an answer: the answer, or the length that an error has for
/// him.
pub(crate) fn length_of(answer: &Result<usize, Fault>) -> usize
    ensures { result ≡ number_told answer.now }
{
    match answer {
        Ok(found) => *found,
        Err(Fault::TooShort(needed)) => *needed,
        Err(_) => 0,
    }
}

/// Reports an answer that is a number, or an error that has one, which is written too.
pub(crate) fn report(
    alloc: Global,
    answer: Result<usize, Fault>,
    number: &mut usize,
    error: &mut ResbError,
) -> u32
    ensures { Reports answer result number.new error.new }
{
    *number = length_of(&answer);
    tell(alloc, &answer, error)
}
