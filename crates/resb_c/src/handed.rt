//! How the answers of an opened file reach the caller: a status, and a resource or bytes of the
//! file. What is answered is found in `seen` and `within`.
ghost use Rattle.std.specs.Prelude.{◌≡◌, [], MatchResult};
ghost use Rattle.resb_c.specs.Faults.{number_of};
ghost use Rattle.resb_c.specs.Handed as handed;
ghost use Rattle.resb_c.specs.Handed.{HandsOn};

use crate::fault::Fault;
use crate::resource::ResbResource;

/// Bytes of a file, or of the pool bundle beside it, which are not copied.
#[derive(Clone, Copy)]
#[repr(C)]
pub struct ResbBytes<'a> {
    /// The bytes.
    pub bytes: &'a [u8],
}

/// The status of an answer: 0, or the fault's number.
pub(crate) fn status_of<T>(answer: &Result<T, Fault>) -> u32
    ensures { result ≡ handed.status_of answer.now }
{
    match answer {
        Ok(_) => 0,
        Err(fault) => fault.number(),
    }
}

/// Writes what was found, or the number 0, and gives the call's status.
pub(crate) fn hand_on(answer: &Result<ResbResource, Fault>, found: &mut ResbResource) -> u32
    ensures { HandsOn answer.now result found.new }
{
    *found = match answer {
        Ok(resource) => *resource,
        Err(_) => ResbResource::none(),
    };
    status_of(answer)
}

/// Writes where the bytes lie that were found, or that there are none, and gives the call's status.
pub(crate) fn hand_bytes<'a>(answer: &Result<&'a [u8], Fault>, found: &mut ResbBytes<'a>) -> u32
    ensures { MatchResult answer.now
        (λ bytes. (result ≡ 0) × (found.new.bytes.now ≡ bytes.now))
        (λ e. (result ≡ number_of e) × (found.new.bytes.now ≡ [])) }
{
    found.bytes = match answer {
        Ok(bytes) => bytes,
        Err(_) => &[],
    };
    status_of(answer)
}
