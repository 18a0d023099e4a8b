//! The type and the value in a descriptor's word, and which types are read.
//! What stands at the value is found in `standing`.
ghost use Rattle.std.specs.Prelude.{◌≡◌, ◌/◌, ◌%◌, ◌^◌, ◌<◌, IfOk, IfErr, true, false};
ghost use Rattle.resb_format.specs.Descriptor.{type_number};
ghost use Rattle.resb_format.specs.Parts.{parts_in};
ghost use Rattle.resb_walk.specs.BlockRefusals.{Says, reads_type, unread_type_refusal};
ghost use Rattle.resb_walk.specs.Refusals.{IsFault};

use crate::faults::unsupported_type;
use resb_format::{BinaryDeserializerError, FileBlocks, ResDescriptor, ResourceReprType};

/// The type and the value in a descriptor's word. Refused are upper 4 bits that name no type, and,
/// unless the file is read beside a pool or beside none, strings of the older form and aliases.
#[inline(always)]
pub fn readable(
    file: FileBlocks<'_>,
    word: u32,
) -> Result<(ResourceReprType, u32), BinaryDeserializerError>
    ensures kind { IfOk result (λ d. word / 2 ^ 28 ≡ type_number d.0) }
    ensures value { IfOk result (λ d. word % 2 ^ 28 ≡ d.1) }
    ensures small { IfOk result (λ d. d.1 < 2 ^ 28) }
    ensures read { let p = parts_in file.entry in
        IfOk result (λ d. reads_type p (type_number d.0) ≡ true) }
    ensures unread { let p = parts_in file.entry in
        IfErr result (λ e. reads_type p (word / 2 ^ 28) ≡ false) }
    ensures says { IfErr result (Says (unread_type_refusal (word / 2 ^ 28))) }
    ensures fault { IfErr result IsFault }
{
    let descriptor = ResDescriptor::try_from(word)?;
    match descriptor.resource_type() {
        ResourceReprType::_String | ResourceReprType::_Alias if file.pool.is_none() => {
            Err(unsupported_type())
        }
        kind => Ok((kind, descriptor.value())),
    }
}
