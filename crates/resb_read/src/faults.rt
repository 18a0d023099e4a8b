//! What is said where a type isn't read at a place, and the value of a descriptor of one that is.
//! Faults of the file itself are in `resb_walk::faults`.
ghost use Rattle.std.specs.Prelude.{◌≡◌, ◌≢◌, ◌≤◌, IfOk, IfErr, true};
ghost use Rattle.resb_format.specs.Descriptor.{type_number};
ghost use Rattle.resb_format.specs.Parts.{parts_in};
ghost use Rattle.resb_format.specs.Types.{is_read_type};
ghost use Rattle.resb_walk.specs.BlockRefusals.{Says};
ghost use Rattle.resb_walk.specs.Refusals.{IsFault};
ghost use Rattle.resb_read.specs.Leaves.{type_in, value_in};
ghost use Rattle.resb_read.specs.PlaceRefusals as refused;
ghost use Rattle.resb_read.specs.RefusedReadings.{Takes};

use crate::cursor::{Cursor, Spot};
use resb_format::{BinaryDeserializerError, FileBlocks, ResourceReprType};
use resb_walk::Walk;
use resb_walk::types::readable;

/// A number doesn't fit the type.
pub(crate) fn out_of_range() -> BinaryDeserializerError
    ensures { Says refused.out_of_range result }
{
    BinaryDeserializerError::unknown("number out of range")
}

/// A place where no value of the type stands.
pub(crate) fn elsewhere() -> BinaryDeserializerError
    ensures says { Says refused.elsewhere result }
    ensures fault { IsFault result }
{
    BinaryDeserializerError::unknown("value cannot be read here")
}

/// The refusal at a place that a type does not read. A descriptor and a string's unit cost one of
/// the budget before they are looked at, and a descriptor's type has to be one that is read at all.
pub(crate) fn refused_here(place: Cursor<'_>, walk: &mut Walk) -> BinaryDeserializerError
    ensures falls { walk.new ≤ walk.old }
    ensures says { Says (refused.no_value_from (parts_in place.entry.file) place.entry.at walk.old)
        result }
    ensures takes { Takes place.entry.at walk.old walk.new }
{
    match place.at {
        Spot::Descriptor(word) => match walk.pay() {
            Ok(()) => match readable(place.file, word) {
                Ok(_) => elsewhere(),
                Err(unread) => unread,
            },
            Err(spent) => spent,
        },
        Spot::Unit(_) => match walk.pay() {
            Ok(()) => elsewhere(),
            Err(spent) => spent,
        },
        Spot::Word(_) | Spot::Key(_) => elsewhere(),
    }
}

/// The value of a descriptor of this type. Another type is refused: one that isn't read at all as
/// such, or else as a mismatch.
#[tactic(auto, using(resb_format::proofs::Apart::type_apart))]
pub(crate) fn value_of(
    file: FileBlocks<'_>,
    word: u32,
    wanted: ResourceReprType,
    expected: &'static str,
) -> Result<u32, BinaryDeserializerError>
    requires { is_read_type (type_number wanted) ≡ true }
    ensures ok { IfOk result
        (λ v. (type_in word ≡ type_number wanted) × (v ≡ value_in word)) }
    ensures err { IfErr result (λ e. type_in word ≢ type_number wanted) }
    ensures says { let other = refused.mismatch expected.entry.now in
        IfErr result (Says (refused.type_refusal (parts_in file.entry) (type_in word) other)) }
{
    let (kind, value) = readable(file, word)?;
    if kind != wanted {
        return Err(BinaryDeserializerError::resource_type_mismatch(expected));
    }
    Ok(value)
}
