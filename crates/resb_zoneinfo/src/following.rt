//! Links of a list followed to the values that they lead to.
//! What links are is said in `linked`.
ghost use Rattle.std.specs.Prelude.{IfOk, IfErr};
ghost use Rattle.resb_zoneinfo.specs.Leading.{LeadsTo, LeadsNowhere};

use crate::checking::ZoneError;
use crate::linked::Linked;

/// The value of the member with this number, or that of the member that it is a link to.
pub(crate) fn value_at<T>(members: &[Linked<T>], number: usize) -> Result<&T, ZoneError>
    ensures said { IfOk result (λ t. LeadsTo members.now number t.now) }
    ensures refused { IfErr result (LeadsNowhere members.now number) }
{
    let link = match members.get(number).ok_or(ZoneError::NoZone)? {
        Linked::Value(value) => return Ok(value),
        Linked::Link(link) => *link,
    };
    let other = usize::try_from(link).map_err(|_| ZoneError::Link)?;
    match members.get(other) {
        Some(Linked::Value(value)) => Ok(value),
        _ => Err(ZoneError::Link),
    }
}
