//! ICU's own time zones, `zoneinfo64.res`, read into records, and the offset of a zone at a moment.
//! It names `resb` and no lower crate; how tables become records is said in `resb::fields`.
#![tactic(auto)]

mod checking;
pub mod civil;
mod data;
mod day;
mod edge;
mod following;
mod info;
mod linked;
mod names;
mod numbers;
mod reading;
mod rule;
mod transitions;
mod zone;

pub use checking::ZoneError;
pub use data::{InfoFields, ZoneData, ZoneFields, ZoneInfo};
pub use day::RuleDay;
pub use edge::{Clock, Edge};
pub use linked::Linked;
pub use numbers::RuleError;
pub use rule::FinalRule;
pub use transitions::Transitions;
pub use zone::{FinalYears, Zone};
