//! Records: a table's named entries as the fields of a struct of one's own, with no proof.
//! Single values are looked up by `resb_read::TableView`.
#![tactic(auto)]

mod chain;
mod field;
mod record;
mod tuples;

pub use chain::Chain;
pub use field::{Field, Maybe, OrDefault};
pub use record::{Record, Table};
pub use tuples::Fields;
