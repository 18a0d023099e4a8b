//! Records: the entries of a table as the fields of a struct of one's own, which needs no proof.
//! Single values are looked up by `binary::TableView`.

pub use resb_fields::{Field, Fields, Maybe, OrDefault, Record, Table};
