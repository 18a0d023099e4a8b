//! The printer of bundles: their texts in either form, and their JSON, as a text or in blocks into
//! any writer, from whatever holds the bundle, and what keeps it from having one. What such a text
//! is stands in `resb_print`, and how ICU's form spells it in `resb_icu_print`.
#![tactic(auto)]

mod causes;
mod form;
mod inside;
mod printing;
mod room;
mod task;
mod text;
mod write;

pub use printing::{Print, PrintForm, Printable};
pub use write::ShownBundle;
