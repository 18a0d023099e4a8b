//! The rules of ICU's data build by which entries of tables are left out of a bundle.
//! They are applied to drafts, which the readers in `text` make and the writer in `binary` takes;
//! `Compile` at the top applies them on the way.

pub use resb_filter::{RuleError, RuleFault, Rules};
