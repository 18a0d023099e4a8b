//! Texts of the plain form and of ICU's own: from a text to a bundle and its keys, with a counter
//! of turns for each form, and from a bundle to its text or its JSON (`Print`). The way on to a
//! file is `Compile` at the top.

pub use resb_icu_grammar::IcuExpected;
pub use resb_icu_text::{IcuLimitError, IcuReader, IcuTextError, IcuTurns};
pub use resb_lines::{Print, PrintForm, Printable, ShownBundle};
pub use resb_print::{Cause, PathStep, PrintError};
pub use resb_text::{DraftBundle, Expected, LimitError, Reader, TextParserError, Turns};
