//! What a person is told of a text: where a place is, the line round it, what else may be the cause
//! of a refusal, and warnings.
//! Nothing is read, compiled or written to a stream here.
#![tactic(auto)]

mod braces;
mod clues;
mod excerpt;
mod groups;
mod icu_keys;
mod icu_marks;
mod icu_runs;
mod icu_steps;
mod icu_tokens;
mod icu_walk;
mod icu_warning;
pub mod laws;
mod location;
mod named;
mod numbers;
mod runs;
mod text_pieces;
mod told;
mod warning;

pub use braces::{innermost_icu_open, innermost_open};
pub use clues::{first_icu_outdent, first_outdent, long_icu_string_before, long_string_before};
pub use excerpt::{is_hidden, pointed_line};
pub use icu_keys::{first_icu_word, repeated_icu_keys};
pub use icu_warning::icu_warnings;
pub use location::{Location, Locations, location_of};
pub use told::told_warnings;
pub use warning::{Reason, Warning, warnings};
