//! JSON of what is shown: objects by key, arrays, strings, signed numbers, bytes as hex digits, and
//! aliases by their paths. It is written in blocks, and nothing calls itself.
//! What a resource is stands in `resb_tree`, and what is shown of it in `resb_shown`.
#![tactic(auto)]

mod quoted;
mod task;
mod text;
mod write;

pub use write::{json_length_within, json_text, json_text_within, write_json};
