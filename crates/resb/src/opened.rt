//! Files that were counted once, for programs that look up again and again: what is in them is
//! found without a budget, and nothing but want of memory is refused any more.
//! Files that are read once, as a tree or a type, are in `binary`.
pub use resb_opened::{Ascending, EntriesAhead, Found, Handle, Kind, MembersAhead, Opened};
