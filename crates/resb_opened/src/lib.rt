//! Files that were counted once: then a value is found by its path, or gone to step by step, and
//! nothing but want of memory is refused any more.
//! Files are counted in `resb_read`.
#![tactic(auto)]

mod ahead;
mod ascending;
mod found;
mod handle;
mod inside;
mod kind;
mod leaves;
mod opened;
mod opening;
mod ordering;
mod shown;
mod standing;

pub use ahead::{EntriesAhead, MembersAhead};
pub use ascending::Ascending;
pub use found::Found;
pub use handle::Handle;
pub use kind::Kind;
pub use opened::Opened;
pub use ordering::all_ascend;
