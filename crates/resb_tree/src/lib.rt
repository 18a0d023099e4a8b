//! What a resource bundle is: a name, a flag and a tree of resources.
//! No byte of a text or of a file is looked at here.
#![tactic(auto)]

mod bundle;
mod dropping;
mod equality;
mod int28;
mod key;
pub mod laws;
mod laying_order;
mod no_memory;
mod resource;
pub mod weights;

pub use bundle::ResourceBundle;
pub use int28::Int28;
pub use key::Key;
pub use laying_order::{LayingOrder, in_laying_order};
pub use no_memory::NoMemory;
pub use resource::{FEW_ENTRIES, Resource, Table, table_at_once};
