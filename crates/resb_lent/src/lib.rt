//! What a file over a pool bundle takes from it: where the pool has the keys and the strings of a
//! bundle, the plan of the strings that it lacks, and the head that tells both limits.
//! How bodies tell these places is said in `resb_layout`; no body is laid here.
#![tactic(auto)]

mod answers_beside;
mod copies;
mod ends;
mod head_with_pool;
mod keys;
pub mod laws;
mod lent_record;
mod lent_runs;
mod marks;
mod plan_with_pool;
mod pool;
mod records;
mod texts;
mod tops;

pub use ends::{LentEnds, LentRun};
pub use head_with_pool::HeadWithPool;
pub use keys::LentKeys;
pub use plan_with_pool::PlanWithPool;
pub use pool::Pool;
pub use texts::LentTexts;
