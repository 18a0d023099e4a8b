//! Laws of pools, each the contract of a call that does nothing.
//! Their statements are in `specs/Laws.antt`.
ghost use Rattle.resb_pool.specs.Laws.{RecordsCostLeast, PoolIsRead, OnePool};

/// Whatever records could hold the strings of a tree, those that the format's rule gives take no
/// more 16-bit units.
pub fn records_cost_least()
    ensures { RecordsCostLeast }
{}

/// Each text that was planned is read back where it stands, whatever follows the pool's units.
pub fn pool_is_read()
    ensures { PoolIsRead }
{}

/// Strings have one pool: its units, and where each text stands.
pub fn one_pool()
    ensures { OnePool }
{}
