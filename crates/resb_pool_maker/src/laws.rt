//! The laws of pool bundles that are made, each the contract of a call that does nothing. Their
//! statements stand in `specs/Laws`.
ghost use Rattle.resb_pool_maker.specs.Laws.{MadePoolIsRead, OnePoolFile};

/// The pool bundle of bundles is read: `PoolBundle::read` of `resb_pool_bundle` refuses it for
/// nothing, and it lends each key of the bundles and each string that they share.
pub fn made_pool_is_read()
    ensures { MadePoolIsRead }
{}

/// Bundles in an order leave one pool bundle of each packing: whoever makes it of them makes the
/// bytes that `PoolMaker` gives.
pub fn one_pool_file()
    ensures { OnePoolFile }
{}
