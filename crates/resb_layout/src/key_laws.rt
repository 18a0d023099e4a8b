//! The law of the keys in a compact file's key block, the contract of a call that does nothing.
//! Its statement stands in `specs/KeyLaws`. Which keys are kept is found in `key_ends`.
ghost use Rattle.resb_layout.specs.KeyLaws.{KeptAreLeast};

/// No key that a compact file keeps is the end of another, each key lies in one that is kept, and
/// no block of bytes in which each key stands, with a zero byte behind it, is shorter than that of
/// those that are kept.
pub fn kept_keys_are_least()
    ensures { KeptAreLeast }
{}
