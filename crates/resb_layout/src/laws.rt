//! Laws of layouts, each the contract of a call that does nothing.
//! Their statements stand in `specs/Laws`.
ghost use Rattle.resb_layout.specs.Laws.{OneLayout, LaidIsDenoted, LaidIsPaid, LaidInOrder};

/// From where it begins a tree is laid out in one way.
pub fn one_layout()
    ensures { OneLayout }
{}

/// In a file that holds what was laid out for a tree, the tree's word denotes it, if the tree has
/// no alias or aliases are read.
pub fn laid_is_denoted()
    ensures { LaidIsDenoted }
{}

/// What was laid out for a tree are the bodies of its resources in laying order, one right behind
/// another, each in the tail from a word on.
pub fn laid_in_order()
    ensures { LaidInOrder }
{}

/// What was laid out for a tree has two bytes for each of its resources but the root.
pub fn laid_is_paid()
    ensures { LaidIsPaid }
{}
