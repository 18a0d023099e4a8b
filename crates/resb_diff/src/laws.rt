//! Laws of differences, each the contract of a call that does nothing.
//! Their statements are in `specs/Laws.antt` and `specs/Applied.antt`.
ghost use Rattle.resb_diff.specs.Laws.{NoneWhereEqual, EachIsSo};
ghost use Rattle.resb_diff.specs.Applied.{DifferencesMake};

/// Two trees don't differ exactly where they are equal.
pub fn equal_trees_do_not_differ()
    ensures { NoneWhereEqual }
{}

/// Each difference is so: what it says of the old tree and of the new one stands there.
pub fn differences_are_so()
    ensures { EachIsSo }
{}

/// The old tree with the differences carried out is the new one, and without any one of them it
/// isn't. What is changed is neither of two arrays nor of two tables, and the paths ascend.
pub fn differences_make_the_new_tree()
    ensures { DifferencesMake }
{}
