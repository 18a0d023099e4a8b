//! Laws of printed texts, each the contract of a function that does nothing.
//! Their statements stand in `specs/Laws`.
ghost use Rattle.resb_grammar.specs.BundleText.{BundleText};
ghost use Rattle.resb_print.specs.Laws.{PrintedIsABundle, ABundleGivesNoCause};
ghost use Rattle.resb_print.specs.Laws.{PrintedIsLinear, CausesStandFirst, NoCauseStands};
ghost use Rattle.resb_print.specs.Paths.{plain_tests};
ghost use Rattle.resb_print.specs.Printed.{plain_spelling};

/// A tree in whose way nothing stands has a text.
pub fn printed_is_a_bundle()
    ensures { PrintedIsABundle plain_tests plain_spelling BundleText }
{}

/// Nothing stands in the way of the tree of a bundle text.
pub fn a_bundle_gives_no_cause()
    ensures { ABundleGivesNoCause plain_tests BundleText }
{}

/// The first cause of a bundle stands where the path to it leads, and none stands before it; a
/// bundle without a first cause has none anywhere. Each table of the bundle is a map here.
pub fn causes_stand_where_paths_lead()
    ensures first { CausesStandFirst plain_tests }
    ensures none { NoCauseStands plain_tests }
{}

/// The text of a bundle has at most 270 bytes for each resource, the bytes of the name, keys,
/// strings and aliases' paths, two for each byte of a binary, and eleven for each number of a
/// vector.
pub fn printed_is_linear()
    ensures { PrintedIsLinear plain_spelling 1 }
{}
