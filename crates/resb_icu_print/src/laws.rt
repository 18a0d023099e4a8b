//! Laws of texts printed in ICU's form, each the contract of a function that does nothing.
//! Their statements stand in `specs/Laws` of `resb_print`.
ghost use Rattle.resb_icu_grammar.specs.Bundle.{IcuText};
ghost use Rattle.resb_print.specs.Laws.{PrintedIsABundle, ABundleGivesNoCause};
ghost use Rattle.resb_print.specs.Laws.{PrintedIsLinear, CausesStandFirst, NoCauseStands};
ghost use Rattle.resb_icu_print.specs.Causes.{icu_tests};
ghost use Rattle.resb_icu_print.specs.Printed.{icu_spelling};

/// A tree in whose way nothing stands has a text of ICU's form.
pub fn printed_icu_is_a_bundle()
    ensures { PrintedIsABundle icu_tests icu_spelling IcuText }
{}

/// Nothing stands in the way of the tree of a text of ICU's form.
pub fn an_icu_text_gives_no_cause()
    ensures { ABundleGivesNoCause icu_tests IcuText }
{}

/// The text of a bundle has at most 270 bytes for each resource, the bytes of the name and keys,
/// six for each byte of a string or of an alias's path, two for each byte of a binary, and eleven
/// for each number of a vector.
pub fn printed_icu_is_linear()
    ensures { PrintedIsLinear icu_spelling 6 }
{}

/// The first cause of a bundle stands where the path to it leads, and none stands before it; a
/// bundle without a first cause has none anywhere. Each table of the bundle is a map here.
pub fn icu_causes_stand_where_paths_lead()
    ensures first { CausesStandFirst icu_tests }
    ensures none { NoCauseStands icu_tests }
{}
