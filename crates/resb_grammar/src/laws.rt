//! Laws of the text form, each the contract of a function that does nothing.
//! They speak of the definitions alone; what a reader answers is said where one stands.
ghost use Rattle.resb_grammar.specs.BundleText.{BundleText};
ghost use Rattle.resb_grammar.specs.Laws.{OneText, StuckInOneWay, StuckIsNoText};
ghost use Rattle.resb_grammar.specs.Laws.{ReadToTheEndIsABundle, ABundleIsReadToTheEnd};
ghost use Rattle.resb_grammar.specs.Laws.{KeysAreDistinct, KeysAreListed, BundleTextsHaveNoAlias};
ghost use Rattle.resb_grammar.specs.Laws.{OneMaking, BundlesAreMade, WithinIsNeverMore};
ghost use Rattle.resb_grammar.specs.Limit.{MadeWithin, MakesMore};
ghost use Rattle.resb_grammar.specs.Stuck.{Stuck};

/// A text has at most one name, fallback, tree and list of keys.
pub fn one_bundle_text()
    ensures { OneText BundleText }
{}

/// A reading that gets stuck does so at one place, where one thing is expected.
pub fn one_refusal()
    ensures { StuckInOneWay Stuck }
{}

/// A text whose reading gets stuck is no bundle.
pub fn stuck_is_no_bundle()
    ensures { StuckIsNoText Stuck BundleText }
{}

/// A text whose reading goes on to its end is the bundle of the entries read.
pub fn read_to_the_end_is_a_bundle()
    ensures { ReadToTheEndIsABundle }
{}

/// The reading of a bundle's text goes on to its end.
pub fn a_bundle_is_read_to_the_end()
    ensures { ABundleIsReadToTheEnd }
{}

/// No two discovered keys are equal.
pub fn keys_are_distinct()
    ensures { KeysAreDistinct BundleText }
{}

/// The discovered keys of a bundle's text hold every key of its tree.
pub fn keys_are_listed()
    ensures { KeysAreListed BundleText }
{}

/// The tree of a bundle's text has no alias.
pub fn bundle_texts_have_no_alias()
    ensures { BundleTextsHaveNoAlias }
{}

/// What the whole reading of a text makes is one number of bytes.
pub fn one_making()
    ensures { OneMaking }
{}

/// A bundle's text is read to its end, and its reading makes some number of bytes.
pub fn bundles_are_made()
    ensures { BundlesAreMade }
{}

/// Where the whole reading of a text makes no more than a limit, no part of it makes more.
pub fn within_is_never_more()
    ensures { WithinIsNeverMore MadeWithin MakesMore }
{}
