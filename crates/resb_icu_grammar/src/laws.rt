//! The laws of ICU's text form, each the contract of a function that does nothing.
//! They speak of the definitions alone.
ghost use Rattle.resb_grammar.specs.Laws.{OneText, KeysAreDistinct, KeysAreListed};
ghost use Rattle.resb_grammar.specs.Laws.{StuckInOneWay, StuckIsNoText, WithinIsNeverMore};
ghost use Rattle.resb_icu_grammar.specs.Bundle.{IcuText};
ghost use Rattle.resb_icu_grammar.specs.Laws.{IcuMachineReadsTheForm};
ghost use Rattle.resb_icu_grammar.specs.Limit.{IcuMadeWithin, IcuMakesMore};
ghost use Rattle.resb_icu_grammar.specs.Stuck.{Stuck};

/// A text of ICU's form has one name, fallback, tree and list of keys.
pub fn one_icu_text()
    ensures { OneText IcuText }
{}

/// No two discovered keys of a text in ICU's form are equal.
pub fn icu_keys_are_distinct()
    ensures { KeysAreDistinct IcuText }
{}

/// The discovered keys of a text in ICU's form hold each key of its tree.
pub fn icu_keys_are_listed()
    ensures { KeysAreListed IcuText }
{}

/// A text in which a reading gets stuck is no bundle in ICU's form.
pub fn icu_stuck_is_no_text()
    ensures { StuckIsNoText Stuck IcuText }
{}

/// A text in which a reading gets stuck does so at one place, where one thing is expected.
pub fn one_icu_refusal()
    ensures { StuckInOneWay Stuck }
{}

/// The steps of a reading lead to the end of a text exactly where it is a bundle in ICU's form,
/// with that bundle's name, fallback, tree and keys.
pub fn icu_machine_reads_the_form()
    ensures { IcuMachineReadsTheForm }
{}

/// Where the whole reading of a text in ICU's form makes no more bytes than a limit, no part of it
/// makes more.
pub fn icu_within_is_never_more()
    ensures { WithinIsNeverMore IcuMadeWithin IcuMakesMore }
{}
