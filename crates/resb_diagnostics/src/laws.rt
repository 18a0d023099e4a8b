//! Laws of braces, groups and warnings, each the contract of a function that does nothing: what is
//! defined by a walk from byte to byte, said by what stands in the text.
//! Their statements stand in `specs/Laws`.
ghost use Rattle.resb_diagnostics.specs.Laws.{FindsInnermost, FindsIcuInnermost, OneInnermost};
ghost use Rattle.resb_diagnostics.specs.Laws.{OneIcuInnermost, OnePartner, OneIcuPartner};
ghost use Rattle.resb_diagnostics.specs.Laws.{FindsLongString, FindsIcuLongString, FindsOutdent};
ghost use Rattle.resb_diagnostics.specs.Laws.{FindsIcuOutdent, KnowsGroups, KnowsIcuGroups};
ghost use Rattle.resb_diagnostics.specs.Laws.{PartnersAreGroups, IcuPartnersAreGroups};
ghost use Rattle.resb_diagnostics.specs.Laws.{FindsFirstBackslash};
ghost use Rattle.resb_diagnostics.specs.Laws.{TellsWhatIsDue, TellsOnce};
ghost use Rattle.resb_diagnostics.specs.Laws.{TellsIcuRepeats, TellsWhatIsIcuDue};
ghost use Rattle.resb_diagnostics.specs.Laws.{TellsIcuOnce, TellsIcuInOrder};
ghost use Rattle.resb_diagnostics.specs.Laws.{TellsIcuRepeatsOnce, TellsIcuRepeatsInOrder};

/// The brace that is found is the innermost one without a partner.
pub fn finds_innermost()
    ensures plain { FindsInnermost }
    ensures icu { FindsIcuInnermost }
{}

/// A text has one innermost brace without a partner, or has none.
pub fn one_innermost()
    ensures plain { OneInnermost }
    ensures icu { OneIcuInnermost }
{}

/// A `{` has at most one partner.
pub fn one_partner()
    ensures plain { OnePartner }
    ensures icu { OneIcuPartner }
{}

/// The string that is found is the last one that spans lines.
pub fn finds_long_string()
    ensures plain { FindsLongString }
    ensures icu { FindsIcuLongString }
{}

/// The line that is found is the first one that is indented too little.
pub fn finds_outdent()
    ensures plain { FindsOutdent }
    ensures icu { FindsIcuOutdent }
{}

/// The group that is open at a place is the one between whose braces it stands.
pub fn knows_groups()
    ensures plain { KnowsGroups }
    ensures icu { KnowsIcuGroups }
{}

/// Partners are the braces of a group.
pub fn partners_are_groups()
    ensures plain { PartnersAreGroups }
    ensures icu { IcuPartnersAreGroups }
{}

/// The backslash that is found is the first one behind the quote that begins a string.
pub fn finds_first_backslash()
    ensures { FindsFirstBackslash }
{}

/// A warning is told exactly where it is due.
pub fn tells_what_is_due()
    ensures { TellsWhatIsDue }
{}

/// No warning of a text in which each `}` ends a group is told twice.
pub fn tells_once()
    ensures { TellsOnce }
{}

/// A key of a text of ICU's form is told exactly where an equal one stands before it.
pub fn tells_icu_repeats()
    ensures { TellsIcuRepeats }
{}

/// A warning of a text of ICU's form is told exactly where it is due.
pub fn tells_what_is_icu_due()
    ensures { TellsWhatIsIcuDue }
{}

/// No warning of a text of ICU's form is told twice, and they are told in the order in which they
/// stand in the text, no two at one place.
pub fn tells_icu_once()
    ensures once { TellsIcuOnce }
    ensures order { TellsIcuInOrder }
{}

/// No key of a group of a text of ICU's form is told twice, and they are told in the order in which
/// they stand in the text.
pub fn tells_icu_repeats_once()
    ensures once { TellsIcuRepeatsOnce }
    ensures order { TellsIcuRepeatsInOrder }
{}
