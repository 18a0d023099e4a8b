//! Laws of texts that are taken in, each the contract of a function that does nothing.
//! Their statements stand in `specs/Laws`.
ghost use Rattle.resb_icu_files.specs.Laws.{TakenInOneWay, LackingIsNotTaken, PlacesKeepOrder};
ghost use Rattle.resb_icu_files.specs.Laws.{OneFault, UnchangedIsItself};

/// With these files a text is taken in as one text.
pub fn taken_in_one_way()
    ensures { TakenInOneWay }
{}

/// A text in which a group can't be written, since it lacks its file, is not taken in.
pub fn lacking_is_not_taken()
    ensures { LackingIsNotTaken }
{}

/// With these files a text has one fault at most, of one group.
pub fn one_fault()
    ensures { OneFault }
{}

/// Places of the new text never go back: of two, the first stood no further behind in the old one.
pub fn places_keep_order()
    ensures { PlacesKeepOrder }
{}

/// A text in which no group takes a file in is taken in as itself, unchanged.
pub fn unchanged_is_itself()
    ensures { UnchangedIsItself }
{}
