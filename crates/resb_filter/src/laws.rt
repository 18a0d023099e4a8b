//! Laws of filtering, each the contract of a call that does nothing.
//! Their statements are in `specs/Laws.antt`.
ghost use Rattle.resb_filter.specs.Laws.{NoRulesLeaveAll, FilteredOnce, LeftAtKey};

/// Without rules a tree stays as it is.
pub fn no_rules_leave_all()
    ensures { NoRulesLeaveAll }
{}

/// What rules leave of a tree they leave as it is, so that filtering twice is filtering once.
pub fn filtered_once()
    ensures { FilteredOnce }
{}

/// What stands at a key of a table afterwards is what the rules leave of what stood there.
pub fn what_is_left_at_a_key()
    ensures { LeftAtKey }
{}
