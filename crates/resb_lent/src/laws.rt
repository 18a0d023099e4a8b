//! The laws of what a pool bundle lends, each as the contract of a call that does nothing. Their
//! statements stand in `specs/Laws`.
ghost use Rattle.resb_lent.specs.Laws.{LentKeyIsTold, LentTextIsRead, OnePlace, OneIndex};
ghost use Rattle.resb_lent.specs.Laws.{PlannedIsRead, OnePlanWith, LentIsRead, HeadWithPoolIsRead};

/// A file beside the pool bundle tells a key by the place that `LentKeys::place` answers for it: a
/// position of 32 bits by this place and 2^31, and one of 16 bits by this place counted from the
/// end of the file's own keys.
pub fn lent_key_is_told()
    ensures { LentKeyIsTold }
{}

/// A text is read in the pool's 16-bit block at the index that `LentTexts::index` answers for it.
pub fn lent_text_is_read()
    ensures { LentTextIsRead }
{}

/// A pool bundle has a key first at one place.
pub fn one_place()
    ensures { OnePlace }
{}

/// A text has one index in a pool bundle.
pub fn one_index()
    ensures { OneIndex }
{}

/// A file beside the pool bundle tells each string by the index that `PlanWithPool` gives it.
pub fn planned_is_read()
    ensures { PlannedIsRead }
{}

/// Strings have one plan with a pool bundle.
pub fn one_plan_with()
    ensures { OnePlanWith }
{}

/// What a file beside a pool bundle tells of its keys and strings is read back, by 32 bits and by
/// 16.
pub fn lent_is_read()
    ensures { LentIsRead }
{}

/// A file whose head `HeadWithPool` wrote, with blocks of the lengths that it says, is one beside
/// its pool bundle.
pub fn head_with_pool_is_read()
    ensures { HeadWithPoolIsRead }
{}
