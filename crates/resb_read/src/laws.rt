//! Laws of reading, each the contract of a call that does nothing.
//! Longer statements stand in `specs/Laws`.
ghost use Rattle.std.specs.Prelude.{ℕ, List, Option};
ghost use Rattle.resb_pool_bundle.specs.Pool.{Pool};
ghost use Rattle.resb_read.specs.Inside.{EntriesStand, MembersStand, NumbersStand, TypesTellTrees};
ghost use Rattle.resb_read.specs.Laws.{OneValue};
ghost use Rattle.resb_read.specs.Measuring.{HasOneWeight, WeighsNoMore, IsRefusedOnceWithin};
ghost use Rattle.resb_read.specs.Roots.{IsRefusedOnce, alone};
ghost use Rattle.resb_read.specs.Tables.{LastOfAName, AscendIsTold};
ghost use Rattle.resb_read.specs.WithPool.{OneTreeWithPool, over};

/// A file whose tree isn't read is refused in one way, by kind and message, memory aside.
pub fn one_refusal_of_a_file()
    ensures { (bytes : List ℕ) → IsRefusedOnce (alone bytes) }
{}

/// Two readings of one place give one value: a number of a range, a bool, an `Int28`, a text, a
/// key, bytes, a view of items of so many bytes, or a tree.
pub fn one_value()
    ensures { OneValue }
{}

/// What is found for a name is the value of an entry of that name, with no entry of it behind; and
/// nothing is found where no entry has it.
pub fn last_of_a_name()
    ensures { LastOfAName }
{}

/// What is found inside a table, an array or a vector is what stands in its tree, and nothing is
/// found where nothing stands there; which of them it is, the type at the place tells.
pub fn found_inside_is_in_the_tree()
    ensures entries { EntriesStand }
    ensures members { MembersStand }
    ensures numbers { NumbersStand }
    ensures types { TypesTellTrees }
{}

/// The test by which `TableView::sorted` goes is true exactly where each key is a text, and above
/// the one before.
pub fn ascend_is_told()
    ensures { AscendIsTold }
{}

/// A file whose tree isn't read within a limit of bytes is refused in one way, by kind and message,
/// memory aside: a tree that is too large before its keys. One whose tree is read is not refused.
pub fn one_refusal_within()
    ensures { (bytes : List ℕ) → IsRefusedOnceWithin (alone bytes) }
{}

/// What a reading of a file's tree goes through is one list of resources and keys: so each sum over
/// them is one number.
pub fn one_weight()
    ensures { (bytes : List ℕ) → HasOneWeight (alone bytes) }
{}

/// By any weights the tree of a file weighs no more than what is read of it, and the same where no
/// entry is replaced.
pub fn trees_weigh_no_more()
    ensures { (bytes : List ℕ) → WeighsNoMore (alone bytes) }
{}

/// The bytes of a file denote at most one tree beside a pool bundle, with one count.
pub fn one_tree_of_a_file_with_pool()
    ensures { OneTreeWithPool }
{}

/// A file beside a pool bundle whose tree isn't read is refused in one way, by kind and message,
/// memory aside.
pub fn one_refusal_with_pool()
    ensures { (pool : Option Pool) (bytes : List ℕ) → IsRefusedOnce (over pool bytes) }
{}

/// A file beside a pool bundle whose tree isn't read within a limit of bytes is refused in one way,
/// by kind and message, memory aside. One whose tree is read is not refused.
pub fn one_refusal_within_with_pool()
    ensures { (pool : Option Pool) (bytes : List ℕ) → IsRefusedOnceWithin (over pool bytes) }
{}

/// What a reading of the tree of a file beside a pool bundle goes through is one list of resources
/// and keys: so each sum over them is one number.
pub fn one_weight_with_pool()
    ensures { (pool : Option Pool) (bytes : List ℕ) → HasOneWeight (over pool bytes) }
{}

/// By any weights the tree of a file beside a pool bundle weighs no more than what is read of it,
/// and the same where no entry is replaced.
pub fn trees_weigh_no_more_with_pool()
    ensures { (pool : Option Pool) (bytes : List ℕ) → WeighsNoMore (over pool bytes) }
{}
