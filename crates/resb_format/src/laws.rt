//! The laws of what a word denotes, of types and of descriptors, each the contract of a call that
//! does nothing. Their statements stand in `specs/Laws`; the laws of trees stand in `resb_tree`,
//! those of a file's head in `resb_head`.
ghost use Rattle.resb_format.specs.Descriptor.{type_number, word_of};
ghost use Rattle.resb_format.specs.DescriptorReading.{ReadsType, ReadsDescriptor};
ghost use Rattle.resb_format.specs.Laws.{OneTree, ReachedIsCounted, CountedIsReached};
ghost use Rattle.resb_format.specs.Laws.{ReachingGoesDown, Survives, DenotedAreMaps};
ghost use Rattle.resb_format.specs.Laws.{DenotedBesideNoPool, LooksUpAlone};

/// In given parts a word denotes at most one tree, with one count.
pub fn one_tree()
    ensures { OneTree }
{}

/// The tables of a tree that a word denotes are finite maps: their keys strictly ascend.
pub fn denoted_are_maps()
    ensures { DenotedAreMaps }
{}

/// What a word denotes in a file that uses no pool, it denotes too where aliases and strings of the
/// older form are read.
pub fn denoted_beside_no_pool()
    ensures { DenotedBesideNoPool }
{}

/// In a file of which nothing is said of a pool, keys and texts are looked up among its own.
pub fn own_keys_and_texts_are_looked_up()
    ensures { LooksUpAlone }
{}

/// A word that denotes a tree reaches no more resources than the tree has.
pub fn reached_is_counted()
    ensures { ReachedIsCounted }
{}

/// A word that denotes a tree reaches each number of resources up to the tree's.
pub fn counted_is_reached()
    ensures { CountedIsReached }
{}

/// A word that reaches a number of resources reaches each smaller one.
pub fn reaching_goes_down()
    ensures { ReachingGoesDown }
{}

/// A type is read back from its number, and the other way round.
pub fn type_survives()
    ensures { Survives type_number ReadsType }
{}

/// A descriptor is read back from its word, and the other way round.
pub fn descriptor_survives()
    ensures { Survives word_of ReadsDescriptor }
{}
