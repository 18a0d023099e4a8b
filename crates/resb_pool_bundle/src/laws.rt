//! The laws of files beside pool bundles, each the contract of a call that does nothing. Their
//! statements stand in `specs/Laws`.
ghost use Rattle.resb_pool_bundle.specs.Laws.{OwnFilesAreTheSame, OwnFilesDenoteTheSame};
ghost use Rattle.resb_pool_bundle.specs.Laws.{OwnFilesDenoteWithoutOlder, FilesPass};

/// The checks of a head let through exactly the pool bundles, and exactly the files that can be
/// read beside the pool bundle that is given.
pub fn files_pass()
    ensures { FilesPass }
{}

/// A file of version 2.0 that has nothing to do with pool bundles is refused, and cut into its
/// parts, as it is without this crate, but that aliases and strings of the older form are read.
pub fn own_files_are_the_same()
    ensures { OwnFilesAreTheSame }
{}

/// So such a file denotes beside any pool bundle, and beside none, just the tree that it denotes
/// where aliases and strings of the older form are read.
pub fn own_files_denote_the_same()
    ensures { OwnFilesDenoteTheSame }
{}

/// Such a file denotes the tree without this crate too, unless its root leads to a string of the
/// older form or to an alias; and where it does, such a file denotes none there.
pub fn own_files_denote_without_older()
    ensures { OwnFilesDenoteWithoutOlder }
{}
