//! The laws of packages, each the contract of a call that does nothing.
ghost use Rattle.resb_package.specs.Laws.{OnePackage, NamesDiffer, PackagePasses};

/// Bytes are a package of at most one list of items.
pub fn one_package()
    ensures { OnePackage }
{}

/// Two items of a package have two names.
pub fn names_differ()
    ensures { NamesDiffer }
{}

/// The checks of a package let through exactly the packages.
pub fn package_passes()
    ensures { PackagePasses }
{}
