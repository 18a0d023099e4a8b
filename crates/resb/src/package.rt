//! Packages: the files in which ICU ships its items under names, bundles among them.
//! What a bundle's bytes hold is read in `binary`.

pub use resb_package::{Item, Package, PackageError};
