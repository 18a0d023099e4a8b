//! The laws of files in the other order of bytes, each the contract of a call that does nothing.
//! Their statements stand in `specs/Laws`.
ghost use Rattle.resb_swap.specs.Laws.{SwapsBack, SwapIsAsLong, OneSwap, TableTurnsBack};
ghost use Rattle.resb_swap.specs.Laws.{PackageSwapsBack, OnePackageSwap, LittleEndianDenotes};

/// A file that was swapped is swapped back to the same bytes.
pub fn swapped_back()
    ensures { SwapsBack }
{}

/// A swapped file is as long as the file.
pub fn swapped_is_as_long()
    ensures { SwapIsAsLong }
{}

/// A file has one swapped file.
pub fn one_swap()
    ensures { OneSwap }
{}

/// The bytes that `little_endian` gives of a file denote what the file does in its own order, and
/// lend what it does. A file of which there are none denotes no tree in either order.
pub fn little_endian_denotes()
    ensures { LittleEndianDenotes }
{}

/// A package whose header and table were turned has the same bytes once they are turned again.
pub fn table_turned_back()
    ensures { TableTurnsBack }
{}

/// A package that was swapped is swapped back to the same bytes.
pub fn package_swapped_back()
    ensures { PackageSwapsBack }
{}

/// A package has one swapped package.
pub fn one_package_swap()
    ensures { OnePackageSwap }
{}
