//! A package whose names and items are checked, and the look-up of an item.
//! Where they stand is the business of `table`.
ghost use Rattle.std.specs.Prelude.{◌≡◌, Some, None, MatchResult};
ghost use Rattle.resb_package.specs.Checks.{table_refusal, head_checks};
ghost use Rattle.resb_format.specs.Error.{first_refusal};

use crate::error::PackageError;
use crate::table::Table;
use resb_format::bytes::{byte_at, four_at, two_at, unit_at};
use std::cmp::Ordering;

/// A package of items under names. It borrows the file's bytes.
/// Names stand one behind the other, as ICU's tools write them; ICU's reader doesn't ask for that.
/// Neither reader looks at the rest of the header: the info's size, the size of a character, the
/// minor version, the version of the data, and what is reserved; nor at what a name is made of but
/// that its bytes are below 128, nor whether names and items stand behind the table.
#[derive(Clone, Copy)]
pub struct Package<'a> {
    table: Table<'a>,
    ghost checked: { table_refusal table.bytes.now ≡ None },
}

/// An item of a package.
#[derive(Clone, Copy, Debug)]
pub struct Item<'a> {
    /// The name, as `icudt72l/curr/de.res`.
    pub name: &'a str,
    /// All bytes up to the next item, those that fill up its end included.
    pub bytes: &'a [u8],
}

/// Checks the header.
fn check_head(bytes: &[u8]) -> Result<(), PackageError>
    ensures { let refusal = first_refusal (head_checks bytes.now) in
        MatchResult result (λ _. refusal ≡ None) (λ e. refusal ≡ Some e) }
{
    if bytes.len() < 24 {
        return Err(PackageError::TooShort);
    }
    if two_at(bytes, 2) != [0xda, 0x27] {
        return Err(PackageError::NotData);
    }
    if byte_at(bytes, 8) != 0 {
        return Err(PackageError::NotLittleEndian);
    }
    if byte_at(bytes, 9) != 0 {
        return Err(PackageError::NotAsciiFamily);
    }
    if four_at(bytes, 12) != *b"CmnD" {
        return Err(PackageError::NotPackage);
    }
    if byte_at(bytes, 16) != 1 {
        return Err(PackageError::OtherVersion);
    }
    if unit_at(bytes, 0) < 24 {
        return Err(PackageError::HeaderTooSmall);
    }
    Ok(())
}

impl<'a> Package<'a> {
    ghost use Rattle.std.specs.Prelude.{◌≡◌, ◌==◌, ℕ, List, Some, None, MatchResult, MatchOption};
    ghost use Rattle.std.specs.Prelude.{option_map, slice_get, length};
    ghost use Rattle.resb_package.specs.Checks.{table_refusal, package_refusal};
    ghost use Rattle.resb_package.specs.Checks.{HasNoHead, IsFirstHead};
    ghost use Rattle.resb_package.specs.Package.{IsPackage};
    ghost use Rattle.resb_package.specs.Items.{package_items, item_pair, HasItem};

    /// The package that these bytes are. All names and offsets are checked, once, in the order of
    /// `specs/Checks`, and the first check that fails answers. The time grows with the bytes.
    pub fn read(bytes: &'a [u8]) -> Result<Package<'a>, PackageError>
        ensures { MatchResult result (λ p. IsPackage bytes.entry.now (package_items p))
            (λ e. package_refusal bytes.entry.now ≡ Some e) }
    {
        check_head(bytes)?;
        let size = usize::from(unit_at(bytes, 0));
        let (_, table) = bytes.split_at(size.min(bytes.len()));
        Package::of_table(table)
    }

    /// Where the package inside a larger file begins, as inside ICU's library of data: the first
    /// multiple of 16 bytes where a package's header stands. What stands behind the header isn't
    /// looked at. The time grows with the bytes.
    #[tactic(auto, using(crate::proofs::Inside::no_head_behind))]
    pub fn place_inside(bytes: &[u8]) -> Option<usize>
        ensures { MatchOption result (HasNoHead bytes.now) (IsFirstHead bytes.now) }
    {
        'places: for number in 0..bytes.len() / 16 {
            let (_, rest) = bytes.split_at(16 * number);
            if check_head(rest).is_ok() {
                return Some(16 * number);
            }
        }
        None
    }

    /// The package whose bytes behind the header these are.
    fn of_table(bytes: &'a [u8]) -> Result<Package<'a>, PackageError>
        ensures { MatchResult result (λ p. p.table.bytes.now ≡ bytes.entry.now)
            (λ e. table_refusal bytes.entry.now ≡ Some e) }
    {
        let Some(table) = Table::read(bytes) else {
            return Err(PackageError::TableOutside);
        };
        'items: for number in 0..table.count() {
            table.check_item(number)?;
        }
        'names: for number in 0..table.count().saturating_sub(1) {
            table.check_order(number)?;
        }
        Ok(Package { table })
    }

    /// How many items there are.
    pub fn len(&self) -> usize
        ensures { result ≡ length (package_items self.now) }
    {
        self.table.count()
    }

    /// Whether there is no item.
    pub fn is_empty(&self) -> bool
        ensures { result ≡ (length (package_items self.now) == 0) }
    {
        self.len() == 0
    }

    /// The item with this number, from 0 up, if there are so many. Names ascend by their bytes.
    pub fn item(&self, number: usize) -> Option<Item<'a>>
        ensures { option_map item_pair result ≡ slice_get (package_items self.now) number }
    {
        if number >= self.table.count() {
            return None;
        }
        let Ok(name) = str::from_utf8(self.table.name(number)?) else {
            return None;
        };
        let bytes = self.table.item(number);
        Some(Item { name, bytes })
    }

    /// The bytes of the item of this name, if there is one. It is found by halving.
    pub fn get(&self, name: &str) -> Option<&'a [u8]>
        ensures { let items = package_items self.now in
            MatchOption result ((bytes : List ℕ) → HasItem items name.now bytes → ⊥)
            (λ bytes. HasItem items name.now bytes.now) }
    {
        let mut low = 0;
        let mut high = self.table.count();
        'halves: while low < high {
            let middle = low + (high - low) / 2;
            let found = self.table.name(middle)?;
            match found.cmp(name.as_bytes()) {
                Ordering::Equal => return Some(self.table.item(middle)),
                Ordering::Less => low = middle + 1,
                Ordering::Greater => high = middle,
            }
        }
        None
    }
}
