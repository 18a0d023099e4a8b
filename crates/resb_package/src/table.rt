//! The table of a package: where names and items stand, and the checks of one of them.
//! That all of them are checked is the business of `package`.
ghost use Rattle.std.specs.Prelude.{◌≡◌, ◌+◌, ◌*◌, ◌<◌, ◌≤◌, length, slice_range, Some, None};
ghost use Rattle.std.specs.Prelude.{position, ◌==◌};
ghost use Rattle.resb_package.specs.Table.{count_in};

use crate::error::PackageError;
use resb_format::bytes::word_at;

/// The bytes behind a package's header, with a table that lies inside.
#[derive(Clone, Copy)]
pub(crate) struct Table<'a> {
    bytes: &'a [u8],
    count: usize,
    ghost counted: { count ≡ count_in bytes.now },
    ghost inside: { 4 + 8 * count ≤ length bytes.now },
}

/// The bytes between two places, or those of them that there are.
#[tactic(auto, using(crate::proofs::Lists::cut_is))]
fn between(bytes: &[u8], from: usize, to: usize) -> &[u8]
    ensures { result.now ≡ slice_range bytes.now from to }
{
    let (front, _) = bytes.split_at(to.min(bytes.len()));
    let (_, part) = front.split_at(from.min(front.len()));
    part
}

/// The number of the first zero byte.
fn first_zero(bytes: &[u8]) -> Option<usize>
    ensures { result ≡ position (λ b. b == 0) bytes.now }
{
    bytes.iter().position(|b| *b == 0)
}

impl<'a> Table<'a> {
    ghost use Rattle.std.specs.Prelude.{◌≡◌, ◌+◌, ◌*◌, ◌<◌, ◌≤◌, length, Some, None, MatchOption};
    ghost use Rattle.std.specs.Prelude.{MatchResult};
    ghost use Rattle.resb_package.specs.Table.{count_in, name_at, name_in, item_at};
    ghost use Rattle.resb_package.specs.Table as place;
    ghost use Rattle.resb_package.specs.Checks.{item_checks, order_check};
    ghost use Rattle.resb_format.specs.Error.{first_refusal};

    /// The table at the front of these bytes, if it lies inside.
    pub(crate) fn read(bytes: &'a [u8]) -> Option<Table<'a>>
        ensures { MatchOption result (length bytes.entry.now < 4 + 8 * count_in bytes.entry.now)
            (λ t. t.bytes.now ≡ bytes.entry.now) }
    {
        if bytes.len() < 4 {
            return None;
        }
        let count = word_at(bytes, 0) as usize;
        if count > (bytes.len() - 4) / 8 {
            return None;
        }
        Some(Table { bytes, count })
    }

    /// How many items there are.
    pub(crate) fn count(&self) -> usize
        ensures { result ≡ count_in self.now.bytes.now }
    {
        self.count
    }

    /// Where the name with this number begins.
    fn name_from(&self, number: usize) -> usize
        requires { number < count_in self.now.bytes.now }
        ensures { result ≡ place.name_from self.now.bytes.now number }
    {
        word_at(self.bytes, 2 * number + 1) as usize
    }

    /// Where the item with this number begins.
    fn item_from(&self, number: usize) -> usize
        requires { number < count_in self.now.bytes.now }
        ensures { result ≡ place.item_from self.now.bytes.now number }
    {
        word_at(self.bytes, 2 * number + 2) as usize
    }

    /// Up to where the name with this number may reach.
    fn name_to(&self, number: usize) -> usize
        requires { number < count_in self.now.bytes.now }
        ensures { result ≡ place.name_to self.now.bytes.now number }
    {
        if number + 1 < self.count {
            self.name_from(number + 1)
        } else {
            self.bytes.len()
        }
    }

    /// Where the item with this number ends.
    fn item_to(&self, number: usize) -> usize
        requires { number < count_in self.now.bytes.now }
        ensures { result ≡ place.item_to self.now.bytes.now number }
    {
        if number + 1 < self.count {
            self.item_from(number + 1)
        } else {
            self.bytes.len()
        }
    }

    /// The name with this number, if it has an end.
    #[tactic(auto, unfolding(crate::specs::Table::name_at))]
    pub(crate) fn name(&self, number: usize) -> Option<&'a [u8]>
        requires { number < count_in self.now.bytes.now }
        ensures { let name = name_at self.now.bytes.now number in
            MatchOption result (name ≡ None) (λ n. name ≡ Some n.now) }
    {
        let rest = between(self.bytes, self.name_from(number), self.name_to(number));
        let end = first_zero(rest)?;
        let (name, _) = rest.split_at(end);
        Some(name)
    }

    /// The item with this number.
    #[tactic(auto, unfolding(crate::specs::Table::item_at))]
    pub(crate) fn item(&self, number: usize) -> &'a [u8]
        requires { number < count_in self.now.bytes.now }
        ensures { result.now ≡ item_at self.now.bytes.now number }
    {
        between(self.bytes, self.item_from(number), self.item_to(number))
    }

    /// Checks the name and the item with this number.
    pub(crate) fn check_item(&self, number: usize) -> Result<(), PackageError>
        requires { number < count_in self.now.bytes.now }
        ensures { let refusal = first_refusal (item_checks self.now.bytes.now number) in
            MatchResult result (λ _. refusal ≡ None) (λ e. refusal ≡ Some e) }
    {
        if self.name_from(number) >= self.bytes.len() {
            return Err(PackageError::NameOutside(number));
        }
        let Some(name) = self.name(number) else {
            return Err(PackageError::NameWithoutEnd(number));
        };
        if !name.is_ascii() {
            return Err(PackageError::NameNotAscii(number));
        }
        if self.item_from(number) > self.bytes.len() {
            return Err(PackageError::ItemOutside(number));
        }
        if self.item_from(number) > self.item_to(number) {
            return Err(PackageError::ItemsOutOfOrder(number));
        }
        Ok(())
    }

    /// The name with this number, and no bytes where it has no end.
    fn name_or_empty(&self, number: usize) -> &'a [u8]
        requires { number < count_in self.now.bytes.now }
        ensures { result.now ≡ name_in self.now.bytes.now number }
    {
        match self.name(number) {
            Some(name) => name,
            None => &[],
        }
    }

    /// Checks that the name with this number is below the next one.
    #[tactic(auto, unfolding(crate::specs::Checks::order_check))]
    pub(crate) fn check_order(&self, number: usize) -> Result<(), PackageError>
        requires { number + 1 < count_in self.now.bytes.now }
        ensures { let refusal = first_refusal (order_check self.now.bytes.now number) in
            MatchResult result (λ _. refusal ≡ None) (λ e. refusal ≡ Some e) }
    {
        let name = self.name_or_empty(number);
        let next = self.name_or_empty(number + 1);
        if name.cmp(next).is_lt() {
            Ok(())
        } else {
            Err(PackageError::NamesOutOfOrder(number + 1))
        }
    }
}
