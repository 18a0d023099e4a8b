//! A struct that is made of the fields of a table.
//! How the fields are read is said in `fields`.
ghost use Rattle.std.specs.Prelude.{◌≡◌, ◌+◌, ℕ, List, map, length};
ghost use Rattle.resb_fields.specs.Fields.{ReadsRecord, CountsRecord, RefusesRecord};
ghost use Rattle.resb_fields.specs.FieldLaws.{record_counted, record_one};

use crate::tuples::Fields;
use resb_format::ReadingError;
use resb_read::{Cursor, Deserialize, Walk};
use std::alloc::Global;
use std::fmt;
use std::marker::PhantomData;

/// A struct that is made of the fields of a table, by their names.
pub trait Record<'de, F: Fields<'de>>: Sized + Drop {
    /// The fields' names, in the order of their types.
    ghost names: { List (List ℕ) };

    /// The struct that is made of the fields.
    ghost made: { F → Self };

    /// The fields' names, in the order of their types: as many as there are fields.
    fn names() -> &'de [&'de str]
        ensures are { map (λ s. s.now) result.now ≡ names }
        ensures one_each { length result.now ≡ F.size };

    /// Makes the struct of its fields.
    fn made(fields: F) -> Self
        ensures { result ≡ made fields };
}

/// A record that is read from a table. The table counts as one and each of its entries as one,
/// besides what the fields take; entries of other names are not looked at.
#[derive(Drop)]
pub struct Table<R, F>(pub R, PhantomData<F>);

/// It prints as the record.
impl<R: fmt::Debug, F> fmt::Debug for Table<R, F> {
    ghost debug_output = { λ t. R.debug_output t.0 };

    fn fmt<W: fmt::Write>(&self, f: &mut fmt::Formatter<W>) -> fmt::Result {
        fmt::Debug::fmt(&self.0, f)
    }
}

impl<'de, F: Fields<'de>, R: Record<'de, F>> Deserialize<'de> for Table<R, F> {
    ghost reads = { λ p t n. ReadsRecord F.reads R.names R.made p t.0 n };

    ghost counts = { CountsRecord F.counts R.names };

    ghost refuses = { RefusesRecord F.refuses R.names };

    ghost counted = { λ p t n. record_counted F.reads F.counts F.counted
        R.names R.made p t.0 n };

    ghost one_count = { record_one F.counts F.one_count R.names };

    fn deserialize<'m>(
        alloc: Global,
        at: Cursor<'de>,
        walk: &mut Walk,
    ) -> Result<Table<R, F>, ReadingError<'m>> {
        let table = at.read_table(walk)?;
        let fields = F::read_fields(alloc, table, R::names(), walk)?;
        Ok(Table(R::made(fields), PhantomData))
    }
}
