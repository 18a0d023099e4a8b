//! A field of a record: a value that has to be there, one that may be left out, or one with a
//! default.
//! Several fields are read in `fields`.
ghost use Rattle.std.specs.Prelude.{◌≡◌, ◌≤◌, ◌+◌, ℕ, Option, option_map, IfOk, IfErr};
ghost use Rattle.resb_format.specs.declared.error.ReadingError.{ReadingError};
ghost use Rattle.resb_read.specs.Places.{Place, place_of};
ghost use Rattle.resb_read.specs.Reading.{LacksOrMemory};
ghost use Rattle.resb_read.specs.Tables.{ReadsFound, CountsFound, RefusesFound};
ghost use Rattle.resb_fields.specs.Fields.{ReadsRequired, CountsRequired, RefusesRequired};
ghost use Rattle.resb_fields.specs.Fields.{ReadsOr};
ghost use Rattle.resb_fields.specs.FieldLaws.{required_counted, required_one};
ghost use Rattle.resb_fields.specs.FieldLaws.{maybe_counted, maybe_one, or_counted};

use resb_format::{BinaryDeserializerError, ReadingError};
use resb_read::{Cursor, Deserialize, Walk};
use std::alloc::Global;

/// What is read as a field, given where the value of its name stands, if it stands anywhere. Its
/// relations and laws are those of `Deserialize`, of such a place.
pub trait Field<'de>: Sized + Drop {
    /// The field is read from there, with this count.
    ghost reads: { Option Place → Self → ℕ → Type 0 };

    /// Some field is read from there, with this count.
    ghost counts: { Option Place → ℕ → Type 0 };

    /// There, with so much left, this error may be answered and so much left behind it.
    ghost refuses: { Option Place → ℕ → ℕ → ReadingError → Type 0 };

    /// Reads the field, and takes its count from what is left.
    fn read_field<'m>(
        alloc: Global,
        at: Option<Cursor<'de>>,
        walk: &mut Walk,
    ) -> Result<Self, ReadingError<'m>>
        ensures read { IfOk result (λ x. (n : ℕ)
            × reads (option_map place_of at.entry) x n × (walk.new + n ≡ walk.old)) }
        ensures refused { IfErr result (λ e. (walk.new ≤ walk.old)
            × LacksOrMemory (counts (option_map place_of at.entry)) walk.old e) }
        ensures says { IfErr result
            (refuses (option_map place_of at.entry) walk.old walk.new) };

    /// The count of every reading is a count.
    ghost counted: { (o : Option Place) (x : Self) (n : ℕ) → reads o x n → counts o n };

    /// There is at most one count.
    ghost one_count: { (o : Option Place) (m n : ℕ) → counts o m → counts o n → m ≡ n };
}

/// A field that has to be there. Where it isn't, the answer is `field missing`.
impl<'de, T: Deserialize<'de>> Field<'de> for T {
    ghost reads = { ReadsRequired T.reads };

    ghost counts = { CountsRequired T.counts };

    ghost refuses = { RefusesRequired T.counts T.refuses };

    ghost counted = { required_counted T.reads T.counts T.counted };

    ghost one_count = { required_one T.counts T.one_count };

    fn read_field<'m>(
        alloc: Global,
        at: Option<Cursor<'de>>,
        walk: &mut Walk,
    ) -> Result<T, ReadingError<'m>> {
        let value = at.ok_or(BinaryDeserializerError::unknown("field missing"))?;
        T::deserialize(alloc, value, walk)
    }
}

/// A field that may be left out.
#[derive(Debug, Drop)]
pub struct Maybe<T>(pub Option<T>);

impl<'de, T: Deserialize<'de>> Field<'de> for Maybe<T> {
    ghost reads = { λ o x n. ReadsFound T.reads o x.0 n };

    ghost counts = { CountsFound T.counts };

    ghost refuses = { RefusesFound T.counts T.refuses };

    ghost counted = { λ o x n. maybe_counted T.reads T.counts T.counted o x.0 n };

    ghost one_count = { maybe_one T.counts T.one_count };

    fn read_field<'m>(
        alloc: Global,
        at: Option<Cursor<'de>>,
        walk: &mut Walk,
    ) -> Result<Maybe<T>, ReadingError<'m>> {
        let Some(value) = at else {
            return Ok(Maybe(None));
        };
        Ok(Maybe(Some(T::deserialize(alloc, value, walk)?)))
    }
}

/// A field that is its type's default where it is left out.
#[derive(Debug, Drop)]
pub struct OrDefault<T>(pub T);

impl<'de, T: Deserialize<'de> + Default> Field<'de> for OrDefault<T> {
    ghost reads = { λ o x n. ReadsOr T.is_default T.reads o x.0 n };

    ghost counts = { CountsFound T.counts };

    ghost refuses = { RefusesFound T.counts T.refuses };

    ghost counted = { λ o x n. or_counted T.reads T.counts T.counted T.is_default o x.0 n };

    ghost one_count = { maybe_one T.counts T.one_count };

    fn read_field<'m>(
        alloc: Global,
        at: Option<Cursor<'de>>,
        walk: &mut Walk,
    ) -> Result<OrDefault<T>, ReadingError<'m>> {
        let Some(value) = at else {
            return Ok(OrDefault(T::default()));
        };
        Ok(OrDefault(T::deserialize(alloc, value, walk)?))
    }
}
