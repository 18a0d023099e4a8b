//! A type of one's own that is read from a table, without a proof of one's own: the struct, the
//! types of its fields, and what their names are.
//! Reading without such a type is shown in `reading`.
ghost use Rattle.std.specs.Prelude.{codes, ◌∷◌, []};

use resb::binary::{BinaryDeserializerError, File, PoolBundle, from_bytes};
use resb::blame::{Blame, from_bytes_blaming};
use resb::fields::{Maybe, Record, Table};
use std::alloc::Global;
use std::collections::BTreeMap;

/// A currency.
#[derive(Debug, Drop)]
pub struct Currency {
    /// How many digits stand behind the point.
    pub digits: i32,
    /// Its name.
    pub name: String,
    /// The codes that it had before, if any are known.
    pub old: Option<Vec<String>>,
}

/// The types of its fields in the file: `old` may be left out.
pub type CurrencyFields = (i32, String, Maybe<Vec<String>>);

impl<'de> Record<'de, CurrencyFields> for Currency {
    ghost names = { codes "digits" ∷ codes "name" ∷ codes "old" ∷ [] };

    ghost made = { λ f. record { digits = f.0; name = f.1; old = f.2.0 } };

    fn names() -> &'de [&'de str] {
        &["digits", "name", "old"]
    }

    fn made(fields: CurrencyFields) -> Currency {
        let (digits, name, Maybe(old)) = fields;
        Currency { digits, name, old }
    }
}

/// How many digits a currency has, in a file of currencies by their codes.
pub fn digits_of(
    alloc: Global,
    file: &[u8],
    code: &str,
) -> Result<Option<i32>, BinaryDeserializerError> {
    let all: BTreeMap<&str, Table<Currency, CurrencyFields>> = from_bytes(alloc, file)?;
    let Some(currency) = all.get(code) else {
        return Ok(None);
    };
    Ok(Some(currency.0.digits))
}

/// How many digits the currency has that is the root of a file over a pool bundle.
pub fn digits_over_a_pool(
    alloc: Global,
    file: &[u8],
    pool: &[u8],
) -> Result<i32, BinaryDeserializerError> {
    let pool = PoolBundle::read(pool)?;
    let currency: Table<Currency, CurrencyFields> = File::open(file, Some(pool))?.read(alloc)?;
    Ok(currency.0.digits)
}

/// How many digits a currency has, or what is to blame in a file that isn't one of currencies.
pub fn digits_or_blame<'a>(
    alloc: Global,
    file: &'a [u8],
    code: &str,
) -> Result<Option<i32>, Blame<'a, 'static>> {
    let all: BTreeMap<&str, Table<Currency, CurrencyFields>> = from_bytes_blaming(
        alloc, file, None,
    )?;
    let Some(currency) = all.get(code) else {
        return Ok(None);
    };
    Ok(Some(currency.0.digits))
}
