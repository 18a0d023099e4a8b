//! The keys that a pool bundle lends: where each stands whole.
//! What a file says of such a place is said in `resb_layout`.
ghost use Rattle.std.specs.Prelude.{◌≡◌, ◌==◌, ℕ, List, OnOk, position};
ghost use Rattle.std.proofs.Props.{props};
ghost use Rattle.resb_pool.specs.Plan.{at_text};
ghost use Rattle.resb_lent.specs.LentKeys.{LendsKey};
ghost use Rattle.resb_lent.specs.Inner.Noted.{noted};

use indexmap::IndexMap;
use resb_tree::NoMemory;
use std::alloc::Global;

/// A key of a pool stands below this place, since positions of keys have 31 bits.
const PLACE_LIMIT: usize = 0x8000_0000;

/// The keys that a pool bundle lends. (ICU's `uresdata.h`: pool bundles.)
#[derive(Drop)]
pub struct LentKeys<'a> {
    keys: &'a [u8],
    places: IndexMap<&'a str, u32>,
    ghost lent: { (key : List ℕ)
        → LendsKey keys.now key (at_text places key) } by { Prim.hlevel props },
}

/// The number of the first zero byte.
fn first_zero(bytes: &[u8]) -> Option<usize>
    ensures { result ≡ position (λ b. b == 0) bytes.now }
{
    bytes.iter().position(|b| *b == 0)
}

/// Notes the place of a key, unless the key was noted before or is no UTF-8.
fn note<'a>(
    places: &mut IndexMap<&'a str, u32>,
    bytes: &'a [u8],
    place: u32,
) -> Result<(), NoMemory>
    ensures { OnOk result ((q : List ℕ)
        → at_text places.new q ≡ noted bytes.now place (at_text places.old q) q) }
{
    let Ok(key) = str::from_utf8(bytes) else {
        return Ok(());
    };
    if !places.contains_key(key) {
        places.insert(key, place)?;
    }
    Ok(())
}

impl<'a> LentKeys<'a> {
    ghost use Rattle.std.specs.Prelude.{◌≡◌, ℕ, List, IfOk};
    ghost use Rattle.resb_pool.specs.Plan.{at_text};
    ghost use Rattle.resb_lent.specs.LentKeys.{LendsKey};
    ghost use Rattle.resb_lent.specs.Lending.{lent_keys, lent_place};

    /// What the keys of a pool bundle lend, given as its bytes from behind its index up to the
    /// keys' end. They are gone through once. Keys that are no UTF-8 are passed over.
    pub fn of(alloc: Global, keys: &'a [u8]) -> Result<LentKeys<'a>, NoMemory>
        ensures { IfOk result (λ l. lent_keys l ≡ keys.entry.now) }
    {
        let mut places = IndexMap::new(alloc);
        let end = keys.len().min(PLACE_LIMIT);
        let mut start = 0;
        'keys: while start < end {
            let (_, rest) = keys.split_at(start);
            let Some(len) = first_zero(rest) else {
                break;
            };
            let (key, _) = rest.split_at(len);
            note(&mut places, key, start as u32)?;
            start += len + 1;
        }
        Ok(LentKeys { keys, places })
    }

    /// The first place, in bytes of the pool's keys, where the key stands whole: right at their
    /// start or behind a zero byte, and up to the next one. There is none where the pool lacks the
    /// key, nor where only positions of more than 31 bits would reach it.
    pub fn place(&self, key: &str) -> Option<u32>
        ensures lends { LendsKey (lent_keys self.now) key.now result }
        ensures noted { result ≡ lent_place self.now key.now }
    {
        self.places.get(key).copied()
    }
}
