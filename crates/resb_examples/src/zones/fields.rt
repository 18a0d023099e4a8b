//! The entries of a zone, one after another: the last `base` and the last `pairs`.
//! What a zone is made of is said in `zone`.
ghost use Rattle.std.specs.Prelude.{◌≡◌, ◌≤◌, ◌<◌, ◌+◌, None, length, IfOk, OnOk, OnErr};
ghost use Rattle.std.specs.List.{All};
ghost use Rattle.resb_examples.specs.Zones.{IsReadable};
ghost use Rattle.resb_examples.specs.Inner.Fields.{entry_of, CostsAsEntry, HasTaken, HasSeen};

use resb::binary::helpers::{PairView, i32_tuple};
use resb::binary::{BinaryDeserializerError, Cursor, MapAccess, ReadingError, Walk};

/// What the entries so far say: the last `base` and the last `pairs`.
#[derive(Clone, Copy)]
pub(crate) struct Fields<'de> {
    pub(crate) base: Option<i32>,
    pub(crate) pairs: Option<PairView<'de>>,
}

impl<'de> Fields<'de> {
    /// Takes one entry more: its key is read, and its value as the key asks.
    fn take(
        &mut self,
        key: Cursor<'de>,
        value: Cursor<'de>,
        walk: &mut Walk,
    ) -> Result<(), BinaryDeserializerError>
        requires { CostsAsEntry (entry_of key value) }
        ensures read { let e = entry_of key.entry value.entry in
            OnOk result (HasTaken e self.old self.new × (walk.new + 1 ≡ walk.old)) }
        ensures refused { let e = entry_of key.entry value.entry in
            OnErr result ((walk.new ≤ walk.old) × (IsReadable e → walk.old ≡ 0)) }
    {
        let name = key.read_str(walk)?;
        if name == "base" {
            let base = value.read_i32(walk)?;
            self.base = Some(base);
        } else if name == "pairs" {
            let pairs = i32_tuple(value, walk)?;
            self.pairs = Some(pairs);
        } else {
            value.skip(walk)?;
        }
        Ok(())
    }
}

/// Reads all entries that are still to come.
pub(crate) fn read_fields<'de, 'm>(
    mut entries: MapAccess<'de, 'm>,
    walk: &mut Walk,
) -> Result<Fields<'de>, ReadingError<'m>>
    requires fresh { entries.failed ≡ None }
    requires places { All CostsAsEntry entries.rest }
    ensures read { let all = entries.entry.rest in
        IfOk result (λ f. HasSeen all f × (walk.new + length all ≡ walk.old)) }
    ensures refused { let all = entries.entry.rest in
        OnErr result ((walk.new ≤ walk.old) × (All IsReadable all → walk.old < length all)) }
{
    let mut fields = Fields {
        base: None,
        pairs: None,
    };
    'entries: while let Some((key, value)) = entries.next_entry_cursor()? {
        fields.take(key, value, walk)?;
    }
    Ok(fields)
}
