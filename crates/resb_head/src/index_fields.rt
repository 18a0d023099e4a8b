//! The fields of an index one by one, as words among bytes.
//! Which fields an index has is said in `index`.
ghost use Rattle.std.specs.Prelude.{◌≡◌, ◌*◌, ◌<◌, ◌≤◌, ◌++◌, length, min, OnOk};
ghost use Rattle.std.specs.List.{flat_map};
ghost use Rattle.std.specs.Int.{to_le_bytes, w32};
ghost use Rattle.std.specs.Option.{option_to_list};
ghost use Rattle.resb_head.specs.Head as head;

use resb_format::bytes::word_at;
use resb_tree::NoMemory;

/// The field with this number, if the index has so many.
pub(crate) fn field(bytes: &[u8], count: u32, number: usize) -> Option<u32>
    requires known { number < 8 }
    requires inside { 4 * min count 8 ≤ length bytes.now }
    ensures { result ≡ head.field bytes.now count number }
{
    if number < count as usize {
        Some(word_at(bytes, number))
    } else {
        None
    }
}

/// Appends a word.
pub(crate) fn append_word(bytes: &mut Vec<u8>, word: u32) -> Result<(), NoMemory>
    ensures { OnOk result (bytes.new.items ≡ bytes.old.items ++ to_le_bytes w32 word) }
{
    bytes.extend_from_slice(&word.to_le_bytes())?;
    Ok(())
}

/// Appends a field that may be absent.
pub(crate) fn append_field(bytes: &mut Vec<u8>, field: Option<u32>) -> Result<(), NoMemory>
    ensures { let written = flat_map (to_le_bytes w32) (option_to_list field) in
        OnOk result (bytes.new.items ≡ bytes.old.items ++ written) }
{
    match field {
        Some(word) => append_word(bytes, word),
        None => Ok(()),
    }
}
