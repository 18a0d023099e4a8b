//! What stands behind a bundle: whether the text there may.
//! Where it begins is found in `blanks`.
ghost use Rattle.std.specs.Prelude.{◌≡◌, ◌+◌, ◌*◌, ◌≤◌, true, false, length};
ghost use Rattle.resb_icu_text.specs.Inner.Behind.{HasBarred, HasNoBarred};

use crate::turns::IcuTurns;
use memchr::{memchr, memmem};

/// Whether a backslash or a `/*` stands somewhere from here on, which no text behind a bundle has.
/// Counts two turns for each byte up to the text's end, since each of them is looked for alone.
pub(crate) fn has_barred(text: &str, from: usize, turns: &mut IcuTurns) -> bool
    requires within { from ≤ length text.now }
    ensures found { result ≡ true → HasBarred text.now from }
    ensures none { result ≡ false → HasNoBarred text.now from }
    ensures cost { turns.new.count + 2 * from ≤ turns.old.count + 2 * length text.now }
{
    let rest = &text.as_bytes()[from..];
    turns.add(rest.len());
    turns.add(rest.len());
    match memchr(b'\\', rest) {
        Some(_) => true,
        None => memmem::find(rest, b"/*").is_some(),
    }
}
