//! What may be a name or a key of ICU's form.
//! How a key is printed stands in `quoting`.
ghost use Rattle.std.specs.Prelude.{◌≡◌};
ghost use Rattle.std.specs.List.{list_all};
ghost use Rattle.resb_icu_grammar.specs.Bytes as grammar;
ghost use Rattle.resb_icu_print.specs.Printed as printed;
ghost use Rattle.resb_icu_print.specs.Causes as causes;

use resb_icu_grammar::{are_key_bytes, is_word};
use resb_print::has_quote;

/// Whether the bytes are word characters.
fn are_words(bytes: &[u8]) -> bool
    ensures { result ≡ list_all grammar.is_word bytes.now }
{
    for byte in bytes {
        if !is_word(*byte) {
            return false;
        }
    }
    true
}

/// Whether a text is a word.
pub fn is_bare(text: &str) -> bool
    ensures { result ≡ printed.is_bare text.now }
{
    !text.is_empty() && are_words(text.as_bytes())
}

/// Whether a text may be a key.
pub fn is_key(text: &str) -> bool
    ensures { result ≡ causes.is_icu_key text.now }
{
    are_key_bytes(text.as_bytes()) && !has_quote(text)
}
