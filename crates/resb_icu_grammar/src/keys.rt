//! Which bytes may stand in a word and in a key.
//! What a word and a key of a text are is said in `specs/Words`; no text is read here.
ghost use Rattle.std.specs.Prelude.{◌≡◌};
ghost use Rattle.resb_icu_grammar.specs.Bytes as bytes;

/// Whether a byte may stand in a word.
pub fn is_word(b: u8) -> bool
    ensures { result ≡ bytes.is_word b }
{
    b.is_ascii_alphanumeric() || b == b'_' || b == b'.' || b == b'%' || b == b'-' || b == b'+'
}

/// Whether a byte may stand in a key.
fn is_key_byte(b: u8) -> bool
    ensures { result ≡ bytes.is_key_byte b }
{
    match b {
        b'!' | b'#' | b'$' | b'@' | b'[' | b'\\' | b']' | b'^' | b'`' | b'{' | b'|' | b'}' | b'~' =>
            false,
        _ => b >= 32 && b <= 126,
    }
}

/// Whether each byte may stand in a key.
pub fn are_key_bytes(text: &[u8]) -> bool
    ensures { result ≡ bytes.are_key_bytes text.now }
{
    for b in text {
        if !is_key_byte(*b) {
            return false;
        }
    }
    true
}
