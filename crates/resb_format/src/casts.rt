//! Bytes as lists of numbers, and one such list as another.
//! Only a length that is no multiple is refused: a view needs no alignment.
ghost use Rattle.std.specs.Prelude.{◌≡◌, ◌≢◌, ◌%◌, length, MatchResult};
ghost use Rattle.resb_format.specs.Error.{IsWrongLength};
ghost use Rattle.resb_format.specs.Views.{unit_bytes, word_bytes, view_words, number_bytes};
ghost use Rattle.resb_format.specs.Views.{pair_bytes};

use crate::error::BinaryDeserializerError;
use crate::views::{I32View, PairView, Utf16View, WordView};

/// The words that the bytes spell, if their number is a multiple of 4.
pub fn cast_bytes_to_u32_slice(bytes: &[u8]) -> Result<WordView<'_>, BinaryDeserializerError>
    ensures { MatchResult result
        (λ v. (word_bytes v ≡ bytes.now) × (length bytes.now % 4 ≡ 0))
        (λ e. (length bytes.now % 4 ≢ 0) × IsWrongLength e) }
{
    if bytes.len() % 4 != 0 {
        return Err(BinaryDeserializerError::unknown("Wrong length"));
    }
    Ok(WordView::over(bytes))
}

/// The 16-bit units that the bytes spell, if their number is even.
pub fn cast_bytes_to_u16_slice(bytes: &[u8]) -> Result<Utf16View<'_>, BinaryDeserializerError>
    ensures { MatchResult result
        (λ v. (unit_bytes v ≡ bytes.now) × (length bytes.now % 2 ≡ 0))
        (λ e. (length bytes.now % 2 ≢ 0) × IsWrongLength e) }
{
    if bytes.len() % 2 != 0 {
        return Err(BinaryDeserializerError::unknown("Wrong length"));
    }
    Ok(Utf16View::over(bytes))
}

/// The words as signed numbers.
pub fn cast_u32_to_i32_slice(words: WordView<'_>) -> I32View<'_>
    ensures { number_bytes result ≡ word_bytes words.entry }
{
    I32View::over(words.as_bytes())
}

/// The words as pairs of signed numbers, if their number is even.
pub fn cast_u32_to_i32_pair_slice(
    words: WordView<'_>,
) -> Result<PairView<'_>, BinaryDeserializerError>
    ensures { let count = length (view_words words.entry) in
        MatchResult result
        (λ v. (pair_bytes v ≡ word_bytes words.entry) × (count % 2 ≡ 0))
        (λ e. (count % 2 ≢ 0) × IsWrongLength e) }
{
    if words.len() % 2 != 0 {
        return Err(BinaryDeserializerError::unknown("Wrong length"));
    }
    Ok(PairView::over(words.as_bytes()))
}
