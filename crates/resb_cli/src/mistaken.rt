//! The mistake for which a text is refused, where what stands there tells it better than what was
//! expected.
//! What a mistake is called is in `mistakes`; where each is found, in `mistaken_keys` and
//! `mistaken_values`.
use crate::hints::{ICU_TYPES, TYPES};
use crate::mistaken_keys::{
    Role, icu_key_mistake, plain_brace_mistake, quoted_character, type_mistake,
};
use crate::mistaken_values::{
    comment_mistake, digits_mistake, end_mistake, icu_number_mistake, is_in_vector,
    one_value_mistake, open_group_behind, open_group_mistake, plain_number_mistake,
    plain_value_mistake, quote_mistake, slash_mistake, slash_mistake_before,
};
use crate::mistakes::{Mistake, Spot, What};
use crate::repeated::repeated_key;
use resb_compile::CompileError;
use resb_diagnostics::first_icu_word;
use resb_grammar::Expected;
use resb_icu_grammar::IcuExpected;
use resb_program::SourceError;
use std::alloc::{AllocError, Global};

/// The mistake for which a text is refused at a place, if it is known.
pub(crate) fn mistake_at<'s>(
    alloc: Global,
    source: &'s [u8],
    place: usize,
    error: &SourceError,
) -> Result<Option<Mistake<'s>>, AllocError> {
    let Some(spot) = Spot::new(source, place) else {
        return Ok(None);
    };
    match error {
        SourceError::Refused(CompileError::Reading(e)) => {
            plain_mistake(alloc, &spot, e.expected())
        }
        SourceError::Refused(CompileError::ReadingIcu(e)) => {
            icu_mistake(alloc, &spot, e.expected())
        }
        _ => Ok(None),
    }
}

/// That of a text of the plain form.
fn plain_mistake<'s>(
    alloc: Global,
    spot: &Spot<'s>,
    expected: Expected,
) -> Result<Option<Mistake<'s>>, AllocError> {
    if let Some(mistake) = comment_mistake(spot, false) {
        return Ok(Some(mistake));
    }
    if expected == Expected::TypeName {
        return plain_type_mistake(alloc, spot);
    }
    Ok(match expected {
        Expected::HexPairs => digits_mistake(spot, false),
        Expected::Number => plain_number_mistake(spot),
        Expected::EndOfText => end_mistake(spot),
        _ => plain_quote_mistake(spot, expected).or(plain_group_mistake(spot, expected)),
    })
}

/// What is wrong where a type of the plain form is to stand.
fn plain_type_mistake<'s>(
    alloc: Global,
    spot: &Spot<'s>,
) -> Result<Option<Mistake<'s>>, AllocError> {
    let found = type_mistake(alloc, spot, &TYPES, false)?;
    let has_blank = matches!(
        found,
        Some(Mistake {
            what: What::BlankBehindColon,
            ..
        })
    );
    Ok(if has_blank || spot.before.contains(&b'{') {
        found
    } else {
        spot.here(What::RootType)
    })
}

/// What is wrong with quotes of the plain form, which has no escapes. A string in quotes in the
/// place of a `{` is no such mistake: then the `{` is missing.
fn plain_quote_mistake<'s>(spot: &Spot<'s>, expected: Expected) -> Option<Mistake<'s>> {
    let is_unclosed = match spot.behind {
        [b'"', rest @ ..] => !rest.contains(&b'"'),
        _ => false,
    };
    if expected == Expected::LeftBrace && !is_unclosed && spot.behind.starts_with(b"\"") {
        return None;
    }
    match quote_mistake(spot, false, is_unclosed) {
        None if is_unclosed => spot.here(What::NoClosingQuote),
        found => found,
    }
}

/// What is wrong where an entry, a member or a value of the plain form ends or begins.
fn plain_group_mistake<'s>(spot: &Spot<'s>, expected: Expected) -> Option<Mistake<'s>> {
    let is_at_entry = may_begin_entry(spot.before);
    match (expected, spot.behind) {
        (Expected::LeftBrace, _) => plain_brace_mistake(spot),
        (Expected::RightBrace, [b'#', b' ', ..]) => spot.here(What::NoComment),
        (Expected::RightBrace, [b',', ..]) if spot.before.trim_ascii_end().ends_with(b",") => {
            spot.here(What::TwoCommas)
        }
        (Expected::RightBrace, [b',', ..]) if is_at_entry => spot.here(What::Comma),
        (Expected::RightBrace, [b';', ..]) if is_at_entry => spot.here(What::Semicolon),
        (Expected::RightBrace, [b'{', ..]) if is_at_entry => spot.here(What::NoKey),
        (Expected::RightBrace, _) if is_at_entry => quoted_character(spot),
        (Expected::RightBrace, _) => plain_value_mistake(spot),
        (Expected::Text, [b'{', ..]) if spot.before.is_empty() => spot.here(What::NoName),
        (Expected::Item | Expected::Text, _) => slash_mistake(spot).or(quoted_character(spot)),
        _ => None,
    }
}

/// Whether an entry of the plain form may begin behind these bytes, where a `}` is expected too: at
/// a table's start, or behind another entry.
fn may_begin_entry(before: &[u8]) -> bool {
    match before.trim_ascii_end().last() {
        Some(b'}') => true,
        Some(b'{') => !is_in_vector(before),
        _ => false,
    }
}

/// That of a text of ICU's form.
fn icu_mistake<'s>(
    alloc: Global,
    spot: &Spot<'s>,
    expected: IcuExpected,
) -> Result<Option<Mistake<'s>>, AllocError> {
    match expected {
        IcuExpected::KeysOnce => repeated_key(alloc, spot),
        IcuExpected::GroupType => type_mistake(alloc, spot, &ICU_TYPES, true),
        _ => Ok(comment_mistake(spot, true).or(icu_token_mistake(spot, expected))),
    }
}

/// What is wrong with a text of ICU's form, where one token tells it.
fn icu_token_mistake<'s>(spot: &Spot<'s>, expected: IcuExpected) -> Option<Mistake<'s>> {
    match expected {
        IcuExpected::Name => icu_key_mistake(spot, Role::Name),
        IcuExpected::Key => icu_key_mistake(spot, Role::Key).or(open_group_behind(spot)),
        IcuExpected::Entry => icu_key_mistake(spot, Role::Key),
        IcuExpected::Number => icu_number_mistake(spot, What::IntegerRange),
        IcuExpected::NumberOrRightBrace => icu_number_mistake(spot, What::VectorRange),
        IcuExpected::HexPairs => digits_mistake(spot, true),
        IcuExpected::EndOfText => end_mistake(spot),
        IcuExpected::ClosingQuote => quote_mistake(spot, true, true),
        IcuExpected::AfterString => {
            quote_mistake(spot, true, false).or(open_group_mistake(spot))
        }
        IcuExpected::RightBrace => quote_mistake(spot, true, false).or(one_value_mistake(spot)),
        IcuExpected::Member if ends_in_comma(spot) => spot.here(What::TwoCommas),
        IcuExpected::CommaOrMember | IcuExpected::Comma => quote_mistake(spot, true, false),
        IcuExpected::Group if begins_string(spot) => spot.here(What::NoBraceOpen),
        IcuExpected::Group => slash_mistake_before(spot),
        _ => None,
    }
}

/// Whether a comma stands at a place, right behind another one.
fn ends_in_comma(spot: &Spot<'_>) -> bool {
    spot.behind.starts_with(b",") && spot.before.trim_ascii_end().ends_with(b",")
}

/// Whether a string begins at a place of a text of ICU's form.
fn begins_string(spot: &Spot<'_>) -> bool {
    spot.behind.starts_with(b"\"") || !first_icu_word(spot.behind).is_empty()
}
