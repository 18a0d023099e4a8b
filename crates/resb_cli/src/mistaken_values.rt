//! What is wrong in a value, and where a group, a string or the bundle ends.
//! Mistakes in keys, names and types are found in `mistaken_keys`.
use crate::mistaken_keys::{has_line_end, word_at_end};
use crate::mistakes::{Mistake, Spot, What};
use crate::repeated::key_at;
use resb_diagnostics::{first_icu_word, long_icu_string_before, long_string_before};
use resb_grammar::is_word;

/// A comment that has no end, or none that begins as one does.
pub(crate) fn comment_mistake<'s>(spot: &Spot<'s>, is_icu: bool) -> Option<Mistake<'s>> {
    match spot.behind {
        [b'/', b'*', inside @ ..] => {
            // in ICU's form a byte stands between `/*` and `*/`
            let inside = match inside {
                [_, rest @ ..] if is_icu => rest,
                _ => inside,
            };
            if has_comment_end(inside) {
                None
            } else if spot.behind.starts_with(b"/**/") {
                spot.here(What::EmptyComment)
            } else {
                spot.here(What::OpenComment)
            }
        }
        [b'/', b' ' | b'\t' | b'\r' | b'\n' | b'}', ..] => spot.here(What::NoComment),
        _ => None,
    }
}

/// A slash that stands alone right before a place: a person means a comment.
pub(crate) fn slash_mistake_before<'s>(spot: &Spot<'s>) -> Option<Mistake<'s>> {
    match spot.before {
        [.., b' ' | b'\t' | b'\r' | b'\n' | b'{' | b'}', b'/'] => Some(Mistake {
            place: spot.before.len().saturating_sub(1),
            what: What::NoComment,
        }),
        _ => None,
    }
}

/// A string without quotes that begins with a slash, in the plain form.
pub(crate) fn slash_mistake<'s>(spot: &Spot<'s>) -> Option<Mistake<'s>> {
    match spot.behind {
        [b'/', b'/' | b'*', ..] => None,
        [b'/', ..] => spot.here(What::Slash),
        _ => None,
    }
}

/// Whether a `*/` stands in a text.
fn has_comment_end(bytes: &[u8]) -> bool {
    let mut is_behind_star = false;
    for at in 0..bytes.len() {
        if is_behind_star && bytes[at] == b'/' {
            return true;
        }
        is_behind_star = bytes[at] == b'*';
    }
    false
}

/// What is wrong where a number of ICU's form is to stand, whose range is told by this.
pub(crate) fn icu_number_mistake<'s>(spot: &Spot<'s>, range: What<'s>) -> Option<Mistake<'s>> {
    let digits = match spot.behind {
        [b'"', ..] => return spot.here(What::NoQuotedNumber),
        [b'+' | b'-', rest @ ..] => icu_word(rest),
        all => icu_word(all),
    };
    match digits {
        [b'0'..=b'9', ..] => spot.here(what_of_digits(digits, range)),
        _ => None,
    }
}

/// The word of ICU's form with which bytes begin.
fn icu_word(bytes: &[u8]) -> &[u8] {
    for at in 0..bytes.len() {
        if !resb_icu_grammar::is_word(bytes[at]) {
            return &bytes[..at];
        }
    }
    bytes
}

/// What is wrong with a word that begins with a digit and is no number.
fn what_of_digits<'s>(word: &[u8], range: What<'s>) -> What<'s> {
    let mut has_point = false;
    for at in 0..word.len() {
        match word[at] {
            b'0'..=b'9' => {}
            b'.' => has_point = true,
            _ if word.starts_with(b"0") => return What::LeadingZero,
            _ => return What::NotDecimal,
        }
    }
    if has_point {
        What::Fraction
    } else if word.starts_with(b"0") {
        What::LeadingZero
    } else {
        range
    }
}

/// What is wrong where a number of the plain form is to stand.
pub(crate) fn plain_number_mistake<'s>(spot: &Spot<'s>) -> Option<Mistake<'s>> {
    match spot.behind {
        [b'"', ..] => spot.here(What::QuotedNumber),
        [b'0'..=b'9', ..] | [b'-' | b'+', b'0'..=b'9', ..] if is_in_vector(spot.before) => {
            spot.here(What::VectorRange)
        }
        [b'0'..=b'9', ..] | [b'-' | b'+', b'0'..=b'9', ..] => spot.here(What::IntegerRange),
        _ => None,
    }
}

/// Whether the last group that opens in these bytes is a vector.
pub(crate) fn is_in_vector(bytes: &[u8]) -> bool {
    for at in 0..bytes.len() {
        let at = bytes.len() - 1 - at;
        if bytes[at] == b'{' {
            return bytes[..at].trim_ascii_end().ends_with(b"intvector");
        }
    }
    false
}

/// What is wrong where a `}` is to stand behind a value, in the plain form.
pub(crate) fn plain_value_mistake<'s>(spot: &Spot<'s>) -> Option<Mistake<'s>> {
    let is_behind_digit = matches!(spot.before.last(), Some(b'0'..=b'9'));
    match spot.behind {
        [b'.', b'0'..=b'9', ..] if is_behind_digit => spot.here(What::Fraction),
        [byte, ..] if is_behind_digit && is_word(*byte) => spot.here(What::NotDecimal),
        [b'-' | b'+' | b'0'..=b'9', ..]
            if is_in_vector(spot.before) && ends_in_digit(spot.before) => {
            spot.here(What::NoNumberComma)
        }
        [b',', ..] => one_value_mistake(spot),
        _ => None,
    }
}

/// Whether the last of these bytes that is no blank is a digit.
fn ends_in_digit(bytes: &[u8]) -> bool {
    matches!(bytes.trim_ascii_end().last(), Some(b'0'..=b'9'))
}

/// A comma behind the one value of a group.
pub(crate) fn one_value_mistake<'s>(spot: &Spot<'s>) -> Option<Mistake<'s>> {
    match (spot.before.trim_ascii_end().last(), spot.behind) {
        (Some(b'{' | b'}' | b','), _) => None,
        (_, [b',', ..]) => spot.here(What::SeveralValues),
        _ => None,
    }
}

/// What is wrong with a string that is no pairs of hex digits: its first other character, or that
/// there is no pair of the last digit.
pub(crate) fn digits_mistake<'s>(spot: &Spot<'s>, is_icu: bool) -> Option<Mistake<'s>> {
    let content = key_at(spot.source, spot.before.len(), is_icu);
    let start = usize::from(spot.behind.starts_with(b"\""));
    for (at, c) in content.char_indices() {
        if !c.is_ascii_hexdigit() {
            return spot.on(at.saturating_add(start), What::NoDigit(c));
        }
    }
    match content.len() {
        count if count % 2 == 1 => spot.here(What::OddDigits(count)),
        _ => None,
    }
}

/// What is wrong where the text is to end.
pub(crate) fn end_mistake<'s>(spot: &Spot<'s>) -> Option<Mistake<'s>> {
    if spot.behind.starts_with(b"}") {
        return spot.here(What::BraceTooMany);
    }
    let end = spot.before.trim_ascii_end();
    match end.split_last() {
        Some((b'}', front)) if is_indented(front) => Some(Mistake {
            place: front.len(),
            what: What::EarlyEnd,
        }),
        _ => spot.here(What::TextBehind),
    }
}

/// Whether the last line of these bytes begins with a blank.
fn is_indented(bytes: &[u8]) -> bool {
    for at in 0..bytes.len() {
        let at = bytes.len() - 1 - at;
        if bytes[at] == b'\n' {
            return matches!(bytes.get(at + 1), Some(b' ' | b'\t'));
        }
    }
    false
}

/// What is wrong with the quotes before a place, or with one there that nothing closes.
pub(crate) fn quote_mistake<'s>(
    spot: &Spot<'s>,
    is_icu: bool,
    is_unclosed: bool,
) -> Option<Mistake<'s>> {
    let is_closed = spot.before.ends_with(b"\"");
    if let Some(place) = long_string(spot, is_icu, is_unclosed) {
        return Some(Mistake {
            place,
            what: What::LongString,
        });
    }
    if is_closed && is_icu && !first_icu_word(spot.behind).is_empty() {
        return Some(Mistake {
            place: spot.before.len().saturating_sub(1),
            what: What::QuoteInside,
        });
    }
    match spot.before.last() {
        Some(b' ' | b'\t' | b'\r' | b'\n' | b'{' | b'}' | b',' | b':' | b'"') => None,
        Some(_) if spot.behind.starts_with(b"\"") => match quote_before_word(spot.before) {
            Some(place) if is_icu => Some(Mistake {
                place,
                what: What::QuoteInside,
            }),
            _ => spot.here(What::NoOpeningQuote),
        },
        _ => None,
    }
}

/// The place of the quote that stands right before the word at the end of a text, if one does.
fn quote_before_word(text: &[u8]) -> Option<usize> {
    let front = text.len().checked_sub(word_at_end(text).len())?;
    let place = front.checked_sub(1)?;
    match text.get(place) {
        Some(b'"') => Some(place),
        _ => None,
    }
}

/// How many strings that span lines are looked at, one before the other.
const MOST_LONG_STRINGS: usize = 64;

/// The string before a place whose closing quote may be missing. It spans lines and ends at the
/// place, or in the line of a quote there that nothing closes. Where a quote is missing, each
/// string behind it is taken for what stands between two, and begins in the line in which the one
/// before it ends: so the first of such a row is told.
fn long_string(spot: &Spot<'_>, is_icu: bool, is_unclosed: bool) -> Option<usize> {
    let mut quote = long_string_at(spot, is_icu, is_unclosed)?;
    for _ in 0..MOST_LONG_STRINGS {
        let Some(earlier) = last_long_string(spot.source, quote, is_icu) else {
            break;
        };
        let Some((before, _)) = spot.source.split_at_checked(quote) else {
            break;
        };
        match before.split_at_checked(end_of_string(spot, earlier, is_icu)) {
            Some((_, between)) if !has_line_end(between) => quote = earlier,
            _ => break,
        }
    }
    Some(quote)
}

/// Where a string in quotes ends that begins at a place.
fn end_of_string(spot: &Spot<'_>, quote: usize, is_icu: bool) -> usize {
    let length = key_at(spot.source, quote, is_icu).len();
    quote.saturating_add(length).saturating_add(2)
}

/// The last string before a place that spans lines, if it ends there, or in the line of a quote
/// there that nothing closes.
fn long_string_at(spot: &Spot<'_>, is_icu: bool, is_unclosed: bool) -> Option<usize> {
    let place = spot.before.len();
    let quote = last_long_string(spot.source, place, is_icu)?;
    match spot
        .before
        .split_at_checked(end_of_string(spot, quote, is_icu))
    {
        Some((_, rest)) if rest.is_empty() || (is_unclosed && !has_line_end(rest)) => Some(quote),
        _ => None,
    }
}

/// The last string before a place of a text of this form that spans lines.
pub(crate) fn last_long_string(source: &[u8], place: usize, is_icu: bool) -> Option<usize> {
    if is_icu {
        long_icu_string_before(source, place)
    } else {
        long_string_before(source, place)
    }
}

/// An entry that stands in a new line behind the string of a group, which isn't closed before.
pub(crate) fn open_group_mistake<'s>(spot: &Spot<'s>) -> Option<Mistake<'s>> {
    let (_, blanks) = spot
        .before
        .split_at_checked(spot.before.trim_ascii_end().len())?;
    if !has_line_end(blanks) {
        return None;
    }
    let (_, rest) = spot
        .behind
        .split_at_checked(first_icu_word(spot.behind).len())?;
    match rest.trim_ascii_start() {
        [b'{' | b':', ..] => spot.here(What::NoBraceBefore),
        _ => None,
    }
}

/// An entry before which a `}` is missing, behind a string that can't be a key: it goes on with
/// the entry's key.
pub(crate) fn open_group_behind<'s>(spot: &Spot<'s>) -> Option<Mistake<'s>> {
    let key = key_at(spot.source, spot.before.len(), true);
    let quotes = if spot.behind.starts_with(b"\"") { 2 } else { 0 };
    let (_, rest) = spot
        .behind
        .split_at_checked(key.len().saturating_add(quotes))?;
    let next = rest.trim_ascii_start();
    let place = spot.source.len().saturating_sub(next.len());
    open_group_mistake(&Spot::new(spot.source, place)?)
}
