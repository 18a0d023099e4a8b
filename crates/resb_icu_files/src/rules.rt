//! Texts of transliteration rules, as ICU's compiler takes them into a bundle: without comments,
//! line ends and blanks at a line's begin. What the rules mean is not looked at.
ghost use Rattle.std.specs.Prelude.{◌≡◌, ◌<◌, ◌≤◌, ◌||◌, not, ℕ, [], true, false, IfOk};
ghost use Rattle.std.specs.Prelude.{IfSome, IfNone, length, slice_index, option_map};
ghost use Rattle.std.specs.Str.{encode_utf8_all, chars};
ghost use Rattle.std.specs.String.{string_bytes};
ghost use Rattle.std.specs.Char.{digit_value};
ghost use Rattle.resb_grammar.specs.Lexical.{digits_value};
ghost use Rattle.resb_icu_grammar.specs.Escapes.{are_hex};
ghost use Rattle.resb_grammar.specs.Group.{is_hex};
ghost use Rattle.resb_icu_files.specs.Inner.Rules.{IsAnswer, IsEscaped, ends_in_space};
ghost use Rattle.resb_grammar.specs.ByteRuns as runs;
ghost use Rattle.resb_icu_files.specs.Rules as spec;
ghost use Rattle.resb_icu_files.specs.Rules.{is_surrogate};

use resb_tree::NoMemory;
use std::alloc::{AllocError, Global};
use ucd_category::GeneralCategory;

/// How a reading of rules stands.
#[derive(Clone, Copy)]
pub(crate) enum Standing {
    /// Outside of quotes.
    Plain,
    /// Inside of quotes.
    Quoted,
    /// In a comment.
    Comment,
    /// Where a line begins: line ends and spaces are dropped.
    LineBegin,
    /// Before so many characters that are dropped; then it is outside of quotes.
    Dropping(usize),
}

/// Whether a character ends a line.
pub(crate) fn is_line_end(c: char) -> bool
    ensures { result ≡ runs.is_line_end c }
{
    c == '\n' || c == '\r'
}

/// Whether a character stays an escape where it stands as one: it is a space, punctuation, a
/// control character, or ends lines.
fn stays_escaped(c: char) -> bool
    ensures { result ≡ spec.stays_escaped c }
{
    c == ' ' || is_mark_or_control(GeneralCategory::for_char(c))
}

/// Whether a category is that of punctuation, or of what controls or separates lines.
fn is_mark_or_control(category: GeneralCategory) -> bool
    ensures { result ≡ spec.is_mark_or_control category }
{
    matches!(
        category,
        GeneralCategory::ConnectorPunctuation
            | GeneralCategory::DashPunctuation
            | GeneralCategory::OpenPunctuation
            | GeneralCategory::ClosePunctuation
            | GeneralCategory::InitialPunctuation
            | GeneralCategory::FinalPunctuation
            | GeneralCategory::OtherPunctuation
            | GeneralCategory::LineSeparator
            | GeneralCategory::ParagraphSeparator
            | GeneralCategory::Control
            | GeneralCategory::Format
    )
}

/// Drops the spaces at the end.
fn trim(out: &mut Vec<char>)
    ensures { out.new.items ≡ spec.trimmed out.old.items }
{
    'spaces: while ends_in_space(out.as_slice()) {
        let _ = out.pop();
    }
}

/// Whether a space stands last.
fn ends_in_space(characters: &[char]) -> bool
    ensures { result ≡ ends_in_space characters.now }
{
    match characters.last() {
        Some(c) => *c == ' ',
        None => false,
    }
}

/// The value of a hex digit.
fn hex_digit(c: char) -> Option<u32>
    ensures found { IfSome result (λ v. (is_hex c ≡ true) × (v ≡ digit_value c) × (v < 16)) }
    ensures none { IfNone result (is_hex c ≡ false) }
{
    let code = c as u32;
    if code >= 48 && code <= 57 {
        Some(code - 48)
    } else if code >= 65 && code <= 70 {
        Some(code - 55)
    } else if code >= 97 && code <= 102 {
        Some(code - 87)
    } else {
        None
    }
}

/// The number that four hex digits from a place on say.
pub(crate) fn four_digits(rest: &[char], from: usize) -> Option<u32>
    requires { from < 16 }
    ensures found { IfSome result (λ v. (are_hex rest.now from 4 ≡ true)
        × (v ≡ digits_value 16 rest.now from 4) × (v < 65536)) }
    ensures none { IfNone result (are_hex rest.now from 4 ≡ false) }
{
    let first = hex_digit(character_at(rest, from))?;
    let second = hex_digit(character_at(rest, from + 1))?;
    let third = hex_digit(character_at(rest, from + 2))?;
    let fourth = hex_digit(character_at(rest, from + 3))?;
    Some(((first * 16 + second) * 16 + third) * 16 + fourth)
}

/// The character of a number of four digits.
fn character(number: u32) -> Option<char>
    requires { number < 65536 }
    ensures found { IfSome result (λ c. (c ≡ number) × (is_surrogate number ≡ false)) }
    ensures none { IfNone result (is_surrogate number ≡ false → ⊥) }
{
    char::from_u32(number)
}

/// The character that four hex digits behind the first character say, if they say one.
fn escaped(rest: &[char]) -> Option<char>
    ensures found { IfSome result (IsEscaped rest.now) }
    ensures none { IfNone result ((c : ℕ) → IsEscaped rest.now c → ⊥) }
{
    let number = four_digits(rest, 1)?;
    character(number)
}

/// What an escape by its number leaves.
fn by_number(out: &mut Vec<char>, rest: &[char]) -> Result<Option<Standing>, NoMemory>
    ensures { IfOk result
        (λ o. IsAnswer o out.new.items (spec.by_number out.old.items rest.now)) }
{
    let Some(c) = escaped(rest) else {
        return Ok(None);
    };
    if stays_escaped(c) {
        out.push('\\')?;
        return Ok(Some(Standing::Plain));
    }
    out.push(c)?;
    Ok(Some(Standing::Dropping(5)))
}

/// The character there, or U+0000 past the end.
pub(crate) fn character_at(characters: &[char], at: usize) -> char
    ensures { result ≡ slice_index characters.now at }
{
    match characters.get(at) {
        Some(c) => *c,
        None => '\0',
    }
}

/// What a backslash leaves, given what follows it.
fn by_escape(out: &mut Vec<char>, rest: &[char]) -> Result<Option<Standing>, NoMemory>
    ensures { IfOk result
        (λ o. IsAnswer o out.new.items (spec.by_escape out.old.items rest.now)) }
{
    let next = character_at(rest, 0);
    if is_line_end(next) {
        return Ok(Some(Standing::Dropping(1)));
    }
    if next == 'u' && rest.len() >= 6 {
        return by_number(out, rest);
    }
    out.push('\\')?;
    if next == '\'' {
        Ok(Some(Standing::Quoted))
    } else {
        Ok(Some(Standing::Plain))
    }
}

/// One character further outside of quotes.
fn plain_step(out: &mut Vec<char>, c: char, rest: &[char]) -> Result<Option<Standing>, NoMemory>
    ensures { IfOk result
        (λ o. IsAnswer o out.new.items (spec.plain_step out.old.items c rest.now)) }
{
    if c == '\'' {
        out.push(c)?;
        return Ok(Some(Standing::Quoted));
    }
    if c == '#' {
        trim(out);
        return Ok(Some(Standing::Comment));
    }
    if is_line_end(c) {
        return Ok(Some(Standing::LineBegin));
    }
    if c == '\\' {
        return by_escape(out, rest);
    }
    out.push(c)?;
    Ok(Some(Standing::Plain))
}

/// One character further inside of quotes.
fn quoted_step(out: &mut Vec<char>, c: char) -> Result<Option<Standing>, NoMemory>
    ensures { IfOk result (λ o. IsAnswer o out.new.items (spec.quoted_step out.old.items c)) }
{
    if is_line_end(c) {
        return Ok(Some(Standing::LineBegin));
    }
    out.push(c)?;
    if c == '\'' {
        Ok(Some(Standing::Plain))
    } else {
        Ok(Some(Standing::Quoted))
    }
}

/// One character further. None is answered where an escape is none.
fn rule_step(
    standing: Standing,
    out: &mut Vec<char>,
    c: char,
    rest: &[char],
) -> Result<Option<Standing>, NoMemory>
    ensures { IfOk result
        (λ o. IsAnswer o out.new.items (spec.rule_step standing out.old.items c rest.now)) }
{
    match standing {
        Standing::Plain => plain_step(out, c, rest),
        Standing::Quoted => quoted_step(out, c),
        Standing::Comment if is_line_end(c) => Ok(Some(Standing::LineBegin)),
        Standing::Comment => Ok(Some(Standing::Comment)),
        Standing::LineBegin if is_line_end(c) || c == ' ' => Ok(Some(Standing::LineBegin)),
        Standing::LineBegin => plain_step(out, c, rest),
        Standing::Dropping(count) if count <= 1 => Ok(Some(Standing::Plain)),
        Standing::Dropping(count) => Ok(Some(Standing::Dropping(count - 1))),
    }
}

/// What is left of characters.
fn strip(alloc: Global, characters: &[char]) -> Result<Option<Vec<char>>, NoMemory>
    ensures { IfOk result (λ o. option_map (λ v. v.items) o
        ≡ spec.stripped Standing.Plain [] characters.now) }
{
    let mut out = Vec::new(alloc);
    let mut standing = Standing::Plain;
    for at in 0..characters.len() {
        match rule_step(standing, &mut out, characters[at], &characters[at + 1..])? {
            Some(next) => standing = next,
            None => return Ok(None),
        }
    }
    Ok(Some(out))
}

/// What is left of a text of rules, if its escapes by number are ones.
pub(crate) fn rules_in(alloc: Global, text: &str) -> Result<Option<String>, NoMemory>
    ensures { IfOk result (λ o. option_map (λ s. string_bytes s) o ≡ spec.rules_in text.now) }
{
    let characters = characters_of(alloc, text)?;
    match strip(alloc, characters.as_slice())? {
        Some(rules) => Ok(Some(written(alloc, rules.as_slice())?)),
        None => Ok(None),
    }
}

/// The characters of a text.
pub(crate) fn characters_of(alloc: Global, text: &str) -> Result<Vec<char>, AllocError>
    ensures { IfOk result (λ v. v.items ≡ chars text.now) }
{
    text.chars().collect(alloc)
}

/// Characters as a text.
pub(crate) fn written(alloc: Global, characters: &[char]) -> Result<String, AllocError>
    ensures { IfOk result (λ s. string_bytes s ≡ encode_utf8_all characters.now) }
{
    let mut text = String::new(alloc);
    for c in characters {
        text.push(*c)?;
    }
    Ok(text)
}
