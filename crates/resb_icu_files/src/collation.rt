//! Texts of collation rules, as ICU's compiler takes them into a bundle: without comments, and
//! without blanks outside of quotes and brackets. What the rules mean is not looked at.
ghost use Rattle.std.specs.Prelude.{◌≡◌, ◌⊎◌, ℕ, List, [], true, false, Some, None, IfOk};
ghost use Rattle.std.specs.Prelude.{OnOk, IfSome, IfNone, option_map, if◌then◌else◌};
ghost use Rattle.std.specs.String.{string_bytes};
ghost use Rattle.resb_grammar.specs.Lexical.{digits_value};
ghost use Rattle.resb_grammar.specs.ByteRuns as runs;
ghost use Rattle.resb_icu_grammar.specs.Escapes.{are_hex};
ghost use Rattle.resb_icu_files.specs.Inner.CollationRules.{IsAnswer, IsSaid};
ghost use Rattle.resb_icu_files.specs.CollationRules as spec;

use crate::rules::{character_at, characters_of, four_digits, is_line_end, written};
use resb_tree::NoMemory;
use std::alloc::Global;

/// In which part of the rules a reading stands.
#[derive(Clone, Copy)]
pub(crate) enum Part {
    /// Outside of quotes.
    Plain,
    /// Inside of quotes.
    Quoted,
    /// In a comment.
    Comment,
    /// In brackets.
    Command,
    /// Before so many characters of an escape, which stands in quotes or doesn't.
    Digits(usize, bool),
}

/// Whether a character is a space, a tab, or ends a line.
fn is_white(c: char) -> bool
    ensures { result ≡ runs.is_white c }
{
    c == ' ' || c == '\t' || c == '\r' || c == '\n'
}

/// Inside of quotes, or outside.
fn quotes(quoted: bool) -> Part
    ensures { result ≡ spec.quotes quoted }
{
    if quoted { Part::Quoted } else { Part::Plain }
}

/// The number that eight hex digits behind the first character say.
fn eight_digits(rest: &[char]) -> Option<u32>
    ensures found { IfSome result (λ v. (are_hex rest.now 1 8 ≡ true)
        × (v ≡ digits_value 16 rest.now 1 8)) }
    ensures none { IfNone result (are_hex rest.now 1 8 ≡ true → ⊥) }
{
    let high = four_digits(rest, 1)?;
    let low = four_digits(rest, 5)?;
    Some(high * 65536 + low)
}

/// The character that a number stands for behind this letter.
fn said(letter: char, number: u32) -> Option<char>
    ensures found { IfSome result
        (λ c. (c ≡ number) × (spec.is_not_said letter number ≡ false)) }
    ensures none { IfNone result (spec.is_not_said letter number ≡ false → ⊥) }
{
    if number == 85 && letter == 'U' {
        return None;
    }
    char::from_u32(number)
}

/// The character that so many hex digits behind the first character say.
fn escaped(rest: &[char], count: usize) -> Option<char>
    requires { count ≡ 4 ⊎ count ≡ 8 }
    ensures found { IfSome result (IsSaid rest.now count) }
    ensures none { IfNone result ((c : ℕ) → IsSaid rest.now count c → ⊥) }
{
    let number = if count == 4 {
        four_digits(rest, 1)?
    } else {
        eight_digits(rest)?
    };
    said(character_at(rest, 0), number)
}

/// What an escape by its number leaves, given how many hex digits it has.
fn by_digits(
    out: &mut Vec<char>,
    rest: &[char],
    quoted: bool,
    count: usize,
) -> Result<Option<Part>, NoMemory>
    requires { count ≡ 4 ⊎ count ≡ 8 }
    ensures { IfOk result
        (λ o. IsAnswer o out.new.items (spec.by_digits quoted out.old.items rest.now count)) }
{
    let Some(c) = escaped(rest, count) else {
        return Ok(None);
    };
    out.push(c)?;
    Ok(Some(Part::Digits(count + 1, quoted)))
}

/// Whether what follows a backslash makes no escape by itself.
fn is_no_escape(rest: &[char]) -> bool
    ensures { result ≡ spec.is_no_escape rest.now }
{
    rest.is_empty() || character_at(rest, 0).is_ascii_alphanumeric()
}

/// Writes a backslash that stays before a character.
fn push_backslash(out: &mut Vec<char>, next: char) -> Result<(), NoMemory>
    ensures { OnOk result (out.new.items ≡ spec.with_backslash out.old.items next) }
{
    if next <= '\u{ffff}' {
        out.push('\\')?;
    }
    Ok(())
}

/// What a backslash leaves, given what follows it, inside of quotes or outside.
fn by_escape(out: &mut Vec<char>, rest: &[char], quoted: bool) -> Result<Option<Part>, NoMemory>
    ensures { IfOk result
        (λ o. IsAnswer o out.new.items (spec.by_escape quoted out.old.items rest.now)) }
{
    let next = character_at(rest, 0);
    if next == 'u' {
        return by_digits(out, rest, quoted, 4);
    }
    if next == 'U' {
        return by_digits(out, rest, quoted, 8);
    }
    if is_no_escape(rest) {
        return Ok(None);
    }
    push_backslash(out, next)?;
    Ok(Some(quotes(quoted)))
}

/// In which part a reading stands behind a character that stays outside of quotes.
fn opened(c: char) -> Part
    ensures { result ≡ spec.opened c }
{
    match c {
        '\'' => Part::Quoted,
        '[' => Part::Command,
        _ => Part::Plain,
    }
}

/// One character further outside of quotes.
fn plain_step(out: &mut Vec<char>, c: char, rest: &[char]) -> Result<Option<Part>, NoMemory>
    ensures { IfOk result
        (λ o. IsAnswer o out.new.items (spec.plain_step out.old.items c rest.now)) }
{
    if c == '#' {
        return Ok(Some(Part::Comment));
    }
    if is_white(c) {
        return Ok(Some(Part::Plain));
    }
    if c == '\\' {
        return by_escape(out, rest, false);
    }
    out.push(c)?;
    Ok(Some(opened(c)))
}

/// One character further inside of quotes.
fn quoted_step(out: &mut Vec<char>, c: char, rest: &[char]) -> Result<Option<Part>, NoMemory>
    ensures { IfOk result
        (λ o. IsAnswer o out.new.items (spec.quoted_step out.old.items c rest.now)) }
{
    if c == '\\' {
        return by_escape(out, rest, true);
    }
    out.push(c)?;
    Ok(Some(quotes(c != '\'')))
}

/// One character further. None is answered where an escape is none.
fn collation_step(
    part: Part,
    out: &mut Vec<char>,
    c: char,
    rest: &[char],
) -> Result<Option<Part>, NoMemory>
    ensures { IfOk result
        (λ o. IsAnswer o out.new.items (spec.collation_step part out.old.items c rest.now)) }
{
    match part {
        Part::Plain => plain_step(out, c, rest),
        Part::Quoted => quoted_step(out, c, rest),
        Part::Comment if is_line_end(c) => Ok(Some(Part::Plain)),
        Part::Comment => Ok(Some(Part::Comment)),
        Part::Command => {
            out.push(c)?;
            Ok(Some(if c == ']' { Part::Plain } else { Part::Command }))
        }
        Part::Digits(count, quoted) if count <= 1 => Ok(Some(quotes(quoted))),
        Part::Digits(count, quoted) => Ok(Some(Part::Digits(count - 1, quoted))),
    }
}

/// Whether the rules may end in this part.
fn may_end(part: Part) -> bool
    ensures { (out : List ℕ) → spec.at_end part out ≡ if result then Some out else None }
{
    !matches!(part, Part::Comment | Part::Command)
}

/// What is left of characters.
fn collect(alloc: Global, characters: &[char]) -> Result<Option<Vec<char>>, NoMemory>
    ensures { IfOk result (λ o. option_map (λ v. v.items) o
        ≡ spec.left_from Part.Plain [] characters.now) }
{
    let mut out = Vec::new(alloc);
    let mut part = Part::Plain;
    for at in 0..characters.len() {
        match collation_step(part, &mut out, characters[at], &characters[at + 1..])? {
            Some(next) => part = next,
            None => return Ok(None),
        }
    }
    if may_end(part) {
        Ok(Some(out))
    } else {
        Ok(None)
    }
}

/// What is left of a text of collation rules, if its escapes are ones and its comments and commands
/// have an end.
pub(crate) fn collation_rules_in(alloc: Global, text: &str) -> Result<Option<String>, NoMemory>
    ensures { IfOk result
        (λ o. option_map (λ s. string_bytes s) o ≡ spec.collation_rules_in text.now) }
{
    let characters = characters_of(alloc, text)?;
    match collect(alloc, characters.as_slice())? {
        Some(rules) => Ok(Some(written(alloc, rules.as_slice())?)),
        None => Ok(None),
    }
}
