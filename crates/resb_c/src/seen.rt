//! What stands at a resource of an opened file: its kind and its size, and what a leaf holds.
//! What is inside arrays, tables and vectors is found in `within`.
ghost use Rattle.std.specs.Prelude.{◌≡◌, ◌%◌, ℕ, Some, None, option_map, IfOk, IfErr, IfSome};
ghost use Rattle.std.specs.Prelude.{MatchResult, length};
ghost use Rattle.resb_format.specs.Bytes.{units_as_bytes, words_of};
ghost use Rattle.resb_format.specs.Units.{units};
ghost use Rattle.resb_layout.specs.Laid.{words};
ghost use Rattle.resb_tree.specs.Int28.{signed};
ghost use Rattle.resb_path.specs.Finding as finding;
ghost use Rattle.resb_path.specs.Finding.{number_spot};
ghost use Rattle.resb_walk.specs.Inner.Members.{content_of, text_of_bytes, AreUtf16, IsWellSpelled};
ghost use Rattle.resb_c.specs.AtPlaces.{content_from, found_kind};
ghost use Rattle.resb_c.specs.Inner.Contents.{content_bytes, content_integer, content_numbers};
ghost use Rattle.resb_c.specs.Inner.Contents.{content_text};
ghost use Rattle.resb_c.specs.Opened.{parts_of, spot_of, Shows};
ghost use Rattle.resb_c.specs.Shown.{bytes_shown, numbers_shown, signed_shown, text_shown};
ghost use Rattle.resb_c.specs.Shown.{unsigned_shown, FillsText, HasSize};
ghost use Rattle.resb_c.specs.declared.fault.Fault.TheVariants.{OtherKind};

use crate::fault::Fault;
use crate::files::fill;
use crate::opened::ResbOpened;
use crate::resource::ResbResource;
use crate::there::{kind_of, size_of, standing_in};
use resb_format::{BinaryDeserializerError, Int28};
use resb_read::Spot;
use resb_walk::{Leaf, Standing, text_of_units};
use std::alloc::Global;

/// What stands at a resource. A number of a vector is of another kind than what is looked for.
pub(crate) fn standing<'a>(
    opened: &ResbOpened<'a>,
    resource: ResbResource,
) -> Result<Standing<'a>, Fault>
    ensures ok { IfOk result (λ s.
        content_from (parts_of opened.now) (spot_of resource) ≡ Some (content_of s)) }
    ensures err { IfErr result (λ e. (s : finding.Spot) → Shows opened.now resource s
        → (n : ℕ) × (s ≡ number_spot n) × (e ≡ OtherKind)) }
    ensures form { IfOk result IsWellSpelled }
{
    let at = resource.spot();
    if let Spot::Word(_) = at {
        return Err(Fault::OtherKind);
    }
    match standing_in(opened.parts(), at) {
        Ok(there) => Ok(there),
        Err(e) => Err(Fault::Reading(e)),
    }
}

/// Bytes of UTF-16, which are those of the units of the text that they spell.
fn spelled(bytes: &[u8]) -> &[u8]
    requires { AreUtf16 bytes.now }
    ensures is { result.now ≡ bytes.entry.now }
    ensures units { result.now ≡ units_as_bytes (units (text_of_bytes result.now)) }
{
    bytes
}

/// The units of a string.
#[tactic(auto, using(crate::proofs::SeenLemmas::empty_text))]
fn text_of(there: Standing<'_>) -> Option<&[u8]>
    requires { IsWellSpelled there }
    ensures text { option_map (λ units. text_of_bytes units.now) result
        ≡ content_text (content_of there.entry) }
    ensures units { IfSome result
        (λ bytes. bytes.now ≡ units_as_bytes (units (text_of_bytes bytes.now))) }
{
    match there {
        Standing::Leaf(Leaf::Text(units)) => Some(spelled(units)),
        Standing::Leaf(Leaf::Empty) => Some(&[]),
        Standing::Leaf(Leaf::Alias(_) | Leaf::Binary(_) | Leaf::Integer(_) | Leaf::Numbers(_)) => {
            None
        }
        Standing::List(_) | Standing::Table(_) => None,
    }
}

/// The bytes of a binary.
fn bytes_of(there: Standing<'_>) -> Option<&[u8]>
    ensures { option_map (λ bytes. bytes.now) result ≡ content_bytes (content_of there.entry) }
{
    match there {
        Standing::Leaf(Leaf::Binary(bytes)) => Some(bytes),
        Standing::Leaf(Leaf::Alias(_) | Leaf::Text(_) | Leaf::Empty) => None,
        Standing::Leaf(Leaf::Integer(_) | Leaf::Numbers(_)) => None,
        Standing::List(_) | Standing::Table(_) => None,
    }
}

/// Bytes of whole words, which are those of the words that they spell.
fn whole(bytes: &[u8]) -> &[u8]
    requires { length bytes.now % 4 ≡ 0 }
    ensures is { result.now ≡ bytes.entry.now }
    ensures words { result.now ≡ words (words_of result.now) }
{
    bytes
}

/// The numbers of a vector, four bytes for each.
fn numbers_of(there: Standing<'_>) -> Option<&[u8]>
    requires { IsWellSpelled there }
    ensures numbers { option_map (λ bytes. words_of bytes.now) result
        ≡ content_numbers (content_of there.entry) }
    ensures words { IfSome result (λ bytes. bytes.now ≡ words (words_of bytes.now)) }
{
    match there {
        Standing::Leaf(Leaf::Numbers(numbers)) => Some(whole(numbers)),
        Standing::Leaf(Leaf::Alias(_) | Leaf::Text(_) | Leaf::Empty) => None,
        Standing::Leaf(Leaf::Integer(_) | Leaf::Binary(_)) => None,
        Standing::List(_) | Standing::Table(_) => None,
    }
}

/// The number of an integer, of 28 bits.
fn integer_of(there: Standing<'_>) -> Option<Int28>
    ensures { result ≡ content_integer (content_of there.entry) }
{
    match there {
        Standing::Leaf(Leaf::Integer(word)) => Some(Int28::from(word)),
        Standing::Leaf(Leaf::Alias(_) | Leaf::Text(_) | Leaf::Empty) => None,
        Standing::Leaf(Leaf::Numbers(_) | Leaf::Binary(_)) => None,
        Standing::List(_) | Standing::Table(_) => None,
    }
}

/// The number of an integer, with its sign.
fn signed_of(there: Standing<'_>) -> Result<i32, Fault>
    ensures { let found = option_map signed (content_integer (content_of there.entry)) in
        MatchResult result (λ x. found ≡ Some x) (λ e. (found ≡ None) × (e ≡ OtherKind)) }
{
    match integer_of(there) {
        Some(number) => Ok(i32::from(number)),
        None => Err(Fault::OtherKind),
    }
}

/// The kind of what stands at a resource, and how much is in it.
pub(crate) fn kind_seen(
    opened: &ResbOpened<'_>,
    resource: ResbResource,
) -> Result<(u32, usize), Fault>
    ensures { (s : finding.Spot) → Shows opened.now resource s → MatchResult result
        (λ k. (k.0 ≡ found_kind s) × HasSize opened.now resource s k.1) (λ e. ⊥) }
{
    if let Spot::Word(_) = resource.spot() {
        return Ok((4, 0));
    }
    let there = standing(opened, resource)?;
    Ok((kind_of(there), size_of(there)))
}

/// The units of the string at a resource, two bytes for each.
pub(crate) fn units_seen<'a>(
    opened: &ResbOpened<'a>,
    resource: ResbResource,
) -> Result<&'a [u8], Fault>
    ensures shown { (s : finding.Spot) → Shows opened.now resource s → MatchResult result
        (λ bytes. text_shown s ≡ Some (text_of_bytes bytes.now))
        (λ e. (text_shown s ≡ None) × (e ≡ OtherKind)) }
    ensures units { IfOk result
        (λ bytes. bytes.now ≡ units_as_bytes (units (text_of_bytes bytes.now))) }
{
    let there = standing(opened, resource)?;
    match text_of(there) {
        Some(units) => Ok(units),
        None => Err(Fault::OtherKind),
    }
}

/// The bytes of the binary at a resource.
pub(crate) fn bytes_seen<'a>(
    opened: &ResbOpened<'a>,
    resource: ResbResource,
) -> Result<&'a [u8], Fault>
    ensures { (s : finding.Spot) → Shows opened.now resource s → MatchResult result
        (λ bytes. bytes_shown s ≡ Some bytes.now)
        (λ e. (bytes_shown s ≡ None) × (e ≡ OtherKind)) }
{
    let there = standing(opened, resource)?;
    match bytes_of(there) {
        Some(bytes) => Ok(bytes),
        None => Err(Fault::OtherKind),
    }
}

/// The numbers of the vector at a resource, four bytes for each.
pub(crate) fn numbers_seen<'a>(
    opened: &ResbOpened<'a>,
    resource: ResbResource,
) -> Result<&'a [u8], Fault>
    ensures shown { (s : finding.Spot) → Shows opened.now resource s → MatchResult result
        (λ bytes. numbers_shown s ≡ Some (words_of bytes.now))
        (λ e. (numbers_shown s ≡ None) × (e ≡ OtherKind)) }
    ensures words { IfOk result (λ bytes. bytes.now ≡ words (words_of bytes.now)) }
{
    let there = standing(opened, resource)?;
    match numbers_of(there) {
        Some(numbers) => Ok(numbers),
        None => Err(Fault::OtherKind),
    }
}

/// The number at a resource without a sign: an integer of 28 bits, or a number of a vector.
pub(crate) fn unsigned_seen(opened: &ResbOpened<'_>, resource: ResbResource) -> Result<u32, Fault>
    ensures { (s : finding.Spot) → Shows opened.now resource s → MatchResult result
        (λ n. unsigned_shown s ≡ Some n) (λ e. (unsigned_shown s ≡ None) × (e ≡ OtherKind)) }
{
    if let Spot::Word(number) = resource.spot() {
        return Ok(number);
    }
    let there = standing(opened, resource)?;
    match integer_of(there) {
        Some(number) => Ok(u32::from(number)),
        None => Err(Fault::OtherKind),
    }
}

/// The number at a resource with its sign: an integer of 28 bits, or a number of a vector.
pub(crate) fn signed_seen(opened: &ResbOpened<'_>, resource: ResbResource) -> Result<i32, Fault>
    ensures { (s : finding.Spot) → Shows opened.now resource s → MatchResult result
        (λ x. signed_shown s ≡ Some x) (λ e. (signed_shown s ≡ None) × (e ≡ OtherKind)) }
{
    if let Spot::Word(number) = resource.spot() {
        return Ok(number.cast_signed());
    }
    let there = standing(opened, resource)?;
    signed_of(there)
}

/// Copies the text of the string at a resource to the front of the buffer.
pub(crate) fn text_into(
    alloc: Global,
    opened: &ResbOpened<'_>,
    resource: ResbResource,
    out: &mut [u8],
) -> Result<usize, Fault>
    ensures told { (s : finding.Spot) → Shows opened.now resource s
        → FillsText (text_shown s) out.old out.new result }
    ensures kept { IfErr result (λ e. out.new ≡ out.old) }
{
    let units = units_seen(opened, resource)?;
    match text_of_units(alloc, units) {
        Ok(text) => fill(text.as_bytes(), out).map_err(Fault::TooShort),
        Err(_) => Err(Fault::Reading(BinaryDeserializerError::out_of_memory())),
    }
}
