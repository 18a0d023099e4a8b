//! The types of groups that take a file in, and where one is spelt.
//! What is written for each is said in `making`.
ghost use Rattle.std.specs.Prelude.{◌≡◌, ◌+◌, ◌≤◌, ℕ, true, false, Some, length, IsTrue, IfSome};
ghost use Rattle.std.specs.Prelude.{slice_index, None};
ghost use Rattle.resb_icu_files.specs.Ways as spec;
ghost use Rattle.resb_icu_files.specs.Ways.{NoFileGroup};

use memchr::memmem;

/// How a group takes a file in.
#[derive(Clone, Copy, Debug, PartialEq, Eq)]
pub enum Way {
    /// `:process(dependency)`: a string of the file's name, which is listed as a dependency.
    Dependency,
    /// `:include`: a string of the file's text.
    Include,
    /// `:import`: a binary of the file's bytes.
    Import,
    /// `:process(transliterator)`: a string of what is left of the file's rules.
    Rules,
    /// `:process(uca_rules)`: a string of what is left of the file's collation rules.
    CollationRules,
}

impl Way {
    /// The type as a text spells it behind a `:`.
    pub(crate) fn spelling(self) -> &'static [u8]
        ensures { result.now ≡ spec.spelling self }
    {
        match self {
            Way::Dependency => b"process(dependency)",
            Way::Include => b"include",
            Way::Import => b"import",
            Way::Rules => b"process(transliterator)",
            Way::CollationRules => b"process(uca_rules)",
        }
    }
}

/// Whether these bytes stand there.
#[tactic(auto, unfolding(crate::specs::Ways::stands_at))]
fn stands(text: &[u8], at: usize, bytes: &[u8]) -> bool
    requires { at ≤ length text.now }
    ensures value { result ≡ spec.stands_at text.now at bytes.now }
    ensures inside { IsTrue result → at + length bytes.now ≤ length text.now }
{
    text[at..].starts_with(bytes)
}

/// The byte there, or 0 past the end.
fn byte_at(text: &[u8], at: usize) -> u8
    ensures { result ≡ slice_index text.now at }
{
    if at < text.len() { text[at] } else { 0 }
}

/// The type that is spelt there, if one is.
#[tactic(auto, using(crate::proofs::WaysLemmas::no_first))]
pub(crate) fn way_at(text: &[u8], at: usize) -> Option<Way>
    requires { at ≤ length text.now }
    ensures value { result ≡ spec.way_at text.now at }
    ensures inside { IfSome result
        (λ way. at + length (spec.spelling way) ≤ length text.now) }
{
    let first = byte_at(text, at);
    if first != b'i' && first != b'p' {
        return None;
    }
    if stands(text, at, Way::Dependency.spelling()) {
        return Some(Way::Dependency);
    }
    if stands(text, at, Way::Include.spelling()) {
        return Some(Way::Include);
    }
    if stands(text, at, Way::Import.spelling()) {
        return Some(Way::Import);
    }
    if stands(text, at, Way::Rules.spelling()) {
        return Some(Way::Rules);
    }
    if stands(text, at, Way::CollationRules.spelling()) {
        return Some(Way::CollationRules);
    }
    None
}

/// Whether the type of a group may stand right behind this byte.
fn may_precede(byte: u8) -> bool
    ensures { result ≡ spec.may_precede byte }
{
    matches!(byte, b':' | b' ' | b'\t' | b'\r' | b'\n' | b'/')
}

/// Whether a type is spelt somewhere in a text.
fn is_spelt(text: &[u8], way: Way) -> bool
    ensures { result ≡ false
        → (at : ℕ) → spec.stands_at text.now at (spec.spelling way) ≡ false }
{
    memmem::find(text, way.spelling()).is_some()
}

/// Whether any type of a group that takes a file in is spelt in a text.
fn names_a_way(text: &[u8]) -> bool
    ensures { result ≡ false → (at : ℕ) → spec.way_at text.now at ≡ None }
{
    is_spelt(text, Way::Include)
        || is_spelt(text, Way::Import)
        || is_spelt(text, Way::Dependency)
        || is_spelt(text, Way::Rules)
        || is_spelt(text, Way::CollationRules)
}

/// Whether a text may take files in: the type of a group that does is spelt somewhere behind a `:`,
/// a white character or a `/`, be it in a string or a comment.
pub fn may_take_files(text: &str) -> bool
    ensures none { result ≡ false → (at : ℕ) → NoFileGroup text.now at }
    ensures spelt { IsTrue result → (at : ℕ) × (kind : Way)
        × (spec.may_precede (slice_index text.now at) ≡ true)
        × (spec.way_at text.now (at + 1) ≡ Some kind) }
{
    let bytes = text.as_bytes();
    if !names_a_way(bytes) {
        return false;
    }
    for at in 0..bytes.len() {
        if may_precede(bytes[at]) && way_at(bytes, at + 1).is_some() {
            return true;
        }
    }
    false
}
