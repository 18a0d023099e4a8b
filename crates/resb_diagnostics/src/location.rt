//! The line and the column of a place in a text, and of several one after another.
//! Which places are told of is decided by those who ask.
ghost use Rattle.std.specs.Prelude.{◌≡◌, ◌≤◌, length, min};
ghost use Rattle.resb_grammar.specs.Ascii.{line_feed};
ghost use Rattle.resb_diagnostics.specs.Inner.Tokens.{NoByte};
ghost use Rattle.resb_diagnostics.specs.Location as location;
ghost use Rattle.resb_diagnostics.specs.Location.{line_at, column_at};

use crate::runs::near_byte;
use std::marker::Model;

/// A place in a text as a person counts: lines from 1, and characters of the line from 1.
#[derive(Clone, Copy, Debug, PartialEq, Eq)]
pub struct Location {
    /// The line, from 1. A line feed ends a line.
    pub line: usize,
    /// The column, from 1: how many characters of the line begin before the place, and 1.
    pub column: usize,
}

/// Finds places in a text. A place that doesn't stand before the last one that was found is looked
/// for from there, so that to find many that ascend takes one pass.
#[derive(Drop)]
pub struct Locations<'t> {
    text: &'t [u8],
    /// A place, and where it is.
    place: usize,
    location: Location,
}

impl<'t> Model for Locations<'t> {
    ghost use Rattle.std.specs.Prelude.{◌≡◌, ◌≤◌, List, ℕ, length};
    ghost use Rattle.resb_diagnostics.specs.Location.{line_at, column_at};

    ghost Value = { List ℕ };

    ghost view = { λ a. a.text.now };

    ghost invariant = { λ a. (a.place ≤ length a.text.now)
        × (a.location.line ≡ line_at a.text.now a.place)
        × (a.location.column ≡ column_at a.text.now a.place) };
}

impl<'t> Locations<'t> {
    /// Those of a text, which need not be UTF-8: each byte but those from 128 to 191 begins a
    /// character.
    pub fn new(text: &'t [u8]) -> Locations<'t>
        ensures { result ≡ text.now }
    {
        Locations {
            text,
            place: 0,
            location: Location { line: 1, column: 1 },
        }
    }

    /// The line and the column of the place behind so many bytes, or of the text's end, if that
    /// comes first.
    pub fn find(&mut self, place: usize) -> Location
        ensures line { result.line ≡ line_at self.old (min place (length self.old)) }
        ensures column { result.column ≡ column_at self.old (min place (length self.old)) }
        ensures same { self.new ≡ self.old }
    {
        let place = place.min(self.text.len());
        let found = if place < self.place {
            location_of(self.text, place)
        } else {
            location_behind(self.text, self.place, self.location, place)
        };
        self.place = place;
        self.location = found;
        found
    }
}

/// The line and the column of the place behind so many bytes, or of the text's end, if that comes
/// first. The text need not be UTF-8: each byte but those from 128 to 191 begins a character.
pub fn location_of(text: &[u8], place: usize) -> Location
    ensures line { result.line ≡ line_at text.now (min place (length text.now)) }
    ensures column { result.column ≡ column_at text.now (min place (length text.now)) }
{
    let start = Location { line: 1, column: 1 };
    location_behind(text, 0, start, place.min(text.len()))
}

/// Where a place is that doesn't stand before another one, of which that is known. Line feeds are
/// looked for sixteen bytes at a time, and the characters of the last line alone are counted.
#[tactic(auto, using(crate::proofs::LocationLemmas::few_places))]
fn location_behind(text: &[u8], from: usize, known: Location, place: usize) -> Location
    requires order { from ≤ place }
    requires fits { place ≤ length text.now }
    requires line { known.line ≡ line_at text.now from }
    requires column { known.column ≡ column_at text.now from }
    ensures line { result.line ≡ line_at text.now place }
    ensures column { result.column ≡ column_at text.now place }
{
    let Location {
        mut line,
        mut column,
    } = known;
    let mut start = from;
    'feeds: while let Some(feed) = near_byte(text, b'\n', start, place) {
        line += 1;
        column = 1;
        start = feed + 1;
    }
    let column = column_behind(text, start, column, place);
    Location { line, column }
}

/// The column of a place before which no line ends behind another one, whose column is known.
#[tactic(auto, using(crate::proofs::LocationLemmas::few_places))]
fn column_behind(text: &[u8], from: usize, known: usize, place: usize) -> usize
    requires order { from ≤ place }
    requires fits { place ≤ length text.now }
    requires column { known ≡ column_at text.now from }
    requires none { NoByte line_feed text.now from place }
    ensures { result ≡ column_at text.now place }
{
    let mut column = known;
    'bytes: for at in from..place {
        if begins_character(text[at]) {
            column += 1;
        }
    }
    column
}

/// Whether a byte begins a character of UTF-8, and doesn't go on with one.
pub(crate) fn begins_character(byte: u8) -> bool
    ensures { result ≡ location.begins_character byte }
{
    byte < 128 || 191 < byte
}
