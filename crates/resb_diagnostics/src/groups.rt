//! The groups of a text that are open at a place, and their keys.
//! Which bytes are strings and braces is found in `text_pieces`, and for ICU's form in `icu_keys`.
ghost use Rattle.std.specs.Prelude.{◌≡◌, ◌++◌, ◌∷◌, OnOk, [], Some, map, IsTrue, ℕ};
ghost use Rattle.std.specs.Prelude.{if◌then◌else◌};
ghost use Rattle.resb_diagnostics.specs.Groups as spec;
ghost use Rattle.resb_diagnostics.specs.Groups.{behind_piece};
ghost use Rattle.resb_diagnostics.specs.Pieces.{a_string, opening, closing};
ghost use Rattle.resb_diagnostics.specs.Warnings.{of_keys, of_group, of_piece};
ghost use Rattle.resb_diagnostics.specs.Warnings.{warning_at};
ghost use Rattle.resb_diagnostics.specs.declared.warning.Reason.TheVariants as reason;
ghost use Rattle.resb_diagnostics.specs.Inner.Looks.{placed_text_of, text_piece_of, inner_keys};
ghost use Rattle.resb_diagnostics.specs.Inner.Looks.{may_be_table, has_pairs, has_empty_group};
ghost use Rattle.resb_diagnostics.specs.Inner.Looks.{is_pairs, has_lone, ShowsOpen, ShowsNesting};

use crate::named::{Named, named_by};
use crate::numbers::tell_number;
use crate::text_pieces::{Piece, StringAt};
use crate::warning::{Reason, Warning};
use indexmap::IndexMap;
use std::alloc::{AllocError, Global};
use std::cmp::Ordering;

/// What the items of a group are so far.
#[derive(Clone, Copy)]
enum Shape {
    /// Pairs of a string and a group, without commas.
    Pairs,
    /// Such pairs, and then a string.
    Key,
    /// Anything else.
    Other,
}

/// A group around the innermost one, as it will be behind that one.
#[derive(Clone, Copy)]
struct Group {
    named: Named,
    shape: Shape,
    /// Where its keys begin in the list of all keys.
    keys_from: usize,
}

/// Adds a warning of what stands at a place, if it is due.
fn tell_if(
    is_due: bool,
    place: usize,
    reason: Reason,
    found: &mut Vec<Warning>,
) -> Result<(), AllocError>
    ensures { OnOk result (found.new.items
        ≡ found.old.items ++ (if is_due then warning_at reason place ∷ [] else [])) }
{
    if is_due {
        found.push(Warning { place, reason })?;
    }
    Ok(())
}

/// Whether each key is above the one before.
fn ascend(keys: &[StringAt<'_>]) -> bool
    ensures { IsTrue result → of_keys [] (map placed_text_of keys.now) ≡ [] }
{
    for at in 1..keys.len() {
        if keys[at - 1].content.cmp(keys[at].content) != Ordering::Less {
            return false;
        }
    }
    true
}

/// Adds a warning for each key that stands before. Keys that ascend need no map.
fn tell_keys(
    alloc: Global,
    keys: &[StringAt<'_>],
    found: &mut Vec<Warning>,
) -> Result<(), AllocError>
    ensures { OnOk result
        (found.new.items ≡ found.old.items ++ of_keys [] (map placed_text_of keys.now)) }
{
    if ascend(keys) {
        return Ok(());
    }
    let mut seen = IndexMap::new(alloc);
    for key in keys {
        match seen.get(key.content) {
            Some(first) => found.push(Warning {
                place: key.place,
                reason: Reason::RepeatedKey(*first),
            })?,
            None => {
                let _ = seen.insert(key.content, key.place)?;
            }
        }
    }
    Ok(())
}

/// What a group names whose `{` stands behind this piece.
#[inline(always)]
fn named_behind(piece: Piece<'_>) -> Named
    ensures { result ≡ spec.named_behind (Some (text_piece_of piece.entry)) }
{
    match piece {
        Piece::Type(name) => named_by(name),
        _ => Named::Nothing,
    }
}

/// The groups that are open behind a piece, and what of the piece is asked.
#[derive(Drop)]
pub(crate) struct Groups<'a> {
    alloc: Global,
    /// Whether the piece is a string.
    is_behind_string: bool,
    /// What a group names that begins here.
    next: Named,
    /// Where the keys of the innermost group begin in the list of all keys.
    keys_from: usize,
    /// What it names: nothing, if it is the text itself.
    named: Named,
    /// What its items are so far.
    shape: Shape,
    /// The groups around it, the innermost last; the first one is the text itself.
    around: Vec<Group>,
    /// The keys of all these groups: the strings of their pairs, and of those that are open, in
    /// order.
    keys: Vec<StringAt<'a>>,
    /// The last string; an empty one before the first.
    last: StringAt<'a>,
}

impl<'a> Groups<'a> {
    /// No piece came.
    pub(crate) fn new(alloc: Global) -> Groups<'a>
        ensures { ShowsNesting result spec.outside }
    {
        Groups {
            alloc,
            is_behind_string: false,
            next: Named::Nothing,
            keys_from: 0,
            named: Named::Nothing,
            shape: Shape::Pairs,
            around: Vec::new(alloc),
            keys: Vec::new(alloc),
            last: StringAt {
                content: b"".as_slice(),
                place: 0,
            },
        }
    }

    /// The keys of the innermost group, whose place is never behind the list.
    fn inner_keys(&self) -> &[StringAt<'a>]
        ensures { result.now ≡ inner_keys self.now }
    {
        &self.keys[self.keys_from.min(self.keys.len())..]
    }

    /// Whether the innermost group has pairs of a string and a group alone, or nothing.
    fn is_paired(&self) -> bool
        ensures { result ≡ is_pairs self.now.shape }
    {
        matches!(self.shape, Shape::Pairs)
    }

    /// Whether the innermost group may be a table: it is no `:array`, and has pairs of a string and
    /// a group, or nothing.
    fn may_be_table(&self) -> bool
        ensures { result ≡ may_be_table self.now }
    {
        !self.named.is_array() && self.is_paired()
    }

    /// Whether the innermost group has pairs, and may be a table.
    fn has_pairs(&self) -> bool
        ensures { result ≡ has_pairs self.now }
    {
        self.may_be_table() && !self.inner_keys().is_empty()
    }

    /// Whether the innermost group has no type, is empty, and is neither the root nor the text.
    fn has_empty_group(&self) -> bool
        ensures { result ≡ has_empty_group self.now }
    {
        self.named.is_nothing()
            && self.is_paired()
            && self.inner_keys().is_empty()
            && 1 < self.around.len()
    }

    /// Adds the warnings of the keys of the innermost group.
    pub(crate) fn tell_keys(&self, found: &mut Vec<Warning>) -> Result<(), AllocError>
        ensures { OnOk result ((g : spec.Nesting) → ShowsNesting self.now g
            → found.new.items ≡ found.old.items ++ of_group g.inner) }
    {
        if self.may_be_table() {
            tell_keys(self.alloc, self.inner_keys(), found)?;
        }
        Ok(())
    }

    /// Adds the warning of a string alone behind pairs, with which the innermost group ends.
    fn tell_lone(&self, found: &mut Vec<Warning>) -> Result<(), AllocError>
        ensures { OnOk result (found.new.items ≡ found.old.items
            ++ (if has_lone self.now then warning_at reason.LoneString self.now.last.place ∷ []
            else [])) }
    {
        let is_due = self.named.is_nothing()
            && matches!(self.shape, Shape::Key)
            && !self.inner_keys().is_empty();
        tell_if(is_due, self.last.place, Reason::LoneString, found)
    }

    /// Adds the warnings of the innermost group, whose `}` stands at a place: of one thing at most.
    fn tell_close(&self, at: usize, found: &mut Vec<Warning>) -> Result<(), AllocError>
        ensures { OnOk result ((g : spec.Nesting) → ShowsNesting self.now g
            → found.new.items ≡ found.old.items ++ of_piece (closing at) g) }
    {
        if !self.is_paired() {
            return self.tell_lone(found);
        }
        if self.inner_keys().is_empty() {
            return tell_if(self.has_empty_group(), at, Reason::EmptyGroup, found);
        }
        self.tell_keys(found)
    }

    /// Adds the warnings of a piece that comes.
    #[inline(always)]
    pub(crate) fn tell(&self, piece: Piece<'a>, found: &mut Vec<Warning>) -> Result<(), AllocError>
        ensures { OnOk result ((g : spec.Nesting) → ShowsNesting self.now g
            → found.new.items ≡ found.old.items ++ of_piece (text_piece_of piece.entry) g) }
    {
        match piece {
            Piece::Close(at) => self.tell_close(at, found),
            Piece::Comma(at) => tell_if(self.has_pairs(), at, Reason::CommaBehindPairs, found),
            Piece::String(string) => {
                let is_due = self.is_behind_string;
                tell_if(is_due, string.place, Reason::StringsInRow, found)?;
                tell_number(string, self.named, found)
            }
            _ => Ok(()),
        }
    }

    /// Goes on behind a piece.
    #[inline(always)]
    pub(crate) fn take(&mut self, piece: Piece<'a>) -> Result<(), AllocError>
        ensures { OnOk result ((g : spec.Nesting) → ShowsNesting self.old g
            → ShowsNesting self.new (behind_piece (text_piece_of piece.entry) g)) }
    {
        self.pass(piece)?;
        self.next = named_behind(piece);
        self.is_behind_string = matches!(piece, Piece::String(_));
        Ok(())
    }

    /// Goes on to the groups that are open behind a piece.
    #[inline(always)]
    fn pass(&mut self, piece: Piece<'a>) -> Result<(), AllocError>
        ensures { OnOk result ((g : spec.Nesting) → ShowsNesting self.old g
            → ShowsOpen self.new (behind_piece (text_piece_of piece.entry) g)) }
    {
        match piece {
            Piece::String(string) => self.string(string),
            Piece::Comma(_) => self.shape = Shape::Other,
            Piece::Open => return self.open(),
            Piece::Close(_) => self.close(),
            Piece::Type(_) => {}
        }
        Ok(())
    }

    /// A string comes.
    fn string(&mut self, string: StringAt<'a>)
        ensures { (g : spec.Nesting) → ShowsNesting self.old g
            → ShowsOpen self.new (behind_piece (a_string (placed_text_of string.entry)) g) }
    {
        self.last = string;
        self.shape = match self.shape {
            Shape::Pairs => Shape::Key,
            _ => Shape::Other,
        };
    }

    /// A group begins.
    fn open(&mut self) -> Result<(), AllocError>
        ensures { OnOk result ((g : spec.Nesting) → ShowsNesting self.old g
            → ShowsOpen self.new (behind_piece opening g)) }
    {
        let mut shape = Shape::Other;
        if let Shape::Key = self.shape {
            self.keys.push(self.last)?;
            shape = Shape::Pairs;
        }
        self.around.push(Group {
            named: self.named,
            shape,
            keys_from: self.keys_from,
        })?;
        self.named = self.next;
        self.shape = Shape::Pairs;
        self.keys_from = self.keys.len();
        Ok(())
    }

    /// The innermost group ends. Outside of all groups a `}` changes nothing.
    fn close(&mut self)
        ensures { (n : ℕ) (g : spec.Nesting) → ShowsNesting self.old g
            → ShowsOpen self.new (behind_piece (closing n) g) }
    {
        let Some(outer) = self.around.pop() else {
            return;
        };
        self.keys.truncate(self.keys_from);
        self.named = outer.named;
        self.shape = outer.shape;
        self.keys_from = outer.keys_from;
    }
}
