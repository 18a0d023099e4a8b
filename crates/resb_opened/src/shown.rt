//! An opened file as it is shown, without a tree of it. What is shown is said in `resb_shown`.
ghost use Rattle.resb_format.specs.Bytes.{words_of};
ghost use Rattle.resb_shown.specs.Shown.{AreWords};
ghost use Rattle.resb_opened.specs.Shown.{shown_tree, members_ahead, entries_ahead};

use crate::ahead::{EntriesAhead, MembersAhead};
use crate::ascending::Ascending;
use crate::handle::Handle;
use resb_shown::{Node, Shown};
use resb_tree::Int28;
use resb_walk::{Leaf, Standing, key_at};
use std::alloc::AllocError;

/// The words of bytes are numbers of 32 bits.
fn spell_words(_bytes: &[u8])
    ensures { AreWords (words_of _bytes.now) }
{}

impl<'a> Shown<'a> for Ascending<'a> {
    type Members = MembersAhead<'a>;

    type Entries = EntriesAhead<'a>;

    ghost tree = { shown_tree };

    ghost members = { members_ahead };

    ghost entries = { entries_ahead };

    fn node(self) -> Node<'a, MembersAhead<'a>, EntriesAhead<'a>> {
        if self.handle.is_typed_string() {
            return Node::String;
        }
        let file = self.handle.file;
        match self.handle.standing() {
            Standing::Leaf(Leaf::Text(_) | Leaf::Empty) => Node::String,
            Standing::Leaf(Leaf::Alias(_)) => Node::Alias,
            Standing::Leaf(Leaf::Binary(bytes)) => Node::Binary(bytes),
            Standing::Leaf(Leaf::Integer(word)) => Node::Integer(Int28::from(word)),
            Standing::Leaf(Leaf::Numbers(bytes)) => {
                spell_words(bytes);
                Node::IntVector
            }
            Standing::List(rest) => Node::Array(MembersAhead::at(file, rest)),
            Standing::Table(rest) => Node::Table(EntriesAhead::at(file, rest)),
        }
    }

    fn text(self) -> Option<&'a str> {
        None
    }

    fn push_text(self, text: &mut String) -> Result<(), AllocError> {
        match self.handle.push_text(text) {
            Ok(()) => Ok(()),
            Err(_) => Err(AllocError),
        }
    }

    fn has_ascii(self, character: u8) -> bool {
        self.handle.has_ascii(character)
    }

    fn number(self, at: usize) -> Option<u32> {
        self.handle.number(at)
    }

    fn next_member(ahead: &mut MembersAhead<'a>) -> Option<Ascending<'a>> {
        let file = ahead.file;
        let (member, rest) = ahead.rest.split()?;
        *ahead = MembersAhead::at(file, rest);
        Some(Ascending {
            handle: Handle::at(file, member),
        })
    }

    fn next_entry(ahead: &mut EntriesAhead<'a>) -> Option<(&'a str, Ascending<'a>)> {
        let file = ahead.file;
        let (position, member, rest) = ahead.rest.split()?;
        let Ok(key) = key_at(file.parts, position) else {
            unreachable!()
        };
        *ahead = EntriesAhead::at(file, rest);
        Some((
            key,
            Ascending {
                handle: Handle::at(file, member),
            },
        ))
    }
}
