//! A tree as it is shown: a handle is a reference to a resource.
//! What is shown is said in `shown`.
ghost use Rattle.std.specs.Slice.Iter.{iter_rest};
ghost use Rattle.resb_tree.specs.View.{tree_of, items_view, entries_view};
ghost use Rattle.resb_shown.specs.Shown.{AreWords};

use crate::node::Node;
use crate::shown::Shown;
use resb_tree::{Key, Resource};
use std::alloc::AllocError;
use std::collections::btree_map;
use std::slice;

/// Numbers are of 32 bits, as their type says.
fn are_words(_numbers: &[u32])
    ensures { AreWords _numbers.now }
{}

impl<'t, 'a> Shown<'t> for &'t Resource<'a> {
    type Members = slice::Iter<'t, Resource<'a>>;

    type Entries = btree_map::Iter<'t, Key<'a>, Resource<'a>>;

    ghost tree = { λ r. tree_of r.now };

    ghost members = { λ m. items_view (iter_rest m) };

    ghost entries = { λ e. entries_view e };

    fn node(
        self,
    ) -> Node<'t, slice::Iter<'t, Resource<'a>>, btree_map::Iter<'t, Key<'a>, Resource<'a>>> {
        match self {
            Resource::String(_) => Node::String,
            Resource::Alias(_) => Node::Alias,
            Resource::Array(members) => Node::Array(members.iter()),
            Resource::Table(table) => Node::Table(table.iter()),
            Resource::Binary(bytes) => Node::Binary(bytes.as_slice()),
            Resource::Integer(number) => Node::Integer(*number),
            Resource::IntVector(numbers) => {
                are_words(numbers);
                Node::IntVector
            }
        }
    }

    fn text(self) -> Option<&'t str> {
        match self {
            Resource::String(own) | Resource::Alias(own) => Some(own.as_str()),
            _ => None,
        }
    }

    fn push_text(self, text: &mut String) -> Result<(), AllocError> {
        match self {
            Resource::String(own) | Resource::Alias(own) => text.push_str(own.as_str()),
            _ => Ok(()),
        }
    }

    fn has_ascii(self, character: u8) -> bool {
        match self {
            Resource::String(own) | Resource::Alias(own) => {
                own.as_str().as_bytes().contains(&character)
            }
            _ => false,
        }
    }

    fn number(self, at: usize) -> Option<u32> {
        match self {
            Resource::IntVector(numbers) => numbers.get(at).copied(),
            _ => None,
        }
    }

    fn next_member(ahead: &mut slice::Iter<'t, Resource<'a>>) -> Option<&'t Resource<'a>> {
        ahead.next()
    }

    fn next_entry(
        ahead: &mut btree_map::Iter<'t, Key<'a>, Resource<'a>>,
    ) -> Option<(&'t str, &'t Resource<'a>)> {
        let (key, resource) = ahead.next()?;
        Some((key.as_str(), resource))
    }
}
