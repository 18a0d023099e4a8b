//! How many bytes of keys and binaries something has, which its tree isn't counted for, and so how
//! many its text and its JSON have at least, told without making them.
//! What they are is in `resb_lines` and `resb_json`.
use resb_shown::{Node, Shown};
use std::alloc::{AllocError, Global};

/// What is inside a collection and is still to be looked at.
#[derive(Drop)]
enum Inside<M, E> {
    Members(M),
    Entries(E),
}

/// How many bytes the keys of something have, and its binaries: each at each place where it stands.
#[derive(Clone, Copy)]
pub(crate) struct Uncounted {
    keys: u64,
    pub(crate) binaries: u64,
}

impl Uncounted {
    /// How many its text and its JSON have at least: two for each byte of a binary.
    pub(crate) fn least(self) -> u64 {
        self.keys.saturating_add(self.binaries.saturating_mul(2))
    }

    fn add_key(&mut self, key: &str) {
        self.keys = self.keys.saturating_add(key.len() as u64);
    }

    fn add_binary(&mut self, bytes: &[u8]) {
        self.binaries = self.binaries.saturating_add(bytes.len() as u64);
    }
}

/// The bytes of the keys and the binaries of what is shown.
pub(crate) fn uncounted_in<'s, S: Shown<'s>>(
    alloc: Global,
    root: S,
) -> Result<Uncounted, AllocError> {
    let mut pending = Vec::new(alloc);
    let mut sum = Uncounted {
        keys: 0,
        binaries: 0,
    };
    enter(&mut pending, &mut sum, root)?;
    for _ in 0..u64::MAX {
        let Some(inside) = pending.pop() else {
            return Ok(sum);
        };
        look_once::<S>(&mut pending, &mut sum, inside)?;
    }
    Ok(sum)
}

/// Looks at the next of what is inside a collection, and puts what it leaves.
fn look_once<'s, S: Shown<'s>>(
    pending: &mut Vec<Inside<S::Members, S::Entries>>,
    sum: &mut Uncounted,
    inside: Inside<S::Members, S::Entries>,
) -> Result<(), AllocError> {
    match inside {
        Inside::Members(mut ahead) => {
            let Some(member) = S::next_member(&mut ahead) else {
                return Ok(());
            };
            pending.push(Inside::Members(ahead))?;
            enter(pending, sum, member)
        }
        Inside::Entries(mut ahead) => {
            let Some(next) = S::next_entry(&mut ahead) else {
                return Ok(());
            };
            let (key, value) = next;
            pending.push(Inside::Entries(ahead))?;
            sum.add_key(key);
            enter(pending, sum, value)
        }
    }
}

/// Puts what is inside a resource, or adds the bytes of a binary.
fn enter<'s, S: Shown<'s>>(
    pending: &mut Vec<Inside<S::Members, S::Entries>>,
    sum: &mut Uncounted,
    shown: S,
) -> Result<(), AllocError> {
    match shown.node() {
        Node::Array(members) => pending.push(Inside::Members(members))?,
        Node::Table(entries) => pending.push(Inside::Entries(entries))?,
        Node::Binary(bytes) => sum.add_binary(bytes),
        Node::String | Node::Alias | Node::Integer(_) | Node::IntVector => {}
    }
    Ok(())
}
