//! The keys of a text in order of place, each at its first place alone.
//! Where keys stand in a text is read in the crates above.
ghost use Rattle.std.specs.Prelude.{◌≡◌, nat_eq, [], IfOk, OnOk, IsTrue};
ghost use Rattle.std.specs.Cmp.Lexicographic.{pointwise};
ghost use Rattle.indexmap.specs.IndexSet.{insert_key};
ghost use Rattle.resb_grammar.specs.KeyLists.{listed_keys};

use indexmap::IndexSet;
use resb_tree::{Key, NoMemory};
use std::alloc::Global;

/// Keys in the order in which each was first listed.
#[derive(Drop)]
pub struct KeyList<'a> {
    pub(crate) seen: IndexSet<Key<'a>>,
    /// The place of the key that followed each one when it was last listed.
    followers: Vec<usize>,
    /// The place of the key that was listed last.
    last: usize,
}

impl<'a> KeyList<'a> {
    /// A list without keys.
    pub fn new(alloc: Global) -> KeyList<'a>
        ensures { listed_keys result ≡ [] }
    {
        KeyList {
            seen: IndexSet::new(alloc),
            followers: Vec::new(alloc),
            last: 0,
        }
    }

    /// Lists the key, unless an equal one is listed already. Keys often follow one another as they
    /// did before, since tables of one kind have the same keys: that saves most look-ups.
    pub fn list(&mut self, text: &'a str) -> Result<(), NoMemory>
        ensures { OnOk result (listed_keys self.new
            ≡ insert_key (pointwise nat_eq) (listed_keys self.old) text.now) }
    {
        let guess = self.followers.get(self.last).copied().unwrap_or(0);
        if self.is_at(guess, text) {
            self.last = guess;
            return Ok(());
        }
        let (place, _) = self.seen.insert_full(Key::from(text))?;
        self.note(place)
    }

    /// Whether the key stands at that place.
    fn is_at(&self, place: usize, text: &str) -> bool
        ensures { IsTrue result → insert_key (pointwise nat_eq) (listed_keys self.now) text.now
            ≡ listed_keys self.now }
    {
        match self.seen.get_index(place) {
            Some(key) => key.as_str() == text,
            None => false,
        }
    }

    /// Notes that the key of this place follows the one that was listed last.
    fn note(&mut self, place: usize) -> Result<(), NoMemory>
        ensures { listed_keys self.new ≡ listed_keys self.old }
    {
        if place >= self.followers.len() {
            self.followers.push(0)?;
        }
        if self.last < self.followers.len() {
            self.followers[self.last] = place;
        }
        self.last = place;
        Ok(())
    }

    /// The listed keys.
    pub fn into_keys(self, alloc: Global) -> Result<Vec<Key<'a>>, NoMemory>
        ensures { IfOk result (λ v. v.items ≡ listed_keys self.entry) }
    {
        let keys = self.seen.into_iter().collect(alloc)?;
        Ok(keys)
    }
}
