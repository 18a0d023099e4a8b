//! What a text is taken in as, and where its places stood before.
//! How it is made is said in `making`.
ghost use Rattle.std.specs.Prelude.{◌≡◌};
ghost use Rattle.std.specs.String.{string_bytes};
ghost use Rattle.resb_icu_files.specs.Places as spec;

use crate::file::FileNamed;

/// What was written anew: from a place of the old text up to another, and the places between which
/// that stands in the new one, all in bytes.
#[derive(Clone, Copy, Debug, PartialEq, Eq)]
pub struct Change {
    /// Where it begins in the old text.
    pub from: usize,
    /// Where it ends there.
    pub to: usize,
    /// Where it begins in the new text.
    pub new_from: usize,
    /// Where it ends there.
    pub new_to: usize,
}

impl Change {
    /// Where a place of the new text stands in the old one, given where it does by the changes
    /// before this one.
    fn place_by(&self, place: usize, before: usize) -> usize
        ensures { result ≡ spec.place_by place before self.now }
    {
        if place < self.new_from {
            before
        } else if place < self.new_to {
            self.from
        } else {
            self.to.saturating_add(place - self.new_to)
        }
    }
}

/// A text of ICU's form with the files that its groups name written into it.
#[derive(Drop)]
pub struct TakenIn {
    pub(crate) text: String,
    pub(crate) dependencies: Vec<FileNamed>,
    pub(crate) changes: Vec<Change>,
}

impl TakenIn {
    /// The new text.
    pub fn text(&self) -> &str
        ensures { result.now ≡ string_bytes self.now.text }
    {
        self.text.as_str()
    }

    /// The files that the text names as dependencies, in order of place.
    pub fn dependencies(&self) -> &[FileNamed]
        ensures { result.now ≡ self.now.dependencies.items }
    {
        self.dependencies.as_slice()
    }

    /// What was written anew, in order of place.
    pub fn changes(&self) -> &[Change]
        ensures { result.now ≡ self.now.changes.items }
    {
        self.changes.as_slice()
    }

    /// Where a place of the new text stood in the old one. Within what was written for a group it
    /// is the place of the group.
    pub fn place_before(&self, place: usize) -> usize
        ensures { result ≡ spec.place_before self.now.changes.items place }
    {
        let mut before = place;
        for change in self.changes.as_slice() {
            before = change.place_by(place, before);
        }
        before
    }
}
