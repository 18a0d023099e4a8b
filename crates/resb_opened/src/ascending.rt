//! A resource of an opened file whose tables' keys all ascend.
//! How it is shown is said in `shown`.
ghost use Rattle.std.specs.Prelude.{◌≡◌, true};

use crate::handle::Handle;

/// A resource of a file in which the keys of each table ascend, so that a table's entries stand in
/// the file as they stand in its tree.
#[derive(Clone, Copy)]
pub struct Ascending<'a> {
    pub(crate) handle: Handle<'a>,
    pub ghost ascends: { handle.file.now.ascends ≡ true },
}

impl<'a> Ascending<'a> {
    ghost use Rattle.std.specs.Prelude.{◌≡◌, MatchOption, false};
    ghost use Rattle.resb_opened.specs.Handles.{tree_at};
    ghost use Rattle.resb_opened.specs.Shown.{shown_tree};

    /// The resource, if the keys of each table of its file were found to ascend.
    pub fn of(handle: Handle<'a>) -> Option<Ascending<'a>>
        ensures { MatchOption result (handle.entry.file.now.ascends ≡ false)
            (λ a. shown_tree a ≡ tree_at handle.entry) }
    {
        if handle.file.ascends {
            Some(Ascending { handle })
        } else {
            None
        }
    }
}
