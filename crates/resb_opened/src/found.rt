//! What stands at a path of names and numbers.
//! What a number says is found in `resb_path`, what is inside one resource in `inside`.

use crate::handle::Handle;
use resb_format::bytes::some_word;
use resb_path::number_of;
use resb_walk::{Leaf, Standing};

/// What stands at a path.
#[derive(Clone, Copy)]
pub enum Found<'a> {
    /// A resource.
    Resource(Handle<'a>),
    /// A number of a vector.
    Number(u32),
}

impl<'a> Found<'a> {
    ghost use Rattle.std.specs.Prelude.{◌≡◌, option_map};
    ghost use Rattle.resb_path.specs.Finding.{found_inside};
    ghost use Rattle.resb_opened.specs.Paths.{spot_of};

    /// What stands inside under one name: in a table at a key, in an array or a vector at a number.
    pub fn inside(self, name: &str) -> Option<Found<'a>>
        ensures { option_map spot_of result ≡ found_inside (spot_of self.entry) name.now }
    {
        let Found::Resource(handle) = self else {
            return None;
        };
        match handle.standing() {
            Standing::Table(_) => Some(Found::Resource(handle.named(name)?)),
            Standing::List(_) => Some(Found::Resource(handle.member(number_of(name)?)?)),
            Standing::Leaf(Leaf::Numbers(words)) => {
                Some(Found::Number(some_word(words, number_of(name)?)?))
            }
            Standing::Leaf(_) => None,
        }
    }
}

impl<'a> Handle<'a> {
    ghost use Rattle.std.specs.Prelude.{◌≡◌, map, option_map};
    ghost use Rattle.resb_path.specs.Finding.{found_at, tree_spot};
    ghost use Rattle.resb_opened.specs.Handles.{tree_at};
    ghost use Rattle.resb_opened.specs.Paths.{spot_of};

    /// What stands at a path from here on, if anything does. Names go into tables, and numbers from
    /// 0 into arrays and vectors. Where the keys of all of the file's tables ascend, as they do in
    /// files of ICU and of `resb`, a table is halved for each name; else each of its entries may be
    /// asked, with the same answer.
    pub fn get(self, path: &[&str]) -> Option<Found<'a>>
        ensures { option_map spot_of result
            ≡ found_at (tree_spot (tree_at self.entry)) (map (λ name. name.now) path.now) }
    {
        let mut found = Found::Resource(self);
        for name in path {
            found = found.inside(name)?;
        }
        Some(found)
    }
}
