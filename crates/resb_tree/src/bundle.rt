//! Bundles: a name, a root and the flag of locale fallback.
//! The tree below the root is in `resource`.
ghost use Rattle.std.specs.Prelude.{◌≡◌};
ghost use Rattle.std.specs.Cow.{cow_str_bytes};

use crate::resource::Resource;
use std::borrow::CowStr;

/// A resource bundle.
#[derive(Drop)]
pub struct ResourceBundle<'a> {
    name: CowStr<'a>,
    root: Resource<'a>,
    /// Whether a look-up may go on in the parent locale's bundle.
    pub is_locale_fallback_enabled: bool,
}

impl<'a> ResourceBundle<'a> {
    ghost use Rattle.resb_tree.specs.Bundle.{name_of, root_of, name_part, root_part};
    ghost use Rattle.resb_tree.specs.View.{tree_of};

    /// A bundle of this name, root and flag.
    pub fn new(
        name: CowStr<'a>,
        root: Resource<'a>,
        is_locale_fallback_enabled: bool,
    ) -> ResourceBundle<'a>
        ensures name { name_of result ≡ cow_str_bytes name.entry }
        ensures root { root_of result ≡ tree_of root.entry }
        ensures name_part { name_part result ≡ name.entry }
        ensures root_part { root_part result ≡ root.entry }
        ensures fallback { result.is_locale_fallback_enabled ≡ is_locale_fallback_enabled }
    {
        ResourceBundle {
            name,
            root,
            is_locale_fallback_enabled,
        }
    }

    /// The name, which a text gives before its root and a file does not hold.
    pub fn name(&self) -> &str
        ensures { result.now ≡ name_of self.now }
    {
        self.name.as_str()
    }

    /// The resource at the root.
    pub fn root(&self) -> &Resource<'a>
        ensures tree { tree_of result.now ≡ root_of self.now }
        ensures part { result.now ≡ root_part self.now }
    {
        &self.root
    }
}
