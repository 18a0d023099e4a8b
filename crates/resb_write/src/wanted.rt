//! What is wanted of a file, beside its tree.
//! How it is written is said in `serializer` and `with_pool`.
use crate::layout::Layout;
use resb_tree::Key;

/// What is wanted of a file, beside its tree.
#[derive(Clone, Copy)]
pub(crate) struct Wanted<'w, 'f> {
    pub(crate) layout: Layout<'w, 'f>,
    pub(crate) is_locale_fallback_enabled: bool,
    /// The keys in the order in which the file's own stand.
    pub(crate) list: &'w [Key<'w>],
}
