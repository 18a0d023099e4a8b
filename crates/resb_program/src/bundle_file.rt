//! A file that was opened, with its head.
//! How it is opened, and what is had of it, is in `files`.
ghost use Rattle.std.specs.Prelude.{◌≡◌};
ghost use Rattle.resb_pool_bundle.specs.Heads.{head_bytes};

use resb_pool_bundle::FileHead;
use resb_read::File;

/// A file that was opened beside the pool bundle that it uses, if it uses one, and its head.
#[derive(Clone, Copy)]
pub struct BundleFile<'a> {
    /// What the file says of itself.
    pub head: FileHead<'a>,
    /// What is read of it.
    pub file: File<'a>,
    pub ghost same: { head_bytes head ≡ file.bytes.now },
}
