//! The names of a path, as the caller in C writes it.
//! Where they lead in a file is found in `resb_path`.
ghost use Rattle.std.specs.Prelude.{◌≡◌, IfOk, map};
ghost use Rattle.resb_c.specs.Paths as paths;
ghost use Rattle.resb_c.specs.Paths.{names_in};

use std::alloc::{AllocError, Global};

/// Whether a character of one byte, with which a path begins, parts it: one that is no letter and
/// no digit, nor `%` or `_`, with which keys begin too.
fn is_separator(byte: u8) -> bool
    ensures { result ≡ paths.is_separator byte }
{
    byte < 0x80 && !byte.is_ascii_alphanumeric() && byte != b'%' && byte != b'_'
}

/// The names of a path: what stands between its first character, if that parts it, and the same
/// again, else between slashes.
pub(crate) fn names_of(alloc: Global, path: &str) -> Result<Vec<&str>, AllocError>
    ensures { IfOk result (λ v. map (λ name. name.now) v.items ≡ names_in path.now) }
{
    if path.is_empty() {
        return Ok(Vec::new(alloc));
    }
    let separator = path.as_bytes()[0];
    if !is_separator(separator) {
        return path.split('/').collect(alloc);
    }
    let (_, rest) = path.split_at(1);
    rest.split(char::from(separator)).collect(alloc)
}
