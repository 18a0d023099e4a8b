//! The head of a file in either order: that it is a bundle's, and where its body begins.
//! What the body holds is found in `walk`.
ghost use Rattle.std.specs.Prelude.{◌≡◌, ◌<◌, ◌≤◌, length, slice_index, true, None, MatchResult};
ghost use Rattle.resb_head.specs.HeadChecks.{header_refusal};
ghost use Rattle.resb_swap.specs.Numbers.{header_size, numbered, is_big};
ghost use Rattle.resb_swap.specs.Swapped.{IsSwappable, is_first_version};
ghost use Rattle.resb_swap.specs.Faults.{IsFault};
ghost use Rattle.resb_swap.specs.Inner.Seen.{seen};

use crate::body::Body;
use crate::error::SwapError;
use crate::front::is_indexed;
use resb_format::bytes::byte_at;
use resb_head::BinHeader;

/// Whether a file is of version 1.0.
fn is_first_version(bytes: &[u8]) -> bool
    requires { 24 ≤ length bytes.now }
    ensures { result ≡ is_first_version bytes.now }
{
    byte_at(bytes, 16) == 1 && byte_at(bytes, 17) == 0
}

/// The size of a file's header.
pub(crate) fn header_size(bytes: &[u8]) -> usize
    requires { 24 ≤ length bytes.now }
    ensures { result ≡ header_size bytes.now }
{
    let size = [byte_at(bytes, 0), byte_at(bytes, 1)];
    if byte_at(bytes, 8) == 1 {
        usize::from(u16::from_be_bytes(size))
    } else {
        usize::from(u16::from_le_bytes(size))
    }
}

/// Checks the header, in either order of bytes.
fn check_header(bytes: &[u8]) -> Result<(), SwapError>
    ensures { MatchResult result (λ _. header_refusal true bytes.now ≡ None) (IsFault bytes.now) }
{
    match BinHeader::read_any_order(bytes) {
        Ok(_) => Ok(()),
        Err(error) => Err(SwapError::Header(error)),
    }
}

/// The body of a file whose head passes its checks: header, characters, version, index.
pub(crate) fn read_head(bytes: &[u8]) -> Result<Body<'_>, SwapError>
    ensures { MatchResult result
        (λ b. IsSwappable bytes.now × (seen b ≡ numbered bytes.now))
        (IsFault bytes.now) }
{
    check_header(bytes)?;
    if byte_at(bytes, 9) != 0 {
        return Err(SwapError::Ebcdic);
    }
    if byte_at(bytes, 10) != 2 {
        return Err(SwapError::OtherCharacters);
    }
    if is_first_version(bytes) {
        return Err(SwapError::FirstVersion);
    }
    let start = header_size(bytes);
    if start > bytes.len() {
        return Err(SwapError::NoIndex);
    }
    let is_big = byte_at(bytes, 8) == 1;
    let body = Body {
        bytes,
        start,
        is_big,
    };
    if !is_indexed(body) {
        return Err(SwapError::NoIndex);
    }
    Ok(body)
}
