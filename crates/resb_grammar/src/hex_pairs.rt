//! The bytes that a text's hex digits say.
//! Where such digits stand in a text is read in the crates above.
ghost use Rattle.std.specs.Prelude.{◌≡◌, ◌↔◌, IsTrue, Some, None, IfOk, IfSome, IfNone};
ghost use Rattle.resb_grammar.specs.Group.{hex_bytes};

use hex::FromHexError;
use resb_tree::NoMemory;
use std::alloc::Global;

/// The bytes that pairs of hex digits say, two digits for a byte; `None` where the text is no such
/// pairs. Refused is want of memory alone.
pub fn bytes_of_hex(alloc: Global, digits: &str) -> Result<Option<Vec<u8>>, NoMemory>
    ensures found { IfOk result (λ o. IfSome o (λ bytes.
        hex_bytes digits.now ≡ Some bytes.items)) }
    ensures none { IfOk result (λ o. IfNone o (hex_bytes digits.now ≡ None)) }
{
    match hex::decode(alloc, digits) {
        Ok(bytes) => Ok(Some(bytes)),
        Err(error) => {
            if is_memory(error) {
                return Err(NoMemory);
            }
            Ok(None)
        }
    }
}

/// Whether memory was wanted, and not digits.
fn is_memory(error: FromHexError) -> bool
    ensures { IsTrue result ↔ (error ≡ FromHexError.OutOfMemory) }
{
    match error {
        FromHexError::OutOfMemory => true,
        _ => false,
    }
}
