//! The numbers that names of a path say.
//! What stands at them is found in `tree` and `file`.
ghost use Rattle.std.specs.Prelude.{◌≡◌};
ghost use Rattle.resb_path.specs.Finding as finding;
ghost use Rattle.resb_path.specs.Finding.{number_said};

/// Whether a sign stands first, or a zero before more.
fn is_adorned(name: &[u8]) -> bool
    ensures { result ≡ finding.is_adorned name.now }
{
    !name.is_empty() && (name[0] == b'+' || (name[0] == b'0' && name.len() > 1))
}

/// The number that decimal digits say, without a sign and without a zero before other digits.
pub fn number_of(name: &str) -> Option<usize>
    ensures { result ≡ number_said name.now }
{
    if is_adorned(name.as_bytes()) {
        return None;
    }
    match name.parse::<usize>() {
        Ok(number) => Some(number),
        Err(_) => None,
    }
}
