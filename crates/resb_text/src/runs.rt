//! Where a run of word characters ends among bytes. Where one of blanks or of digits does, and
//! where a byte stands that is near, is found in `resb_grammar`; what is counted for a run is in
//! `scan`, what stands behind it in `tokens`.
ghost use Rattle.std.specs.Prelude.{◌≤◌, length};
ghost use Rattle.resb_grammar.specs.ByteRuns as spec;
ghost use Rattle.resb_grammar.specs.ByteRuns.{Run};

use resb_grammar::is_word;

/// Where the run of word characters ends.
pub(crate) fn word_end(bytes: &[u8], from: usize) -> usize
    requires { from ≤ length bytes.now }
    ensures { Run spec.is_word bytes.now from result }
{
    let end = bytes.len();
    for at in from..end {
        if !is_word(bytes[at]) {
            return at;
        }
    }
    end
}
