//! The sums of a file's tree, as the caller in C gets them.
//! How they are found is in `files`.
ghost use Rattle.std.specs.Prelude.{◌≡◌};
ghost use Rattle.resb_c.specs.Measures.{ShowsSums, shown_sum};

use crate::fault::Fault;
use resb_read::Measured;

/// What a file's tree adds up to. A sum that doesn't fit in 64 bits is the greatest number that
/// does.
#[derive(Clone, Copy)]
#[repr(C)]
pub struct ResbMeasured {
    /// The resources, the root included.
    pub resources: usize,
    /// The tables that have entries.
    pub tables: u64,
    /// The entries of all tables.
    pub entries: u64,
    /// The bytes of the entries' keys.
    pub key_bytes: u64,
    /// The UTF-8 bytes of the strings.
    pub text_bytes: u64,
    /// The bytes of the binaries.
    pub binary_bytes: u64,
    /// The numbers of the vectors.
    pub numbers: u64,
    /// The bytes that the tree takes in memory, as `Measured::tree_bytes` counts them.
    pub tree_bytes: u64,
}

/// A sum, or the greatest number where it doesn't fit.
fn sum_or_most(sum: Option<u64>) -> u64
    ensures { result ≡ shown_sum sum }
{
    sum.unwrap_or(u64::MAX)
}

impl ResbMeasured {
    /// The numbers of an answer; each is 0 where there is none.
    pub(crate) fn of(answer: &Result<Measured, Fault>) -> ResbMeasured
        ensures { ShowsSums answer.now result }
    {
        match answer {
            Ok(measured) => ResbMeasured {
                resources: measured.resources,
                tables: sum_or_most(measured.sums.tables),
                entries: sum_or_most(measured.sums.entries),
                key_bytes: sum_or_most(measured.sums.key_bytes),
                text_bytes: sum_or_most(measured.sums.text_bytes),
                binary_bytes: sum_or_most(measured.sums.binary_bytes),
                numbers: sum_or_most(measured.sums.numbers),
                tree_bytes: sum_or_most(measured.tree_bytes()),
            },
            Err(_) => ResbMeasured {
                resources: 0,
                tables: 0,
                entries: 0,
                key_bytes: 0,
                text_bytes: 0,
                binary_bytes: 0,
                numbers: 0,
                tree_bytes: 0,
            },
        }
    }
}
