//! What is known of a file whose pool bundle isn't there: what its head tells, as comments of a
//! text. Without the pool's keys and strings the file has no tree.
use crate::check::spelled;
use crate::save::Content;
use resb_pool_bundle::{FileHead, PoolBundle};
use std::alloc::Global;
use std::io::{self, Write};

/// What the line says that comes first.
const NO_TREE: &str = "// This file's keys and strings are in a pool bundle that is not here.\n";

/// Where the checksum of the pool bundle stands behind a file's header, in bytes: it is the eighth
/// word of the index, which begins behind the root's word. (ICU's `uresdata.h`.)
const CHECKSUM: usize = 32;

/// What the head of a file tells, and how many bytes the file has.
#[derive(Clone, Copy)]
pub(crate) struct Note<'f> {
    head: FileHead<'f>,
    bytes: usize,
    checksum: u32,
    contents: u64,
}

impl<'f> Note<'f> {
    /// The note of a file that uses a pool bundle, where none or another is given.
    pub(crate) fn of(file: &'f [u8], pool: Option<PoolBundle<'f>>) -> Option<Note<'f>> {
        let head = FileHead::read(file).ok()?;
        if !head.uses_pool() || head.beside(pool).is_ok() {
            return None;
        }
        Some(Note {
            head,
            bytes: file.len(),
            checksum: checksum_of(file)?,
            contents: fingerprint_of(file),
        })
    }
}

/// A number that two files with other bytes hardly share: their FNV-1a hash of 64 bits.
fn fingerprint_of(file: &[u8]) -> u64 {
    let mut hash = 0xcbf2_9ce4_8422_2325u64;
    for byte in file {
        hash = (hash ^ u64::from(*byte)).wrapping_mul(0x0000_0100_0000_01b3);
    }
    hash
}

/// The checksum that a file says its pool bundle has.
fn checksum_of(file: &[u8]) -> Option<u32> {
    let (header, _) = file.split_first_chunk::<2>()?;
    let from = usize::from(u16::from_le_bytes(*header)).saturating_add(CHECKSUM);
    let (word, _) = file.get(from..)?.split_first_chunk::<4>()?;
    Some(u32::from_le_bytes(*word))
}

impl Content for Note<'_> {
    fn write_to<W: Write>(&self, alloc: Global, out: &mut W) -> io::Result<()> {
        let (head, bytes, checksum) = (&self.head, self.bytes, self.checksum);
        let contents = self.contents;
        let (version, largest) = (spelled(head.version()), head.largest_table());
        let fallback = if head.has_fallback() {
            "fallback"
        } else {
            "no fallback"
        };
        let mut text = String::from_str(alloc, NO_TREE)?;
        write!(
            text,
            "// format {version}, {fallback}, largest table {largest}, {bytes} bytes, contents "
        )?;
        write!(text, "{contents:016x}\n")?;
        write!(text, "// the pool bundle's checksum: {checksum:08x}\n")?;
        out.write_all(text.as_str().as_bytes())
    }
}
