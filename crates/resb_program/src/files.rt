//! What is had of a file, alone or beside its pool bundle: what it says of itself, how many
//! resources, the bundle, or the file as it is. What the file's head says is in `resb_pool_bundle`.
ghost use Rattle.std.specs.Prelude.{◌≡◌, IfOk, IfErr, IfSome, OnOk};
ghost use Rattle.std.specs.Prelude.{option_map, Ok, Some};
ghost use Rattle.resb_pool_bundle.specs.Heads.{head_bytes};
ghost use Rattle.resb_pool_bundle.specs.Pool.{pool_in};
ghost use Rattle.resb_read.specs.Files.{whole_in};
ghost use Rattle.resb_read.specs.Roots.{AnswersCountOf, AnswersTreeOf, alone};
ghost use Rattle.resb_opened.specs.Opening.{Opens};
ghost use Rattle.resb_program.specs.Program.{CountsFile, ReadsCounted, Agrees, HasCount};
ghost use Rattle.resb_program.specs.Program.{IsCounted};
ghost use Rattle.resb_program.specs.Files.{LacksHead, LacksPool, OpensBeside};
ghost use Rattle.resb_program.specs.Files.{IsBundleOf, FitsIn, RefusesSize};

use crate::bundle_file::BundleFile;
use crate::errors::{FileError, ToolError};
use resb_format::BinaryDeserializerError;
use resb_opened::Opened;
use resb_pool_bundle::{FileHead, PoolBundle};
use resb_read::File;
use resb_tree::ResourceBundle;
use std::alloc::Global;
use std::borrow::CowStr;

/// The most bytes of the keys of all entries, where no limit is said: where a tree is made, each of
/// them may be compared, and in a hostile file, where keys share their bytes, there are as many as
/// the square of its length.
const MOST_KEY_BYTES: u64 = 1 << 28;

/// The number of resources of a file's tree, if it is read alone.
fn count_alone(alloc: Global, bytes: &[u8]) -> Result<usize, BinaryDeserializerError>
    ensures { AnswersCountOf (alone bytes.now) result }
{
    let file = File::alone(bytes)?;
    file.count(alloc)
}

/// The number of resources of a file's tree, which is not made. (`resb::binary::File::count`.)
pub fn check_file(alloc: Global, file: &[u8]) -> Result<usize, ToolError>
    ensures counts { CountsFile file.now result }
    // The answer is that of `from_bytes_counted::<Resource>`, by kind and message, want of memory
    // aside.
    ensures as_read { (r : _) → ReadsCounted file.now r → Agrees HasCount result r }
    // It is that of `File::tree` in the same way.
    ensures as_tree { (r : _) → AnswersTreeOf (alone file.now) r
        → Agrees (IsCounted file.now) result r }
{
    match count_alone(alloc, file) {
        Ok(count) => Ok(count),
        Err(e) => Err(ToolError::Checking(e)),
    }
}

/// The head of a file, which is given the pool bundle that it uses, if it uses one.
fn head_of<'a>(file: &'a [u8], pool: Option<PoolBundle<'a>>) -> Result<FileHead<'a>, FileError>
    ensures ok { IfOk result (λ h. head_bytes h ≡ file.entry.now) }
    ensures given { OnOk result (LacksPool (option_map pool_in pool.entry) file.entry.now → ⊥) }
    ensures err { IfErr result (LacksHead (option_map pool_in pool.entry) file.entry.now) }
{
    let head = FileHead::read(file).map_err(FileError::Reading)?;
    if head.uses_pool() && pool.is_none() {
        return Err(FileError::UsesPool);
    }
    Ok(head)
}

/// Opens a file beside the pool bundle that it uses, if it uses one.
/// (`resb::binary::File::open`.)
pub fn open_file<'a>(
    file: &'a [u8],
    pool: Option<PoolBundle<'a>>,
) -> Result<BundleFile<'a>, FileError>
    ensures { OpensBeside pool.entry file.entry.now result }
{
    let head = head_of(file, pool)?;
    match File::beside(head, pool) {
        Ok(file) => Ok(BundleFile { head, file }),
        Err(e) => Err(FileError::Reading(e)),
    }
}

/// Counts a file whose tree isn't made. Where there is a limit, another is refused than one whose
/// tree would take no more bytes than that, nor the keys of its entries.
/// (`resb::opened::Opened::of`.)
pub fn index_file<'a>(
    alloc: Global,
    file: &File<'a>,
    limit: Option<u64>,
) -> Result<Opened<'a>, FileError>
    ensures ok { IfOk result (λ opened. Opens (whole_in file.now) (Ok opened)) }
    ensures within { OnOk result (IfSome limit (λ most. FitsIn (whole_in file.now) (Some most))) }
    ensures err { IfErr result (RefusesSize (whole_in file.now) limit) }
{
    check_limit(alloc, file, limit)?;
    match Opened::of(alloc, file) {
        Ok(opened) => Ok(opened),
        Err(e) => Err(FileError::Reading(e)),
    }
}

/// Refuses a file whose tree takes more bytes than the limit, or the keys of whose entries do.
/// Where there is no limit, nothing is measured.
fn check_limit(alloc: Global, file: &File<'_>, limit: Option<u64>) -> Result<(), FileError>
    ensures ok { OnOk result (IfSome limit (λ most. FitsIn (whole_in file.now) (Some most))) }
    ensures err { IfErr result (RefusesSize (whole_in file.now) limit) }
{
    match limit {
        Some(_) => check_size(alloc, file, limit),
        None => Ok(()),
    }
}

/// Refuses a file whose tree takes more bytes than the limit, if there is one, or the keys of whose
/// entries take more than it or than `MOST_KEY_BYTES`, before any of the tree is made.
fn check_size(alloc: Global, file: &File<'_>, limit: Option<u64>) -> Result<(), FileError>
    ensures ok { OnOk result (FitsIn (whole_in file.now) limit) }
    ensures err { IfErr result (RefusesSize (whole_in file.now) limit) }
{
    let measured = match file.measure(alloc) {
        Ok(measured) => measured,
        Err(e) => return Err(FileError::Reading(e)),
    };
    let key_limit = limit.unwrap_or(MOST_KEY_BYTES);
    if let Some(limit) = limit
        && !measured.is_within(limit)
    {
        let bytes = measured.tree_bytes();
        return Err(FileError::Larger { bytes, limit });
    }
    if !measured.keys_are_within(key_limit) {
        let (bytes, limit) = (measured.sums.key_bytes, key_limit);
        return Err(FileError::LongKeys { bytes, limit });
    }
    Ok(())
}

/// A file's tree as a bundle of that name, with the fallback flag of its head. A tree that takes
/// more bytes than the limit, if there is one, or the keys of whose entries take more than it or
/// than 2^28 bytes, is refused before any of it is made. (`resb::binary::File::tree`.)
pub fn read_bundle<'a>(
    alloc: Global,
    name: &'a str,
    source: &BundleFile<'a>,
    limit: Option<u64>,
) -> Result<ResourceBundle<'a>, FileError>
    ensures ok { IfOk result
        (IsBundleOf (whole_in source.now.file) source.now.file.bytes.now name.entry.now limit) }
    ensures err { IfErr result (RefusesSize (whole_in source.now.file) limit) }
{
    check_size(alloc, &source.file, limit)?;
    match source.file.tree(alloc, None) {
        Ok(tree) => {
            let name = CowStr::Borrowed(name);
            Ok(ResourceBundle::new(name, tree, source.head.has_fallback()))
        }
        Err(e) => Err(FileError::Reading(e)),
    }
}
