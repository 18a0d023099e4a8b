//! What the calls for C do over files: their answers go to the front of the caller's buffer.
//! What is done over texts is in `compiling`, what the caller is told beside in `report`.
ghost use Rattle.std.specs.Prelude.{◌≡◌, ℕ, IfOk, IfErr, IsUtf8, option_map};
ghost use Rattle.resb_format.specs.declared.error.ReadingError.{ReadingError};
ghost use Rattle.resb_pool_bundle.specs.Pool.{pool_in};
ghost use Rattle.resb_c.specs.Calls.{Fills, IsNotUtf8};
ghost use Rattle.resb_c.specs.Dumping.{HasNoBundle, IsBundleToDump};
ghost use Rattle.resb_c.specs.Inner.Heads.{HasNoSource, IsSource, fault_said};
ghost use Rattle.resb_c.specs.Measures.{MeasuresFile};
ghost use Rattle.resb_c.specs.Pools.{given, IsGiven, RefusesPool};

use crate::fault::Fault;
use resb_pool_bundle::PoolBundle;
use resb_program::{BundleFile, FileError, open_file, read_bundle};
use resb_read::Measured;
use resb_tree::ResourceBundle;
use std::alloc::Global;

/// A file's bytes, and those of the pool bundle that is given beside it: none where none is given.
#[derive(Clone, Copy)]
pub(crate) struct Input<'a> {
    pub(crate) file: &'a [u8],
    pub(crate) pool: &'a [u8],
}

/// Copies an answer to the front of the buffer where it has room, and gives its length, which is
/// the error where it has none.
pub(crate) fn fill(answer: &[u8], out: &mut [u8]) -> Result<usize, usize>
    ensures { Fills answer.now out.old out.new result }
{
    let count = answer.len();
    if count > out.len() {
        return Err(count);
    }
    out[..count].copy_from_slice(answer);
    Ok(count)
}

/// The bytes as a text.
pub(crate) fn text_of(bytes: &[u8]) -> Result<&str, Fault>
    ensures ok { IfOk result (λ text. (text.now ≡ bytes.entry.now) × IsUtf8 bytes.entry.now) }
    ensures err { IfErr result
        (λ e. (n : ℕ) × (e ≡ Fault.NotUtf8 n) × IsNotUtf8 bytes.entry.now n) }
{
    match resb_program::text_of(bytes) {
        Ok(text) => Ok(text),
        Err(place) => Err(Fault::NotUtf8(place)),
    }
}

/// The pool bundle of these bytes: none where there are no bytes.
pub(crate) fn pool_of(bytes: &[u8]) -> Result<Option<PoolBundle<'_>>, Fault>
    ensures ok { IfOk result
        (λ p. IsGiven bytes.entry.now × (option_map pool_in p ≡ given bytes.entry.now)) }
    ensures err { IfErr result
        (λ e. (f : ReadingError) × (e ≡ Fault.Pool f) × RefusesPool bytes.entry.now f) }
{
    if bytes.is_empty() {
        return Ok(None);
    }
    match PoolBundle::read(bytes) {
        Ok(pool) => Ok(Some(pool)),
        Err(e) => Err(Fault::Pool(e)),
    }
}

/// The fault of a file that isn't had.
fn fault_in(e: FileError) -> Fault
    ensures { result ≡ fault_said e }
{
    match e {
        FileError::UsesPool => Fault::UsesPool,
        FileError::Larger { bytes, limit } => Fault::Larger { bytes, limit },
        FileError::LongKeys { bytes, limit } => Fault::LongKeys { bytes, limit },
        FileError::Reading(e) => Fault::Reading(e),
    }
}

/// Opens a file beside the pool bundle that is given, if one is.
pub(crate) fn source_of<'a>(input: Input<'a>) -> Result<BundleFile<'a>, Fault>
    ensures ok { IfOk result (IsSource input.entry.pool.now input.entry.file.now) }
    ensures err { IfErr result (HasNoSource input.entry.pool.now input.entry.file.now) }
{
    let pool = pool_of(input.pool)?;
    match open_file(input.file, pool) {
        Ok(source) => Ok(source),
        Err(e) => Err(fault_in(e)),
    }
}

/// What a file's tree adds up to.
pub(crate) fn measure_file(alloc: Global, input: Input<'_>) -> Result<Measured, Fault>
    ensures { MeasuresFile input.entry.pool.now input.entry.file.now result }
{
    let source = source_of(input)?;
    match source.file.measure(alloc) {
        Ok(measured) => Ok(measured),
        Err(e) => Err(Fault::Reading(e)),
    }
}

/// A file's bundle, whose tree takes no more bytes than the limit, if there is one, nor do the keys
/// of its entries.
pub(crate) fn bundle_of<'a>(
    alloc: Global,
    name: &'a str,
    input: Input<'a>,
    limit: Option<u64>,
) -> Result<ResourceBundle<'a>, Fault>
    ensures ok { IfOk result
        (IsBundleToDump input.entry.pool.now input.entry.file.now name.entry.now limit) }
    ensures err { IfErr result (HasNoBundle input.entry.pool.now input.entry.file.now limit) }
{
    let source = source_of(input)?;
    match read_bundle(alloc, name, &source, limit) {
        Ok(bundle) => Ok(bundle),
        Err(e) => Err(fault_in(e)),
    }
}
