//! Whole files: a value at the root, or what is to blame.
//! What is read there without a blame is said in `resb_read`.
ghost use Rattle.std.specs.Prelude.{◌≡◌, ◌≤◌, ◌⊎◌, ℕ, option_map, IfOk, IfErr};
ghost use Rattle.resb_head.specs.File.{budget};
ghost use Rattle.resb_pool_bundle.specs.Pool.{pool_in};
ghost use Rattle.resb_read.specs.Files.{whole_in};
ghost use Rattle.resb_read.specs.Reading.{LacksOrMemory};
ghost use Rattle.resb_read.specs.Roots.{HoldsAt};
ghost use Rattle.resb_read.specs.WithPool.{over};
ghost use Rattle.resb_blame.specs.BlamedFiles.{BlamesFile, PointsFile};

use crate::blame::Blame;
use crate::blames::Blames;
use resb_format::ReadingError;
use resb_pool_bundle::PoolBundle;
use resb_read::File;
use std::alloc::Global;

/// What is to blame where a file is refused with this error.
fn blame_file<'a, 'm, T: Blames<'a>>(
    alloc: Global,
    file: &File<'a>,
    error: ReadingError<'m>,
) -> Blame<'a, 'm>
    ensures { BlamesFile T.blames (whole_in file.now) result
        ⊎ ((n : ℕ) × HoldsAt (λ p. T.counts p n) (whole_in file.now)
        × (n ≤ (whole_in file.now).budget) × (result.error ≡ error.entry)) }
{
    let (root, mut walk) = file.root();
    match T::blame(alloc, root, &mut walk) {
        Ok(()) => Blame::whole(alloc, error),
        Err(blame) => blame,
    }
}

/// Reads a value from a file that was opened, or says what is to blame.
fn read_blaming<'a, 'm, T: Blames<'a>>(alloc: Global, file: &File<'a>) -> Result<T, Blame<'a, 'm>>
    ensures read { let w = whole_in file.now in
        IfOk result (λ x. (n : ℕ) × HoldsAt (λ p. T.reads p x n) w × (n ≤ w.budget)) }
    ensures refused { let w = whole_in file.now in
        IfErr result (λ b. LacksOrMemory (λ n. HoldsAt (λ p. T.counts p n) w) w.budget b.error) }
    ensures blamed { IfErr result (BlamesFile T.blames (whole_in file.now)) }
    ensures points { IfErr result (PointsFile (whole_in file.now)) }
{
    match file.read::<T>(alloc) {
        Ok(value) => Ok(value),
        Err(error) if error.is_out_of_memory() => Err(Blame::whole(alloc, error)),
        Err(error) => Err(blame_file::<T>(alloc, file, error)),
    }
}

/// Reads a value from a file as `File::open` and `File::read` do. Where that is refused, the file
/// is gone through once more, for what is to blame: the path to the resource that was refused, and
/// the name of the field that a record there lacks.
pub fn from_bytes_blaming<'a, 'm, T: Blames<'a>>(
    alloc: Global,
    bytes: &'a [u8],
    pool: Option<PoolBundle<'a>>,
) -> Result<T, Blame<'a, 'm>>
    ensures read { let file = over (option_map pool_in pool.entry) bytes.entry.now in
        IfOk result (λ x. (n : ℕ) × HoldsAt (λ p. T.reads p x n) file
        × (n ≤ budget bytes.entry.now)) }
    ensures refused { let file = over (option_map pool_in pool.entry) bytes.entry.now in
        IfErr result (λ b. LacksOrMemory (λ n. HoldsAt (λ p. T.counts p n) file)
        (budget bytes.entry.now) b.error) }
    ensures blamed { let file = over (option_map pool_in pool.entry) bytes.entry.now in
        IfErr result (BlamesFile T.blames file) }
    ensures points { let file = over (option_map pool_in pool.entry) bytes.entry.now in
        IfErr result (PointsFile file) }
{
    match File::open(bytes, pool) {
        Ok(file) => read_blaming::<T>(alloc, &file),
        Err(head) => Err(Blame::whole(alloc, head)),
    }
}
