//! Files that are handed in as words, and the order of bytes that a file names.
//! Files of bytes are read in `whole_files`.
ghost use Rattle.std.specs.Prelude.{◌*◌, length, IsOk};
ghost use Rattle.std.specs.Prelude.{◌≡◌, ◌≤◌, ◌⊎◌, true, ℕ, [], None, Some, slice_index};
ghost use Rattle.std.specs.Prelude.{MatchResult, IfOk, IfErr};
ghost use Rattle.std.specs.Vec.{vec_capacity};
ghost use Rattle.std.specs.Int.{to_le_bytes, w32};
ghost use Rattle.std.specs.List.{flat_map};
ghost use Rattle.resb_format.specs.Error as reading;
ghost use Rattle.resb_format.specs.Error.{IsWantOfMemory, refusal_of};
ghost use Rattle.resb_head.specs.File.{budget};
ghost use Rattle.resb_head.specs.Codes.{endianness_number};
ghost use Rattle.resb_head.specs.HeadChecks.{file_refusal, header_refusal};
ghost use Rattle.resb_read.specs.Reading.{LacksOrMemory};
ghost use Rattle.resb_read.specs.Roots.{HoldsAt, RefusesAt, alone};

use crate::deserialize::Deserialize;
use crate::whole_files::from_bytes;
use resb_format::{BinaryDeserializerError, ReadingError};
use resb_head::{BinHeader, Endianness};
use std::alloc::Global;

/// Lays the bytes of words in a buffer, each with its lowest byte first. What the buffer held goes.
/// Room for all bytes is asked for once, and only where the buffer has too little; where it is
/// refused the buffer is empty.
pub fn lay_words(
    _alloc: Global,
    words: &[u32],
    buffer: &mut Vec<u8>,
) -> Result<(), BinaryDeserializerError>
    ensures lays { MatchResult result
        (λ _. buffer.new.items ≡ flat_map (to_le_bytes w32) words.now)
        (λ e. IsWantOfMemory e × (buffer.new.items ≡ [])) }
    ensures room { 4 * length words.now ≤ vec_capacity buffer.old → IsOk result }
{
    buffer.clear();
    let size = words
        .len()
        .checked_mul(4)
        .ok_or(BinaryDeserializerError::out_of_memory())?;
    buffer.reserve_exact(size)?;
    for word in words {
        if buffer.extend_from_slice(&word.to_le_bytes()).is_err() {
            buffer.clear();
            return Err(BinaryDeserializerError::out_of_memory());
        }
    }
    Ok(())
}

/// Reads a value from a file of words, whose bytes are laid in the buffer and stay there.
pub fn from_words<'a, 'm, T: Deserialize<'a>>(
    alloc: Global,
    words: &[u32],
    buffer: &'a mut Vec<u8>,
) -> Result<T, ReadingError<'m>>
    ensures read { let bytes = flat_map (to_le_bytes w32) words.now in
        IfOk result (λ x. (n : ℕ) × HoldsAt (λ p. T.reads p x n) (alone bytes)
        × (n ≤ budget bytes)) }
    ensures refused { let bytes = flat_map (to_le_bytes w32) words.now in
        IfErr result (λ e. LacksOrMemory (λ n. HoldsAt (λ p. T.counts p n) (alone bytes))
        (budget bytes) e) }
    ensures head { let bytes = flat_map (to_le_bytes w32) words.now in
        IfErr result (λ e. IsWantOfMemory e ⊎
        ((f : reading.Refusal) → file_refusal bytes ≡ Some f → refusal_of e ≡ f)) }
    ensures says { let bytes = flat_map (to_le_bytes w32) words.now in
        IfErr result (λ e. IsWantOfMemory e ⊎ RefusesAt T.refuses (alone bytes) e) }
{
    lay_words(alloc, words, buffer)?;
    let bytes: &'a [u8] = buffer.as_slice();
    from_bytes::<T>(alloc, bytes)
}

/// The order of bytes that a file's header names. The header's numbers are read in that order.
pub fn determine_endianness(bytes: &[u8]) -> Result<Endianness, BinaryDeserializerError>
    ensures { MatchResult result
        (λ x. (header_refusal true bytes.now ≡ None) ×
        (endianness_number x ≡ slice_index bytes.now 8))
        (λ e. header_refusal true bytes.now ≡ Some (refusal_of e)) }
{
    let header = BinHeader::read_any_order(bytes)?;
    Ok(header.repr_info.endianness)
}
