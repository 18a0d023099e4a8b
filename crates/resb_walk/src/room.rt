//! Whether all counts of a file can be paid for, before any of them asks for room.
//! Texts and keys are not looked at here: whether a tree stands at a word is found in `read`.
use crate::members::{Members, Standing};
use crate::standing::standing_at;
use crate::types::readable;
use resb_format::bytes::first_word;
use resb_format::{FileBlocks, ResourceReprType};
use resb_tree::NoMemory;
use std::alloc::Global;

/// Whether a word's type is that of a collection. Leaves have no members, and needn't be looked at.
#[inline(always)]
fn is_collection(file: FileBlocks<'_>, word: u32) -> bool {
    match readable(file, word) {
        Ok((kind, _)) => matches!(
            kind,
            ResourceReprType::Table
                | ResourceReprType::_Table32
                | ResourceReprType::Table16
                | ResourceReprType::Array
                | ResourceReprType::Array16
        ),
        Err(_) => false,
    }
}

/// The members of the collection at a word, if one stands there.
fn members_at(file: FileBlocks<'_>, word: u32) -> Option<Members<'_>> {
    match standing_at(file, word) {
        Ok(Standing::List(members)) => Some(members),
        Ok(Standing::Table(entries)) => Some(entries.members),
        Ok(Standing::Leaf(_)) | Err(_) => None,
    }
}

/// Whether no more than so many resources stand at a word, those behind faults included.
pub(crate) fn can_be_paid(
    alloc: Global,
    file: FileBlocks<'_>,
    word: u32,
    budget: usize,
) -> Result<bool, NoMemory> {
    let mut left = budget;
    let mut around = Vec::new(alloc);
    let mut words = match members_at(file, word) {
        Some(Members::Words(words)) => words,
        Some(Members::Units(units)) => return Ok(units.len() / 2 <= left),
        None => return Ok(true),
    };
    'rounds: loop {
        let Some((inner, rest)) = first_word(words) else {
            let Some(outer) = around.pop() else {
                return Ok(true);
            };
            words = outer;
            continue;
        };
        if left == 0 {
            return Ok(false);
        }
        left -= 1;
        words = rest;
        if !is_collection(file, inner) {
            continue;
        }
        match members_at(file, inner) {
            Some(Members::Words(its)) => {
                around.push(words)?;
                words = its;
            }
            // Strings alone.
            Some(Members::Units(units)) if units.len() / 2 > left => return Ok(false),
            Some(Members::Units(units)) => left -= units.len() / 2,
            None => {}
        }
    }
}
