//! Where each string stands once its record is laid.
//! The records and their closing zeros come from `records`.
ghost use Rattle.std.specs.Prelude.{◌≡◌, IfOk, length, map, slice_index};
ghost use Rattle.resb_pool.specs.Plan.{plan_units, offset_of, turn_offsets};
ghost use Rattle.resb_pool.specs.Inner.Placing.{AllClose, AreOffsets};

use crate::measure::Measure;
use indexmap::IndexSet;
use std::alloc::{AllocError, Global};

/// Where strings stand at the front of the 16-bit block.
#[derive(Drop)]
pub struct Plan<'a> {
    pub(crate) units: Vec<u16>,
    pub(crate) texts: IndexSet<&'a str>,
    /// The offset of each text.
    pub(crate) offsets: Vec<u32>,
    /// The index of each string's text, in the order in which they were given.
    pub(crate) order: Vec<u32>,
}

impl<'a> Plan<'a> {
    /// Unit 0, and the records of the strings.
    pub fn units(&self) -> &[u16]
        ensures { result.now ≡ plan_units self.now }
    {
        &self.units
    }

    /// The plan's units, and the offset of each string in the order in which they were given.
    pub fn into_parts(self) -> (Vec<u16>, Vec<u32>)
        ensures units { result.0.items ≡ plan_units self.entry }
        ensures offsets { result.1.items ≡ turn_offsets self.entry }
    {
        let offsets = self.offsets;
        let turns = self.order;
        (self.units, in_turn(&offsets, turns))
    }

    /// The unit at which a text stands, its marker included, if it was given.
    pub fn offset(&self, text: &str) -> Option<u32>
        ensures { result ≡ offset_of self.now text.now }
    {
        let index = self.texts.get_index_of(text)?;
        self.offsets.get(index).copied()
    }
}

/// The offset at each of these indexes, put in its place.
pub(crate) fn in_turn(offsets: &[u32], indexes: Vec<u32>) -> Vec<u32>
    ensures { result.items ≡ map (slice_index offsets.now) indexes.items }
{
    let mut turns = indexes;
    for turn in turns.iter_mut() {
        *turn = offsets.get(*turn as usize).copied().unwrap_or(0);
    }
    turns
}

/// The unit at which each text stands, by where its record closes.
pub(crate) fn find_offsets(
    alloc: Global,
    containers: &[u32],
    measures: &[Measure],
    ends: &[u32],
) -> Result<Vec<u32>, AllocError>
    requires len { length measures.now ≡ length containers.now }
    requires close { AllClose containers.now measures.now ends.now }
    ensures { IfOk result (λ v. AreOffsets containers.now measures.now ends.now v.items) }
{
    let mut offsets = Vec::with_capacity(alloc, containers.len())?;
    for (index, container) in containers.iter().enumerate() {
        offsets.push(ends[*container as usize] + 1 - measures[index].size)?;
    }
    Ok(offsets)
}
