//! The JSON of what is shown, a block at a time: a list of what is still to be written, the
//! innermost last.
//! Strings and numbers are written in `quoted`.
ghost use Rattle.std.specs.Prelude.{◌≡◌, ◌++◌, ◌∷◌, [], OnOk, IfOk, drop, nat_lt};
ghost use Rattle.json.specs.Print.{quoted};
ghost use Rattle.resb_shown.specs.Shown.{text_in, numbers_in};
ghost use Rattle.resb_json.specs.Inner.Jobs.{jobs_in, job_of, texts_of, turns_of, DoesJob};
ghost use Rattle.resb_json.specs.Inner.Jobs.{value_job, members_job, entries_job, numbers_job};
ghost use Rattle.resb_json.specs.Inner.Jobs.{digits_job};

use crate::quoted::{push_comma, push_digits, push_number, push_quoted};
use crate::task::Task;
use resb_shown::{BLOCK_LEN, Blocks, Node, Shown};
use std::alloc::{AllocError, Global};

/// JSON that is still to be written.
#[derive(Drop)]
pub(crate) struct JsonText<'s, S: Copy, M: Drop, E: Drop> {
    pending: Vec<Task<'s, S, M, E>>,
    /// Room for a string's text.
    room: String,
}

impl<'s, S: Shown<'s>> JsonText<'s, S, S::Members, S::Entries> {
    /// The JSON of a resource.
    pub(crate) fn new(
        alloc: Global,
        shown: S,
    ) -> Result<JsonText<'s, S, S::Members, S::Entries>, AllocError>
        ensures { IfOk result (λ text.
            jobs_in S.tree S.members S.entries text.pending.items ≡ value_job (S.tree shown) ∷ []) }
    {
        let mut pending = Vec::new(alloc);
        pending.push(Task::Value(shown))?;
        Ok(JsonText {
            pending,
            room: String::new(alloc),
        })
    }

    /// Puts a task, to be done before those that were put.
    fn put(&mut self, task: Task<'s, S, S::Members, S::Entries>) -> Result<(), AllocError>
        ensures { OnOk result
            (self.new.pending.items ≡ self.old.pending.items ++ task.entry ∷ []) }
    {
        self.pending.push(task)?;
        Ok(())
    }

    /// Writes a resource, or begins it and puts the rest of it.
    fn write_value(&mut self, block: &mut Vec<u8>, shown: S) -> Result<(), AllocError>
        ensures { OnOk result (DoesJob block.old.items block.new.items
            (jobs_in S.tree S.members S.entries self.old.pending.items)
            (jobs_in S.tree S.members S.entries self.new.pending.items)
            (value_job (S.tree shown))) }
    {
        match shown.node() {
            Node::String => self.write_text(block, shown),
            Node::Alias => {
                block.extend_from_slice(b"{\"alias\":")?;
                self.write_text(block, shown)?;
                block.extend_from_slice(b"}")
            }
            Node::Array(members) => {
                block.extend_from_slice(b"[")?;
                self.put(Task::Members(members, false))
            }
            Node::Table(entries) => {
                block.extend_from_slice(b"{")?;
                self.put(Task::Entries(entries, false))
            }
            Node::Binary(bytes) => {
                block.extend_from_slice(b"{\"binary\":\"")?;
                self.put(Task::Digits(bytes))
            }
            Node::Integer(number) => push_number(block, i32::from(number)),
            Node::IntVector => {
                block.extend_from_slice(b"[")?;
                self.put(Task::Numbers(shown, 0))
            }
        }
    }

    /// Writes a string's text or an alias's path in quotes.
    fn write_text(&mut self, block: &mut Vec<u8>, shown: S) -> Result<(), AllocError>
        ensures written { OnOk result
            (block.new.items ≡ block.old.items ++ quoted (text_in (S.tree shown))) }
        ensures kept { self.new.pending ≡ self.old.pending }
    {
        self.room.clear();
        shown.push_text(&mut self.room)?;
        push_quoted(block, self.room.as_str())
    }

    /// Writes the next member of an array, or its end.
    fn write_member(
        &mut self,
        block: &mut Vec<u8>,
        mut ahead: S::Members,
        is_behind: bool,
    ) -> Result<(), AllocError>
        ensures { OnOk result (DoesJob block.old.items block.new.items
            (jobs_in S.tree S.members S.entries self.old.pending.items)
            (jobs_in S.tree S.members S.entries self.new.pending.items)
            (members_job is_behind (S.members ahead))) }
    {
        let Some(member) = S::next_member(&mut ahead) else {
            return block.extend_from_slice(b"]");
        };
        push_comma(block, is_behind)?;
        self.put(Task::Members(ahead, true))?;
        self.put(Task::Value(member))
    }

    /// Writes the next entry of a table, or its end.
    fn write_entry(
        &mut self,
        block: &mut Vec<u8>,
        mut ahead: S::Entries,
        is_behind: bool,
    ) -> Result<(), AllocError>
        ensures { OnOk result (DoesJob block.old.items block.new.items
            (jobs_in S.tree S.members S.entries self.old.pending.items)
            (jobs_in S.tree S.members S.entries self.new.pending.items)
            (entries_job is_behind (S.entries ahead))) }
    {
        let Some(next) = S::next_entry(&mut ahead) else {
            return block.extend_from_slice(b"}");
        };
        let (key, value) = next;
        push_comma(block, is_behind)?;
        push_quoted(block, key)?;
        block.extend_from_slice(b":")?;
        self.put(Task::Entries(ahead, true))?;
        self.put(Task::Value(value))
    }

    /// Writes the number at a place of a vector, or the vector's end.
    fn write_number(&mut self, block: &mut Vec<u8>, vector: S, at: usize) -> Result<(), AllocError>
        ensures { OnOk result (DoesJob block.old.items block.new.items
            (jobs_in S.tree S.members S.entries self.old.pending.items)
            (jobs_in S.tree S.members S.entries self.new.pending.items)
            (numbers_job (nat_lt 0 at) (drop at (numbers_in (S.tree vector))))) }
    {
        let Some(number) = vector.number(at) else {
            return block.extend_from_slice(b"]");
        };
        push_comma(block, at > 0)?;
        push_number(block, number.cast_signed())?;
        self.put(Task::Numbers(vector, at + 1))
    }

    /// Writes the next bytes of a binary, or its end.
    fn write_digits(&mut self, block: &mut Vec<u8>, bytes: &'s [u8]) -> Result<(), AllocError>
        ensures { OnOk result (DoesJob block.old.items block.new.items
            (jobs_in S.tree S.members S.entries self.old.pending.items)
            (jobs_in S.tree S.members S.entries self.new.pending.items)
            (digits_job bytes.now)) }
    {
        if bytes.is_empty() {
            return block.extend_from_slice(b"\"}");
        }
        let rest = push_digits(block, bytes)?;
        self.put(Task::Digits(rest))
    }

    /// Does a task, and puts what it leaves.
    fn step(
        &mut self,
        block: &mut Vec<u8>,
        task: Task<'s, S, S::Members, S::Entries>,
    ) -> Result<(), AllocError>
        ensures { OnOk result (DoesJob block.old.items block.new.items
            (jobs_in S.tree S.members S.entries self.old.pending.items)
            (jobs_in S.tree S.members S.entries self.new.pending.items)
            (job_of S.tree S.members S.entries task.entry)) }
    {
        match task {
            Task::Value(shown) => self.write_value(block, shown),
            Task::Members(ahead, is_behind) => self.write_member(block, ahead, is_behind),
            Task::Entries(ahead, is_behind) => self.write_entry(block, ahead, is_behind),
            Task::Numbers(vector, at) => self.write_number(block, vector, at),
            Task::Digits(bytes) => self.write_digits(block, bytes),
        }
    }
}

impl<'s, S: Shown<'s>> Blocks for JsonText<'s, S, S::Members, S::Entries> {
    ghost ahead = { λ t. texts_of (jobs_in S.tree S.members S.entries t.pending.items) };

    ghost left = { λ t. turns_of (jobs_in S.tree S.members S.entries t.pending.items) };

    fn push_block(&mut self, block: &mut Vec<u8>) -> Result<bool, AllocError> {
        while let Some(task) = self.pending.pop() {
            self.step(block, task)?;
            if block.len() >= BLOCK_LEN {
                return Ok(true);
            }
        }
        Ok(false)
    }
}
