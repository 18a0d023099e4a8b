//! The text of a bundle, a block at a time: a list of what is still to be written, the innermost
//! last.
//! What a line is made of is written by `resb_print`, and by the form in `form`.
ghost use Rattle.std.specs.Prelude.{◌≡◌, ◌++◌, ◌∷◌, [], OnOk, IfOk, drop, nat_lt};
ghost use Rattle.std.specs.String.{string_bytes};
ghost use Rattle.hex.specs.Hex.{encode_lower};
ghost use Rattle.resb_print.specs.Inner.Appends.{Appends};
ghost use Rattle.resb_shown.specs.Shown.{numbers_in, text_in};
ghost use Rattle.resb_tree.specs.Tree.{array, table};
ghost use Rattle.resb_print.specs.Printed.{alias_on, printed_bundle, string_on};
ghost use Rattle.resb_lines.specs.Lines as lines;
ghost use Rattle.resb_lines.specs.Lines.{IsTextWithin};
ghost use Rattle.resb_lines.specs.Inner.Jobs.{jobs_in, job_of, all_on, turns_of, DoesJob};
ghost use Rattle.resb_lines.specs.Inner.Jobs.{value_job, entries_job, members_job, numbers_job};
ghost use Rattle.resb_lines.specs.Inner.Jobs.{entry_job, member_job, head_job, digits_job};
ghost use Rattle.resb_lines.specs.Inner.Jobs.{comma_on};

use crate::form::Form;
use crate::room::has_room;
use crate::task::Task;
use resb_print::{Place, deeper, push_end, push_integer, push_line, push_number, push_root_type};
use resb_shown::{BLOCK_LEN, Blocks, Node, Shown};
use std::alloc::{AllocError, Global};

/// How many bytes of a binary are written at once.
const DIGITS_AT_ONCE: usize = 1024;

/// Writes a comma, if something stands before it.
fn push_comma(out: &mut String, is_behind: bool) -> Result<(), AllocError>
    ensures { OnOk result (Appends out.old out.new (comma_on is_behind)) }
{
    if is_behind { out.push_str(",") } else { Ok(()) }
}

/// Writes bytes as hex digits.
fn push_digits(alloc: Global, out: &mut String, bytes: &[u8]) -> Result<(), AllocError>
    ensures { OnOk result (Appends out.old out.new (λ rest. encode_lower bytes.now ++ rest)) }
{
    let digits = hex::encode(alloc, bytes)?;
    out.push_str(digits.as_str())
}

/// A text that is still to be written.
#[derive(Drop)]
pub(crate) struct LinesText<'s, F: Copy, S: Copy, M: Drop, E: Drop> {
    form: F,
    pending: Vec<Task<'s, S, M, E>>,
    /// The lines that are made, which go into a block at once.
    line: String,
    /// Room for the text of a string that stands nowhere as it is.
    room: String,
}

impl<'s, F: Form, S: Shown<'s>> LinesText<'s, F, S, S::Members, S::Entries> {
    /// The text of a bundle with these entries.
    pub(crate) fn new(
        alloc: Global,
        form: F,
        name: &'s str,
        fallback: bool,
        entries: S::Entries,
    ) -> Result<LinesText<'s, F, S, S::Members, S::Entries>, AllocError>
        ensures ahead { IfOk result (λ text. all_on F.spelling
            (jobs_in S.tree S.members S.entries text.pending.items)
            ≡ printed_bundle F.spelling name.now fallback (S.entries entries)) }
        ensures line { IfOk result (λ text. string_bytes text.line ≡ []) }
    {
        let mut pending = Vec::with_capacity(alloc, 32)?;
        pending.push(Task::LineFeed)?;
        pending.push(Task::Entries(entries, 0, Place::InTable))?;
        pending.push(Task::Head(name, fallback))?;
        Ok(LinesText {
            form,
            pending,
            line: String::new(alloc),
            room: String::new(alloc),
        })
    }

    /// The whole text, where it has no more bytes than a limit: it is made as far as that shows.
    pub(crate) fn into_text(mut self, limit: u64) -> Result<Option<String>, AllocError>
        requires { string_bytes self.line ≡ [] }
        ensures { IfOk result (IsTextWithin limit
            (all_on F.spelling (jobs_in S.tree S.members S.entries self.entry.pending.items))) }
    {
        while let Some(task) = self.pending.pop() {
            if !has_room::<S>(self.line.len(), &task, limit) {
                return Ok(None);
            }
            self.step(task)?;
            if self.line.len() as u64 > limit {
                return Ok(None);
            }
        }
        Ok(Some(self.line))
    }

    /// Puts a task, to be done before those that were put.
    fn put(&mut self, task: Task<'s, S, S::Members, S::Entries>) -> Result<(), AllocError>
        ensures put { OnOk result
            (self.new.pending.items ≡ self.old.pending.items ++ task.entry ∷ []) }
        ensures line { self.new.line ≡ self.old.line }
    {
        self.pending.push(task)?;
        Ok(())
    }

    /// Writes a string's text or an alias's path in quotes: as it stands, or read into the room
    /// for it.
    fn push_text(&mut self, shown: S) -> Result<(), AllocError>
        ensures written { OnOk result
            (Appends self.old.line self.new.line (F.spelling.piece_on (text_in (S.tree shown)))) }
        ensures kept { self.new.pending ≡ self.old.pending }
    {
        let alloc = *self.pending.allocator();
        if let Some(text) = shown.text() {
            return self.form.push_piece(alloc, &mut self.line, text);
        }
        self.room.clear();
        shown.push_text(&mut self.room)?;
        self.form
            .push_piece(alloc, &mut self.line, self.room.as_str())
    }

    /// Writes a string, in braces where it stands behind a key.
    fn push_string(&mut self, shown: S, place: Place) -> Result<(), AllocError>
        ensures written { OnOk result (Appends self.old.line self.new.line
            (string_on F.spelling place (text_in (S.tree shown)))) }
        ensures kept { self.new.pending ≡ self.old.pending }
    {
        if let Place::InTable = place {
            self.line.push_str("{")?;
            self.push_text(shown)?;
            self.line.push_str("}")
        } else {
            self.push_text(shown)?;
            self.line.push_str(",")
        }
    }

    /// Writes an alias, its path as a string is written.
    fn push_alias(&mut self, shown: S, place: Place) -> Result<(), AllocError>
        ensures written { OnOk result (Appends self.old.line self.new.line
            (alias_on F.spelling place (text_in (S.tree shown)))) }
        ensures kept { self.new.pending ≡ self.old.pending }
    {
        self.line.push_str(":alias{")?;
        self.push_text(shown)?;
        self.line.push_str("}")?;
        push_end(&mut self.line, place)
    }

    /// Begins an array, and puts the rest of it.
    fn begin_array(
        &mut self,
        mut ahead: S::Members,
        place: Place,
        level: usize,
    ) -> Result<(), AllocError>
        ensures { OnOk result (DoesJob F.spelling self.old.line self.new.line
            (jobs_in S.tree S.members S.entries self.old.pending.items)
            (jobs_in S.tree S.members S.entries self.new.pending.items)
            (value_job place level (array (S.members ahead)))) }
    {
        self.line.push_str(":array{")?;
        let Some(member) = S::next_member(&mut ahead) else {
            self.line.push_str("}")?;
            return push_end(&mut self.line, place);
        };
        self.put(Task::Members(ahead, level, place))?;
        self.put(Task::Member(member, deeper(level)))
    }

    /// Begins a table, and puts the rest of it.
    fn begin_table(
        &mut self,
        mut ahead: S::Entries,
        place: Place,
        level: usize,
    ) -> Result<(), AllocError>
        ensures { OnOk result (DoesJob F.spelling self.old.line self.new.line
            (jobs_in S.tree S.members S.entries self.old.pending.items)
            (jobs_in S.tree S.members S.entries self.new.pending.items)
            (value_job place level (table (S.entries ahead)))) }
    {
        let Some(next) = S::next_entry(&mut ahead) else {
            self.line.push_str(":table{}")?;
            return push_end(&mut self.line, place);
        };
        let (key, value) = next;
        self.line.push_str("{")?;
        self.put(Task::Entries(ahead, level, place))?;
        self.put(Task::Entry(key, value, deeper(level)))
    }

    /// Writes a resource, or begins it and puts the rest of it.
    fn push_value(&mut self, shown: S, place: Place, level: usize) -> Result<(), AllocError>
        ensures { OnOk result (DoesJob F.spelling self.old.line self.new.line
            (jobs_in S.tree S.members S.entries self.old.pending.items)
            (jobs_in S.tree S.members S.entries self.new.pending.items)
            (value_job place level (S.tree shown))) }
    {
        match shown.node() {
            Node::String => self.push_string(shown, place),
            Node::Alias => self.push_alias(shown, place),
            Node::Array(members) => self.begin_array(members, place, level),
            Node::Table(entries) => self.begin_table(entries, place, level),
            Node::Binary(bytes) => {
                self.line.push_str(":bin{\"")?;
                self.put(Task::Digits(bytes, place))
            }
            Node::Integer(number) => push_integer(&mut self.line, place, u32::from(number)),
            Node::IntVector => {
                self.line.push_str(":intvector{")?;
                self.put(Task::Numbers(shown, 0, place))
            }
        }
    }

    /// Puts the next entry of a table, or writes its end.
    fn step_entries(
        &mut self,
        mut ahead: S::Entries,
        level: usize,
        place: Place,
    ) -> Result<(), AllocError>
        ensures { OnOk result (DoesJob F.spelling self.old.line self.new.line
            (jobs_in S.tree S.members S.entries self.old.pending.items)
            (jobs_in S.tree S.members S.entries self.new.pending.items)
            (entries_job place level (S.entries ahead))) }
    {
        let Some(next) = S::next_entry(&mut ahead) else {
            return self.push_close(level, place);
        };
        let (key, value) = next;
        self.put(Task::Entries(ahead, level, place))?;
        self.put(Task::Entry(key, value, deeper(level)))
    }

    /// Puts the next member of an array, or writes its end.
    fn step_members(
        &mut self,
        mut ahead: S::Members,
        level: usize,
        place: Place,
    ) -> Result<(), AllocError>
        ensures { OnOk result (DoesJob F.spelling self.old.line self.new.line
            (jobs_in S.tree S.members S.entries self.old.pending.items)
            (jobs_in S.tree S.members S.entries self.new.pending.items)
            (members_job place level (S.members ahead))) }
    {
        let Some(member) = S::next_member(&mut ahead) else {
            return self.push_close(level, place);
        };
        self.put(Task::Members(ahead, level, place))?;
        self.put(Task::Member(member, deeper(level)))
    }

    /// Writes the number of a vector at this place, or the vector's end.
    fn step_numbers(&mut self, vector: S, at: usize, place: Place) -> Result<(), AllocError>
        ensures { OnOk result (DoesJob F.spelling self.old.line self.new.line
            (jobs_in S.tree S.members S.entries self.old.pending.items)
            (jobs_in S.tree S.members S.entries self.new.pending.items)
            (numbers_job place (nat_lt 0 at) (drop at (numbers_in (S.tree vector))))) }
    {
        let Some(number) = vector.number(at) else {
            self.line.push_str("}")?;
            return push_end(&mut self.line, place);
        };
        push_comma(&mut self.line, at > 0)?;
        push_number(&mut self.line, number)?;
        self.put(Task::Numbers(vector, at + 1, place))
    }

    /// Writes the digits of the next bytes of a binary, or its end.
    fn step_digits(&mut self, bytes: &'s [u8], place: Place) -> Result<(), AllocError>
        ensures { OnOk result (DoesJob F.spelling self.old.line self.new.line
            (jobs_in S.tree S.members S.entries self.old.pending.items)
            (jobs_in S.tree S.members S.entries self.new.pending.items)
            (digits_job place bytes.now)) }
    {
        if bytes.is_empty() {
            self.line.push_str("\"}")?;
            return push_end(&mut self.line, place);
        }
        let (next, rest) = bytes.split_at(bytes.len().min(DIGITS_AT_ONCE));
        let alloc = *self.pending.allocator();
        push_digits(alloc, &mut self.line, next)?;
        self.put(Task::Digits(rest, place))
    }

    /// Writes the end of a collection on a line of its own.
    fn push_close(&mut self, level: usize, place: Place) -> Result<(), AllocError>
        ensures written { OnOk result
            (Appends self.old.line self.new.line (lines.end_line_on level place)) }
        ensures kept { self.new.pending ≡ self.old.pending }
    {
        push_line(&mut self.line, level)?;
        self.line.push_str("}")?;
        push_end(&mut self.line, place)
    }

    /// Writes a bundle's name, its root's type and the `{` of its root.
    fn push_head(&mut self, name: &str, fallback: bool) -> Result<(), AllocError>
        ensures { OnOk result (DoesJob F.spelling self.old.line self.new.line
            (jobs_in S.tree S.members S.entries self.old.pending.items)
            (jobs_in S.tree S.members S.entries self.new.pending.items)
            (head_job name.now fallback)) }
    {
        self.form.push_name(&mut self.line, name)?;
        push_root_type(&mut self.line, fallback)?;
        self.line.push_str("{")
    }

    /// Writes an entry, or begins it and puts the rest of it.
    fn push_entry(&mut self, key: &str, value: S, level: usize) -> Result<(), AllocError>
        ensures { OnOk result (DoesJob F.spelling self.old.line self.new.line
            (jobs_in S.tree S.members S.entries self.old.pending.items)
            (jobs_in S.tree S.members S.entries self.new.pending.items)
            (entry_job level key.now (S.tree value))) }
    {
        push_line(&mut self.line, level)?;
        self.form.push_key(&mut self.line, key)?;
        self.push_value(value, Place::InTable, level)
    }

    /// Writes a member, or begins it and puts the rest of it.
    fn push_member(&mut self, member: S, level: usize) -> Result<(), AllocError>
        ensures { OnOk result (DoesJob F.spelling self.old.line self.new.line
            (jobs_in S.tree S.members S.entries self.old.pending.items)
            (jobs_in S.tree S.members S.entries self.new.pending.items)
            (member_job level (S.tree member))) }
    {
        push_line(&mut self.line, level)?;
        self.push_value(member, Place::InArray, level)
    }

    /// Does a task, and puts what it leaves.
    fn step(&mut self, task: Task<'s, S, S::Members, S::Entries>) -> Result<(), AllocError>
        ensures { OnOk result (DoesJob F.spelling self.old.line self.new.line
            (jobs_in S.tree S.members S.entries self.old.pending.items)
            (jobs_in S.tree S.members S.entries self.new.pending.items)
            (job_of S.tree S.members S.entries task.entry)) }
    {
        match task {
            Task::Head(name, fallback) => self.push_head(name, fallback),
            Task::Entry(key, value, level) => self.push_entry(key, value, level),
            Task::Member(member, level) => self.push_member(member, level),
            Task::Entries(ahead, level, place) => self.step_entries(ahead, level, place),
            Task::Members(ahead, level, place) => self.step_members(ahead, level, place),
            Task::Numbers(vector, at, place) => self.step_numbers(vector, at, place),
            Task::Digits(bytes, place) => self.step_digits(bytes, place),
            Task::LineFeed => self.line.push_str("\n"),
        }
    }
}

impl<'s, F: Form, S: Shown<'s>> Blocks for LinesText<'s, F, S, S::Members, S::Entries> {
    ghost ahead = { λ t. all_on F.spelling (jobs_in S.tree S.members S.entries t.pending.items) };

    ghost left = { λ t. turns_of (jobs_in S.tree S.members S.entries t.pending.items) };

    fn push_block(&mut self, block: &mut Vec<u8>) -> Result<bool, AllocError> {
        self.line.clear();
        while let Some(task) = self.pending.pop() {
            self.step(task)?;
            if self.line.len() >= BLOCK_LEN {
                block.extend_from_slice(self.line.as_bytes())?;
                return Ok(true);
            }
        }
        block.extend_from_slice(self.line.as_bytes())?;
        Ok(false)
    }
}
