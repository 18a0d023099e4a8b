//! How much a task adds to a text at least, which is looked at before it is done.
//! What it adds is said in `text`.
ghost use Rattle.std.specs.Prelude.{◌≡◌, ◌<◌, ◌≤◌, ◌+◌, ◌^◌, false, length};
ghost use Rattle.resb_shown.specs.Shown.{text_in};
ghost use Rattle.resb_lines.specs.Inner.Jobs.{job_of};
ghost use Rattle.resb_lines.specs.Inner.Room.{job_least};

use crate::task::Task;
use resb_shown::Shown;

/// The bytes of a string or of an alias's path, where it stands as it is, or none.
fn ready_len<'s, S: Shown<'s>>(shown: S) -> u128
    ensures least { result ≤ length (text_in (S.tree shown)) }
    ensures small { result ≤ 2 ^ 64 }
{
    match shown.text() {
        Some(text) => text.len() as u128,
        None => 0,
    }
}

/// The bytes that a task adds to a text at least: those of its key and of its string or path, and
/// two for each byte of its binary.
fn least_of<'s, S: Shown<'s>>(task: &Task<'s, S, S::Members, S::Entries>) -> u128
    ensures least { result ≤ job_least (job_of S.tree S.members S.entries task.now) }
    ensures small { result ≤ 2 ^ 66 }
{
    match task {
        Task::Entry(key, value, _) => key.len() as u128 + ready_len(*value),
        Task::Member(member, _) => ready_len(*member),
        Task::Digits(bytes, _) => 2 * bytes.len() as u128,
        _ => 0,
    }
}

/// Whether a text of so many bytes may be within the limit with what a task adds to it.
pub(crate) fn has_room<'s, S: Shown<'s>>(
    written: usize,
    task: &Task<'s, S, S::Members, S::Entries>,
    limit: u64,
) -> bool
    ensures { result ≡ false
        → limit < written + job_least (job_of S.tree S.members S.entries task.now) }
{
    written as u128 + least_of::<S>(task) <= u128::from(limit)
}
