//! The line of progress on standard error: how many of the files are done.
//! It is shown on a terminal alone, and once the work has taken a second.
use std::fs;
use std::time::{Duration, Instant};

/// How many files there are, and how many of them are done.
#[derive(Clone, Copy)]
pub(crate) struct Progress {
    total: usize,
    done: usize,
    /// When the work began, where the line may be shown.
    begun: Option<Instant>,
}

impl Progress {
    /// No file is done yet. The line is never shown for one file.
    pub(crate) fn new(rt: &HostRuntime, total: usize) -> Progress {
        let begun = if total > 1 && is_terminal(rt) {
            Instant::now(rt).ok()
        } else {
            None
        };
        Progress {
            total,
            done: 0,
            begun,
        }
    }

    /// One file more is done. The line leaves the mark where it begins, so that what is said next
    /// takes its place.
    pub(crate) fn one_more(&mut self, rt: &HostRuntime) {
        self.done = self.done.saturating_add(1);
        if self.is_due(rt) {
            let Progress { total, done, .. } = *self;
            let _ = eprint!(rt; "\r\x1b[K{done} of {total} files\r");
        }
    }

    /// Takes the line away.
    pub(crate) fn end(&self, rt: &HostRuntime) {
        if self.is_due(rt) {
            let _ = eprint!(rt; "\x1b[K");
        }
    }

    /// Whether the work has taken a second, where the line may be shown.
    fn is_due(&self, rt: &HostRuntime) -> bool {
        match self.begun {
            Some(begun) => match begun.elapsed(rt) {
                Ok(passed) => passed >= Duration::from_secs(1),
                Err(_) => false,
            },
            None => false,
        }
    }
}

/// Whether standard error is a terminal, by the name of what is open there.
fn is_terminal(rt: &HostRuntime) -> bool {
    match fs::read_link(rt, "/proc/self/fd/2") {
        Ok(name) => {
            let name = name.as_path().as_str();
            name.starts_with("/dev/pts/") || name.starts_with("/dev/tty")
        }
        Err(_) => false,
    }
}
