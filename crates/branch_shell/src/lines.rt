// How many lines of a script were run.
use branch_progress::{Listener, Progress};

/// How many lines were run.
#[derive(Clone, Copy, Debug, PartialEq, Eq)]
pub(crate) struct LineCount {
    lines: u64,
}

impl LineCount {
    /// None yet.
    pub(crate) fn new() -> LineCount {
        LineCount { lines: 0 }
    }

    /// Counts one more, and lets the listener hear how many there are.
    pub(crate) fn hear_next<L: Listener>(&mut self, listener: &mut L) {
        self.lines = self.lines.saturating_add(1);
        listener.hear(Progress::Lines { lines: self.lines });
    }
}
