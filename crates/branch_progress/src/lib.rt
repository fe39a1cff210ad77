//! How far a run has come, and who hears of it.
//!
//! A call that is lent a listener lets it hear of each step that it counts. No clause speaks of what the listener makes of
//! that; whatever it does, the clauses of the call hold.
#![tactic(auto)]

/// How far a run has come.
#[derive(Clone, Copy, Debug, PartialEq, Eq)]
pub enum Progress {
    /// So many of the records of a store were read back.
    Opened { records: u64, of: u64 },
    /// So many lines were run.
    Lines { lines: u64 },
    /// So many items of a bundle were received, or were here already.
    Received { items: u64, of: u64 },
}

/// Who hears how far a run has come.
pub trait Listener {
    /// Hears of one step. It returns, and answers nothing.
    fn hear(&mut self, progress: Progress);
}

/// A listener that hears nothing.
#[derive(Clone, Copy, Debug, PartialEq, Eq)]
pub struct NoListener;

impl Listener for NoListener {
    fn hear(&mut self, _progress: Progress) {}
}
