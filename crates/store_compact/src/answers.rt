// What compacting a store answers.
use thiserror::Error;

/// Which of two disks is current.
#[derive(Clone, Copy, Debug, PartialEq, Eq)]
pub enum Which {
    /// The first.
    First,
    /// The second.
    Second,
}

/// How many moves a compact history has, and how many the history had.
#[derive(Clone, Copy, Debug, PartialEq, Eq)]
pub struct Compacted {
    /// The moves that were kept.
    pub kept: u64,
    /// All moves.
    pub moves: u64,
}

/// Why a store is not compacted.
#[derive(Clone, Copy, Debug, PartialEq, Eq, Error)]
pub enum CompactRefused {
    /// A disk failed.
    #[error("a disk failed")]
    DiskFault,
    /// Want of memory.
    #[error("out of memory")]
    Memory,
}
