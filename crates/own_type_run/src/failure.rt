// Why the program ends early.
use branch_names::BadName;
use mrdt_model::Memory;
use std::io;
use store_core::{
    ForkRefused, InitRefused, LandRefused, LookRefused, OpenRefused, PairPrepareRefused,
    PairRefused, PrepareRefused,
};
use thiserror::Error;

/// Why the program ends early: the call that was refused, and why.
#[derive(Debug, Drop, Error)]
pub enum Failure {
    /// The terms are out of range.
    #[error("a store has no such terms")]
    Terms,
    /// No store was made.
    #[error("no store was made: {0}")]
    Init(#[from] InitRefused),
    /// The store was not opened.
    #[error("the store was not opened: {0}")]
    Open(#[from] OpenRefused),
    /// The bytes are no name of a branch.
    #[error("no branch: {0}")]
    Name(#[from] BadName),
    /// A branch was not looked at.
    #[error("nothing was seen: {0}")]
    Look(#[from] LookRefused),
    /// No branch was forked.
    #[error("nothing was forked: {0}")]
    Fork(#[from] ForkRefused),
    /// The board has no such candidate.
    #[error("there is no candidate {0}")]
    Candidate(usize),
    /// No operation was prepared.
    #[error("no operation was made: {0}")]
    Prepare(#[from] PrepareRefused),
    /// A branch was not paired with another.
    #[error("there is nothing to merge: {0}")]
    Pair(#[from] PairRefused),
    /// No merge was prepared.
    #[error("no merge was made: {0}")]
    Merge(#[from] PairPrepareRefused),
    /// Nothing landed.
    #[error("nothing landed: {0}")]
    Land(#[from] LandRefused),
    /// Want of memory.
    #[error(transparent)]
    Memory(#[from] Memory),
    /// A line was not printed.
    #[error("nothing was printed: {0}")]
    Print(#[from] io::Error),
}

impl Failure {
    /// The status that the program ends with: 2 where memory is short, 3 where a line was not printed, and 1 else.
    pub fn status(&self) -> u8 {
        match self {
            Failure::Memory(_) => 2,
            Failure::Print(_) => 3,
            _ => 1,
        }
    }
}
