// Why a case does not pass.
use std::alloc::{AllocError, AllocFailed};

/// Why a case does not pass. Lines are counted from 1.
#[derive(Debug, Drop)]
pub enum Failure {
    /// The line is none of the form.
    Malformed { line: usize, why: &'static str },
    /// What came is not what the line wants.
    Differs { line: usize, how: String },
    /// Want of memory.
    Memory,
}

impl From<AllocError> for Failure {
    fn from(_: AllocError) -> Failure {
        Failure::Memory
    }
}

impl<T: Drop> From<AllocFailed<T>> for Failure {
    fn from(_: AllocFailed<T>) -> Failure {
        Failure::Memory
    }
}
