//! What a program reads from and writes to: a source and a sink of bytes, each with a count of its faults.
//!
//! A source or a sink may tell what it holds, as those in memory do; those over a reader or a writer of std
//! tell what std tells of these, which of the standard streams is nothing. A call fails only where the count
//! of faults of that source or sink rose in the call, or stands at its last value, 2^64 - 1.
#![tactic(auto)]

mod faults;
mod memory;
mod sink;
mod source;
mod standard;

pub use faults::Faults;
pub use memory::{MemorySink, MemorySource};
pub use sink::{Sink, SinkFailed};
pub use source::{Source, SourceFailed};
pub use standard::{ReadSource, WriteSink};
