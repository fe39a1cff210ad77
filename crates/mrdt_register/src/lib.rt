//! Registers: one that keeps the last of its writes, and one that keeps each write that no other has seen.
#![tactic(auto)]

pub mod lww;
pub mod multi;
pub mod op;

pub use lww::{Lww, LwwQuery};
pub use multi::{Multi, MultiQuery};
pub use op::RegisterOp;
