//! Payloads by time that merge: those that no operation has hidden.
//!
//! An operation may put a payload at its time, and it may hide all the payloads that it has seen: one that does
//! both replaces them by its own. So what two sides of a merge have kept or put is kept, and what one side has
//! hidden and the other only kept is dropped. Flags, registers of several values, sets and logs are made of this.
#![tactic(auto)]

pub mod kept;
pub mod laws;
pub mod live;
pub mod payload;
pub mod spelled;
pub mod texts;
pub mod unit_reply;
mod walk;

pub use kept::Kept;
pub use live::Live;
pub use payload::{Payload, shared_text, whole_text};
