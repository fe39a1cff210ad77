//! A queue that gives each payload to at least one dequeue.
//!
//! Two sides that have not seen one another may both dequeue a payload; what either has dequeued is gone from
//! their merge.
#![tactic(auto)]

pub mod op;
pub mod queue;
mod spelling;

pub use op::{QueueAnswer, QueueOp, QueueQuery, QueueReply};
pub use queue::Queue;
