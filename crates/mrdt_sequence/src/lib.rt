//! A sequence of payloads that two sides may edit at once, in the manner of a replicated growable array (Roh et
//! al., "Replicated abstract data types: building blocks for collaborative applications", JPDC 71, 2011).
//!
//! Each insert goes behind an item that it has seen, and of inserts behind one item the newer one comes
//! first. What either side has deleted is gone from their merge.
//!
//! The nodes stand in a list whose versions share what they have in common. An insert and a delete take steps and
//! memory that grow as the logarithm of the number of nodes, and an insert a step for each newer node that it passes;
//! the length and a copy take no memory, and a merge walks both sides and takes memory for what differs alone.
#![tactic(auto)]

mod compare;
mod edit;
mod entry;
pub mod laws;
pub mod node;
mod nodes;
pub mod op;
mod reading;
pub mod sequence;
mod spelling;
mod walk;

pub use node::Node;
pub use op::{SequenceAnswer, SequenceOp, SequenceQuery};
pub use sequence::Sequence;
