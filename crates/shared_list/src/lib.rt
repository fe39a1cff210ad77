//! Lists whose versions share what they have in common.
//!
//! A list is a tree of shared nodes without keys, whose leaves are all at one depth. A change copies the nodes on the
//! way to its place, and shares all others with the version that it was made from.
#![tactic(auto)]

pub mod build;
pub mod list;
mod tree;
pub mod walk;

pub use build::{Builder, from_vec};
pub use list::{Probe, SharedList};
pub use tree::Entry;
pub use walk::Walk;
