//! The graph of a store's commits: what each commit reaches, and the maximal common ancestors of two lists of
//! commits.
#![tactic(auto)]

pub mod graph;
pub mod laws;
mod parents;
mod waiting;
mod walk;

pub use graph::{Graph, PushRefused};
