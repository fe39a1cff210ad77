//! What the commits of a history did, as lines, and as a graph. Nothing here changes a history, and all that it takes is
//! some bytes for each commit.
#![tactic(auto)]

pub mod graph;
pub mod log;
mod marks;
mod pieces;
mod reading;

pub use graph::{put_branch, put_commits};
pub use log::put_log;
