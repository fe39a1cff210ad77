//! A history without what its branches need no more: which moves stay, what stays the same, and how it is made.
//!
//! The rules stand in `specs/`, the laws over them are the contracts of the functions of `laws`.
#![tactic(auto)]

mod kept;
pub mod laws;
mod making;
mod marks;
mod reading;

pub use kept::commits_made;
pub use making::{compact, compact_marked, graph_of_moves, live_commits};
pub use marks::mark_reached;
