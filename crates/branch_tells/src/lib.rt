//! The types of values of which a history can tell what its commits do: the plain forms of operations and replies that
//! are kept.
#![tactic(auto)]

mod doc;
pub mod tells;
mod wide;

pub use tells::Tells;
