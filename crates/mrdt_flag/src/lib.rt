//! A flag that merges: it is on where some Enable has been seen by no Disable.
#![tactic(auto)]

pub mod flag;

pub use flag::{Flag, FlagOp, FlagQuery};
