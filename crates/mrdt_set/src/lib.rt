//! A set that merges: an element is in it where some Add of it has been seen by no Remove of it and by no
//! Clear.
#![tactic(auto)]

mod members;
mod same;
pub mod set;
mod slot;
mod spelled;
mod table;

pub use set::{Set, SetAnswer, SetOp, SetQuery};
