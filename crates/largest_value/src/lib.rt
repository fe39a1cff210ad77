//! A register of the largest value: it has the greatest of the numbers that were set, and none where none was.
#![tactic(auto)]

pub mod register;

pub use register::{Largest, Raise};
