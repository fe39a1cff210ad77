//! The words of kinds and of operations, as the lines of scripts say them.
#![tactic(auto)]

pub mod words;

pub use words::{kind_word, put_op};
