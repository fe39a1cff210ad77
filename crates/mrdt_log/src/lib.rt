//! A log: payloads that are only appended, each with its time.
#![tactic(auto)]

pub mod log;

pub use log::{Log, LogAnswer, LogOp, LogQuery};
