//! The texts of replies, reports and summaries, each a line, written at the end of a list of bytes.
//!
//! After want of memory a first part of the text may have been written.
#![tactic(auto)]

pub mod clients;
pub mod laws;
pub mod pieces;
pub mod refusals;
pub mod replies;
pub mod reports;
pub mod sent;
pub mod summaries;
