//! The document with sequences: a document beside a map of sequences, as a type of its own. Its operations, queries,
//! replies and answers have plain forms.
#![tactic(auto)]

pub mod forms;
pub mod wide;

pub use wide::{Wide, WideAnswer, WideOp, WideProduct, WideQuery, WideReply};
