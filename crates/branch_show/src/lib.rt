//! A document as text: of each of its keys what it answers, as lines, and as one JSON object.
#![tactic(auto)]

pub mod asked;
pub mod document;
pub mod json;
mod json_answers;
mod json_words;
mod kinds;

pub use asked::Asked;
pub use document::put_document;
pub use json::put_json;
