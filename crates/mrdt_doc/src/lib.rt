//! The document of the store as a type of its own: a struct round the product of maps, so that what stands above meets
//! one type and not the nested pairs. Its operations, queries, replies and answers have plain forms.
#![tactic(auto)]

pub mod doc;
pub mod forms;

pub use doc::Doc;
