//! The plain forms of operations, queries, replies and answers, the types that have them, and the typed document of the
//! store: a map for each of seven mergeable types.
#![tactic(auto)]

mod copies;
pub mod doc;
pub mod doc_forms;
pub mod laws;
pub mod plain;
mod sides;
pub mod types;

pub use doc::{DocAnswer, DocOp, DocQuery, DocReply, Product};
pub use doc_forms::{answer, op, query, reply};
pub use plain::{Kind, PlainAnswer, PlainOp, PlainQuery, PlainReply};
pub use types::Forms;
