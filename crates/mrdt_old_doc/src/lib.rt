//! The document of version 1 of the store's files, whose counters are sums and whose sets have no Clear, and what its
//! operations are renewed to in today's document.
#![tactic(auto)]

pub mod doc;
pub mod elements;
pub mod laws;
pub mod operations;

pub use doc::{Doc1, OldDocOp, OldProduct};
pub use elements::{Elements, ElementsOp};
pub use laws::renews_documents;
pub use operations::renewed;
