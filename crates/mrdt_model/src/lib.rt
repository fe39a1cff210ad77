//! What a mergeable replicated data type is, and the laws that it keeps.
//!
//! A value of such a type stands for an execution: a list of events, each an operation with its reply, its
//! time and the times of the events that it has seen. Its queries and its merge of two values over a common
//! base are specified over executions alone, in the manner of Soundarapandian et al., "Certified mergeable
//! replicated data types" (PLDI 2022), for the merges of Kaki et al., "Mergeable replicated data types"
//! (OOPSLA 2019).
#![tactic(auto)]

pub mod bytes;
pub mod errors;
pub mod listing;
pub mod mrdt;
pub mod shared;
pub mod time;

pub use bytes::Bytes;
pub use errors::{Memory, Unread};
pub use listing::Listing;
pub use mrdt::Mrdt;
pub use shared::Shared;
pub use time::Time;
