//! One store for many threads: a core under a lock, and a front that says how much of its history each caller has seen.
//!
//! A caller carries a `Pass`. What it looks at, pairs, groups, lands, forks or drops stands in the one history of all callers, of
//! which its pass has seen a beginning. Only these calls wait for the lock; what computes is done outside, on what a
//! look gave.
#![tactic(auto)]

mod batch;
mod blank;
mod job;
mod kept;
mod name;
mod pass;
mod room;
mod rounds;
mod shared;
mod spelled;

pub use blank::Blank;
pub use name::Named;
pub use pass::Pass;
pub use shared::{Closed, Shared};
