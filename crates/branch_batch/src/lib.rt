//! A queue of jobs behind a lock of its own, with a ticket for each.
//!
//! A caller puts a job and gets a ticket. Whoever works takes the first jobs of the queue, at most 64 at once, and gives each
//! result back under its job's number. The ticket's holder takes the result out. What a job and a result are, and which
//! results serve a job, is said by a `Service`.
#![tactic(auto)]

mod line;
mod queue;
mod service;
mod slot;
mod ticket;

pub use queue::{Blank, Queue};
pub use service::Service;
pub use ticket::{Finished, Stub, Ticket, Waiting};
