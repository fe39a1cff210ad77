//! Clients of generated work: each does the drawn steps of its number, and all share one store.
//!
//! A core goes in and comes back, with the moves of all clients behind its history. What is said of the clients is
//! said elsewhere: here are their outcomes, and no texts.
#![tactic(auto)]

mod run;
mod scripts;
mod share;

pub use run::{Work, run_on};
pub use share::Finished;
